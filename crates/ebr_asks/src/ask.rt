//! Asks.

use ebr_ast::{Definition, SqlTree};
use ebr_base::{Bytes, CloneIn, List, Name, NoMemory, Shared, Value};
use std::alloc::Global;

/// A request of a session, or of a trigger's body. A session's ask is one step of the edition machine.
#[derive(Drop)]
pub enum Ask {
    /// A call begins.
    Begin,
    /// A statement that reads or changes rows, the values of its binds, and how many steps the triggers that it fires may
    /// take: at most 1,000,000.
    Sql {
        stmt: Shared<SqlTree>,
        binds: Shared<List<Value>>,
        left: u32,
    },
    Commit,
    Rollback,
    Savepoint(Name),
    /// `ROLLBACK TO SAVEPOINT n`.
    BackTo(Name),
    /// A definition; `text` is the stored text of the object that it creates, and empty where it creates none.
    Ddl {
        what: Shared<Definition>,
        text: Shared<Bytes>,
    },
    /// The session's edition is to be this one.
    SetEdition(Name),
    /// An autonomous transaction begins.
    PushAuto,
    /// An autonomous transaction ends; it failed where an exception left its unit.
    PopAuto {
        failed: bool,
    },
    /// The call ends.
    EndCall {
        failed: bool,
    },
    /// The session ends.
    Leave,
}

impl CloneIn for Ask {
    fn clone_in(&self, alloc: Global) -> Result<Ask, NoMemory> {
        match self {
            Ask::Begin => Ok(Ask::Begin),
            Ask::Sql { stmt, binds, left } => {
                let binds = binds.clone_in(alloc)?;
                let stmt = stmt.clone_in(alloc)?;
                Ok(Ask::Sql {
                    stmt,
                    binds,
                    left: *left,
                })
            }
            Ask::Commit => Ok(Ask::Commit),
            Ask::Rollback => Ok(Ask::Rollback),
            Ask::Savepoint(name) => Ok(Ask::Savepoint(name.clone_in(alloc)?)),
            Ask::BackTo(name) => Ok(Ask::BackTo(name.clone_in(alloc)?)),
            Ask::Ddl { what, text } => {
                let text = text.clone_in(alloc)?;
                let what = what.clone_in(alloc)?;
                Ok(Ask::Ddl { what, text })
            }
            Ask::SetEdition(name) => Ok(Ask::SetEdition(name.clone_in(alloc)?)),
            Ask::PushAuto => Ok(Ask::PushAuto),
            Ask::PopAuto { failed } => Ok(Ask::PopAuto { failed: *failed }),
            Ask::EndCall { failed } => Ok(Ask::EndCall { failed: *failed }),
            Ask::Leave => Ok(Ask::Leave),
        }
    }
}
