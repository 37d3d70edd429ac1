//! Answers.

use ebr_ast::EditionView;
use ebr_base::{Bytes, CloneIn, Code, List, NoMemory, Shared, Value};
use std::alloc::Global;

/// What the engine answers.
#[derive(Drop)]
pub enum Answer {
    /// All that the session's edition sees.
    View(Shared<EditionView>),
    /// The rows of a query.
    Rows(Shared<List<List<Value>>>),
    /// How many rows a statement changed, with the steps taken and the lines printed by the bodies of triggers.
    Count {
        n: u64,
        steps: u32,
        lines: List<Shared<Bytes>>,
    },
    Done,
    /// A definition was carried out, but the unit or trigger that it created isn't valid in the session's edition.
    Invalid,
    /// A refusal, with the steps taken and the lines printed by the bodies of triggers.
    Refused {
        code: Code,
        steps: u32,
        lines: List<Shared<Bytes>>,
    },
    /// The journal's disk failed.
    DiskFault,
    /// There was no memory for the ask.
    NoMemory,
    /// An earlier ask met a fault of the disk or found no memory.
    Stopped,
}

impl CloneIn for Answer {
    fn clone_in(&self, alloc: Global) -> Result<Answer, NoMemory> {
        match self {
            Answer::View(view) => Ok(Answer::View(view.clone_in(alloc)?)),
            Answer::Rows(rows) => Ok(Answer::Rows(rows.clone_in(alloc)?)),
            Answer::Count { n, steps, lines } => Ok(Answer::Count {
                n: *n,
                steps: *steps,
                lines: lines.clone_in(alloc)?,
            }),
            Answer::Done => Ok(Answer::Done),
            Answer::Invalid => Ok(Answer::Invalid),
            Answer::Refused { code, steps, lines } => Ok(Answer::Refused {
                code: *code,
                steps: *steps,
                lines: lines.clone_in(alloc)?,
            }),
            Answer::DiskFault => Ok(Answer::DiskFault),
            Answer::NoMemory => Ok(Answer::NoMemory),
            Answer::Stopped => Ok(Answer::Stopped),
        }
    }
}
