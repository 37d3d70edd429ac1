//! What a database leaves for ever.

ghost use Rattle.std.specs.Prelude.{◌≡◌, IfOk};
ghost use Rattle.ebr_record.specs.declared.record.Record.TheVariants as made;

use ebr_base::{
    Bytes, Change, CloneIn, Column, EditionNo, List, Name, NoMemory, Shared, TableId, both,
};
use std::alloc::Global;

/// What one commit or one definition leaves. The state of a database is read off its records in order.
#[derive(Drop)]
pub enum Record {
    /// A transaction was committed with these changes, in their order.
    Commit(List<Change>),
    /// An edition was made, as the child of another one. Its number is one more than that of the edition made before.
    Edition {
        name: Name,
        parent: EditionNo,
    },
    /// An edition was dropped, and its objects with it.
    EditionGone(EditionNo),
    /// An edition was made the default.
    Default(EditionNo),
    /// An object was made, replaced or altered. Its key and its tree are those of the text that created it.
    Object {
        edition: EditionNo,
        enabled: bool,
        text: Shared<Bytes>,
    },
    /// An object was dropped.
    Gone {
        edition: EditionNo,
        class: DroppedClass,
        name: Name,
    },
    /// A table was made. Its id is one more than that of the table made before.
    Table {
        name: Name,
        columns: List<Column>,
        /// The places in `columns`, counted from 0, of the primary key's columns in its order; none without one.
        key: List<u16>,
    },
    /// A table got one more column, which goes last.
    Column {
        table: TableId,
        column: Column,
    },
    /// A table was dropped.
    TableGone(TableId),
}

/// What a drop takes.
#[derive(Clone, Copy)]
pub enum DroppedClass {
    /// A procedure, a function or an editioning view.
    Unit,
    /// A package body.
    Body,
    /// A trigger.
    Trigger,
    /// A package, and its body where that is visible.
    Package,
}

impl CloneIn for Record {
    fn clone_in(&self, alloc: Global) -> Result<Record, NoMemory> {
        match self {
            Record::Commit(changes) => Ok(Record::Commit(changes.clone_in(alloc)?)),
            Record::Edition { name, parent } => Ok(Record::Edition {
                name: name.clone_in(alloc)?,
                parent: *parent,
            }),
            Record::EditionGone(edition) => Ok(Record::EditionGone(*edition)),
            Record::Default(edition) => Ok(Record::Default(*edition)),
            Record::Object {
                edition,
                enabled,
                text,
            } => Ok(Record::Object {
                edition: *edition,
                enabled: *enabled,
                text: text.clone_in(alloc)?,
            }),
            Record::Gone {
                edition,
                class,
                name,
            } => Ok(Record::Gone {
                edition: *edition,
                class: *class,
                name: name.clone_in(alloc)?,
            }),
            Record::Table { name, columns, key } => table_copy(alloc, name, columns, key),
            Record::Column { table, column } => Ok(Record::Column {
                table: *table,
                column: column.clone_in(alloc)?,
            }),
            Record::TableGone(table) => Ok(Record::TableGone(*table)),
        }
    }
}

/// The record of a table with copies of its parts.
fn table_copy(
    alloc: Global,
    name: &Name,
    columns: &List<Column>,
    key: &List<u16>,
) -> Result<Record, NoMemory>
    ensures { IfOk result (λ r. r ≡ made.Table name.now columns.now key.now) }
{
    let key = key.clone_in(alloc)?;
    let (name, columns) = both(alloc, name, columns)?;
    Ok(Record::Table { name, columns, key })
}
