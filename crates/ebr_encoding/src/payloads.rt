//! Records to bytes.

ghost use Rattle.std.specs.Prelude.{◌≡◌, ◌++◌, ◌+◌, ◌<◌, ◌≤◌, ◌^◌, length, OnOk};
ghost use Rattle.ebr_record.specs.declared.record.Record.TheVariants as made;
ghost use Rattle.ebr_record.specs.Payload.{HasPayload, max_payload, payload};
ghost use Rattle.ebr_encoding.specs.Spelled.{IsSpelled};
ghost use Rattle.ebr_encoding.specs.inside.Fits.{FitsChanges};
ghost use Rattle.ebr_encoding.specs.inside.Written.{IsRecordWritten};

use crate::writable::Writable;
use crate::writer::{class_number, write_all, write_name, write_text};
use ebr_base::{Bytes, Change, Column, EditionNo, List, Name, NoMemory, TableId};
use ebr_record::{DroppedClass, Record};

/// Writes a record's payload behind the bytes that are there. Where there is no memory a part of it may be written.
pub fn encode(r: &Record, into: &mut Bytes) -> Result<(), NoMemory>
    requires { HasPayload r.now }
    ensures bytes { OnOk result (into.new ≡ into.old ++ payload r.now) }
    ensures length { OnOk result (length into.new ≡ length into.old + length (payload r.now)) }
    ensures spelled { OnOk result (IsSpelled r.now) }
{
    write(r, into)?;
    Ok(())
}

fn write(r: &Record, into: &mut Bytes) -> Result<(), NoMemory>
    requires { HasPayload r.now }
    ensures { OnOk result (IsRecordWritten r.now into.old into.new) }
{
    match r {
        Record::Commit(changes) => write_commit(changes, into),
        Record::Edition { name, parent } => write_edition(name, *parent, into),
        Record::EditionGone(edition) => write_edition_gone(*edition, into),
        Record::Default(edition) => write_default(*edition, into),
        Record::Object {
            edition,
            enabled,
            text,
        } => write_object(*edition, *enabled, text.get(), into),
        Record::Gone {
            edition,
            class,
            name,
        } => write_gone(*edition, *class, name, into),
        Record::Table { name, columns, key } => write_table(name, columns, key, into),
        Record::Column { table, column } => write_column(*table, column, into),
        Record::TableGone(table) => write_table_gone(*table, into),
    }
}

fn write_commit(changes: &List<Change>, into: &mut Bytes) -> Result<(), NoMemory>
    requires { FitsChanges changes.now }
    ensures { OnOk result (IsRecordWritten (made.Commit changes.now) into.old into.new) }
{
    into.push(1)?;
    into.extend(&(changes.len() as u32).to_be_bytes())?;
    write_all(changes.as_slice(), into)?;
    Ok(())
}

fn write_edition(name: &Name, parent: EditionNo, into: &mut Bytes) -> Result<(), NoMemory>
    ensures { OnOk result (IsRecordWritten (made.Edition name.now parent) into.old into.new) }
{
    into.push(2)?;
    write_name(name, into)?;
    into.extend(&parent.0.to_be_bytes())?;
    Ok(())
}

fn write_edition_gone(edition: EditionNo, into: &mut Bytes) -> Result<(), NoMemory>
    ensures { OnOk result (IsRecordWritten (made.EditionGone edition) into.old into.new) }
{
    into.push(3)?;
    into.extend(&edition.0.to_be_bytes())?;
    Ok(())
}

fn write_default(edition: EditionNo, into: &mut Bytes) -> Result<(), NoMemory>
    ensures { OnOk result (IsRecordWritten (made.Default edition) into.old into.new) }
{
    into.push(4)?;
    into.extend(&edition.0.to_be_bytes())?;
    Ok(())
}

fn write_object(
    edition: EditionNo,
    enabled: bool,
    text: &Bytes,
    into: &mut Bytes,
) -> Result<(), NoMemory>
    requires { length text.now ≤ max_payload }
    ensures { OnOk result (IsRecordWritten (made.Object edition enabled text.now) into.old into.new) }
{
    into.push(5)?;
    into.extend(&edition.0.to_be_bytes())?;
    into.push(u8::from(enabled))?;
    write_text(text.as_slice(), into)?;
    Ok(())
}

fn write_gone(
    edition: EditionNo,
    class: DroppedClass,
    name: &Name,
    into: &mut Bytes,
) -> Result<(), NoMemory>
    ensures { OnOk result (IsRecordWritten (made.Gone edition class name.now) into.old into.new) }
{
    into.push(6)?;
    into.extend(&edition.0.to_be_bytes())?;
    into.push(class_number(class))?;
    write_name(name, into)?;
    Ok(())
}

fn write_table(
    name: &Name,
    columns: &List<Column>,
    key: &List<u16>,
    into: &mut Bytes,
) -> Result<(), NoMemory>
    requires columns { length columns.now < 2 ^ 16 }
    requires key { length key.now < 2 ^ 8 }
    ensures { OnOk result (IsRecordWritten (made.Table name.now columns.now key.now) into.old into.new) }
{
    into.push(7)?;
    write_name(name, into)?;
    into.extend(&(columns.len() as u16).to_be_bytes())?;
    write_all(columns.as_slice(), into)?;
    into.push(key.len() as u8)?;
    write_all(key.as_slice(), into)?;
    Ok(())
}

fn write_column(table: TableId, column: &Column, into: &mut Bytes) -> Result<(), NoMemory>
    ensures { OnOk result (IsRecordWritten (made.Column table column.now) into.old into.new) }
{
    into.push(8)?;
    into.extend(&table.0.to_be_bytes())?;
    column.write(into)?;
    Ok(())
}

fn write_table_gone(table: TableId, into: &mut Bytes) -> Result<(), NoMemory>
    ensures { OnOk result (IsRecordWritten (made.TableGone table) into.old into.new) }
{
    into.push(9)?;
    into.extend(&table.0.to_be_bytes())?;
    Ok(())
}
