//! The line of a record.

ghost use Rattle.std.specs.Prelude.{◌≡◌, ◌<◌, ◌∷◌, ◌++◌, codes, length, Some, OnOk};
ghost use Rattle.std.specs.Fmt.{decimal};
ghost use Rattle.ebr_base.specs.declared.numbers.TheConstants.{MAX_COUNT};
ghost use Rattle.ebr_record.specs.Payload.{HasPayload};
ghost use Rattle.ebr_cross.specs.Kinds as spec_kinds;
ghost use Rattle.ebr_script.specs.Pieces.{stored_definition};
ghost use Rattle.ebr_dump.specs.Dump as spec;
ghost use Rattle.ebr_dump.specs.Dump.{created, ended, kind_and_name, line_of, spaced};
ghost use Rattle.ebr_dump.specs.inside.Lent.{lent_names};

use crate::names::{edition_name, table_name};
use ebr_ast::{Definition, ObjectKind, UnitTree};
use ebr_base::{Bytes, Name, NoMemory};
use ebr_cross::{kind_of, name_of};
use ebr_record::{DroppedClass, Record};
use ebr_script::stored;
use itoa::Buffer;
use std::alloc::Global;

/// Adds the line of a record, with its end.
pub fn add_line(
    alloc: Global,
    text: &mut Bytes,
    editions: &[&Name],
    tables: &[&Name],
    r: &Record,
) -> Result<(), NoMemory>
    requires { HasPayload r.now }
    ensures { OnOk result (text.new ≡ text.old ++ ended (line_of (codes "ORA$BASE" ∷ lent_names editions.now) (lent_names tables.now) r.now)) }
{
    add_words(alloc, text, editions, tables, r)?;
    text.push(b'\n')
}

/// Adds the words of the line.
fn add_words(
    alloc: Global,
    text: &mut Bytes,
    editions: &[&Name],
    tables: &[&Name],
    r: &Record,
) -> Result<(), NoMemory>
    requires { HasPayload r.now }
    ensures { OnOk result (text.new ≡ text.old ++ line_of (codes "ORA$BASE" ∷ lent_names editions.now) (lent_names tables.now) r.now) }
{
    match r {
        Record::Commit(changes) => add_number(text, b"commit ", changes.len()),
        Record::Edition { name, .. } => add(text, b"edition ", name.as_slice()),
        Record::EditionGone(e) => add(text, b"drop edition ", edition_name(editions, *e)),
        Record::Default(e) => add(text, b"default ", edition_name(editions, *e)),
        Record::Object {
            edition,
            text: stored,
            ..
        } => {
            add_spaced(text, b"object ", edition_name(editions, *edition))?;
            add_created(alloc, text, stored.get().as_slice())
        }
        Record::Gone {
            edition,
            class,
            name,
        } => {
            add_spaced(text, b"gone ", edition_name(editions, *edition))?;
            add_spaced(text, class_word(*class), b"")?;
            text.extend(name.as_slice())
        }
        Record::Table { name, .. } => add(text, b"table ", name.as_slice()),
        Record::Column { table, column } => {
            add_spaced(text, b"column ", table_name(tables, *table))?;
            text.extend(column.name.as_slice())
        }
        Record::TableGone(table) => add(text, b"drop table ", table_name(tables, *table)),
    }
}

/// Adds two texts.
fn add(text: &mut Bytes, first: &[u8], second: &[u8]) -> Result<(), NoMemory>
    ensures { OnOk result (text.new ≡ text.old ++ (first.now ++ second.now)) }
{
    text.extend(first)?;
    text.extend(second)
}

/// Adds two texts and a blank.
fn add_spaced(text: &mut Bytes, first: &[u8], second: &[u8]) -> Result<(), NoMemory>
    ensures { OnOk result (text.new ≡ text.old ++ (first.now ++ (second.now ++ codes " "))) }
{
    add(text, first, second)?;
    text.push(b' ')
}

/// Adds a text and a number in decimal.
fn add_number(text: &mut Bytes, first: &[u8], number: usize) -> Result<(), NoMemory>
    ensures { OnOk result (text.new ≡ text.old ++ (first.now ++ decimal number)) }
{
    let mut buffer = Buffer::new();
    add(text, first, buffer.format(number).as_bytes())
}

/// Adds the kind and the name of what a stored text creates.
fn add_created(alloc: Global, text: &mut Bytes, stored_text: &[u8]) -> Result<(), NoMemory>
    requires { length stored_text.now < MAX_COUNT }
    ensures { OnOk result (text.new ≡ text.old ++ created (stored_definition stored_text.now)) }
{
    match stored(alloc, stored_text)? {
        Some(definition) => add_definition(text, &definition),
        None => Ok(()),
    }
}

/// Adds those of what a definition creates.
fn add_definition(text: &mut Bytes, definition: &Definition) -> Result<(), NoMemory>
    ensures { OnOk result (text.new ≡ text.old ++ created (Some definition.now)) }
{
    match definition {
        Definition::CreateObject { unit, .. } => add_unit(text, unit),
        _ => Ok(()),
    }
}

/// Adds those of a unit.
fn add_unit(text: &mut Bytes, unit: &UnitTree) -> Result<(), NoMemory>
    ensures { OnOk result (text.new ≡ text.old ++ kind_and_name (spec_kinds.kind_of unit.now) (spec_kinds.name_of unit.now)) }
{
    match (kind_of(unit), name_of(unit)) {
        (Some(kind), Some(name)) => {
            add_spaced(text, kind_word(kind), b"")?;
            text.extend(name.as_slice())
        }
        _ => Ok(()),
    }
}

/// The word of a kind of object.
fn kind_word(kind: ObjectKind) -> &'static [u8]
    ensures { result.now ≡ spec.kind_word kind }
{
    match kind {
        ObjectKind::Procedure => b"procedure",
        ObjectKind::Function => b"function",
        ObjectKind::Package => b"package",
        ObjectKind::PackageBody => b"body",
        ObjectKind::Trigger => b"trigger",
        ObjectKind::View => b"view",
    }
}

/// The word of what a drop takes.
fn class_word(class: DroppedClass) -> &'static [u8]
    ensures { result.now ≡ spec.class_word class }
{
    match class {
        DroppedClass::Unit => b"unit",
        DroppedClass::Body => b"body",
        DroppedClass::Trigger => b"trigger",
        DroppedClass::Package => b"package",
    }
}
