//! The records of what definitions leave.

ghost use Rattle.std.specs.Prelude.{◌≡◌, ◌≤◌, length, All, IfOk};
ghost use Rattle.ebr_record.specs.declared.record.Record.TheVariants as left;
ghost use Rattle.ebr_record.specs.Payload.{HasPayload};
ghost use Rattle.ebr_core.specs.Records as spec;
ghost use Rattle.ebr_core.specs.inside.Stored.{HasShortName, IsSmall, max_stored};

use ebr_ast::Object;
use ebr_base::{Class, CloneIn, Column, EditionNo, List, Name, NoMemory, TableDef, TableId};
use ebr_cross::CatalogueRecord;
use ebr_record::{DroppedClass, Record};
use std::alloc::Global;

/// The record of what a definition left, which has a payload.
pub(crate) fn record_of(alloc: Global, made: &CatalogueRecord) -> Result<Record, NoMemory>
    requires small { IsSmall made.now }
    ensures record { IfOk result (λ r. r ≡ spec.record_of made.now) }
    ensures payload { IfOk result (λ r. HasPayload r) }
{
    match made {
        CatalogueRecord::Edition { name, parent } => edition(alloc, name, *parent),
        CatalogueRecord::EditionGone(edition) => Ok(Record::EditionGone(*edition)),
        CatalogueRecord::Default(edition) => Ok(Record::Default(*edition)),
        CatalogueRecord::Object(object) => object_kept(alloc, object.get()),
        CatalogueRecord::ObjectGone { edition, key } => {
            gone(alloc, *edition, class_dropped(key.class), &key.name)
        }
        CatalogueRecord::PackageGone { edition, name } => {
            gone(alloc, *edition, DroppedClass::Package, name)
        }
        CatalogueRecord::Table(table) => table_kept(alloc, table),
        CatalogueRecord::Column { table, column } => column_kept(alloc, *table, column),
        CatalogueRecord::TableGone(table) => Ok(Record::TableGone(*table)),
    }
}

/// What the drop of an object takes.
fn class_dropped(class: Class) -> DroppedClass
    ensures { result ≡ spec.class_dropped class }
{
    match class {
        Class::Unit => DroppedClass::Unit,
        Class::Body => DroppedClass::Body,
        Class::Trigger => DroppedClass::Trigger,
    }
}

/// The record of an edition.
fn edition(alloc: Global, name: &Name, parent: EditionNo) -> Result<Record, NoMemory>
    ensures record { IfOk result (λ r. r ≡ left.Edition name.now parent) }
    ensures payload { IfOk result (λ r. HasPayload r) }
{
    let name = name_kept(alloc, name)?;
    Ok(Record::Edition { name, parent })
}

/// The record of an object, by its text.
fn object_kept(alloc: Global, object: &Object) -> Result<Record, NoMemory>
    requires small { length object.now.text ≤ max_stored }
    ensures record { IfOk result (λ r. r ≡ left.Object object.now.stamp.edition object.now.enabled object.now.text) }
    ensures payload { IfOk result (λ r. HasPayload r) }
{
    Ok(Record::Object {
        edition: object.stamp.edition,
        enabled: object.enabled,
        text: object.text.clone_in(alloc)?,
    })
}

/// The record of a drop.
fn gone(
    alloc: Global,
    edition: EditionNo,
    class: DroppedClass,
    name: &Name,
) -> Result<Record, NoMemory>
    ensures record { IfOk result (λ r. r ≡ left.Gone edition class name.now) }
    ensures payload { IfOk result (λ r. HasPayload r) }
{
    let name = name_kept(alloc, name)?;
    Ok(Record::Gone {
        edition,
        class,
        name,
    })
}

/// The record of a table.
fn table_kept(alloc: Global, table: &TableDef) -> Result<Record, NoMemory>
    requires columns { length table.now.columns ≤ 64 }
    requires key { length table.now.key ≤ 64 }
    ensures record { IfOk result (λ r. r ≡ left.Table table.now.name table.now.columns table.now.key) }
    ensures payload { IfOk result (λ r. HasPayload r) }
{
    let key = table.key.clone_in(alloc)?;
    let name = name_kept(alloc, &table.name)?;
    let columns = columns_kept(alloc, table.columns.as_slice())?;
    Ok(Record::Table { name, columns, key })
}

/// The record of one more column.
fn column_kept(alloc: Global, table: TableId, column: &Column) -> Result<Record, NoMemory>
    ensures record { IfOk result (λ r. r ≡ left.Column table column.now) }
    ensures payload { IfOk result (λ r. HasPayload r) }
{
    let column = column_copy(alloc, column)?;
    Ok(Record::Column { table, column })
}

/// Copies of columns, whose names are short.
fn columns_kept(alloc: Global, columns: &[Column]) -> Result<List<Column>, NoMemory>
    ensures copies { IfOk result (λ copies. copies ≡ columns.now) }
    ensures short { IfOk result (λ copies. All HasShortName copies) }
{
    let mut copies = List::new(alloc);
    for column in columns {
        copies.push(column_copy(alloc, column)?)?;
    }
    Ok(copies)
}

/// A copy of a column, whose name is short, as each name is.
fn column_copy(alloc: Global, column: &Column) -> Result<Column, NoMemory>
    ensures copy { IfOk result (λ copy. copy ≡ column.now) }
    ensures short { HasShortName column.now }
{
    let _short = column.name.as_slice();
    column.clone_in(alloc)
}

/// A copy of a name, which has at most 128 bytes, as each name has.
fn name_kept(alloc: Global, name: &Name) -> Result<Name, NoMemory>
    ensures copy { IfOk result (λ copy. copy ≡ name.now) }
    ensures short { length name.now ≤ 128 }
{
    let _short = name.as_slice();
    name.clone_in(alloc)
}
