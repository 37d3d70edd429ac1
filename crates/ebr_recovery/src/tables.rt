//! What the records of tables change in the catalogue.

ghost use Rattle.std.specs.Prelude.{◌≡◌, ◌<◌, ◌&&◌, is_some, find, slice_get, not, None, IfOk, OnOk};
ghost use Rattle.std.specs.List.{list_all};
ghost use Rattle.ebr_base.specs.declared.numbers.TheConstants.{MAX_COUNT};
ghost use Rattle.ebr_tables.specs.Tables as spec_tables;
ghost use Rattle.ebr_tables.specs.Tables.{create_refusal, has_id, next_id, table_of_id};
ghost use Rattle.ebr_cross.specs.declared.record.CatalogueRecord.TheVariants as made;
ghost use Rattle.ebr_cross.specs.Following.{MayWiden};
ghost use Rattle.ebr_allowed.specs.Allowed as spec;
ghost use Rattle.ebr_recovery.specs.inside.Plans.{PlansBy};

use crate::fault::RecoveryFault;
use ebr_base::{CloneIn, Code, Column, List, Name, NoMemory, TableDef, TableId, both};
use ebr_cross::CatalogueRecord;
use ebr_tables::Tables;
use std::alloc::Global;

/// The plan of a table.
pub fn table_plan(
    alloc: Global,
    tables: &Tables,
    name: &Name,
    columns: &List<Column>,
    key: &List<u16>,
) -> Result<CatalogueRecord, RecoveryFault>
    ensures plans { PlansBy (spec.may_make tables.now name.now columns.now key.now) (made.Table (record { id = next_id tables.now; name = name.now; columns = columns.now; key = key.now })) result }
    ensures few { OnOk result (tables.now.made < MAX_COUNT) }
{
    let id = tables.next_id()?;
    let def = table_copy(alloc, id, name, columns, key)?;
    if !may_make(tables, &def) {
        return Err(RecoveryFault::NotAllowed);
    }
    Ok(CatalogueRecord::Table(def))
}

/// The definition of a table with copies of its parts.
fn table_copy(
    alloc: Global,
    id: TableId,
    name: &Name,
    columns: &List<Column>,
    key: &List<u16>,
) -> Result<TableDef, NoMemory>
    ensures { IfOk result (λ def. def ≡ record { id = id; name = name.now; columns = columns.now; key = key.now }) }
{
    let key = key.clone_in(alloc)?;
    let (name, columns) = both(alloc, name, columns)?;
    Ok(TableDef {
        id,
        name,
        columns,
        key,
    })
}

/// Whether nothing refuses a table, and its key's columns are NOT NULL.
fn may_make(tables: &Tables, def: &TableDef) -> bool
    ensures { result ≡ (not (is_some (create_refusal tables.now def.now)) && list_all (λ place. spec_tables.is_not_null (slice_get def.now.columns place)) def.now.key) }
{
    tables.create_refusal(def).is_none()
        && is_key_not_null(def.columns.as_slice(), def.key.as_slice())
}

fn is_key_not_null(columns: &[Column], key: &[u16]) -> bool
    ensures { result ≡ list_all (λ place. spec_tables.is_not_null (slice_get columns.now place)) key.now }
{
    key.iter().all(|place| is_not_null(columns, *place))
}

/// Whether there is a column at a place, which is NOT NULL.
fn is_not_null(columns: &[Column], place: u16) -> bool
    ensures { result ≡ spec_tables.is_not_null (slice_get columns.now place) }
{
    match columns.get(usize::from(place)) {
        Some(column) => column.not_null,
        None => false,
    }
}

/// The plan of one more column.
pub fn column_plan(
    alloc: Global,
    tables: &Tables,
    table: TableId,
    column: &Column,
) -> Result<CatalogueRecord, RecoveryFault>
    ensures plans { PlansBy (spec.may_add (find (has_id table) tables.now.living) column.now) (made.Column table column.now) result }
    ensures widens { OnOk result (MayWiden tables.now table column.now) }
{
    if column.not_null || add_refusal(tables, table, column).is_some() {
        return Err(RecoveryFault::NotAllowed);
    }
    let column = column.clone_in(alloc)?;
    Ok(CatalogueRecord::Column { table, column })
}

/// The code by which a table refuses one more column.
fn add_refusal(tables: &Tables, table: TableId, column: &Column) -> Option<Code>
    ensures refusal { result ≡ spec_tables.add_refusal (table_of_id table tables.now.living) column.now }
    ensures accepted { result ≡ None → MayWiden tables.now table column.now }
{
    let Some(def) = tables.find_id(table) else {
        return Some(Code::Ora(942));
    };
    // With it comes that no other table has the name.
    let _ = tables.find(&def.name);
    tables.add_refusal(&def.name, column)
}

/// The plan of the drop of a table.
pub fn table_drop_plan(tables: &Tables, table: TableId) -> Result<CatalogueRecord, RecoveryFault>
    ensures { PlansBy (is_some (find (has_id table) tables.now.living)) (made.TableGone table) result }
{
    match tables.find_id(table) {
        Some(_) => Ok(CatalogueRecord::TableGone(table)),
        None => Err(RecoveryFault::NotAllowed),
    }
}
