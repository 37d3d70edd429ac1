//! A row's tests once its BEFORE triggers have run, and its change.

ghost use Rattle.std.specs.Prelude.{◌≡◌, true, is_some, OnErr};
ghost use Rattle.ebr_tx.specs.Calls.{IsKnown, insertion};
ghost use Rattle.ebr_tx.specs.Data.{IsLive, own};
ghost use Rattle.ebr_tx.specs.Reads.{Sees};
ghost use Rattle.ebr_dml.specs.Tests as spec;
ghost use Rattle.ebr_dml.specs.Steps.{IsSeen, Stays};
ghost use Rattle.ebr_dml.specs.inside.Writes.{Writes};

use crate::columns::columns_refusal;
use crate::plan::{Plan, Work};
use ebr_base::{Change, Code, List, RowId, RowNo, Shared, Stop, TableDef, TxId, Value};
use ebr_tx::Transactions;

/// NULL in a column that takes none, in an INSERT.
const NULL_INSERTED: Code = Code::Ora(1400);

/// NULL in a column that takes none, elsewhere.
const NULL_UPDATED: Code = Code::Ora(1407);

/// Adds a row.
fn insert(
    tx: &mut Transactions,
    t: TxId,
    table: &TableDef,
    values: Shared<List<Value>>,
) -> Result<(), Stop>
    requires live { IsLive tx.old.contents t }
    requires begun { is_some (own tx.old.contents t).begun ≡ true }
    requires known { IsKnown tx.old.contents table.now }
    ensures written { Writes result tx.new.contents (spec.tested tx.old.contents t (spec.insert_tests tx.old.contents t table.now values) (insertion tx.old.contents table.now.id values)) }
    ensures unchanged { OnErr result (tx.new.contents ≡ tx.old.contents) }
    ensures stays { Stays tx.old.contents t tx.new.contents }
{
    if let Some(code) = columns_refusal(NULL_INSERTED, table, values.get().as_slice()) {
        return Err(Stop::Raised(code));
    }
    tx.insert(t, values, table)?;
    Ok(())
}

/// Updates a row.
fn update(
    tx: &mut Transactions,
    t: TxId,
    table: &TableDef,
    row: RowId,
    values: Shared<List<Value>>,
) -> Result<(), Stop>
    requires live { IsLive tx.old.contents t }
    requires begun { is_some (own tx.old.contents t).begun ≡ true }
    requires known { IsKnown tx.old.contents table.now }
    requires table { row.table ≡ table.now.id }
    requires seen { is_some (Sees tx.old.contents t row) ≡ true }
    ensures written { Writes result tx.new.contents (spec.tested tx.old.contents t (spec.update_tests tx.old.contents t table.now row values) (spec.update row values)) }
    ensures unchanged { OnErr result (tx.new.contents ≡ tx.old.contents) }
    ensures stays { Stays tx.old.contents t tx.new.contents }
{
    if let Some(code) = tx.test(t, row) {
        return Err(Stop::Raised(code));
    }
    if let Some(code) = columns_refusal(NULL_UPDATED, table, values.get().as_slice()) {
        return Err(Stop::Raised(code));
    }
    let values = Some(values);
    tx.change(t, Change { row, values }, table)
}

/// Removes a row.
fn remove(tx: &mut Transactions, t: TxId, table: &TableDef, row: RowId) -> Result<(), Stop>
    requires live { IsLive tx.old.contents t }
    requires begun { is_some (own tx.old.contents t).begun ≡ true }
    requires known { IsKnown tx.old.contents table.now }
    requires table { row.table ≡ table.now.id }
    requires seen { is_some (Sees tx.old.contents t row) ≡ true }
    ensures written { Writes result tx.new.contents (spec.tested tx.old.contents t (spec.delete_tests tx.old.contents t row) (spec.removal row)) }
    ensures unchanged { OnErr result (tx.new.contents ≡ tx.old.contents) }
    ensures stays { Stays tx.old.contents t tx.new.contents }
{
    let change = Change { row, values: None };
    tx.change(t, change, table)
}

/// A row's fate, with the values that its BEFORE triggers left: it is changed, or refused by the first of its tests. An `Err`
/// changes nothing.
///
/// Refused, in this order: but in an INSERT, ORA-00054 where another transaction holds the row, and ORA-08177 where it was
/// changed since the beginning; but in a DELETE, column by column, ORA-01400 or, but in an INSERT, ORA-01407 for NULL, and
/// ORA-12899 or ORA-01438 for its size, and then by the test of keys ORA-00054, ORA-00001, ORA-08177; EBR-0040.
pub fn write(
    tx: &mut Transactions,
    t: TxId,
    plan: &Plan,
    row: Option<RowNo>,
    values: Shared<List<Value>>,
) -> Result<(), Stop>
    requires live { IsLive tx.old.contents t }
    requires begun { is_some (own tx.old.contents t).begun ≡ true }
    requires known { IsKnown tx.old.contents plan.now.table }
    requires seen { IsSeen tx.old.contents t plan.now.table.id row }
    ensures written { Writes result tx.new.contents (spec.written_to tx.old.contents t plan.now row values) }
    ensures unchanged { OnErr result (tx.new.contents ≡ tx.old.contents) }
    ensures stays { Stays tx.old.contents t tx.new.contents }
{
    let Some(row) = row else {
        return insert(tx, t, &plan.table, values);
    };
    let row = RowId {
        table: plan.table.id,
        row,
    };
    match &plan.work {
        Work::Set(_) => update(tx, t, &plan.table, row, values),
        Work::Remove => remove(tx, t, &plan.table, row),
    }
}
