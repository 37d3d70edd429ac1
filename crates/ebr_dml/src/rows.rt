//! The rows that a statement takes.

ghost use Rattle.std.specs.Prelude.{◌≡◌, [], ◌∷◌, map, Some, List as Sequence, Ok, Result as Either, IfOk};
ghost use Rattle.ebr_base.specs.declared.code.Code.{Code as Raised};
ghost use Rattle.ebr_base.specs.Answers.{Answers};
ghost use Rattle.ebr_versions.specs.Data.{row_no};
ghost use Rattle.ebr_tx.specs.Data.{IsLive};
ghost use Rattle.ebr_query.specs.Results.{keeps};
ghost use Rattle.ebr_query.specs.Seen.{numbers_seen};
ghost use Rattle.ebr_dml.specs.declared.taken.Taken.{Taken as Row};
ghost use Rattle.ebr_dml.specs.Rows as spec;
ghost use Rattle.ebr_dml.specs.inside.Takes.{Takes, numbered_row};

use crate::plan::Plan;
use crate::taken::Taken;
use crate::value::values_at;
use ebr_ast::SqlTree;
use ebr_base::{Code, List, NoMemory, RowId, RowNo, Shared, Stop, TableId, TxId, Value};
use ebr_expr::Row as Cells;
use ebr_query::{keeps, stored_shared};
use ebr_tx::Transactions;
use std::alloc::Global;

/// The most rows that a statement looks at.
const MAX_ROWS: usize = 100_000_000;

/// The rows, or the code that WHERE raised.
pub type Found = Result<List<Taken>, Code>;

/// The numbers of the rows of a table that the transaction sees, in rising order.
fn numbers(
    alloc: Global,
    tx: &Transactions,
    t: TxId,
    table: TableId,
) -> Result<List<RowNo>, NoMemory>
    requires { IsLive tx.now.contents t }
    ensures { IfOk result (λ found. found ≡ map row_no (numbers_seen tx.now.contents t table)) }
{
    let mut found = List::new(alloc);
    let mut last = RowNo(0);
    while let Some(next) = tx.next_row(t, table, last) {
        found.push(next)?;
        last = next;
    }
    Ok(found)
}

/// Whether WHERE takes a row with these values.
fn takes(alloc: Global, plan: &Plan, binds: &[Value], values: &[Value]) -> Result<bool, Stop>
    ensures { Answers result (keeps plan.now.filter binds.now (spec.values_at plan.now.source values.now)) }
{
    let cells = values_at(alloc, plan.source.as_slice(), values)?;
    let mut row = Cells::new(alloc);
    row.add(cells.as_slice())?;
    keeps(alloc, &plan.filter, &row, binds)
}

/// Puts a row behind those that were taken before it, if WHERE takes it.
fn take(
    alloc: Global,
    plan: &Plan,
    binds: &[Value],
    row: RowNo,
    values: Shared<List<Value>>,
    found: &mut List<Taken>,
) -> Result<(), Stop>
    ensures { Takes result plan.now binds.now (record { row = Some row; values = values }) found.old found.new }
{
    if takes(alloc, plan, binds, values.get().as_slice())? {
        found.push(Taken {
            row: Some(row),
            values,
        })?;
    }
    Ok(())
}

/// The rows with these numbers that WHERE takes.
fn taken(
    alloc: Global,
    tx: &Transactions,
    t: TxId,
    plan: &Plan,
    binds: &[Value],
    numbers: &[RowNo],
) -> Result<List<Taken>, Stop>
    requires { IsLive tx.now.contents t }
    ensures { Answers result (spec.taken plan.now binds.now (map (numbered_row tx.now.contents t plan.now.table.id) numbers.now)) }
{
    let mut found = List::new(alloc);
    for row in numbers {
        let id = RowId {
            table: plan.table.id,
            row: *row,
        };
        let values = stored_shared(alloc, tx, t, id)?;
        take(alloc, plan, binds, *row, values, &mut found)?;
    }
    Ok(found)
}

/// The code that WHERE raises stands for the rows.
fn found(taken: Result<List<Taken>, Stop>) -> Result<Found, NoMemory>
    ensures { (rows : Either (Sequence Row) Raised) → Answers taken rows → IfOk result (λ found. found ≡ rows) }
{
    match taken {
        Ok(rows) => Ok(Ok(rows)),
        Err(Stop::Raised(code)) => Ok(Err(code)),
        Err(Stop::NoMemory) => Err(NoMemory),
    }
}

fn new_row(alloc: Global) -> Result<Found, NoMemory>
    ensures { IfOk result (λ found. found ≡ Ok (spec.new_row ∷ [])) }
{
    let mut rows = List::new(alloc);
    rows.push(Taken {
        row: None,
        values: Shared::new(alloc, List::new(alloc))?,
    })?;
    Ok(Ok(rows))
}

/// The rows with these numbers that WHERE takes, or the code that it raises.
fn all_taken(
    alloc: Global,
    tx: &Transactions,
    t: TxId,
    plan: &Plan,
    binds: &[Value],
    numbers: &[RowNo],
) -> Result<Found, NoMemory>
    requires live { IsLive tx.now.contents t }
    requires numbers { numbers.now ≡ map row_no (numbers_seen tx.now.contents t plan.now.table.id) }
    ensures { IfOk result (λ found. found ≡ spec.all_taken tx.now.contents t plan.now binds.now) }
{
    found(taken(alloc, tx, t, plan, binds, numbers))
}

/// The rows that an APPLY TRIGGER takes.
fn applied(
    alloc: Global,
    tx: &Transactions,
    t: TxId,
    plan: &Plan,
    binds: &[Value],
) -> Result<Found, NoMemory>
    requires { IsLive tx.now.contents t }
    ensures { IfOk result (λ found. found ≡ spec.all_taken tx.now.contents t plan.now binds.now) }
{
    let numbers = numbers(alloc, tx, t, plan.table.id)?;
    all_taken(alloc, tx, t, plan, binds, numbers.as_slice())
}

/// The rows that an UPDATE or a DELETE takes, where it doesn't look at too many.
fn counted(
    alloc: Global,
    tx: &Transactions,
    t: TxId,
    plan: &Plan,
    binds: &[Value],
) -> Result<Found, Stop>
    requires { IsLive tx.now.contents t }
    ensures { Answers result (spec.unless_many tx.now.contents t plan.now (spec.all_taken tx.now.contents t plan.now binds.now)) }
{
    let numbers = numbers(alloc, tx, t, plan.table.id)?;
    if numbers.len() > MAX_ROWS {
        return Err(Stop::Raised(Code::Ebr(13)));
    }
    Ok(all_taken(alloc, tx, t, plan, binds, numbers.as_slice())?)
}

/// The rows of a statement: one new row for an INSERT, and else those that WHERE takes, or the code that it raises.
///
/// EBR-0013 where an UPDATE or a DELETE would look at more than 100,000,000 rows.
pub fn rows_of(
    alloc: Global,
    tx: &Transactions,
    t: TxId,
    s: &SqlTree,
    plan: &Plan,
    binds: &[Value],
) -> Result<Found, Stop>
    requires { IsLive tx.now.contents t }
    ensures { Answers result (spec.rows_of tx.now.contents t s.now plan.now binds.now) }
{
    match s {
        SqlTree::Insert(_) => Ok(new_row(alloc)?),
        SqlTree::Apply(_) => Ok(applied(alloc, tx, t, plan, binds)?),
        _ => counted(alloc, tx, t, plan, binds),
    }
}
