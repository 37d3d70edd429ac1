//! The row before a change, and the row that it is to become.

ghost use Rattle.std.specs.Prelude.{◌≡◌, [], slice_set, IfOk};
ghost use Rattle.ebr_base.specs.Answers.{Answers};
ghost use Rattle.ebr_dml.specs.Images as spec;
ghost use Rattle.ebr_dml.specs.Rows.{values_at};

use crate::plan::{Plan, Setting, Work};
use crate::taken::Taken;
use crate::value::{copy_at, values_at};
use ebr_base::{CloneIn, Column, List, NoMemory, Stop, Value};
use ebr_expr::{Row, eval};
use std::alloc::Global;

/// A value for each column of the table; NULL where the row has none.
pub fn filled(alloc: Global, columns: &[Column], values: &[Value]) -> Result<List<Value>, NoMemory>
    ensures { IfOk result (λ row. row ≡ spec.filled columns.now values.now) }
{
    let mut row = List::new(alloc);
    for (at, _column) in columns.iter().enumerate() {
        row.push(copy_at(alloc, values, at)?)?;
    }
    Ok(row)
}

/// The row as it was seen.
pub fn old_values(alloc: Global, plan: &Plan, row: &Taken) -> Result<List<Value>, NoMemory>
    ensures { IfOk result (λ old. old ≡ spec.old_values plan.now row.now) }
{
    filled(
        alloc,
        plan.table.columns.as_slice(),
        row.values.get().as_slice(),
    )
}

/// The row of all NULL.
fn nulls(alloc: Global, plan: &Plan) -> Result<List<Value>, NoMemory>
    ensures { IfOk result (λ row. row ≡ spec.filled plan.now.table.columns []) }
{
    filled(alloc, plan.table.columns.as_slice(), &[])
}

/// Puts a value at a place, if there is one.
fn put(row: &mut Vec<Value>, place: usize, value: Value)
    ensures { row.new.items ≡ slice_set row.old.items place value }
{
    if place < row.len() {
        row[place] = value;
    }
}

/// The row with the value of each expression, computed from the row as it was seen, in the place of its column.
fn set_values(
    alloc: Global,
    seen: &Row<'_, '_>,
    binds: &[Value],
    sets: &[Setting],
    row: List<Value>,
) -> Result<List<Value>, Stop>
    ensures { Answers result (spec.set_values seen.now binds.now sets.now row) }
{
    let mut values = row.into_vec();
    for set in sets {
        let value = eval(alloc, set.value.get(), seen, binds)?;
        put(&mut values, set.place as usize, value);
    }
    Ok(List::from_vec(values))
}

/// The row with new values of columns.
fn updated(
    alloc: Global,
    plan: &Plan,
    sets: &[Setting],
    row: &Taken,
    binds: &[Value],
) -> Result<List<Value>, Stop>
    ensures { Answers result (spec.set_values (values_at plan.now.source row.now.values) binds.now sets.now (spec.old_values plan.now row.now)) }
{
    let cells = values_at(alloc, plan.source.as_slice(), row.values.get().as_slice())?;
    let mut seen = Row::new(alloc);
    seen.add(cells.as_slice())?;
    let old = old_values(alloc, plan, row)?;
    set_values(alloc, &seen, binds, sets, old)
}

/// What a row is to become, before its BEFORE triggers.
pub fn new_values(
    alloc: Global,
    plan: &Plan,
    binds: &[Value],
    row: &Taken,
) -> Result<List<Value>, Stop>
    ensures { Answers result (spec.new_values plan.now binds.now row.now) }
{
    match &plan.work {
        Work::Set(sets) => updated(alloc, plan, sets.as_slice(), row, binds),
        Work::Remove => Ok(nulls(alloc, plan)?),
    }
}

/// What a row has become, for its AFTER triggers.
pub fn after_values(alloc: Global, plan: &Plan, new: &List<Value>) -> Result<List<Value>, NoMemory>
    ensures { IfOk result (λ row. row ≡ spec.after_values plan.now new.now) }
{
    match &plan.work {
        Work::Set(_) => new.clone_in(alloc),
        Work::Remove => nulls(alloc, plan),
    }
}
