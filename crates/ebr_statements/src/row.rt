//! Rows, as bodies have them.

ghost use Rattle.std.specs.Prelude.{◌≡◌, [], slice_set, unwrap_or, IfOk};
ghost use Rattle.std.specs.Option.{option_copied};
ghost use Rattle.ebr_versions.specs.Keys.{value_at};
ghost use Rattle.ebr_dml.specs.Rows.{values_at};
ghost use Rattle.ebr_bodies.specs.Bodies as spec;
ghost use Rattle.ebr_bodies.specs.Ready.{Ready};

use ebr_ast::Op;
use ebr_base::{CloneIn, List, NoMemory, Value};
use std::alloc::Global;

/// The values at these places.
pub fn picked(alloc: Global, places: &[u16], row: &[Value]) -> Result<List<Value>, NoMemory>
    ensures { IfOk result (λ values. values ≡ values_at places.now row.now) }
{
    let mut values = List::new(alloc);
    for place in places {
        values.push(copy_at(alloc, row, *place as usize)?)?;
    }
    Ok(values)
}

/// A copy of the value at a place; NULL where the row has none, since the column was added later.
fn copy_at(alloc: Global, row: &[Value], place: usize) -> Result<Value, NoMemory>
    ensures { IfOk result (λ value. value ≡ value_at row.now place) }
{
    match row.get(place) {
        Some(value) => value.clone_in(alloc),
        None => Ok(Value::Null),
    }
}

/// What a body makes of the new row; that of a DELETE stays all NULL.
pub fn row_left(
    alloc: Global,
    op: Op,
    places: &[u16],
    new: List<Value>,
    left: Option<&List<Value>>,
) -> Result<List<Value>, NoMemory>
    ensures { (r : Ready) → r.places ≡ places.now → IfOk result (λ row. row ≡ spec.row_left op r new (option_copied left.entry)) }
{
    match op {
        Op::Delete => Ok(new),
        Op::Insert => with_left(alloc, places, new, left),
        Op::Update => with_left(alloc, places, new, left),
    }
}

/// The new row with the values that a body left.
fn with_left(
    alloc: Global,
    places: &[u16],
    new: List<Value>,
    left: Option<&List<Value>>,
) -> Result<List<Value>, NoMemory>
    ensures { IfOk result (λ row. row ≡ spec.put places.now (unwrap_or (option_copied left.entry) []) new) }
{
    match left {
        Some(values) => put(alloc, places, values, new),
        None => Ok(new),
    }
}

/// The row with these values at these places.
fn put(
    alloc: Global,
    places: &[u16],
    values: &List<Value>,
    row: List<Value>,
) -> Result<List<Value>, NoMemory>
    ensures { IfOk result (λ made. made ≡ spec.put places.now values.now row) }
{
    let mut items = row.into_vec();
    for (at, place) in places.iter().enumerate() {
        let Some(value) = values.get(at) else {
            return Ok(List::from_vec(items));
        };
        set(&mut items, *place as usize, value.clone_in(alloc)?);
    }
    Ok(List::from_vec(items))
}

/// Puts a value at a place, if there is one.
fn set(row: &mut Vec<Value>, place: usize, value: Value)
    ensures { row.new.items ≡ slice_set row.old.items place value }
{
    if place < row.len() {
        row[place] = value;
    }
}
