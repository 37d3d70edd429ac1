//! Values of a row by their places.

ghost use Rattle.std.specs.Prelude.{◌≡◌, IfOk};
ghost use Rattle.ebr_versions.specs.Keys as keys;
ghost use Rattle.ebr_dml.specs.Rows as spec;

use ebr_base::{CloneIn, List, NoMemory, Value};
use ebr_expr::Operand;
use std::alloc::Global;

/// The value at a place, which the row lends; NULL where it has none, since the column was added later.
pub fn value_at(values: &[Value], place: usize) -> Operand<'_>
    ensures { result ≡ keys.value_at values.now place }
{
    match values.get(place) {
        Some(value) => Operand::lent(value),
        None => Operand::made(Value::Null),
    }
}

/// A copy of the value at a place, in the same way.
pub fn copy_at(alloc: Global, values: &[Value], place: usize) -> Result<Value, NoMemory>
    ensures { IfOk result (λ value. value ≡ keys.value_at values.now place) }
{
    match values.get(place) {
        Some(value) => value.clone_in(alloc),
        None => Ok(Value::Null),
    }
}

/// The values of columns by their places.
pub fn values_at<'a>(
    alloc: Global,
    places: &[u16],
    values: &'a [Value],
) -> Result<List<Operand<'a>>, NoMemory>
    ensures { IfOk result (λ found. found ≡ spec.values_at places.now values.now) }
{
    let mut found = List::new(alloc);
    for place in places {
        found.push(value_at(values, *place as usize))?;
    }
    Ok(found)
}

/// Copies of values.
pub fn copies(alloc: Global, values: &[Value]) -> Result<List<Value>, NoMemory>
    ensures { IfOk result (λ copies. copies ≡ values.now) }
{
    let mut copies = List::new(alloc);
    for value in values {
        copies.push(value.clone_in(alloc)?)?;
    }
    Ok(copies)
}
