//! Values of a row, and what `SQL%` tells.

ghost use Rattle.std.specs.Prelude.{◌≡◌, pos, slice_get, slice_set, IfOk};
ghost use Rattle.ebr_run.specs.Values as spec;

use ebr_ast::Attribute;
use ebr_base::{CloneIn, List, NoMemory, Value};
use std::alloc::Global;
use std::mem;

/// The value at a place; NULL where there is none.
pub fn column(alloc: Global, values: &List<Value>, place: usize) -> Result<Value, NoMemory>
    ensures { IfOk result (λ value. value ≡ spec.or_null (slice_get values.now place)) }
{
    match values.get(place) {
        Some(value) => Ok(value.clone_in(alloc)?),
        None => Ok(Value::Null),
    }
}

/// Puts a value into its place, where there is one.
pub fn set_column(alloc: Global, values: &mut List<Value>, place: usize, value: Value)
    ensures { values.new ≡ slice_set values.old place value }
{
    let mut items = mem::replace(values, List::new(alloc)).into_vec();
    if place < items.len() {
        items[place] = value;
    }
    *values = List::from_vec(items);
}

/// An attribute of `SQL%`.
pub fn affected_attribute(attribute: Attribute, affected: Option<u64>) -> Result<Value, NoMemory>
    ensures { IfOk result (λ value. value ≡ spec.affected_attribute attribute affected) }
{
    let Some(n) = affected else {
        return Ok(Value::Null);
    };
    match attribute {
        Attribute::RowCount => count(n),
        Attribute::Found => Ok(Value::Bool(n > 0)),
        Attribute::NotFound => Ok(Value::Bool(n == 0)),
        Attribute::IsOpen => Ok(Value::Bool(false)),
    }
}

/// A count as a value.
pub fn count(n: u64) -> Result<Value, NoMemory>
    ensures { IfOk result (λ value. value ≡ Value.Num (pos n)) }
{
    match i64::try_from(n) {
        Ok(n) => Ok(Value::Num(n)),
        Err(_) => Err(NoMemory),
    }
}
