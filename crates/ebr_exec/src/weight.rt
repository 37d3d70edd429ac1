//! How much the values weigh that a session carries.

ghost use Rattle.std.specs.Prelude.{◌≡◌, ◌+◌, min, sum_by, length, nat_lt, not};
ghost use Rattle.ebr_database.specs.Carried.{row_weight, value_weight};

use ebr_base::{List, Value};

/// Where a weight isn't counted further, since no room is so large.
const TOO_MUCH: u64 = 4294967296;

/// Whether there is room for the values of rows.
pub fn has_room(rows: &[List<Value>], room: u32) -> bool
    ensures { result ≡ not (nat_lt room (sum_by row_weight rows.now)) }
{
    rows_weight(rows) <= u64::from(room)
}

/// The weight of rows, counted up to 4,294,967,296.
fn rows_weight(rows: &[List<Value>]) -> u64
    ensures { result ≡ min 4294967296 (sum_by row_weight rows.now) }
{
    let mut weight = 0;
    for row in rows {
        weight = (weight + row_weight(row.as_slice())).min(TOO_MUCH);
    }
    weight
}

/// The weight of a row, counted up to 4,294,967,296.
fn row_weight(values: &[Value]) -> u64
    ensures { result ≡ min 4294967296 (row_weight values.now) }
{
    let mut weight = 0;
    for value in values {
        weight = (weight + value_weight(value)).min(TOO_MUCH);
    }
    weight
}

/// The weight of a value, counted up to `TOO_MUCH`.
fn value_weight(value: &Value) -> u64
    ensures { result ≡ min 4294967296 (value_weight value.now) }
{
    match value {
        Value::Text(text) => text_weight(text.as_slice()),
        Value::Null => 16,
        Value::Num(_) => 16,
        Value::Bool(_) => 16,
    }
}

fn text_weight(bytes: &[u8]) -> u64
    ensures { result ≡ min 4294967296 (16 + length bytes.now) }
{
    ((bytes.len() as u64).min(TOO_MUCH) + 16).min(TOO_MUCH)
}
