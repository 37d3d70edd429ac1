//! What asks and answers carry.

ghost use Rattle.std.specs.Prelude.{◌≡◌, ◌+◌, min, sum_by, length};
ghost use Rattle.ebr_database.specs.Carried.{value_weight, row_weight, line_weight, ask_weight, answer_weight};

use ebr_asks::{Answer, Ask};
use ebr_base::{Bytes, List, Shared, Value};

/// The most that a session carries.
pub const MAX_CARRIED: u64 = 16_777_216;

/// Where a weight isn't counted further, since it is more than a session carries.
pub const TOO_MUCH: u64 = 16_777_217;

/// What an ask carries, counted up to `TOO_MUCH`.
pub fn ask_weight(ask: &Ask) -> u64
    ensures { result ≡ min 16777217 (ask_weight ask.now) }
{
    match ask {
        Ask::Sql { binds, .. } => row_weight(binds.get().as_slice()),
        _ => 0,
    }
}

/// What an answer carries, counted up to `TOO_MUCH`.
pub fn answer_weight(answer: &Answer) -> u64
    ensures { result ≡ min 16777217 (answer_weight answer.now) }
{
    match answer {
        Answer::Rows(rows) => rows_weight(rows.get().as_slice()),
        Answer::Count { lines, .. } => lines_weight(lines.as_slice()),
        Answer::Refused { lines, .. } => lines_weight(lines.as_slice()),
        _ => 0,
    }
}

/// The weight of rows, counted up to `TOO_MUCH`.
fn rows_weight(rows: &[List<Value>]) -> u64
    ensures { result ≡ min 16777217 (sum_by row_weight rows.now) }
{
    let mut weight = 0;
    for row in rows {
        weight = (weight + row_weight(row.as_slice())).min(TOO_MUCH);
    }
    weight
}

/// The weight of a row, counted up to `TOO_MUCH`.
fn row_weight(values: &[Value]) -> u64
    ensures { result ≡ min 16777217 (row_weight values.now) }
{
    let mut weight = 0;
    for value in values {
        weight = (weight + value_weight(value)).min(TOO_MUCH);
    }
    weight
}

/// The weight of a value, counted up to `TOO_MUCH`.
fn value_weight(value: &Value) -> u64
    ensures { result ≡ min 16777217 (value_weight value.now) }
{
    match value {
        Value::Text(text) => text_weight(text.as_slice()),
        Value::Null => 16,
        Value::Num(_) => 16,
        Value::Bool(_) => 16,
    }
}

/// The weight of lines, counted up to `TOO_MUCH`.
fn lines_weight(lines: &[Shared<Bytes>]) -> u64
    ensures { result ≡ min 16777217 (sum_by line_weight lines.now) }
{
    let mut weight = 0;
    for line in lines {
        weight = (weight + text_weight(line.get().as_slice())).min(TOO_MUCH);
    }
    weight
}

fn text_weight(bytes: &[u8]) -> u64
    ensures { result ≡ min 16777217 (16 + length bytes.now) }
{
    ((bytes.len() as u64).min(TOO_MUCH) + 16).min(TOO_MUCH)
}
