//! How much a transaction may change.

ghost use Rattle.std.specs.Prelude.{◌≡◌, ◌≤◌, ◌+◌, min, sum_by, nat_lt, length};
ghost use Rattle.ebr_tx.specs.Limits.{limit_refusal, max_record, value_length, values_length, change_length};

use ebr_base::{Change, Code, Value};

/// The most changes that a transaction makes.
pub const MAX_CHANGES: usize = 200_000;

/// The most bytes of a commit's record.
const MAX_RECORD: u64 = 134_217_728;

/// The greatest number of a row.
pub const MAX_ROW: u64 = 9_223_372_036_854_775_807;

/// Where a length isn't counted further, since it is too long already.
const TOO_LONG: u64 = MAX_RECORD + 1;

/// EBR-0040 where a limit is reached.
pub fn limit_refusal(full: bool) -> Option<Code>
    ensures { result ≡ limit_refusal full }
{
    if full { Some(Code::Ebr(40)) } else { None }
}

/// Whether one more change makes the record of a commit too long, whose changes have so many bytes by now.
pub fn is_too_long(length: u64, c: &Change) -> bool
    requires { length ≤ max_record }
    ensures { result ≡ nat_lt max_record (5 + (length + change_length c.now)) }
{
    5 + length + change_length(c) > MAX_RECORD
}

/// The bytes of changes in a record, counted up to `TOO_LONG`.
pub fn changes_length(changes: &[Change]) -> u64
    ensures { result ≡ min 134217729 (sum_by change_length changes.now) }
{
    let mut length = 0;
    for c in changes {
        length = (length + change_length(c)).min(TOO_LONG);
    }
    length
}

/// The bytes of a change in a record, with its values counted up to `TOO_LONG`.
pub fn change_length(c: &Change) -> u64
    ensures { result ≡ 13 + min 134217731 (values_length c.now.values) }
{
    match &c.values {
        Some(values) => 15 + values_length(values.get().as_slice()),
        None => 13,
    }
}

/// The bytes of values in a record, counted up to `TOO_LONG`.
fn values_length(values: &[Value]) -> u64
    ensures { result ≡ min 134217729 (sum_by value_length values.now) }
{
    let mut length = 0;
    for value in values {
        length = (length + value_length(value)).min(TOO_LONG);
    }
    length
}

/// The bytes of a value in a record, counted up to `TOO_LONG`.
fn value_length(value: &Value) -> u64
    ensures { result ≡ min 134217729 (value_length value.now) }
{
    match value {
        Value::Null => 1,
        Value::Num(_) => 9,
        Value::Text(text) => text_length(text.as_slice()),
        Value::Bool(_) => 1,
    }
}

fn text_length(bytes: &[u8]) -> u64
    ensures { result ≡ min 134217729 (5 + length bytes.now) }
{
    ((bytes.len() as u64).min(TOO_LONG) + 5).min(TOO_LONG)
}
