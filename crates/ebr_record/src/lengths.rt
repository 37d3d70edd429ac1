//! How long a record is.

ghost use Rattle.std.specs.Prelude.{◌≡◌, ◌≤◌, length, sum_by};
ghost use Rattle.ebr_tx.specs.Limits.{value_length, change_length};
ghost use Rattle.ebr_record.specs.Payload.{HasPayload, column_bytes, max_payload, name_bytes, payload, type_bytes};

use crate::record::Record;
use ebr_base::{Change, ColType, Column, Name, Value};

/// The bytes of a record's payload.
pub fn length(r: &Record) -> u64
    requires { HasPayload r.now }
    ensures { result ≡ length (payload r.now) }
{
    match r {
        Record::Commit(changes) => changes_length(changes.as_slice()) + 5,
        Record::Edition { name, .. } => name_length(name) + 5,
        Record::EditionGone(_) => 5,
        Record::Default(_) => 5,
        Record::Object { text, .. } => text.get().len() as u64 + 10,
        Record::Gone { name, .. } => name_length(name) + 6,
        Record::Table { name, columns, key } => {
            name_length(name) + columns_length(columns.as_slice()) + 2 * key.len() as u64 + 4
        }
        Record::Column { column, .. } => column_length(column) + 5,
        Record::TableGone(_) => 5,
    }
}

/// The bytes of changes.
fn changes_length(changes: &[Change]) -> u64
    requires { sum_by change_length changes.now ≤ max_payload }
    ensures { result ≡ sum_by change_length changes.now }
{
    let mut length = 0;
    for c in changes {
        length += change_length(c);
    }
    length
}

/// The bytes of a change.
fn change_length(c: &Change) -> u64
    requires { change_length c.now ≤ max_payload }
    ensures { result ≡ change_length c.now }
{
    match &c.values {
        Some(values) => 15 + values_length(values.get().as_slice()),
        None => 13,
    }
}

/// The bytes of values.
fn values_length(values: &[Value]) -> u64
    requires { sum_by value_length values.now ≤ max_payload }
    ensures { result ≡ sum_by value_length values.now }
{
    let mut length = 0;
    for value in values {
        length += value_length(value);
    }
    length
}

/// The bytes of a value.
fn value_length(value: &Value) -> u64
    requires { value_length value.now ≤ max_payload }
    ensures { result ≡ value_length value.now }
{
    match value {
        Value::Null => 1,
        Value::Num(_) => 9,
        Value::Text(text) => text.as_slice().len() as u64 + 5,
        Value::Bool(_) => 1,
    }
}

/// The bytes of columns.
fn columns_length(columns: &[Column]) -> u64
    requires { sum_by (λ c. length (column_bytes c)) columns.now ≤ max_payload }
    ensures { result ≡ sum_by (λ c. length (column_bytes c)) columns.now }
{
    let mut length = 0;
    for column in columns {
        length += column_length(column);
    }
    length
}

/// The bytes of a column, by its name and by its type.
fn column_length(column: &Column) -> u64
    ensures { result ≡ length (column_bytes column.now) }
{
    name_length(&column.name) + type_length(column.ty) + 1
}

/// The bytes of a type: those of a number of digits, or of a number of bytes.
fn type_length(ty: ColType) -> u64
    ensures { result ≡ length (type_bytes ty) }
{
    match ty {
        ColType::Num(_) => 2,
        ColType::Text(_) => 3,
    }
}

/// The bytes of a name, of which there are at most 129.
fn name_length(name: &Name) -> u64
    ensures whole { result ≡ length (name_bytes name.now) }
    ensures short { result ≤ 129 }
{
    name.as_slice().len() as u64 + 1
}
