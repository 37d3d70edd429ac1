//! The order of rows by their keys.

ghost use Rattle.std.specs.Prelude.{◌≡◌, drop, IfOk};
ghost use Rattle.std.specs.Ordering.{is_lt};
ghost use Rattle.ebr_query.specs.Order as spec;

use ebr_base::{List, NoMemory, Value};
use ebr_expr::Operand;
use ebr_value::order;
use std::cmp::Ordering;

/// A row with its keys: its number in the product.
#[derive(Drop)]
pub struct KeyedRow {
    pub keys: List<Value>,
    pub at: usize,
}

fn type_place(v: &Value) -> u8
    ensures { result ≡ spec.type_place v.now }
{
    match v {
        Value::Num(_) => 0,
        Value::Text(_) => 1,
        Value::Bool(_) => 2,
        Value::Null => 3,
    }
}

/// How one value stands to another: numbers by value, texts by bytes, NULL behind all others.
pub fn value_order(a: &Value, b: &Value) -> Ordering
    ensures { result ≡ spec.value_order a.now b.now }
{
    let in_type = order(a, b).unwrap_or(Ordering::Equal);
    type_place(a).cmp(&type_place(b)).then(in_type)
}

/// How one key stands to another; DESC turns the order round.
fn key_order(descending: bool, a: &Value, b: &Value) -> Ordering
    ensures { result ≡ spec.key_order descending a.now b.now }
{
    if descending {
        value_order(b, a)
    } else {
        value_order(a, b)
    }
}

/// The key at a place; one that isn't there is NULL.
fn key_at(keys: &[Value], at: usize) -> Operand<'_>
    ensures { result ≡ spec.first_key (drop at keys.now) }
{
    match keys.get(at) {
        Some(key) => Operand::lent(key),
        None => Operand::made(Value::Null),
    }
}

/// How one row's keys stand to another's: by the first key in which they differ.
fn keys_order(descending: &[bool], a: &[Value], b: &[Value]) -> Ordering
    ensures { result ≡ spec.keys_order descending.now a.now b.now }
{
    for (at, descending) in descending.iter().enumerate() {
        let order = key_order(*descending, key_at(a, at).get(), key_at(b, at).get());
        if order != Ordering::Equal {
            return order;
        }
    }
    Ordering::Equal
}

/// Rows in the order of their keys; rows whose keys are equal stay in their order.
pub fn in_order(mut rows: Vec<KeyedRow>, descending: &[bool]) -> Result<Vec<KeyedRow>, NoMemory>
    ensures { IfOk result (λ sorted. sorted.items ≡ spec.in_order (λ (a b : KeyedRow). is_lt (spec.keys_order descending.now a.keys b.keys)) rows.items) }
{
    rows.sort_by(
        |a: &KeyedRow, b: &KeyedRow| -> Ordering
            ensures { result ≡ spec.keys_order descending.entry.now a.now.keys b.now.keys }
        { keys_order(descending, a.keys.as_slice(), b.keys.as_slice()) },
    )?;
    Ok(rows)
}
