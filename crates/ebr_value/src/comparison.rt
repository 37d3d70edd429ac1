//! Comparisons.
//!
//! Oracle Database SQL Language Reference 19c, Comparison Conditions. Texts are compared by their bytes.

ghost use Rattle.std.specs.Prelude.{◌≡◌};
ghost use Rattle.ebr_value.specs.Comparisons as spec;

use crate::logic::{is_boolean, same_type};
use crate::outcome::{Outcome, WRONG_OPERANDS};
use ebr_base::Value;
use std::cmp::Ordering;

/// What is asked of the order of two values.
#[derive(Clone, Copy)]
pub enum Comparison {
    Equal,
    NotEqual,
    Less,
    LessOrEqual,
    Greater,
    GreaterOrEqual,
}

/// Whether two values in this order meet the comparison.
fn holds(comparison: Comparison, order: Ordering) -> bool
    ensures { result ≡ spec.holds comparison order }
{
    match comparison {
        Comparison::Equal => order.is_eq(),
        Comparison::NotEqual => order.is_ne(),
        Comparison::Less => order.is_lt(),
        Comparison::LessOrEqual => order.is_le(),
        Comparison::Greater => order.is_gt(),
        Comparison::GreaterOrEqual => order.is_ge(),
    }
}

/// Whether the comparison is one of those that BOOLEAN has.
fn tests_equality(comparison: Comparison) -> bool
    ensures { result ≡ spec.tests_equality comparison }
{
    matches!(comparison, Comparison::Equal | Comparison::NotEqual)
}

/// The order of two values of one type; none where one is NULL.
pub fn order(a: &Value, b: &Value) -> Option<Ordering>
    ensures { result ≡ spec.order a.now b.now }
{
    match (a, b) {
        (Value::Num(a), Value::Num(b)) => Some(a.cmp(b)),
        (Value::Text(a), Value::Text(b)) => Some(a.as_slice().cmp(b.as_slice())),
        (Value::Bool(a), Value::Bool(b)) => Some(a.cmp(b)),
        _ => None,
    }
}

/// `x = y`, `x <> y`, `x < y`, `x <= y`, `x > y` and `x >= y`
pub fn compare(comparison: Comparison, a: &Value, b: &Value) -> Outcome
    ensures { result ≡ spec.compare comparison a.now b.now }
{
    let boolean = is_boolean(a) || is_boolean(b);
    if !same_type(a, b) || boolean && !tests_equality(comparison) {
        return Err(WRONG_OPERANDS);
    }
    match order(a, b) {
        Some(order) => Ok(Value::Bool(holds(comparison, order))),
        None => Ok(Value::Null),
    }
}
