//! Three-valued logic.
//!
//! Oracle Database SQL Language Reference 19c, Logical Conditions and Null Conditions.

ghost use Rattle.std.specs.Prelude.{◌≡◌};
ghost use Rattle.ebr_value.specs.Logic as spec;

use crate::outcome::{Outcome, WRONG_OPERANDS};
use ebr_base::Value;

/// `x AND y`
pub fn conjunction(a: &Value, b: &Value) -> Outcome
    ensures { result ≡ spec.conjunction a.now b.now }
{
    match (a, b) {
        (Value::Bool(false), _) | (Value::Null, Value::Bool(false)) => Ok(Value::Bool(false)),
        (Value::Bool(true), Value::Bool(b)) => Ok(Value::Bool(*b)),
        (Value::Null, Value::Bool(true) | Value::Null) | (Value::Bool(true), Value::Null) => {
            Ok(Value::Null)
        }
        _ => Err(WRONG_OPERANDS),
    }
}

/// `x OR y`
pub fn disjunction(a: &Value, b: &Value) -> Outcome
    ensures { result ≡ spec.disjunction a.now b.now }
{
    match (a, b) {
        (Value::Bool(true), _) | (Value::Null, Value::Bool(true)) => Ok(Value::Bool(true)),
        (Value::Bool(false), Value::Bool(b)) => Ok(Value::Bool(*b)),
        (Value::Null, Value::Bool(false) | Value::Null) | (Value::Bool(false), Value::Null) => {
            Ok(Value::Null)
        }
        _ => Err(WRONG_OPERANDS),
    }
}

/// `NOT x`
pub fn inverse(a: &Value) -> Outcome
    ensures { result ≡ spec.inverse a.now }
{
    match a {
        Value::Bool(b) => Ok(Value::Bool(!*b)),
        Value::Null => Ok(Value::Null),
        _ => Err(WRONG_OPERANDS),
    }
}

/// `x IS NULL`
pub fn is_null(a: &Value) -> bool
    ensures { result ≡ spec.is_null a.now }
{
    matches!(a, Value::Null)
}

/// Whether a value is TRUE or FALSE.
pub fn is_boolean(a: &Value) -> bool
    ensures { result ≡ spec.is_boolean a.now }
{
    matches!(a, Value::Bool(_))
}

/// Whether two values have one type; NULL has every type.
pub fn same_type(a: &Value, b: &Value) -> bool
    ensures { result ≡ spec.same_type a.now b.now }
{
    matches!(
        (a, b),
        (Value::Null, _)
            | (_, Value::Null)
            | (Value::Num(_), Value::Num(_))
            | (Value::Text(_), Value::Text(_))
            | (Value::Bool(_), Value::Bool(_))
    )
}
