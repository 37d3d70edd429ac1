//! The types of values.

ghost use Rattle.std.specs.Prelude.{◌≡◌};
ghost use Rattle.ebr_sqlcheck.specs.Types as spec;

use ebr_base::{Bytes, ColType, Value};

/// The type of a value. Where a type isn't known, as that of NULL, it is none, and fits every type.
#[derive(Clone, Copy, Debug, PartialEq, Eq)]
pub enum ValueType {
    Number,
    Text,
    Boolean,
}

/// The type of a column's values.
pub fn type_of_column(ty: ColType) -> ValueType
    ensures { result ≡ spec.type_of_column ty }
{
    match ty {
        ColType::Num(_) => ValueType::Number,
        ColType::Text(_) => ValueType::Text,
    }
}

/// The type of a value; none for NULL.
pub fn type_of_value(value: &Value) -> Option<ValueType>
    ensures { result ≡ spec.type_of_value value.now }
{
    match value {
        Value::Null => None,
        Value::Num(_) => Some(ValueType::Number),
        Value::Text(_) => Some(ValueType::Text),
        Value::Bool(_) => Some(ValueType::Boolean),
    }
}

/// The type of a text as it is written; the empty one is NULL.
pub fn type_of_text(content: &Bytes) -> Option<ValueType>
    ensures { result ≡ spec.type_of_text content.now }
{
    match content.as_slice().first() {
        Some(_) => Some(ValueType::Text),
        None => None,
    }
}

fn same_type(a: ValueType, b: ValueType) -> bool
    ensures { result ≡ spec.same_type a b }
{
    match (a, b) {
        (ValueType::Number, ValueType::Number) => true,
        (ValueType::Text, ValueType::Text) => true,
        (ValueType::Boolean, ValueType::Boolean) => true,
        _ => false,
    }
}

/// Whether two types are one, as far as they are known.
pub fn alike(a: Option<ValueType>, b: Option<ValueType>) -> bool
    ensures { result ≡ spec.alike a b }
{
    match (a, b) {
        (Some(a), Some(b)) => same_type(a, b),
        _ => true,
    }
}

/// Whether it is a number or a text, which columns hold and which have an order.
pub fn is_plain(ty: Option<ValueType>) -> bool
    ensures { result ≡ spec.is_plain ty }
{
    match ty {
        None | Some(ValueType::Number) | Some(ValueType::Text) => true,
        Some(ValueType::Boolean) => false,
    }
}

/// The first of two types that is known.
pub fn first_known(a: Option<ValueType>, b: Option<ValueType>) -> Option<ValueType>
    ensures { result ≡ spec.first_known a b }
{
    match a {
        Some(_) => a,
        None => b,
    }
}

/// The type of what may not be there; it isn't known where nothing is there.
pub fn type_in(found: Option<Option<ValueType>>) -> Option<ValueType>
    ensures { result ≡ spec.type_in found }
{
    match found {
        Some(ty) => ty,
        None => None,
    }
}
