//! The operands of built-in functions.

ghost use Rattle.std.specs.Prelude.{◌≡◌};
ghost use Rattle.ebr_sqlcheck.specs.Functions as spec;

use crate::value_type::ValueType;
use ebr_value::Builtin;

/// Whether a function takes so many operands.
pub fn takes_count(f: Builtin, count: usize) -> bool
    ensures { result ≡ spec.takes_count f count }
{
    match f {
        Builtin::Mod | Builtin::Nvl | Builtin::Instr => count == 2,
        Builtin::Substr => count == 2 || count == 3,
        _ => count == 1,
    }
}

/// Whether the operands have any one type, which is that of what the function gives too.
pub fn takes_any_type(f: Builtin) -> bool
    ensures { result ≡ spec.takes_any_type f }
{
    match f {
        Builtin::Nvl => true,
        _ => false,
    }
}

/// The type of the operand at a place, counted from 0, of a function that doesn't take any type.
pub fn taken(f: Builtin, at: usize) -> ValueType
    ensures { result ≡ spec.taken f at }
{
    match f {
        Builtin::Mod | Builtin::Abs | Builtin::Sign | Builtin::ToChar | Builtin::Negate => {
            ValueType::Number
        }
        Builtin::Not => ValueType::Boolean,
        Builtin::Substr => taken_by_substr(at),
        _ => ValueType::Text,
    }
}

fn taken_by_substr(at: usize) -> ValueType
    ensures { result ≡ spec.taken Builtin.Substr at }
{
    if at == 0 {
        ValueType::Text
    } else {
        ValueType::Number
    }
}

/// The type of what a function gives that doesn't take any type.
pub fn builtin_type(f: Builtin) -> ValueType
    ensures { result ≡ spec.builtin_type f }
{
    match f {
        Builtin::Mod
        | Builtin::Abs
        | Builtin::Sign
        | Builtin::Length
        | Builtin::Instr
        | Builtin::ToNumber
        | Builtin::Negate => ValueType::Number,
        Builtin::Not | Builtin::IsNull => ValueType::Boolean,
        _ => ValueType::Text,
    }
}
