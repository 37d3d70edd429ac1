//! Assignments to columns and variables.

ghost use Rattle.std.specs.Prelude.{◌≡◌, ◌^◌, nat_lt, unsigned_abs};
ghost use Rattle.ebr_value.specs.Forms as spec;

use crate::form::Place;
use crate::outcome::WRONG_OPERANDS;
use ebr_base::{Code, ColType, Value};

/// The code that the assignment of a value raises; none where the type takes it.
///
/// In `Sql` a column is assigned: ORA-01438 where a number has more digits, ORA-12899 where a text has more bytes. In `Code`
/// a variable is: ORA-06502 for both. A value of another type is ORA-00932, and NULL fits every type.
///
/// Oracle Database SQL Language Reference 19c, Data Types.
pub fn fits(v: &Value, ty: &ColType, place: Place) -> Option<Code>
    ensures { result ≡ spec.fits v.now ty.now place }
{
    match (v, ty) {
        (Value::Null, _) => None,
        (Value::Num(n), ColType::Num(digits)) => {
            if has_digits(*n, *digits) {
                None
            } else {
                Some(many_digits(place))
            }
        }
        (Value::Text(text), ColType::Text(bytes)) => {
            if text.as_slice().len() <= *bytes as usize {
                None
            } else {
                Some(many_bytes(place))
            }
        }
        _ => Some(WRONG_OPERANDS),
    }
}

/// Whether a number has at most so many digits.
fn has_digits(n: i64, digits: u8) -> bool
    ensures { result ≡ nat_lt (unsigned_abs n) (10 ^ digits) }
{
    match 10_u64.checked_pow(digits as u32) {
        Some(end) => n.unsigned_abs() < end,
        None => true,
    }
}

/// The code of a number with too many digits.
fn many_digits(place: Place) -> Code
    ensures { result ≡ spec.many_digits place }
{
    match place {
        Place::Sql => Code::Ora(1438),
        Place::Code => Code::Ora(6502),
    }
}

/// The code of a text with too many bytes.
fn many_bytes(place: Place) -> Code
    ensures { result ≡ spec.many_bytes place }
{
    match place {
        Place::Sql => Code::Ora(12899),
        Place::Code => Code::Ora(6502),
    }
}
