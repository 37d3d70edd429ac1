//! TO_NUMBER.
//!
//! Oracle Database SQL Language Reference 19c, TO_NUMBER. That a number is written by spaces, a sign, at most 18 digits
//! and spaces is own.

ghost use Rattle.std.specs.Prelude.{◌≡◌, ◌≤◌, ◌<◌, length, true, IfSome};
ghost use Rattle.std.specs.List.{prefix_len, list_all};
ghost use Rattle.ebr_base.specs.Word.{is_digit};
ghost use Rattle.ebr_value.specs.Numerals as spec;

use crate::form::Place;
use crate::outcome::{Outcome, WRONG_OPERANDS};
use ebr_base::{Code, Value, rest_from};

/// The most digits of a number.
const MOST_DIGITS: usize = 18;

/// `TO_NUMBER(x)`
pub fn to_number(a: &Value, place: Place) -> Outcome
    ensures { result ≡ spec.to_number place a.now }
{
    match a {
        Value::Text(text) => match read_number(text.as_slice()) {
            Some(n) => Ok(Value::Num(n)),
            None => Err(no_number(place)),
        },
        Value::Null => Ok(Value::Null),
        _ => Err(WRONG_OPERANDS),
    }
}

/// The code of a text that writes no number.
fn no_number(place: Place) -> Code
    ensures { result ≡ spec.no_number place }
{
    match place {
        Place::Sql => Code::Ora(1722),
        Place::Code => Code::Ora(6502),
    }
}

/// The number that a text writes, if it writes one.
fn read_number(text: &[u8]) -> Option<i64>
    ensures { result ≡ spec.read_number text.now }
{
    read_signed(rest_from(text, space_count(text)))
}

/// The number behind the spaces in front.
fn read_signed(text: &[u8]) -> Option<i64>
    ensures { result ≡ spec.read_signed text.now }
{
    if text.is_empty() {
        return None;
    }
    let n = match text[0] {
        b'+' => read_digits(rest_from(text, 1))? as i64,
        b'-' => -(read_digits(rest_from(text, 1))? as i64),
        _ => read_digits(text)? as i64,
    };
    Some(n)
}

/// The number that digits in front spell, where only spaces follow them.
fn read_digits(text: &[u8]) -> Option<u64>
    ensures value { result ≡ spec.read_digits text.now }
    ensures small { IfSome result (λ n. n < 1000000000000000000) }
{
    let length = digit_count(text);
    if length == 0 || length > MOST_DIGITS || !is_blank(rest_from(text, length)) {
        return None;
    }
    Some(decimal(&text[..length]))
}

/// How many spaces stand in front.
fn space_count(text: &[u8]) -> usize
    ensures value { result ≡ prefix_len spec.is_space text.now }
    ensures within { result ≤ length text.now }
{
    text.iter().take_while(|byte| **byte == b' ').count()
}

/// How many digits stand in front.
fn digit_count(text: &[u8]) -> usize
    ensures value { result ≡ prefix_len is_digit text.now }
    ensures within { result ≤ length text.now }
{
    text.iter().take_while(|byte| byte.is_ascii_digit()).count()
}

/// Whether a text has spaces alone.
fn is_blank(text: &[u8]) -> bool
    ensures { result ≡ list_all spec.is_space text.now }
{
    text.iter().all(|byte| *byte == b' ')
}

/// The number that digits spell.
fn decimal(digits: &[u8]) -> u64
    requires all { list_all is_digit digits.now ≡ true }
    requires few { length digits.now ≤ 18 }
    ensures value { result ≡ spec.decimal digits.now }
    ensures small { result < 1000000000000000000 }
{
    let mut value = 0;
    for byte in digits {
        value = value * 10 + (*byte - b'0') as u64;
    }
    value
}
