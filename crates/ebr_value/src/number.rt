//! Arithmetic.
//!
//! Oracle Database SQL Language Reference 19c, Arithmetic Operators and Numeric Functions. That numbers are whole and
//! have at most 18 digits is own.

ghost use Rattle.std.specs.Prelude.{◌≡◌, ℤ, pos, SomeIff, FitsSigned};
ghost use Rattle.std.specs.Int.{w64};
ghost use Rattle.ebr_value.specs.Outcomes.{whole};
ghost use Rattle.ebr_value.specs.Numbers as spec;

use crate::outcome::{OUT_OF_RANGE, Outcome, WRONG_OPERANDS, ZERO_DIVISOR};
use ebr_base::{Code, Value};

/// The greatest absolute value of a number.
const GREATEST: u64 = 999_999_999_999_999_999;

/// The value of a whole number; none is one that 64 bits don't hold.
fn whole(n: Option<i64>) -> Outcome
    ensures { (z : ℤ) → SomeIff n (FitsSigned w64 z) z → result ≡ whole z }
{
    match n {
        Some(n) if n.unsigned_abs() <= GREATEST => Ok(Value::Num(n)),
        _ => Err(OUT_OF_RANGE),
    }
}

/// The value of a count.
pub fn count(n: usize) -> Outcome
    ensures { result ≡ whole (pos n) }
{
    if n as u64 <= GREATEST {
        Ok(Value::Num(n as i64))
    } else {
        Err(OUT_OF_RANGE)
    }
}

/// The number of an operand; none where it is NULL.
fn one_number(a: &Value) -> Result<Option<i64>, Code>
    ensures { result ≡ spec.one_number a.now }
{
    match a {
        Value::Num(a) => Ok(Some(*a)),
        Value::Null => Ok(None),
        _ => Err(WRONG_OPERANDS),
    }
}

/// The numbers of two operands; none where one is NULL.
fn two_numbers(a: &Value, b: &Value) -> Result<Option<(i64, i64)>, Code>
    ensures { result ≡ spec.two_numbers a.now b.now }
{
    match (a, b) {
        (Value::Num(a), Value::Num(b)) => Ok(Some((*a, *b))),
        (Value::Null | Value::Num(_), Value::Null | Value::Num(_)) => Ok(None),
        _ => Err(WRONG_OPERANDS),
    }
}

/// `a + b`
pub fn sum(a: &Value, b: &Value) -> Outcome
    ensures { result ≡ spec.sum a.now b.now }
{
    match two_numbers(a, b)? {
        Some((a, b)) => whole(a.checked_add(b)),
        None => Ok(Value::Null),
    }
}

/// `a - b`
pub fn difference(a: &Value, b: &Value) -> Outcome
    ensures { result ≡ spec.difference a.now b.now }
{
    match two_numbers(a, b)? {
        Some((a, b)) => whole(a.checked_sub(b)),
        None => Ok(Value::Null),
    }
}

/// `a * b`
pub fn product(a: &Value, b: &Value) -> Outcome
    ensures { result ≡ spec.product a.now b.now }
{
    match two_numbers(a, b)? {
        Some((a, b)) => whole(a.checked_mul(b)),
        None => Ok(Value::Null),
    }
}

/// `TRUNC(a / b)`
pub fn quotient(a: &Value, b: &Value) -> Outcome
    ensures { result ≡ spec.quotient a.now b.now }
{
    match two_numbers(a, b)? {
        Some((a, b)) => quotient_of(a, b),
        None => Ok(Value::Null),
    }
}

/// The quotient of two numbers, cut toward zero.
fn quotient_of(a: i64, b: i64) -> Outcome
    ensures { result ≡ spec.quotient_of a b }
{
    if b == 0 {
        return Err(ZERO_DIVISOR);
    }
    whole(a.checked_div(b))
}

/// `MOD(a, b)`
pub fn remainder(a: &Value, b: &Value) -> Outcome
    ensures { result ≡ spec.remainder a.now b.now }
{
    match two_numbers(a, b)? {
        Some((a, b)) => remainder_of(a, b),
        None => Ok(Value::Null),
    }
}

/// What the quotient of two numbers leaves of the first.
fn remainder_of(a: i64, b: i64) -> Outcome
    ensures { result ≡ spec.remainder_of a b }
{
    if b == 0 {
        return whole(Some(a));
    }
    whole(Some(a.wrapping_rem(b)))
}

/// `-a`
pub fn negation(a: &Value) -> Outcome
    ensures { result ≡ spec.negation a.now }
{
    match one_number(a)? {
        Some(a) => whole(a.checked_neg()),
        None => Ok(Value::Null),
    }
}

/// `ABS(a)`
pub fn absolute(a: &Value) -> Outcome
    ensures { result ≡ spec.absolute a.now }
{
    match one_number(a)? {
        Some(a) => whole(a.checked_abs()),
        None => Ok(Value::Null),
    }
}

/// `SIGN(a)`
pub fn sign(a: &Value) -> Outcome
    ensures { result ≡ spec.sign a.now }
{
    match one_number(a)? {
        Some(a) => Ok(Value::Num(a.signum())),
        None => Ok(Value::Null),
    }
}
