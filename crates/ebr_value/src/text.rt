//! Printed texts, and functions of whole texts.
//!
//! Oracle Database SQL Language Reference 19c, Concatenation Operator and Character Functions.

ghost use Rattle.std.specs.Prelude.{◌≡◌, ◌++◌, map, IfOk, OnOk};
ghost use Rattle.std.specs.Fmt.{signed_decimal};
ghost use Rattle.ebr_value.specs.Texts as spec;

use crate::form::Place;
use crate::logic::is_boolean;
use crate::number::count;
use crate::outcome::{Outcome, WRONG_OPERANDS};
use ebr_base::{Bytes, Code, NoMemory, Value, to_upper_case};
use std::alloc::Global;

/// The most bytes of a joined text.
fn longest(place: Place) -> usize
    ensures { result ≡ spec.longest place }
{
    match place {
        Place::Sql => 4_000,
        Place::Code => 32_767,
    }
}

/// The code of a joined text that is too long.
fn too_long(place: Place) -> Code
    ensures { result ≡ spec.too_long place }
{
    match place {
        Place::Sql => Code::Ora(1489),
        Place::Code => Code::Ora(6502),
    }
}

/// The text that a value is printed as: no bytes for NULL, a number in decimal with `-` before a negative one, TRUE or
/// FALSE for a BOOLEAN.
pub fn text_of(alloc: Global, v: &Value) -> Result<Bytes, NoMemory>
    ensures { IfOk result (λ text. text ≡ spec.printed v.now) }
{
    let mut text = Bytes::new(alloc);
    print(alloc, v, &mut text)?;
    Ok(text)
}

/// Adds the printed text of a value at the end.
fn print(alloc: Global, v: &Value, out: &mut Bytes) -> Result<(), NoMemory>
    ensures { OnOk result (out.new ≡ out.old ++ spec.printed v.now) }
{
    match v {
        Value::Null => Ok(()),
        Value::Num(n) => out.extend(decimal(alloc, *n)?.as_slice()),
        Value::Text(text) => out.extend(text.as_slice()),
        Value::Bool(true) => out.extend(b"TRUE"),
        Value::Bool(false) => out.extend(b"FALSE"),
    }
}

/// The decimal text of a number.
fn decimal(alloc: Global, n: i64) -> Result<Bytes, NoMemory>
    ensures { IfOk result (λ text. text ≡ signed_decimal n) }
{
    let text = format!(in alloc; "{n}")?;
    Bytes::from_slice(alloc, text.as_bytes())
}

/// `x || y`
pub fn concatenation(alloc: Global, a: &Value, b: &Value, place: Place) -> Result<Outcome, NoMemory>
    ensures { IfOk result (λ outcome. outcome ≡ spec.concatenation place a.now b.now) }
{
    if is_boolean(a) || is_boolean(b) {
        return Ok(Err(WRONG_OPERANDS));
    }
    let mut joined = Bytes::new(alloc);
    print(alloc, a, &mut joined)?;
    print(alloc, b, &mut joined)?;
    if joined.len() > longest(place) {
        return Ok(Err(too_long(place)));
    }
    Ok(Ok(Value::text(joined)))
}

/// `UPPER(x)`
pub fn upper_case(alloc: Global, a: &Value) -> Result<Outcome, NoMemory>
    ensures { IfOk result (λ outcome. outcome ≡ spec.upper_case a.now) }
{
    match a {
        Value::Text(text) => Ok(Ok(Value::text(to_upper_case(alloc, text.as_slice())?))),
        Value::Null => Ok(Ok(Value::Null)),
        _ => Ok(Err(WRONG_OPERANDS)),
    }
}

/// `LOWER(x)`
pub fn lower_case(alloc: Global, a: &Value) -> Result<Outcome, NoMemory>
    ensures { IfOk result (λ outcome. outcome ≡ spec.lower_case a.now) }
{
    match a {
        Value::Text(text) => Ok(Ok(Value::text(to_lower_case(alloc, text.as_slice())?))),
        Value::Null => Ok(Ok(Value::Null)),
        _ => Ok(Err(WRONG_OPERANDS)),
    }
}

/// A copy with its ASCII letters in lower case.
fn to_lower_case(alloc: Global, bytes: &[u8]) -> Result<Bytes, NoMemory>
    ensures { IfOk result (λ copy. copy ≡ map spec.lower bytes.now) }
{
    let mut copy = Bytes::with_room(alloc, bytes.len())?;
    for byte in bytes {
        copy.push(byte.to_ascii_lowercase())?;
    }
    Ok(copy)
}

/// `LENGTH(x)`
pub fn length_of(a: &Value) -> Outcome
    ensures { result ≡ spec.length_of a.now }
{
    match a {
        Value::Text(text) => count(text.as_slice().len()),
        Value::Null => Ok(Value::Null),
        _ => Err(WRONG_OPERANDS),
    }
}

/// `TO_CHAR(a)`
pub fn to_char(alloc: Global, a: &Value) -> Result<Outcome, NoMemory>
    ensures { IfOk result (λ outcome. outcome ≡ spec.to_char a.now) }
{
    match a {
        Value::Num(n) => Ok(Ok(Value::text(decimal(alloc, *n)?))),
        Value::Null => Ok(Ok(Value::Null)),
        _ => Ok(Err(WRONG_OPERANDS)),
    }
}
