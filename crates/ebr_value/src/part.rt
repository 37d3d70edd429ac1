//! SUBSTR and INSTR.
//!
//! Oracle Database SQL Language Reference 19c, SUBSTR and INSTR. Places are counted in bytes.

ghost use Rattle.std.specs.Prelude.{◌≡◌, ◌≢◌, [], pos, length, IfOk};
ghost use Rattle.ebr_value.specs.Places.{start, place_of};
ghost use Rattle.ebr_value.specs.inside.Skips.{skipped};
ghost use Rattle.ebr_value.specs.Texts as spec;

use crate::number::count;
use crate::outcome::{Outcome, WRONG_OPERANDS};
use ebr_base::{Bytes, NoMemory, Value, rest_from};
use memchr::memmem;
use std::alloc::Global;

/// `SUBSTR(x, p, c)`
pub fn substr(alloc: Global, x: &Value, p: &Value, c: &Value) -> Result<Outcome, NoMemory>
    ensures { IfOk result (λ outcome. outcome ≡ spec.substr x.now p.now c.now) }
{
    match (x, p, c) {
        (Value::Text(x), Value::Num(p), Value::Num(c)) => Ok(Ok(part(
            alloc,
            x.as_slice(),
            *p,
            *c,
        )?)),
        (Value::Null | Value::Text(_), Value::Null | Value::Num(_), Value::Null | Value::Num(_)) =>
            Ok(Ok(Value::Null)),
        _ => Ok(Err(WRONG_OPERANDS)),
    }
}

/// `SUBSTR(x, p)`
pub fn substr_rest(alloc: Global, x: &Value, p: &Value) -> Result<Outcome, NoMemory>
    ensures { IfOk result (λ outcome. outcome ≡ spec.substr_rest x.now p.now) }
{
    match (x, p) {
        (Value::Text(x), Value::Num(p)) => Ok(Ok(rest(alloc, x.as_slice(), *p)?)),
        (Value::Null | Value::Text(_), Value::Null | Value::Num(_)) => Ok(Ok(Value::Null)),
        _ => Ok(Err(WRONG_OPERANDS)),
    }
}

/// How many bytes stand before the place where a part begins; none where that lies outside the text.
fn skipped(length: usize, p: i64) -> Option<usize>
    ensures { result ≡ skipped length p }
{
    let place = p.unsigned_abs() as usize;
    if p < 0 {
        return if place <= length {
            Some(length - place)
        } else {
            None
        };
    }
    let skipped = place.saturating_sub(1);
    if skipped < length {
        Some(skipped)
    } else {
        None
    }
}

/// The part from a place on of at most c bytes.
fn part(alloc: Global, text: &[u8], p: i64, c: i64) -> Result<Value, NoMemory>
    ensures { IfOk result (λ v. v ≡ spec.part text.now (start (length text.now) p) c) }
{
    match skipped(text.len(), p) {
        Some(skipped) if c > 0 => {
            let rest = rest_from(text, skipped);
            let count = (c.unsigned_abs() as usize).min(rest.len());
            Ok(Value::text(Bytes::from_slice(alloc, &rest[..count])?))
        }
        _ => Ok(Value::Null),
    }
}

/// All that stands from a place on.
fn rest(alloc: Global, text: &[u8], p: i64) -> Result<Value, NoMemory>
    ensures { IfOk result (λ v. v ≡ spec.part text.now (start (length text.now) p) (pos (length text.now))) }
{
    match skipped(text.len(), p) {
        Some(skipped) => Ok(Value::text(Bytes::from_slice(alloc, rest_from(text, skipped))?)),
        None => Ok(Value::Null),
    }
}

/// `INSTR(x, y)`
pub fn instr(x: &Value, y: &Value) -> Outcome
    ensures { result ≡ spec.instr x.now y.now }
{
    match (x, y) {
        (Value::Text(x), Value::Text(y)) => count(place_of(x.as_slice(), y.as_slice())),
        (Value::Null | Value::Text(_), Value::Null | Value::Text(_)) => Ok(Value::Null),
        _ => Err(WRONG_OPERANDS),
    }
}

/// The first place of some bytes in a text, counted from 1, and 0 where there is none.
fn place_of(text: &[u8], some: &[u8]) -> usize
    requires { some.now ≢ [] }
    ensures { result ≡ place_of text.now some.now }
{
    match memmem::find(text, some) {
        Some(skipped) => skipped + 1,
        None => 0,
    }
}
