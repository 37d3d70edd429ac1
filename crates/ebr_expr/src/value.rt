//! Values without operands, and what is done with a value once it is computed.

ghost use Rattle.std.specs.Prelude.{slice_get, pos, Ok};
ghost use Rattle.ebr_base.specs.Answers.{Answers};
ghost use Rattle.ebr_base.specs.Values.{text_value};
ghost use Rattle.ebr_value.specs.Outcomes.{whole};
ghost use Rattle.ebr_expr.specs.Operators as operators;
ghost use Rattle.ebr_expr.specs.Evaluation as spec;

use crate::operand::Operand;
use crate::row::Row;
use ebr_base::{Bytes, CloneIn, Code, Stop, Value};
use ebr_value::{Builtin, Place, function};
use std::alloc::Global;
use std::slice;

/// A name that nothing has here.
pub const UNKNOWN: Code = Code::Ora(904);
/// An operand isn't of the type that the form takes.
const WRONG_OPERANDS: Code = Code::Ora(932);
/// A number has more than 18 digits.
const OUT_OF_RANGE: Code = Code::Ora(1426);

/// The greatest number.
const GREATEST: u64 = 999_999_999_999_999_999;

/// The value of a number as it is written.
pub fn number(n: u64) -> Result<Value, Stop>
    ensures { Answers result (whole (pos n)) }
{
    if n <= GREATEST {
        Ok(Value::Num(n as i64))
    } else {
        Err(Stop::Raised(OUT_OF_RANGE))
    }
}

/// The value of a text as it is written.
pub fn text(alloc: Global, content: &Bytes) -> Result<Value, Stop>
    ensures { Answers result (Ok (text_value content.now)) }
{
    let copy = content.clone_in(alloc)?;
    Ok(Value::text(copy))
}

/// The value at a place of a row, counted from 0.
pub fn in_row<'a>(row: &'a Row<'_, '_>, at: u32) -> Result<Operand<'a>, Stop>
    ensures { Answers result (spec.known (slice_get row.now at)) }
{
    match row.value(at as usize) {
        Some(value) => Ok(Operand::lent(value)),
        None => Err(Stop::Raised(UNKNOWN)),
    }
}

/// The value at a place of binds, counted from 0.
pub fn in_binds(binds: &[Value], at: u32) -> Result<Operand<'_>, Stop>
    ensures { Answers result (spec.known (slice_get binds.now at)) }
{
    match binds.get(at as usize) {
        Some(value) => Ok(Operand::lent(value)),
        None => Err(Stop::Raised(UNKNOWN)),
    }
}

/// A copy of the value at a place of a row.
pub fn row_value(alloc: Global, row: &Row<'_, '_>, at: u32) -> Result<Value, Stop>
    ensures { Answers result (spec.known (slice_get row.now at)) }
{
    let value = in_row(row, at)?;
    value.own(alloc)
}

/// A copy of the value at a place of binds.
pub fn bind_value(alloc: Global, binds: &[Value], at: u32) -> Result<Value, Stop>
    ensures { Answers result (spec.known (slice_get binds.now at)) }
{
    let value = in_binds(binds, at)?;
    value.own(alloc)
}

/// `+a`
pub fn unsigned(a: Value) -> Result<Value, Stop>
    ensures { Answers result (operators.unsigned a) }
{
    match a {
        Value::Null | Value::Num(_) => Ok(a),
        _ => Err(Stop::Raised(WRONG_OPERANDS)),
    }
}

/// NOT of a value where it is negated.
#[tactic(auto, unfolding(crate::specs::Evaluation::not_if, crate::specs::Evaluation::of_one))]
pub fn not_if(alloc: Global, negated: bool, value: Value) -> Result<Value, Stop>
    ensures { Answers result (spec.not_if negated (Ok value)) }
{
    if negated {
        function(alloc, Builtin::Not, slice::from_ref(&value), Place::Sql)
    } else {
        Ok(value)
    }
}
