//! The calls that compute operators and built-in functions.

ghost use Rattle.std.specs.Prelude.{◌≡◌, ◌∷◌, [], ◌<◌, ℕ, List, length, true, IfOk, OnErr};
ghost use Rattle.ebr_base.specs.Answers.{Answers};
ghost use Rattle.ebr_value.specs.inside.Answers.{answer, answer_of};
ghost use Rattle.ebr_value.specs.Forms as spec;

use crate::comparison::{Comparison, compare};
use crate::form::{BinOp, Builtin, Place};
use crate::logic::{conjunction, disjunction, inverse, is_null, same_type};
use crate::number::{absolute, difference, negation, product, quotient, remainder, sign, sum};
use crate::numeral::to_number;
use crate::outcome::{Outcome, WRONG_OPERANDS};
use crate::part::{instr, substr, substr_rest};
use crate::pattern::likeness;
use crate::text::{concatenation, length_of, lower_case, to_char, upper_case};
use ebr_base::{CloneIn, NoMemory, Stop, Value};
use std::alloc::Global;

/// What an operator gives of two values.
///
/// An operand of a type that the operator doesn't take is ORA-00932 before all else; NULL has every type, and nothing is
/// asked of the second operand of FALSE AND and of TRUE OR. A whole number of more than 18 digits is ORA-01426, and a zero
/// divisor ORA-01476. A joined text of more than 4,000 bytes in SQL is ORA-01489, and of more than 32,767 bytes in code
/// ORA-06502.
///
/// Oracle Database SQL Language Reference 19c, Operators and Conditions.
pub fn binary(alloc: Global, op: BinOp, a: &Value, b: &Value, place: Place) -> Result<Value, Stop>
    // The answer is what the operator gives, unless memory runs out.
    ensures value { Answers result (spec.binary op a.now b.now place) }
    // Only `||` takes memory.
    ensures memory { spec.OnWant result (spec.joins op ≡ true) }
    // LIKE is TRUE of just the texts that are like the pattern.
    ensures like { (text pattern : List ℕ) → op ≡ BinOp.Like → a.now ≡ Value.Text text → b.now ≡ Value.Text pattern → spec.TellsLike result text pattern }
{
    answer(match op {
        BinOp::Add => sum(a, b),
        BinOp::Subtract => difference(a, b),
        BinOp::Multiply => product(a, b),
        BinOp::Quotient => quotient(a, b),
        BinOp::Concatenate => return answer_of(concatenation(alloc, a, b, place)),
        BinOp::Equal => compare(Comparison::Equal, a, b),
        BinOp::NotEqual => compare(Comparison::NotEqual, a, b),
        BinOp::Less => compare(Comparison::Less, a, b),
        BinOp::LessOrEqual => compare(Comparison::LessOrEqual, a, b),
        BinOp::Greater => compare(Comparison::Greater, a, b),
        BinOp::GreaterOrEqual => compare(Comparison::GreaterOrEqual, a, b),
        BinOp::And => conjunction(a, b),
        BinOp::Or => disjunction(a, b),
        BinOp::Like => likeness(a, b),
    })
}

/// What a built-in function gives of its operands.
///
/// Operands of a type or a number that the function doesn't take are ORA-00932 before all else; NULL has every type. A whole
/// number of more than 18 digits is ORA-01426. A text that writes no number is ORA-01722 in SQL and ORA-06502 in code.
///
/// Oracle Database SQL Language Reference 19c, Functions.
pub fn function(alloc: Global, f: Builtin, args: &[Value], place: Place) -> Result<Value, Stop>
    // The answer is what the function gives, unless memory runs out.
    ensures value { Answers result (spec.function f args.now place) }
    // Only what makes a text or a copy takes memory.
    ensures memory { spec.OnWant result (spec.makes_text f ≡ true) }
    // TO_NUMBER gives just the number that the text writes.
    ensures numeral { (text : List ℕ) → f ≡ Builtin.ToNumber → args.now ≡ Value.Text text ∷ [] → spec.TellsNumber result text place }
    // INSTR gives the first place where the second text stands.
    ensures place { (text y : List ℕ) → f ≡ Builtin.Instr → args.now ≡ Value.Text text ∷ Value.Text y ∷ [] → length text < 999999999999999999 → spec.TellsPlace result text y }
{
    match args {
        [a] => answer_of(of_one(alloc, f, a, place)),
        [a, b] => answer_of(of_two(alloc, f, a, b)),
        [a, b, c] => answer_of(of_three(alloc, f, a, b, c)),
        _ => answer(Err(WRONG_OPERANDS)),
    }
}

/// The answer that an outcome is.
fn answer(outcome: Outcome) -> Result<Value, Stop>
    ensures { result ≡ answer outcome }
{
    match outcome {
        Ok(v) => Ok(v),
        Err(code) => Err(Stop::Raised(code)),
    }
}

/// The answer that an outcome is, if there was memory for it.
fn answer_of(outcome: Result<Outcome, NoMemory>) -> Result<Value, Stop>
    ensures { result ≡ answer_of outcome }
{
    match outcome {
        Ok(outcome) => answer(outcome),
        Err(NoMemory) => Err(Stop::NoMemory),
    }
}

/// A function of one operand.
fn of_one(alloc: Global, f: Builtin, a: &Value, place: Place) -> Result<Outcome, NoMemory>
    ensures value { IfOk result (λ outcome. outcome ≡ spec.of_one f a.now place) }
    ensures memory { OnErr result (spec.makes_text f ≡ true) }
{
    Ok(match f {
        Builtin::Negate => negation(a),
        Builtin::Not => inverse(a),
        Builtin::IsNull => Ok(Value::Bool(is_null(a))),
        Builtin::Abs => absolute(a),
        Builtin::Sign => sign(a),
        Builtin::Length => length_of(a),
        Builtin::ToNumber => to_number(a, place),
        Builtin::Upper => return upper_case(alloc, a),
        Builtin::Lower => return lower_case(alloc, a),
        Builtin::ToChar => return to_char(alloc, a),
        _ => Err(WRONG_OPERANDS),
    })
}

/// A function of two operands.
fn of_two(alloc: Global, f: Builtin, a: &Value, b: &Value) -> Result<Outcome, NoMemory>
    ensures value { IfOk result (λ outcome. outcome ≡ spec.of_two f a.now b.now) }
    ensures memory { OnErr result (spec.makes_text f ≡ true) }
{
    match f {
        Builtin::Mod => Ok(remainder(a, b)),
        Builtin::Nvl => nvl(alloc, a, b),
        Builtin::Substr => substr_rest(alloc, a, b),
        Builtin::Instr => Ok(instr(a, b)),
        _ => Ok(Err(WRONG_OPERANDS)),
    }
}

/// The function of three operands.
fn of_three(alloc: Global, f: Builtin, a: &Value, b: &Value, c: &Value) -> Result<Outcome, NoMemory>
    ensures value { IfOk result (λ outcome. outcome ≡ spec.of_three f a.now b.now c.now) }
    ensures memory { OnErr result (spec.makes_text f ≡ true) }
{
    match f {
        Builtin::Substr => substr(alloc, a, b, c),
        _ => Ok(Err(WRONG_OPERANDS)),
    }
}

/// `NVL(x, y)`
fn nvl(alloc: Global, x: &Value, y: &Value) -> Result<Outcome, NoMemory>
    ensures { IfOk result (λ outcome. outcome ≡ spec.nvl x.now y.now) }
{
    if !same_type(x, y) {
        return Ok(Err(WRONG_OPERANDS));
    }
    let known = if is_null(x) { y } else { x };
    Ok(Ok(known.clone_in(alloc)?))
}
