//! The values of expressions.

ghost use Rattle.std.specs.Prelude.{[], map, Ok};
ghost use Rattle.std.specs.List.{fold};
ghost use Rattle.ebr_base.specs.Answers.{Answers};
ghost use Rattle.ebr_expr.specs.Operators.{builtin_at, unsigned};
ghost use Rattle.ebr_expr.specs.Evaluation.{Eval, on, of_one, of_two, added, not_if, among, values, called};
ghost use Rattle.ebr_expr.specs.inside.Terms.{term_of};

use crate::operand::Operand;
use crate::operator::{added_by, builtin, compared_by, decided};
use crate::row::Row;
use crate::value::{
    UNKNOWN, bind_value, in_binds, in_row, not_if, number, row_value, text, unsigned,
};
use ebr_base::{List, Shared, Stop, Value};
use ebr_exprtree::{Addend, Expr, Path};
use ebr_value::{BinOp, Builtin, Place, binary, function};
use std::alloc::Global;
use std::slice;

/// The value of an expression for a row and for binds.
///
/// An expression gives what its kind makes of what its operands give, which are computed from left to right. The code is
/// the first that one of them or the form itself raises, as `ebr_value` has it for operators and functions: the right
/// operand isn't computed after FALSE AND and TRUE OR, nor the rest of BETWEEN and IN once the result is known. A number
/// of more than 18 digits is ORA-01426. What has no value in a statement of SQL is ORA-00904: a name, a place that the
/// row or the binds don't have, a function that isn't built in, and what only code has.
///
/// Oracle Database SQL Language Reference 19c, Expressions and Conditions.
#[cycle(expression)]
pub fn eval(alloc: Global, e: &Expr, row: &Row<'_, '_>, binds: &[Value]) -> Result<Value, Stop>
    // The answer is the value, or the code that is raised, unless memory runs out.
    ensures { Answers result (Eval e.now row.now binds.now) }
{
    match e {
        Expr::Number(n) => number(*n),
        Expr::Text(content) => text(alloc, content),
        Expr::Null => Ok(Value::Null),
        Expr::Boolean(b) => Ok(Value::Bool(*b)),
        Expr::Place(at) => row_value(alloc, row, *at),
        Expr::Bind(at) => bind_value(alloc, binds, *at),
        Expr::Plus(a) => plus(alloc, a.get(), row, binds),
        Expr::Minus(a) => of_one(alloc, Builtin::Negate, a.get(), row, binds),
        Expr::Product(a, more) => {
            let a = operand(alloc, a.get(), &*row, binds)?;
            chain(alloc, BinOp::Multiply, a.get(), more, row, binds)
        }
        Expr::Quotient(a, b) => {
            let a = operand(alloc, a.get(), &*row, binds)?;
            with_left(alloc, BinOp::Quotient, a.get(), b.get(), row, binds)
        }
        Expr::Sum(a, more) => {
            let a = operand(alloc, a.get(), &*row, binds)?;
            sum(alloc, a.get(), more, row, binds)
        }
        Expr::Compare(comparison, a, b) => {
            let a = operand(alloc, a.get(), &*row, binds)?;
            with_left(
                alloc,
                compared_by(*comparison),
                a.get(),
                b.get(),
                row,
                binds,
            )
        }
        Expr::IsNull(a, negated) => is_null(alloc, *negated, a.get(), row, binds),
        Expr::Between(x, a, b, negated) => {
            let x = operand(alloc, x.get(), &*row, binds)?;
            let is_above = with_left(alloc, BinOp::GreaterOrEqual, x.get(), a.get(), row, binds)?;
            between(alloc, *negated, &is_above, x.get(), b.get(), row, binds)
        }
        Expr::In(x, list, negated) => {
            let x = operand(alloc, x.get(), &*row, binds)?;
            is_among(alloc, *negated, x.get(), list, row, binds)
        }
        Expr::Like(a, b, negated) => {
            let a = operand(alloc, a.get(), &*row, binds)?;
            like(alloc, *negated, a.get(), b.get(), row, binds)
        }
        Expr::Not(a) => of_one(alloc, Builtin::Not, a.get(), row, binds),
        Expr::And(a, more) => {
            let a = operand(alloc, a.get(), &*row, binds)?;
            chain(alloc, BinOp::And, a.get(), more, row, binds)
        }
        Expr::Or(a, more) => {
            let a = operand(alloc, a.get(), &*row, binds)?;
            chain(alloc, BinOp::Or, a.get(), more, row, binds)
        }
        Expr::Call(path, operands) => call(alloc, path, operands, row, binds),
        Expr::Name(_) | Expr::Row(_, _) | Expr::SqlCode | Expr::Firing(_) | Expr::Attribute(_, _) =>
            Err(Stop::Raised(UNKNOWN)),
    }
}

/// The value of an operand. That of a place is lent.
#[cycle(expression)]
fn operand<'a>(
    alloc: Global,
    e: &Expr,
    row: &'a Row<'_, '_>,
    binds: &'a [Value],
) -> Result<Operand<'a>, Stop>
    ensures { Answers result (Eval e.now row.now binds.now) }
{
    match e {
        Expr::Place(at) => in_row(row, *at),
        Expr::Bind(at) => in_binds(binds, *at),
        _ => {
            let value = eval(alloc, e, row, binds)?;
            Ok(Operand::made(value))
        }
    }
}

/// A function of one operand.
#[cycle(expression)]
#[tactic(auto, unfolding(crate::specs::Evaluation::of_one))]
fn of_one(
    alloc: Global,
    f: Builtin,
    a: &Expr,
    row: &Row<'_, '_>,
    binds: &[Value],
) -> Result<Value, Stop>
    ensures { Answers result (of_one f (Eval a.now row.now binds.now)) }
{
    let a = operand(alloc, a, &*row, binds)?;
    function(alloc, f, slice::from_ref(a.get()), Place::Sql)
}

/// `+a`
#[cycle(expression)]
fn plus(alloc: Global, a: &Expr, row: &Row<'_, '_>, binds: &[Value]) -> Result<Value, Stop>
    ensures { Answers result (on unsigned (Eval a.now row.now binds.now)) }
{
    let a = eval(alloc, a, row, binds)?;
    unsigned(a)
}

/// `a IS NULL`
#[cycle(expression)]
#[tactic(auto, using(crate::proofs::Laws::not_if_raises))]
fn is_null(
    alloc: Global,
    negated: bool,
    a: &Expr,
    row: &Row<'_, '_>,
    binds: &[Value],
) -> Result<Value, Stop>
    ensures { Answers result (not_if negated (of_one Builtin.IsNull (Eval a.now row.now binds.now))) }
{
    let is_null = of_one(alloc, Builtin::IsNull, a, row, binds)?;
    not_if(alloc, negated, is_null)
}

/// An operator whose left operand has been computed.
#[cycle(expression)]
#[tactic(auto, unfolding(crate::specs::Evaluation::of_two))]
fn with_left(
    alloc: Global,
    op: BinOp,
    a: &Value,
    b: &Expr,
    row: &Row<'_, '_>,
    binds: &[Value],
) -> Result<Value, Stop>
    ensures { Answers result (of_two op (Ok a.now) (Eval b.now row.now binds.now)) }
{
    if let Some(value) = decided(op, a) {
        return Ok(value);
    }
    let b = operand(alloc, b, &*row, binds)?;
    binary(alloc, op, a, b.get(), Place::Sql)
}

/// AND or OR, where the left operand has been computed and the right one compares a value with another one.
#[cycle(expression)]
#[tactic(auto, unfolding(crate::specs::Evaluation::of_two))]
fn with_comparison(
    alloc: Global,
    op: BinOp,
    left: &Value,
    comparison: BinOp,
    x: &Value,
    y: &Expr,
    row: &Row<'_, '_>,
    binds: &[Value],
) -> Result<Value, Stop>
    ensures { Answers result (of_two op (Ok left.now) (of_two comparison (Ok x.now) (Eval y.now row.now binds.now))) }
{
    if let Some(value) = decided(op, left) {
        return Ok(value);
    }
    let right = with_left(alloc, comparison, x, y, row, binds)?;
    binary(alloc, op, left, &right, Place::Sql)
}

/// One operator between operands, from left to right, of which the first has been computed.
#[cycle(expression)]
fn chain(
    alloc: Global,
    op: BinOp,
    first: &Value,
    more: &List<Shared<Expr>>,
    row: &Row<'_, '_>,
    binds: &[Value],
) -> Result<Value, Stop>
    ensures { Answers result (fold (of_two op) (Ok first.now) (map (λ e. Eval e row.now binds.now) more.now)) }
{
    let mut value = Operand::lent(first);
    for e in more.as_slice() {
        let next = with_left(alloc, op, value.get(), e.get(), row, binds)?;
        value = Operand::made(next);
    }
    value.own(alloc)
}

/// The terms of a sum, from left to right, of which the first has been computed.
#[cycle(expression)]
fn sum(
    alloc: Global,
    first: &Value,
    more: &List<Addend>,
    row: &Row<'_, '_>,
    binds: &[Value],
) -> Result<Value, Stop>
    ensures { Answers result (fold added (Ok first.now) (map (λ t. term_of t row.now binds.now) more.now)) }
{
    let mut value = Operand::lent(first);
    for addend in more.as_slice() {
        let op = added_by(addend.operator);
        let next = with_left(alloc, op, value.get(), addend.term.get(), row, binds)?;
        value = Operand::made(next);
    }
    value.own(alloc)
}

/// `x BETWEEN a AND b`, where it is known whether x is at least a.
#[cycle(expression)]
#[tactic(auto, using(crate::proofs::Laws::not_if_raises))]
fn between(
    alloc: Global,
    negated: bool,
    is_above: &Value,
    x: &Value,
    b: &Expr,
    row: &Row<'_, '_>,
    binds: &[Value],
) -> Result<Value, Stop>
    ensures { Answers result (not_if negated (of_two BinOp.And (Ok is_above.now) (of_two BinOp.LessOrEqual (Ok x.now) (Eval b.now row.now binds.now)))) }
{
    let is_between = with_comparison(
        alloc,
        BinOp::And,
        is_above,
        BinOp::LessOrEqual,
        x,
        b,
        row,
        binds,
    )?;
    not_if(alloc, negated, is_between)
}

/// `x IN (..)`
#[cycle(expression)]
#[tactic(auto, using(crate::proofs::Laws::not_if_raises))]
fn is_among(
    alloc: Global,
    negated: bool,
    x: &Value,
    list: &List<Shared<Expr>>,
    row: &Row<'_, '_>,
    binds: &[Value],
) -> Result<Value, Stop>
    ensures { Answers result (not_if negated (among (map (λ e. Eval e row.now binds.now) list.now) x.now)) }
{
    let is_among = among(alloc, x, list, row, binds)?;
    not_if(alloc, negated, is_among)
}

/// Whether a value equals one of a list.
#[cycle(expression)]
#[tactic(auto, unfolding(crate::specs::Evaluation::among))]
fn among(
    alloc: Global,
    x: &Value,
    list: &List<Shared<Expr>>,
    row: &Row<'_, '_>,
    binds: &[Value],
) -> Result<Value, Stop>
    ensures { Answers result (among (map (λ e. Eval e row.now binds.now) list.now) x.now) }
{
    let mut found = Value::Bool(false);
    for e in list.as_slice() {
        found = with_comparison(
            alloc,
            BinOp::Or,
            &found,
            BinOp::Equal,
            x,
            e.get(),
            row,
            binds,
        )?;
    }
    Ok(found)
}

/// `a LIKE b`
#[cycle(expression)]
#[tactic(auto, using(crate::proofs::Laws::not_if_raises))]
fn like(
    alloc: Global,
    negated: bool,
    a: &Value,
    b: &Expr,
    row: &Row<'_, '_>,
    binds: &[Value],
) -> Result<Value, Stop>
    ensures { Answers result (not_if negated (of_two BinOp.Like (Ok a.now) (Eval b.now row.now binds.now))) }
{
    let is_like = with_left(alloc, BinOp::Like, a, b, row, binds)?;
    not_if(alloc, negated, is_like)
}

/// A function with its operands.
#[cycle(expression)]
#[tactic(auto, using(crate::proofs::Laws::of_known_values, crate::proofs::Laws::of_no_values), unfolding(crate::specs::Evaluation::called))]
fn call(
    alloc: Global,
    path: &Path,
    operands: &List<Shared<Expr>>,
    row: &Row<'_, '_>,
    binds: &[Value],
) -> Result<Value, Stop>
    ensures { Answers result (called (builtin_at path.now.name path.now.member) (map (λ e. Eval e row.now binds.now) operands.now)) }
{
    let Some(f) = builtin(path) else {
        return Err(Stop::Raised(UNKNOWN));
    };
    let values = values(alloc, operands, row, binds)?;
    function(alloc, f, values.as_slice(), Place::Sql)
}

/// The values of operands, from left to right.
#[cycle(expression)]
#[tactic(auto, unfolding(crate::specs::Evaluation::values))]
fn values(
    alloc: Global,
    operands: &List<Shared<Expr>>,
    row: &Row<'_, '_>,
    binds: &[Value],
) -> Result<List<Value>, Stop>
    ensures { Answers result (values [] (map (λ e. Eval e row.now binds.now) operands.now)) }
{
    let mut values = List::new(alloc);
    for e in operands.as_slice() {
        values.push(eval(alloc, e.get(), row, binds)?)?;
    }
    Ok(values)
}
