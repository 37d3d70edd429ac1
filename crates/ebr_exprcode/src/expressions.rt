//! Expressions.

ghost use Rattle.std.specs.Prelude.{◌≡◌, ◌∷◌, ◌++◌, [], false, true, map, OnOk};
ghost use Rattle.std.specs.Result.{is_ok};
ghost use Rattle.ebr_code.specs.declared.instruction.Instruction.{Do, Decide};
ghost use Rattle.ebr_code.specs.declared.instruction.Operation.TheVariants as does;
ghost use Rattle.ebr_expr.specs.Operators.{builtin_at};
ghost use Rattle.ebr_run.specs.Scope as scope;
ghost use Rattle.ebr_code.specs.Codes as spec;

use crate::names::{attribute, call, column, function, name};
use crate::operators::{act, may_decide, negated, number, sqlcode, text};
use ebr_ast::{Addend, Expr, Path};
use ebr_base::{List, NoMemory, Shared, Value};
use ebr_code::{Callee, Instruction, Operation};
use ebr_expr::{added_by, builtin, compared_by};
use ebr_places::Around;
use ebr_value::{BinOp, Builtin};
use std::alloc::Global;

/// Adds the code of an expression.
#[cycle(expression)]
pub fn expression(
    alloc: Global,
    it: &Expr,
    around: &Around<'_>,
    out: &mut List<Instruction>,
) -> Result<(), NoMemory>
    ensures { OnOk result (out.new ≡ out.old ++ spec.expr_code it.now around.now) }
{
    match it {
        Expr::Number(n) => number(out, *n),
        Expr::Text(content) => text(alloc, content, out),
        Expr::Null => act(out, Operation::Push(Value::Null)),
        Expr::Boolean(b) => act(out, Operation::Push(Value::Bool(*b))),
        Expr::Name(path) => name(alloc, path, &*around, out),
        Expr::Call(path, list) => calls(alloc, list, path, around, out),
        Expr::Row(image, name) => column(out, *image, around.column_place(name)),
        Expr::SqlCode => sqlcode(out, around.handlers()),
        Expr::Firing(event) => act(out, Operation::Firing(*event)),
        Expr::Attribute(cursor, what) => attribute(alloc, cursor, *what, &*around, out),
        Expr::Quotient(a, b) => {
            expression(alloc, a.get(), around, out)?;
            right(alloc, BinOp::Quotient, b.get(), around, out)
        }
        Expr::Plus(a) => {
            expression(alloc, a.get(), around, out)?;
            act(out, Operation::Unsigned)
        }
        Expr::Minus(a) => {
            expression(alloc, a.get(), around, out)?;
            act(out, Operation::Function(Builtin::Negate, 1))
        }
        Expr::Product(a, more) => {
            expression(alloc, a.get(), around, out)?;
            further(alloc, BinOp::Multiply, more, around, out)
        }
        Expr::Sum(a, more) => {
            expression(alloc, a.get(), around, out)?;
            summed(alloc, more, around, out)
        }
        Expr::Compare(comparison, a, b) => {
            expression(alloc, a.get(), around, out)?;
            right(alloc, compared_by(*comparison), b.get(), around, out)
        }
        Expr::IsNull(a, not) => {
            expression(alloc, a.get(), around, out)?;
            act(out, Operation::Function(Builtin::IsNull, 1))?;
            negated(out, *not)
        }
        Expr::Between(x, a, b, not) => {
            expression(alloc, x.get(), around, out)?;
            above(alloc, a.get(), around, out)?;
            below(alloc, b.get(), around, out)?;
            negated(out, *not)
        }
        Expr::In(x, list, not) => {
            expression(alloc, x.get(), around, out)?;
            among(alloc, list, around, out)?;
            negated(out, *not)
        }
        Expr::Like(a, b, not) => {
            expression(alloc, a.get(), around, out)?;
            right(alloc, BinOp::Like, b.get(), around, out)?;
            negated(out, *not)
        }
        Expr::Not(a) => {
            expression(alloc, a.get(), around, out)?;
            act(out, Operation::Function(Builtin::Not, 1))
        }
        Expr::And(a, more) => {
            expression(alloc, a.get(), around, out)?;
            further(alloc, BinOp::And, more, around, out)
        }
        Expr::Or(a, more) => {
            expression(alloc, a.get(), around, out)?;
            further(alloc, BinOp::Or, more, around, out)
        }
        Expr::Place(_) => act(out, Operation::Broken),
        Expr::Bind(_) => act(out, Operation::Broken),
    }
}

/// The right operand of an operator, and the operator.
#[cycle(expression)]
fn right(
    alloc: Global,
    op: BinOp,
    b: &Expr,
    around: &Around<'_>,
    out: &mut List<Instruction>,
) -> Result<(), NoMemory>
    ensures { OnOk result (out.new ≡ out.old ++ spec.right_code op (spec.expr_code b.now around.now)) }
{
    if may_decide(op) {
        decided(alloc, op, b, around, out)
    } else {
        expression(alloc, b, around, out)?;
        act(out, Operation::Binary(op))
    }
}

/// Lets the left operand of an operator decide alone, with the code of the right one.
fn decide(
    alloc: Global,
    op: BinOp,
    operand: List<Instruction>,
    out: &mut List<Instruction>,
) -> Result<(), NoMemory>
    ensures { OnOk result (out.new ≡ out.old ++ Decide op (operand ++ Do (does.Binary op) ∷ []) ∷ []) }
{
    let mut code = operand;
    act(&mut code, Operation::Binary(op))?;
    let code = Shared::new(alloc, code)?;
    out.push(Instruction::Decide(op, code))
}

/// The right operand of an operator whose left one may decide alone.
#[cycle(expression)]
fn decided(
    alloc: Global,
    op: BinOp,
    b: &Expr,
    around: &Around<'_>,
    out: &mut List<Instruction>,
) -> Result<(), NoMemory>
    ensures { OnOk result (out.new ≡ out.old ++ Decide op (spec.expr_code b.now around.now ++ Do (does.Binary op) ∷ []) ∷ []) }
{
    let mut code = List::new(alloc);
    expression(alloc, b, around, &mut code)?;
    decide(alloc, op, code, out)
}

/// The further operands of one operator.
#[cycle(expression)]
fn further(
    alloc: Global,
    op: BinOp,
    more: &List<Shared<Expr>>,
    around: &Around<'_>,
    out: &mut List<Instruction>,
) -> Result<(), NoMemory>
    ensures { OnOk result (out.new ≡ out.old ++ spec.further_code op (map spec.expr_code more.now) around.now) }
{
    for e in more.as_slice() {
        right(alloc, op, e.get(), around, out)?;
    }
    Ok(())
}

/// A further term of a sum.
#[cycle(expression)]
fn term(
    alloc: Global,
    addend: &Addend,
    around: &Around<'_>,
    out: &mut List<Instruction>,
) -> Result<(), NoMemory>
    ensures { OnOk result (out.new ≡ out.old ++ spec.right_code (spec.term_code addend.now).operator ((spec.term_code addend.now).operand around.now)) }
{
    right(
        alloc,
        added_by(addend.operator),
        addend.term.get(),
        around,
        out,
    )
}

/// The further terms of a sum.
#[cycle(expression)]
fn summed(
    alloc: Global,
    more: &List<Addend>,
    around: &Around<'_>,
    out: &mut List<Instruction>,
) -> Result<(), NoMemory>
    ensures { OnOk result (out.new ≡ out.old ++ spec.summed_code (map spec.term_code more.now) around.now) }
{
    for addend in more.as_slice() {
        term(alloc, addend, around, out)?;
    }
    Ok(())
}

/// Compares what stands beneath with an operand.
#[cycle(expression)]
fn beside(
    alloc: Global,
    comparison: BinOp,
    b: &Expr,
    around: &Around<'_>,
    out: &mut List<Instruction>,
) -> Result<(), NoMemory>
    ensures { OnOk result (out.new ≡ out.old ++ spec.beside comparison (spec.expr_code b.now around.now)) }
{
    act(out, Operation::Over)?;
    expression(alloc, b, around, out)?;
    act(out, Operation::Binary(comparison))
}

/// Compares what stands beneath with an operand, where what was found so far may decide alone.
#[cycle(expression)]
fn compared(
    alloc: Global,
    op: BinOp,
    comparison: BinOp,
    b: &Expr,
    around: &Around<'_>,
    out: &mut List<Instruction>,
) -> Result<(), NoMemory>
    ensures { OnOk result (out.new ≡ out.old ++ Decide op (spec.beside comparison (spec.expr_code b.now around.now) ++ Do (does.Binary op) ∷ []) ∷ []) }
{
    let mut code = List::new(alloc);
    beside(alloc, comparison, b, around, &mut code)?;
    decide(alloc, op, code, out)
}

/// The lower bound of BETWEEN.
#[cycle(expression)]
fn above(
    alloc: Global,
    a: &Expr,
    around: &Around<'_>,
    out: &mut List<Instruction>,
) -> Result<(), NoMemory>
    ensures { OnOk result (out.new ≡ out.old ++ Do does.Copy ∷ (spec.expr_code a.now around.now ++ Do (does.Binary BinOp.GreaterOrEqual) ∷ [])) }
{
    act(out, Operation::Copy)?;
    expression(alloc, a, around, out)?;
    act(out, Operation::Binary(BinOp::GreaterOrEqual))
}

/// The upper bound of BETWEEN.
#[cycle(expression)]
fn below(
    alloc: Global,
    b: &Expr,
    around: &Around<'_>,
    out: &mut List<Instruction>,
) -> Result<(), NoMemory>
    ensures { OnOk result (out.new ≡ out.old ++ (spec.right_code BinOp.And (spec.beside BinOp.LessOrEqual (spec.expr_code b.now around.now)) ++ Do does.Nip ∷ [])) }
{
    compared(alloc, BinOp::And, BinOp::LessOrEqual, b, around, out)?;
    act(out, Operation::Nip)
}

/// The values of IN.
#[cycle(expression)]
fn among(
    alloc: Global,
    list: &List<Shared<Expr>>,
    around: &Around<'_>,
    out: &mut List<Instruction>,
) -> Result<(), NoMemory>
    ensures { OnOk result (out.new ≡ out.old ++ Do (does.Push (Value.Bool false)) ∷ spec.among_code (map spec.expr_code list.now) around.now) }
{
    act(out, Operation::Push(Value::Bool(false)))?;
    for e in list.as_slice() {
        compared(alloc, BinOp::Or, BinOp::Equal, e.get(), around, out)?;
    }
    act(out, Operation::Nip)
}

/// Operands in order.
#[cycle(expression)]
fn operands(
    alloc: Global,
    list: &List<Shared<Expr>>,
    around: &Around<'_>,
    out: &mut List<Instruction>,
) -> Result<(), NoMemory>
    ensures { OnOk result (out.new ≡ out.old ++ spec.listed (map spec.expr_code list.now) around.now) }
{
    for e in list.as_slice() {
        expression(alloc, e.get(), around, out)?;
    }
    Ok(())
}

/// Calls what a function is, where its arguments are there.
fn call_behind(
    alloc: Global,
    callee: Callee,
    done: Result<(), NoMemory>,
    out: &mut List<Instruction>,
) -> Result<(), NoMemory>
    ensures call { OnOk result (out.new ≡ out.old ++ spec.call_code callee) }
    ensures done { OnOk result (is_ok done ≡ true) }
{
    match done {
        Ok(()) => call(alloc, callee, out),
        Err(e) => Err(e),
    }
}

/// A function that isn't built in, with its arguments.
#[cycle(expression)]
fn applies(
    alloc: Global,
    list: &List<Shared<Expr>>,
    path: &Path,
    around: &Around<'_>,
    out: &mut List<Instruction>,
) -> Result<(), NoMemory>
    ensures { OnOk result (out.new ≡ out.old ++ spec.applied_code (scope.applied around.now path.now) (map spec.expr_code list.now) around.now) }
{
    match function(alloc, path, list.len(), &*around)? {
        Some(callee) => {
            let done = operands(alloc, list, around, out);
            call_behind(alloc, callee, done, out)
        }
        None => act(out, Operation::Broken),
    }
}

/// A function with its arguments.
#[cycle(expression)]
fn calls(
    alloc: Global,
    list: &List<Shared<Expr>>,
    path: &Path,
    around: &Around<'_>,
    out: &mut List<Instruction>,
) -> Result<(), NoMemory>
    ensures { OnOk result (out.new ≡ out.old ++ spec.calls_code (builtin_at path.now.name path.now.member) path.now (map spec.expr_code list.now) around.now) }
{
    match builtin(path) {
        Some(f) => {
            operands(alloc, list, around, out)?;
            act(out, Operation::Function(f, list.len()))
        }
        None => applies(alloc, list, path, around, out),
    }
}
