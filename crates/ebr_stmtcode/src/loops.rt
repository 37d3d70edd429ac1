//! Loops whose statements are known.

ghost use Rattle.std.specs.Prelude.{◌≡◌, ◌∷◌, ◌++◌, [], IfOk, OnOk};
ghost use Rattle.ebr_code.specs.declared.instruction.Instruction.{Numbers, Loop};
ghost use Rattle.ebr_code.specs.Codes as spec;

use crate::leaving::{none, only};
use ebr_ast::Expr;
use ebr_base::{List, NoMemory, Shared};
use ebr_code::{Code, Instruction, Operation};
use ebr_exprcode::expression;
use ebr_places::Around;
use std::alloc::Global;

/// A loop without a head.
pub fn plain_loop(alloc: Global, body: Code, out: &mut List<Instruction>) -> Result<(), NoMemory>
    ensures { OnOk result (out.new ≡ out.old ++ Loop [] body ∷ []) }
{
    let head = none(alloc)?;
    out.push(Instruction::Loop(head, body))
}

/// The head of WHILE.
fn while_head(alloc: Global, e: &Expr, around: &Around<'_>) -> Result<Code, NoMemory>
    ensures { IfOk result (λ code. code ≡ spec.while_code e.now around.now) }
{
    let mut code = List::new(alloc);
    expression(alloc, e, around, &mut code)?;
    let then = none(alloc)?;
    let otherwise = only(alloc, Operation::Exit)?;
    code.push(Instruction::If(then, otherwise))?;
    Ok(Shared::new(alloc, code)?)
}

/// WHILE.
pub fn while_loop(
    alloc: Global,
    e: &Expr,
    body: Code,
    around: &Around<'_>,
    out: &mut List<Instruction>,
) -> Result<(), NoMemory>
    ensures { OnOk result (out.new ≡ out.old ++ Loop (spec.while_code e.now around.now) body ∷ []) }
{
    let head = while_head(alloc, e, around)?;
    out.push(Instruction::Loop(head, body))
}

/// A loop over numbers, which are in the variable at a place.
pub fn numbers(
    variable: usize,
    reversed: bool,
    body: Code,
    out: &mut List<Instruction>,
) -> Result<(), NoMemory>
    ensures { OnOk result (out.new ≡ out.old ++ Numbers variable reversed body ∷ []) }
{
    out.push(Instruction::Numbers(variable, reversed, body))
}
