//! Statements that hold no statements.

ghost use Rattle.std.specs.Prelude.{◌≡◌, ◌∷◌, ◌++◌, [], Some, IfOk, OnOk};
ghost use Rattle.ebr_code.specs.declared.instruction.Instruction.{Do};
ghost use Rattle.ebr_code.specs.declared.instruction.Operation.TheVariants as does;
ghost use Rattle.ebr_run.specs.Scope as scope;
ghost use Rattle.ebr_run.specs.Statements as run;
ghost use Rattle.ebr_code.specs.Codes as spec;
ghost use Rattle.ebr_stmtcode.specs.inside.Leaving.{leaving};

use ebr_ast::{Expr, Target};
use ebr_base::{List, NoMemory, Shared};
use ebr_code::{Code, Fault, Instruction, Operation};
use ebr_exprcode::{act, expression, store, target_place};
use ebr_places::Around;
use std::alloc::Global;

/// No code.
pub fn none(alloc: Global) -> Result<Code, NoMemory>
    ensures { IfOk result (λ code. code ≡ []) }
{
    let code = List::new(alloc);
    Ok(Shared::new(alloc, code)?)
}

/// The code of one instruction.
pub fn only(alloc: Global, operation: Operation) -> Result<Code, NoMemory>
    ensures { IfOk result (λ code. code ≡ Do operation ∷ []) }
{
    let mut code = List::new(alloc);
    act(&mut code, operation)?;
    Ok(Shared::new(alloc, code)?)
}

fn leaving(exits: bool) -> Operation
    ensures { result ≡ leaving exits }
{
    if exits {
        Operation::Exit
    } else {
        Operation::Continue
    }
}

/// EXIT or CONTINUE where a condition is true.
fn leave_when(
    alloc: Global,
    exits: bool,
    e: &Expr,
    around: &Around<'_>,
    out: &mut List<Instruction>,
) -> Result<(), NoMemory>
    ensures { OnOk result (out.new ≡ out.old ++ spec.leave_code (Do (leaving exits)) (Some e.now) around.now) }
{
    expression(alloc, e, around, out)?;
    let then = only(alloc, leaving(exits))?;
    let otherwise = none(alloc)?;
    out.push(Instruction::If(then, otherwise))
}

/// EXIT or CONTINUE.
pub fn leave(
    alloc: Global,
    exits: bool,
    when: &Option<Shared<Expr>>,
    around: &Around<'_>,
    out: &mut List<Instruction>,
) -> Result<(), NoMemory>
    ensures { OnOk result (out.new ≡ out.old ++ spec.leave_code (Do (leaving exits)) when.now around.now) }
{
    match when {
        None => act(out, leaving(exits)),
        Some(e) => leave_when(alloc, exits, e.get(), around, out),
    }
}

/// RETURN.
pub fn give(
    alloc: Global,
    value: &Option<Shared<Expr>>,
    around: &Around<'_>,
    out: &mut List<Instruction>,
) -> Result<(), NoMemory>
    ensures { OnOk result (out.new ≡ out.old ++ spec.give_code value.now around.now) }
{
    match value {
        None => act(out, Operation::Return),
        Some(e) => {
            expression(alloc, e.get(), around, out)?;
            act(out, Operation::Give(around.result()))
        }
    }
}

pub fn assign(
    alloc: Global,
    to: &Target,
    e: &Expr,
    around: &Around<'_>,
    out: &mut List<Instruction>,
) -> Result<(), NoMemory>
    ensures { OnOk result (out.new ≡ out.old ++ (spec.expr_code e.now around.now ++ spec.store_code (run.target_place around.now to.now))) }
{
    expression(alloc, e, around, out)?;
    let place = target_place(alloc, to, around)?;
    store(alloc, &place, out)
}

pub fn print(
    alloc: Global,
    e: &Expr,
    around: &Around<'_>,
    out: &mut List<Instruction>,
) -> Result<(), NoMemory>
    ensures { OnOk result (out.new ≡ out.old ++ (spec.expr_code e.now around.now ++ Do does.PutLine ∷ [])) }
{
    expression(alloc, e, around, out)?;
    act(out, Operation::PutLine)
}

/// A number of RAISE_APPLICATION_ERROR. One above 20999 stands in no valid unit.
fn cut(number: u64) -> u32
    ensures { result ≡ scope.at_most 20999 number }
{
    if number <= 20999 {
        number as u32
    } else {
        20999
    }
}

/// What RAISE_APPLICATION_ERROR raises.
fn numbered(number: u64) -> Fault
    ensures { result ≡ scope.application_error number }
{
    Fault::Code(ebr_base::Code::Ora(cut(number)))
}

/// RAISE_APPLICATION_ERROR.
pub fn raise_number(
    alloc: Global,
    number: u64,
    text: &Expr,
    around: &Around<'_>,
    out: &mut List<Instruction>,
) -> Result<(), NoMemory>
    ensures { OnOk result (out.new ≡ out.old ++ (spec.expr_code text.now around.now ++ (Do does.Drop ∷ Do (does.Raise (scope.application_error number)) ∷ []))) }
{
    expression(alloc, text, around, out)?;
    act(out, Operation::Drop)?;
    act(out, Operation::Raise(numbered(number)))
}
