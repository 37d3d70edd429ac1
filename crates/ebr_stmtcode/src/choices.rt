//! IF.

ghost use Rattle.std.specs.Prelude.{◌≡◌, ◌∷◌, ◌++◌, [], IfOk, OnOk};
ghost use Rattle.ebr_code.specs.declared.instruction.Instruction.{If};
ghost use Rattle.ebr_stmtcode.specs.inside.Choices as inside;

use ebr_base::{List, NoMemory, Shared};
use ebr_code::{Code, Instruction};
use std::alloc::Global;

/// The code of a condition, and that of its statements.
#[derive(Drop)]
pub struct Choice {
    pub condition: List<Instruction>,
    pub body: Code,
}

/// A condition with its statements, and what is done where it isn't true.
fn choice_or(
    alloc: Global,
    choice: Choice,
    otherwise: List<Instruction>,
) -> Result<List<Instruction>, NoMemory>
    ensures { IfOk result (λ code. code ≡ choice.condition ++ If choice.body otherwise ∷ []) }
{
    let Choice { condition, body } = choice;
    let otherwise = Shared::new(alloc, otherwise)?;
    let mut code = condition;
    code.push(Instruction::If(body, otherwise))?;
    Ok(code)
}

/// Conditions with their statements, and what is done where none is true.
fn chosen(
    alloc: Global,
    found: List<Choice>,
    otherwise: List<Instruction>,
) -> Result<List<Instruction>, NoMemory>
    ensures { IfOk result (λ code. code ≡ inside.chosen found otherwise) }
{
    let mut left = found.into_vec();
    let mut code = otherwise;
    while let Some(choice) = left.pop() {
        code = choice_or(alloc, choice, code)?;
    }
    Ok(code)
}

/// Adds all elements of a list.
fn append<T: Drop>(out: &mut List<T>, more: List<T>) -> Result<(), NoMemory>
    ensures { OnOk result (out.new ≡ out.old ++ more) }
{
    for item in more.into_vec() {
        out.push(item)?;
    }
    Ok(())
}

/// Adds the same.
pub fn choose(
    alloc: Global,
    found: List<Choice>,
    otherwise: List<Instruction>,
    out: &mut List<Instruction>,
) -> Result<(), NoMemory>
    ensures { OnOk result (out.new ≡ out.old ++ inside.chosen found otherwise) }
{
    let code = chosen(alloc, found, otherwise)?;
    append(out, code)
}
