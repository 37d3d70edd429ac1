//! Instructions that need no names.

ghost use Rattle.std.specs.Prelude.{◌≡◌, ◌∷◌, ◌++◌, [], pos, OnOk};
ghost use Rattle.ebr_base.specs.Values.{text_value};
ghost use Rattle.ebr_code.specs.declared.instruction.Instruction.{Do};
ghost use Rattle.ebr_code.specs.declared.instruction.Operation.TheVariants as does;
ghost use Rattle.ebr_value.specs.Outcomes.{whole};
ghost use Rattle.ebr_code.specs.Codes as spec;

use ebr_base::{Bytes, CloneIn, Code, List, NoMemory, Value};
use ebr_code::{Fault, Instruction, Operation};
use ebr_value::{BinOp, Builtin};
use std::alloc::Global;

/// A number has more than 18 digits.
const OUT_OF_RANGE: Code = Code::Ora(1426);

/// The greatest number.
const GREATEST: u64 = 999_999_999_999_999_999;

/// Adds what holds no code.
pub fn act(out: &mut List<Instruction>, operation: Operation) -> Result<(), NoMemory>
    ensures { OnOk result (out.new ≡ out.old ++ Do operation ∷ []) }
{
    out.push(Instruction::Do(operation))
}

/// Whether an operator's left operand may decide alone.
pub fn may_decide(op: BinOp) -> bool
    ensures { result ≡ spec.may_decide op }
{
    match op {
        BinOp::And | BinOp::Or => true,
        BinOp::Multiply
        | BinOp::Quotient
        | BinOp::Add
        | BinOp::Subtract
        | BinOp::Concatenate
        | BinOp::Equal
        | BinOp::NotEqual
        | BinOp::Less
        | BinOp::LessOrEqual
        | BinOp::Greater
        | BinOp::GreaterOrEqual
        | BinOp::Like => false,
    }
}

/// A number as it is written.
pub fn number(out: &mut List<Instruction>, n: u64) -> Result<(), NoMemory>
    ensures { OnOk result (out.new ≡ out.old ++ spec.value_code (whole (pos n))) }
{
    if n <= GREATEST {
        act(out, Operation::Push(Value::Num(n as i64)))
    } else {
        act(out, Operation::Raise(Fault::Code(OUT_OF_RANGE)))
    }
}

/// A text as it is written.
pub fn text(alloc: Global, content: &Bytes, out: &mut List<Instruction>) -> Result<(), NoMemory>
    ensures { OnOk result (out.new ≡ out.old ++ Do (does.Push (text_value content.now)) ∷ []) }
{
    let copy = content.clone_in(alloc)?;
    act(out, Operation::Push(Value::text(copy)))
}

/// NOT, where it is negated.
pub fn negated(out: &mut List<Instruction>, negated: bool) -> Result<(), NoMemory>
    ensures { OnOk result (out.new ≡ out.old ++ spec.not_code negated) }
{
    if negated {
        act(out, Operation::Function(Builtin::Not, 1))
    } else {
        Ok(())
    }
}

/// SQLCODE, inside so many handlers.
pub fn sqlcode(out: &mut List<Instruction>, handlers: usize) -> Result<(), NoMemory>
    ensures { OnOk result (out.new ≡ out.old ++ spec.sqlcode_code handlers) }
{
    if handlers == 0 {
        act(out, Operation::Push(Value::Num(0)))
    } else {
        act(out, Operation::SqlCode(handlers - 1))
    }
}
