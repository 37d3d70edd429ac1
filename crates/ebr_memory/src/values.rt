//! What is computed of values, types and faults.

ghost use Rattle.std.specs.Prelude.{◌≡◌, IfOk};
ghost use Rattle.ebr_run.specs.Values as spec;
ghost use Rattle.ebr_run.specs.Faults as faults;
ghost use Rattle.ebr_run.specs.Packages.{at};

use crate::levels::Levels;
use ebr_ast::Op;
use ebr_base::{CloneIn, Code, NoMemory, Value};
use ebr_code::{Fault, VariableType};
use ebr_value::{Place, fits};
use std::alloc::Global;

/// Whether a condition holds.
pub fn is_true(value: &Value) -> bool
    ensures { result ≡ spec.is_true value.now }
{
    match value {
        Value::Bool(b) => *b,
        _ => false,
    }
}

fn fits_boolean(value: &Value) -> Option<Code>
    ensures { result ≡ spec.fits_boolean value.now }
{
    match value {
        Value::Null | Value::Bool(_) => None,
        _ => Some(Code::Ora(932)),
    }
}

/// The code that the assignment of a value to a variable of a type raises.
pub fn unfit(ty: &Option<VariableType>, value: &Value) -> Option<Code>
    ensures { result ≡ spec.unfit ty.now value.now }
{
    match ty {
        None | Some(VariableType::Unknown) => None,
        Some(VariableType::Plain(ty)) => fits(value, ty, Place::Code),
        Some(VariableType::Boolean) => fits_boolean(value),
    }
}

/// A copy of the value of a variable; NULL where it has none yet.
pub fn variable(alloc: Global, variables: &Levels<Value>, place: usize) -> Result<Value, NoMemory>
    ensures { IfOk result (λ value. value ≡ at Value.Null place variables.now.top) }
{
    match variables.get(place) {
        Some(value) => Ok(value.clone_in(alloc)?),
        None => Ok(Value::Null),
    }
}

/// Whether two operations are one.
pub fn same_op(a: Op, b: Op) -> bool
    ensures { result ≡ spec.same_op a b }
{
    match (a, b) {
        (Op::Insert, Op::Insert) | (Op::Update, Op::Update) | (Op::Delete, Op::Delete) => true,
        _ => false,
    }
}

/// SQLCODE in a handler of a fault.
pub fn sqlcode(fault: &Fault) -> i64
    ensures { result ≡ faults.sqlcode fault.now }
{
    match fault {
        Fault::Code(Code::Ora(1403)) => 100,
        Fault::Code(Code::Ora(n)) => -i64::from(*n),
        Fault::Code(Code::Ebr(n)) => -(100_000 + i64::from(*n)),
        Fault::User(_) => 1,
    }
}
