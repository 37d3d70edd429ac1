//! The operators and functions that expressions name.

ghost use Rattle.std.specs.Prelude.{◌≡◌};
ghost use Rattle.std.specs.Str.{bytes_eq};
ghost use Rattle.ebr_expr.specs.Operators as spec;

use ebr_base::Value;
use ebr_exprtree::{AdditiveOperator, Comparison, Path};
use ebr_value::{BinOp, Builtin};

/// The operator of a comparison.
pub fn compared_by(comparison: Comparison) -> BinOp
    ensures { result ≡ spec.compared_by comparison }
{
    match comparison {
        Comparison::Equal => BinOp::Equal,
        Comparison::NotEqual => BinOp::NotEqual,
        Comparison::Less => BinOp::Less,
        Comparison::LessOrEqual => BinOp::LessOrEqual,
        Comparison::Greater => BinOp::Greater,
        Comparison::GreaterOrEqual => BinOp::GreaterOrEqual,
    }
}

/// The operator before a further term of a sum.
pub fn added_by(operator: AdditiveOperator) -> BinOp
    ensures { result ≡ spec.added_by operator }
{
    match operator {
        AdditiveOperator::Add => BinOp::Add,
        AdditiveOperator::Subtract => BinOp::Subtract,
        AdditiveOperator::Concatenate => BinOp::Concatenate,
    }
}

/// The built-in function that a call names; none where it names another thing. A function of a package isn't built in.
///
/// Oracle Database SQL Language Reference 19c, Single-Row Functions. Which of them there are is own.
pub fn builtin(path: &Path) -> Option<Builtin>
    ensures { result ≡ spec.builtin_at path.now.name path.now.member }
{
    match &path.member {
        None => builtin_named(path.name.as_slice()),
        Some(_) => None,
    }
}

/// The built-in function of a name.
#[tactic(auto, unfolding(crate::specs::Operators::builtin_named))]
fn builtin_named(name: &[u8]) -> Option<Builtin>
    ensures { result ≡ spec.builtin_named name.now }
{
    if is_named(name, b"MOD") {
        Some(Builtin::Mod)
    } else if is_named(name, b"ABS") {
        Some(Builtin::Abs)
    } else if is_named(name, b"SIGN") {
        Some(Builtin::Sign)
    } else if is_named(name, b"NVL") {
        Some(Builtin::Nvl)
    } else if is_named(name, b"UPPER") {
        Some(Builtin::Upper)
    } else if is_named(name, b"LOWER") {
        Some(Builtin::Lower)
    } else if is_named(name, b"LENGTH") {
        Some(Builtin::Length)
    } else if is_named(name, b"SUBSTR") {
        Some(Builtin::Substr)
    } else if is_named(name, b"INSTR") {
        Some(Builtin::Instr)
    } else if is_named(name, b"TO_CHAR") {
        Some(Builtin::ToChar)
    } else if is_named(name, b"TO_NUMBER") {
        Some(Builtin::ToNumber)
    } else {
        None
    }
}

fn is_named(name: &[u8], word: &[u8]) -> bool
    ensures { result ≡ bytes_eq name.now word.now }
{
    name == word
}

/// What an operator gives whose left operand decides alone.
pub fn decided(op: BinOp, left: &Value) -> Option<Value>
    ensures { result ≡ spec.decided op left.now }
{
    match (op, left) {
        (BinOp::And, Value::Bool(false)) => Some(Value::Bool(false)),
        (BinOp::Or, Value::Bool(true)) => Some(Value::Bool(true)),
        _ => None,
    }
}
