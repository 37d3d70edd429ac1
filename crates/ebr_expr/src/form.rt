//! The forms of expressions, with other operands.

ghost use Rattle.std.specs.Prelude.{◌≡◌, IfOk};
ghost use Rattle.ebr_exprtree.specs.declared.expression.Expr as made;
ghost use Rattle.ebr_exprtree.specs.declared.expression.Expr.{out-Expr};
ghost use Rattle.ebr_expr.specs.Forms as forms;

use ebr_base::{List, NoMemory, Shared, both};
use ebr_exprtree::{Expr, Path};
use std::alloc::Global;

/// A name with its operands.
pub fn call_with(
    alloc: Global,
    path: &Path,
    operands: List<Shared<Expr>>,
) -> Result<Shared<Expr>, NoMemory>
    ensures { IfOk result (λ tree. tree ≡ made.Call path.now operands) }
{
    let (name, member) = both(alloc, &path.name, &path.member)?;
    Shared::new(alloc, Expr::Call(Path { name, member }, operands))
}

/// The form of one operand that an expression has: a sign, NOT or IS NULL.
pub fn with_operand(alloc: Global, e: &Expr, a: Shared<Expr>) -> Result<Shared<Expr>, NoMemory>
    ensures { IfOk result (λ tree. tree ≡ forms.with_operand (out-Expr e.now) a) }
{
    match e {
        Expr::Minus(_) => Shared::new(alloc, Expr::Minus(a)),
        Expr::Not(_) => Shared::new(alloc, Expr::Not(a)),
        Expr::IsNull(_, negated) => Shared::new(alloc, Expr::IsNull(a, *negated)),
        _ => Shared::new(alloc, Expr::Plus(a)),
    }
}

/// The form of two operands that an expression has: a comparison, LIKE or a quotient.
pub fn with_operands(
    alloc: Global,
    e: &Expr,
    a: Shared<Expr>,
    b: Shared<Expr>,
) -> Result<Shared<Expr>, NoMemory>
    ensures { IfOk result (λ tree. tree ≡ forms.with_operands (out-Expr e.now) a b) }
{
    match e {
        Expr::Compare(comparison, _, _) => Shared::new(alloc, Expr::Compare(*comparison, a, b)),
        Expr::Like(_, _, negated) => Shared::new(alloc, Expr::Like(a, b, *negated)),
        _ => Shared::new(alloc, Expr::Quotient(a, b)),
    }
}

/// The form of an operand and a list that an expression has: IN, AND, OR or a product.
pub fn with_list(
    alloc: Global,
    e: &Expr,
    a: Shared<Expr>,
    more: List<Shared<Expr>>,
) -> Result<Shared<Expr>, NoMemory>
    ensures { IfOk result (λ tree. tree ≡ forms.with_list (out-Expr e.now) a more) }
{
    match e {
        Expr::In(_, _, negated) => Shared::new(alloc, Expr::In(a, more, *negated)),
        Expr::And(_, _) => Shared::new(alloc, Expr::And(a, more)),
        Expr::Or(_, _) => Shared::new(alloc, Expr::Or(a, more)),
        _ => Shared::new(alloc, Expr::Product(a, more)),
    }
}
