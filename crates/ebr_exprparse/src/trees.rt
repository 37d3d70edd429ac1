//! Makes the trees of expressions.

ghost use Rattle.std.specs.Prelude.{◌≡◌, IfOk, Some, Bool, false, List as Sequence};
ghost use Rattle.ebr_lexer.specs.declared.token.Token.{Token};
ghost use Rattle.ebr_exprtree.specs.declared.expression.Expr.{Expr as Expression};
ghost use Rattle.ebr_grammar.specs.Forms.{Found};
ghost use Rattle.ebr_grammar.specs.Outcome.{Reads};
ghost use Rattle.ebr_exprparse.specs.Expressions as spec;
ghost use Rattle.ebr_exprparse.specs.inside.Reading as inside;

use ebr_base::{List, Name, NoMemory, Shared};
use ebr_exprtree::{Addend, Comparison, Expr, Path};
use ebr_grammar::{ReadStop, shared};
use std::alloc::Global;

/// An expression behind its pointer.
pub type Tree = Shared<Expr>;

/// A tree, and whether it is spelled as a sum, without a comparison, NOT, AND or OR outside of its
/// parentheses.
pub type Read = (Tree, bool);

/// The tree of what was read.
pub fn tree_of(read: Result<Read, ReadStop>) -> Result<Tree, ReadStop>
    ensures { (found : Found (Expression × Bool)) (ts : Sequence Token) → Reads found read ts → Reads (spec.tree_of found) result ts }
{
    let (tree, _) = read?;
    Ok(tree)
}

pub fn path(name: Name, member: Option<Name>) -> Path
    ensures { result ≡ spec.path name member }
{
    Path { name, member }
}

pub fn name_or_call(path: Path, maybe_arguments: Option<List<Tree>>) -> Expr
    ensures { result ≡ spec.name_or_call path maybe_arguments }
{
    match maybe_arguments {
        None => Expr::Name(path),
        Some(arguments) => Expr::Call(path, arguments),
    }
}

/// The quotient of TRUNC, whose dividend is a sum.
pub fn quotient(alloc: Global, dividend: Read, divisor: Tree) -> Result<Tree, ReadStop>
    ensures { inside.Decides (spec.quotient dividend divisor) result }
{
    let (tree, is_sum) = dividend;
    if !is_sum {
        return Err(ReadStop::NoTree);
    }
    Ok(Shared::new(alloc, Expr::Quotient(tree, divisor))?)
}

pub fn compared(alloc: Global, by: Comparison, left: Tree, right: Tree) -> Result<Tree, ReadStop>
    ensures { (ts : Sequence Token) → Reads (Some (Expr.Compare by left right, ts)) result ts }
{
    shared(alloc, Expr::Compare(by, left, right))
}

pub fn between(
    alloc: Global,
    value: Tree,
    low: Tree,
    high: Tree,
    negated: bool,
) -> Result<Tree, ReadStop>
    ensures { (ts : Sequence Token) → Reads (Some (Expr.Between value low high negated, ts)) result ts }
{
    shared(alloc, Expr::Between(value, low, high, negated))
}

pub fn like(alloc: Global, value: Tree, pattern: Tree, negated: bool) -> Result<Tree, ReadStop>
    ensures { (ts : Sequence Token) → Reads (Some (Expr.Like value pattern negated, ts)) result ts }
{
    shared(alloc, Expr::Like(value, pattern, negated))
}

pub fn product(alloc: Global, first: Tree, more: List<Tree>) -> Result<Tree, ReadStop>
    ensures { (ts : Sequence Token) → Reads (Some (spec.joined Expr.Product first more, ts)) result ts }
{
    if more.is_empty() {
        return Ok(first);
    }
    shared(alloc, Expr::Product(first, more))
}

pub fn summed(alloc: Global, first: Tree, more: List<Addend>) -> Result<Tree, ReadStop>
    ensures { (ts : Sequence Token) → Reads (Some (spec.summed first more, ts)) result ts }
{
    if more.is_empty() {
        return Ok(first);
    }
    shared(alloc, Expr::Sum(first, more))
}

pub fn conjoined(alloc: Global, first: Read, more: List<Tree>) -> Result<Read, NoMemory>
    ensures { IfOk result (λ x. x ≡ spec.combined Expr.And first more) }
{
    if more.is_empty() {
        return Ok(first);
    }
    let (first, _) = first;
    Ok((Shared::new(alloc, Expr::And(first, more))?, false))
}

pub fn disjoined(alloc: Global, first: Read, more: List<Tree>) -> Result<Read, NoMemory>
    ensures { IfOk result (λ x. x ≡ spec.combined Expr.Or first more) }
{
    if more.is_empty() {
        return Ok(first);
    }
    let (first, _) = first;
    Ok((Shared::new(alloc, Expr::Or(first, more))?, false))
}

pub fn negated(alloc: Global, operand: Tree) -> Result<Read, NoMemory>
    ensures { IfOk result (λ x. x ≡ (Expr.Not operand, false)) }
{
    Ok((Shared::new(alloc, Expr::Not(operand))?, false))
}
