//! Whole expressions.

ghost use Rattle.std.specs.Prelude.{◌≡◌, ◌≤◌, ◌<◌, length, false, ℕ, IfOk, IfSome, Some};
ghost use Rattle.ebr_grammar.specs.Outcome.{Reads};
ghost use Rattle.ebr_exprtree.specs.declared.expression.Expr.{Expr as Expression};
ghost use Rattle.ebr_exprparse.specs.Expressions as spec;

use crate::expression::Grammar;
use crate::level::Level;
use crate::trees::{Read, Tree, tree_of};
use ebr_base::{MAX_COUNT, NoMemory};
use ebr_grammar::{ReadStop, Tokens};
use ebr_lexer::Token;
use std::alloc::Global;

/// The reading of what the level says, with expressions nested at most this deep.
fn nested(
    alloc: Global,
    tokens: &mut Tokens<'_>,
    depth: usize,
    level: Level,
) -> Result<Read, ReadStop>
    ensures { Reads (spec.read_within depth level tokens.old) result tokens.new }
{
    if depth == 0 {
        return Err(ReadStop::NoTree);
    }
    let grammar = Grammar {
        alloc,
        depth: depth - 1,
        expr: nested,
    };
    match level {
        Level::Whole => grammar.read_disjunction(tokens),
        Level::Sum => grammar.read_sum_alone(tokens),
    }
}

/// Reads an expression, for the readers of what holds expressions.
#[tactic(auto, unfolding(crate::specs::Expressions::read_expression))]
pub fn read_expression(alloc: Global, tokens: &mut Tokens<'_>) -> Result<Tree, ReadStop>
    ensures { Reads (spec.read_expression tokens.old) result tokens.new }
{
    let depth = tokens.left();
    tree_of(nested(alloc, tokens, depth, Level::Whole))
}

/// The expression that stands from the token at `at` on, and the place of the token after it.
///
/// None where none stands there.
pub fn expr(alloc: Global, tokens: &[Token], at: u32) -> Result<Option<(Tree, u32)>, NoMemory>
    requires within { at ≤ length tokens.now }
    requires small { length tokens.now < MAX_COUNT }
    // What is found is spelled by the tokens from `at` to before its end.
    ensures found { IfOk result (λ r. IfSome r (spec.IsAt tokens.now at)) }
    // What is spelled there, before a token that does not go on with it or none, is found.
    ensures only { (x : Expression) (end : ℕ) → spec.IsAt tokens.now at (x, end) → spec.goes_on_at tokens.now end ≡ false → IfOk result (λ r. r ≡ Some (x, end)) }
{
    let mut rest = Tokens::new(&tokens[at as usize..]);
    match read_expression(alloc, &mut rest) {
        Ok(tree) => Ok(Some((tree, (tokens.len() - rest.left()) as u32))),
        Err(ReadStop::NoTree) => Ok(None),
        Err(ReadStop::NoMemory) => Err(NoMemory),
    }
}
