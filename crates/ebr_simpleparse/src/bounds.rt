//! The low bound of a loop's range.

ghost use Rattle.std.specs.Prelude.{◌≡◌, ◌+◌, ◌<◌, ◌≤◌, drop};
ghost use Rattle.ebr_grammar.specs.Outcome.{Reads};
ghost use Rattle.ebr_simpleparse.specs.Types as plain;
ghost use Rattle.ebr_simpleparse.specs.Bounds as bounds;
ghost use Rattle.ebr_simpleparse.specs.Looking as spec;
ghost use Rattle.ebr_simpleparse.specs.inside.Looking as inside;

use ebr_ast::Expr;
use ebr_base::Shared;
use ebr_exprparse::read_expression;
use ebr_grammar::{Kind, ReadStop, Tokens};
use std::alloc::Global;

/// What stands behind a name where the bound ends there, or goes on in a way in which no expression
/// begins.
pub const NAME_ENDS: [Kind; 17] = [
    Kind::Range,
    Kind::Dot,
    Kind::Percent,
    Kind::Star,
    Kind::Concat,
    Kind::Equal,
    Kind::NotEqual,
    Kind::Less,
    Kind::AtMost,
    Kind::Greater,
    Kind::AtLeast,
    Kind::Is,
    Kind::In,
    Kind::Between,
    Kind::Like,
    Kind::And,
    Kind::Or,
];

/// What a token says of the parenthesis that stands open before it.
enum Look {
    /// It closes, or no comma stands in it, as far as this says.
    Ends(bool),
    /// That is told by the tokens behind, with so many more open parentheses.
    GoesOn(usize),
}

/// Looks at the token at `at`, with `depth` more open parentheses.
fn look_at(tokens: &Tokens<'_>, at: usize, depth: usize) -> Look
    requires shallow { depth ≤ at }
    requires small { at < 18446744073709551615 }
    ensures answer { inside.answer_of result (drop (at + 1) tokens.now) ≡ spec.closes depth (drop at tokens.now) }
    ensures within { inside.IsWithin result (at + 1) }
{
    if tokens.sees_later(at, &[Kind::Range]) {
        Look::Ends(false)
    } else if tokens.sees_later(at, &[Kind::LeftParen]) {
        Look::GoesOn(depth + 1)
    } else if tokens.sees_later(at, &[Kind::RightParen]) {
        if depth == 0 {
            Look::Ends(true)
        } else {
            Look::GoesOn(depth - 1)
        }
    } else if tokens.sees_later(at, &[Kind::Comma]) {
        if depth == 0 {
            Look::Ends(false)
        } else {
            Look::GoesOn(depth)
        }
    } else {
        Look::GoesOn(depth)
    }
}

/// Whether the parenthesis that stands open before the token `from` closes before `..`, and no comma
/// stands in it outside of further parentheses.
fn closes(tokens: &Tokens<'_>, from: usize) -> bool
    ensures { result ≡ spec.closes 0 (drop from tokens.now) }
{
    let mut depth: usize = 0;
    for at in from..tokens.left() {
        match look_at(tokens, at, depth) {
            Look::Ends(closes) => return closes,
            Look::GoesOn(next) => depth = next,
        }
    }
    false
}

/// Whether one item stands behind the token `from - 1`, an opening parenthesis.
#[tactic(auto, unfolding(crate::specs::Looking::has_one_item))]
fn has_one_item(tokens: &Tokens<'_>, from: usize) -> bool
    ensures { result ≡ spec.has_one_item (drop from tokens.now) }
{
    !tokens.sees_later(from, &[Kind::RightParen]) && closes(tokens, from)
}

/// Whether a bound begins behind the next token, REVERSE.
#[tactic(auto, unfolding(crate::specs::Looking::begins_bound, crate::specs::Looking::name_ends))]
fn begins_bound(tokens: &Tokens<'_>) -> bool
    ensures { result ≡ spec.begins_bound (drop 1 tokens.now) }
{
    if tokens.sees_later(1, &[Kind::LeftParen]) {
        has_one_item(tokens, 2)
    } else if tokens.sees_later(1, &[Kind::Plus, Kind::Minus]) {
        !tokens.sees_later(2, &[Kind::Plus, Kind::Minus])
    } else if tokens.sees_later(1, &[Kind::Not]) {
        !tokens.sees_later(2, &[Kind::In, Kind::Between, Kind::Like])
    } else {
        !tokens.sees_later(1, &NAME_ENDS)
    }
}

/// Whether REVERSE stands here as the keyword.
#[tactic(auto, unfolding(crate::specs::Looking::is_reversed))]
fn is_reversed(tokens: &Tokens<'_>) -> bool
    ensures { result ≡ spec.is_reversed tokens.now }
{
    tokens.sees(Kind::Reverse) && begins_bound(tokens)
}

/// `REVERSE e ..`.
fn reversed_bound(alloc: Global, tokens: &mut Tokens<'_>) -> Result<(bool, Shared<Expr>), ReadStop>
    ensures { Reads (plain.reads_plainly bounds.reversed_bound tokens.old) result tokens.new }
{
    tokens.expect(Kind::Reverse)?;
    let low = read_expression(alloc, tokens)?;
    tokens.expect(Kind::Range)?;
    Ok((true, low))
}

/// `e ..`.
fn plain_bound(alloc: Global, tokens: &mut Tokens<'_>) -> Result<(bool, Shared<Expr>), ReadStop>
    ensures { Reads (plain.reads_plainly bounds.plain_bound tokens.old) result tokens.new }
{
    let low = read_expression(alloc, tokens)?;
    tokens.expect(Kind::Range)?;
    Ok((false, low))
}

/// The low bound with the `..` behind it, and whether REVERSE stands before it.
#[tactic(auto, unfolding(crate::specs::Looking::bound_reader))]
pub fn read_bound(alloc: Global, tokens: &mut Tokens<'_>) -> Result<(bool, Shared<Expr>), ReadStop>
    ensures { Reads (spec.bound_reader tokens.old) result tokens.new }
{
    if is_reversed(tokens) {
        reversed_bound(alloc, tokens)
    } else {
        plain_bound(alloc, tokens)
    }
}
