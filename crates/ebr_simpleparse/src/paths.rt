//! Names with their members, calls, targets, and what handlers catch.

ghost use Rattle.std.specs.Prelude.{◌≡◌};
ghost use Rattle.ebr_grammar.specs.Outcome.{Reads};
ghost use Rattle.ebr_grammar.specs.Reading.{with_first};
ghost use Rattle.ebr_simpleparse.specs.Productions as productions;
ghost use Rattle.ebr_simpleparse.specs.Paths as grammar;

use ebr_ast::{Caught, Expr, Path, Target};
use ebr_base::{List, Name, Shared};
use ebr_exprparse::read_expression;
use ebr_grammar::{Kind, ReadStop, Tokens, ended};
use std::alloc::Global;

/// The word that catches every exception.
pub const OTHERS: [u8; 6] = *b"OTHERS";

/// `[. n]`.
fn member(alloc: Global, tokens: &mut Tokens<'_>) -> Result<Option<Name>, ReadStop>
    ensures { Reads (productions.reads_by grammar.member tokens.old) result tokens.new }
{
    if tokens.eat(Kind::Dot) {
        Ok(Some(tokens.name(alloc)?))
    } else {
        Ok(None)
    }
}

/// `n [. n]`.
pub fn read_path(alloc: Global, tokens: &mut Tokens<'_>) -> Result<Path, ReadStop>
    ensures { Reads (productions.reads_by grammar.path tokens.old) result tokens.new }
{
    let name = tokens.name(alloc)?;
    let member = member(alloc, tokens)?;
    Ok(Path { name, member })
}

/// The expressions behind the first, and with it.
fn more_expressions(
    alloc: Global,
    tokens: &mut Tokens<'_>,
    first: Shared<Expr>,
) -> Result<List<Shared<Expr>>, ReadStop>
    ensures { Reads (with_first first (productions.reads_by grammar.more_expressions tokens.old)) result tokens.new }
{
    let mut found = List::new(alloc);
    found.push(first)?;
    for _turn in 0..tokens.left() {
        if !tokens.eat(Kind::Comma) {
            return Ok(found);
        }
        let next = read_expression(alloc, tokens)?;
        found.push(next)?;
    }
    Ok(found)
}

/// `e {, e}`.
fn expressions(alloc: Global, tokens: &mut Tokens<'_>) -> Result<List<Shared<Expr>>, ReadStop>
    ensures { Reads (productions.reads_by grammar.expressions tokens.old) result tokens.new }
{
    let first = read_expression(alloc, tokens)?;
    more_expressions(alloc, tokens, first)
}

/// What stands behind the opening parenthesis.
fn arguments(alloc: Global, tokens: &mut Tokens<'_>) -> Result<List<Shared<Expr>>, ReadStop>
    ensures { Reads (productions.reads_by grammar.arguments tokens.old) result tokens.new }
{
    if tokens.eat(Kind::RightParen) {
        return Ok(List::new(alloc));
    }
    let found = expressions(alloc, tokens)?;
    ended(tokens, Kind::RightParen, found)
}

/// `[( [e {, e}] )]`.
pub fn read_maybe_arguments(
    alloc: Global,
    tokens: &mut Tokens<'_>,
) -> Result<Option<List<Shared<Expr>>>, ReadStop>
    ensures { Reads (productions.reads_by grammar.maybe_arguments tokens.old) result tokens.new }
{
    if tokens.eat(Kind::LeftParen) {
        Ok(Some(arguments(alloc, tokens)?))
    } else {
        Ok(None)
    }
}

/// Reads what is called, and its arguments where parentheses stand: `n [. n] [( [e {, e}] )]`.
///
/// Oracle Database PL/SQL Language Reference 19c, Block (procedure call).
pub fn read_call(
    alloc: Global,
    tokens: &mut Tokens<'_>,
) -> Result<(Path, Option<List<Shared<Expr>>>), ReadStop>
    ensures { Reads (productions.reads_by grammar.call tokens.old) result tokens.new }
{
    let path = read_path(alloc, tokens)?;
    let arguments = read_maybe_arguments(alloc, tokens)?;
    Ok((path, arguments))
}

/// `NEW . n`, behind the colon.
pub fn read_new_column(alloc: Global, tokens: &mut Tokens<'_>) -> Result<Name, ReadStop>
    ensures { Reads (productions.reads_by grammar.new_column tokens.old) result tokens.new }
{
    tokens.expect(Kind::New)?;
    tokens.expect(Kind::Dot)?;
    tokens.name(alloc)
}

/// `n [. n]` or `: NEW . n`.
fn target(alloc: Global, tokens: &mut Tokens<'_>) -> Result<Target, ReadStop>
    ensures { Reads (productions.reads_by grammar.target tokens.old) result tokens.new }
{
    if tokens.eat(Kind::Colon) {
        Ok(Target::New(read_new_column(alloc, tokens)?))
    } else {
        Ok(Target::Name(read_path(alloc, tokens)?))
    }
}

/// The targets behind the first, and with it.
fn more_targets(
    alloc: Global,
    tokens: &mut Tokens<'_>,
    first: Target,
) -> Result<List<Target>, ReadStop>
    ensures { Reads (with_first first (productions.reads_by grammar.more_targets tokens.old)) result tokens.new }
{
    let mut found = List::new(alloc);
    found.push(first)?;
    for _turn in 0..tokens.left() {
        if !tokens.eat(Kind::Comma) {
            return Ok(found);
        }
        let next = target(alloc, tokens)?;
        found.push(next)?;
    }
    Ok(found)
}

/// `target {, target}`.
pub fn read_targets(alloc: Global, tokens: &mut Tokens<'_>) -> Result<List<Target>, ReadStop>
    ensures { Reads (productions.reads_by grammar.targets tokens.old) result tokens.new }
{
    let first = target(alloc, tokens)?;
    more_targets(alloc, tokens, first)
}

/// The exceptions behind the first, and with it.
fn more_exceptions(
    alloc: Global,
    tokens: &mut Tokens<'_>,
    first: Path,
) -> Result<List<Path>, ReadStop>
    ensures { Reads (with_first first (productions.reads_by grammar.more_exceptions tokens.old)) result tokens.new }
{
    let mut found = List::new(alloc);
    found.push(first)?;
    for _turn in 0..tokens.left() {
        if !tokens.eat(Kind::Or) {
            return Ok(found);
        }
        let next = read_path(alloc, tokens)?;
        found.push(next)?;
    }
    Ok(found)
}

/// `n [. n] {OR n [. n]}`.
fn exceptions(alloc: Global, tokens: &mut Tokens<'_>) -> Result<List<Path>, ReadStop>
    ensures { Reads (productions.reads_by grammar.exceptions tokens.old) result tokens.new }
{
    let first = read_path(alloc, tokens)?;
    more_exceptions(alloc, tokens, first)
}

/// Whether OTHERS stands alone.
fn is_others(paths: &[Path]) -> bool
    ensures { result ≡ grammar.is_others paths.now }
{
    match paths {
        [only] => only.member.is_none() && only.name.as_slice() == OTHERS.as_slice(),
        _ => false,
    }
}

/// What a handler of these exceptions catches.
#[tactic(auto, unfolding(crate::specs::Paths::caught_by))]
fn caught_by(paths: List<Path>) -> Caught
    ensures { result ≡ grammar.caught_by paths }
{
    if is_others(paths.as_slice()) {
        Caught::Others
    } else {
        Caught::Named(paths)
    }
}

/// Reads what a handler catches: OTHERS alone, or names of exceptions with OR between them.
///
/// Oracle Database PL/SQL Language Reference 19c, Exception Handler. OTHERS is no reserved word:
/// beside other names it is an exception's name (own).
pub fn read_caught(alloc: Global, tokens: &mut Tokens<'_>) -> Result<Caught, ReadStop>
    ensures { Reads (productions.reads_by grammar.caught tokens.old) result tokens.new }
{
    let paths = exceptions(alloc, tokens)?;
    Ok(caught_by(paths))
}
