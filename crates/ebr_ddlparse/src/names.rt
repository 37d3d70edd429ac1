//! Lists of names.

ghost use Rattle.ebr_grammar.specs.Outcome.{Reads};
ghost use Rattle.ebr_grammar.specs.Reading.{with_first};
ghost use Rattle.ebr_ddlparse.specs.Base as spec;

use ebr_base::{List, Name};
use ebr_grammar::{Kind, ReadStop, Tokens, ended};
use std::alloc::Global;

fn one_name(alloc: Global, tokens: &mut Tokens<'_>) -> Result<Name, ReadStop>
    ensures { Reads (spec.reading spec.one_name tokens.old) result tokens.new }
{
    tokens.name(alloc)
}

/// The names behind the first, and with it.
fn more_names(alloc: Global, tokens: &mut Tokens<'_>, first: Name) -> Result<List<Name>, ReadStop>
    ensures { Reads (with_first first (spec.reading spec.more_names tokens.old)) result tokens.new }
{
    let mut found = List::new(alloc);
    found.push(first)?;
    for _turn in 0..tokens.left() {
        if !tokens.eat(Kind::Comma) {
            return Ok(found);
        }
        let next = one_name(alloc, tokens)?;
        found.push(next)?;
    }
    Ok(found)
}

/// One name or more, with commas.
fn names(alloc: Global, tokens: &mut Tokens<'_>) -> Result<List<Name>, ReadStop>
    ensures { Reads (spec.reading spec.names tokens.old) result tokens.new }
{
    let first = one_name(alloc, tokens)?;
    more_names(alloc, tokens, first)
}

/// Names up to the closing parenthesis.
pub fn read_closed_names(alloc: Global, tokens: &mut Tokens<'_>) -> Result<List<Name>, ReadStop>
    ensures { Reads (spec.reading spec.closed_names tokens.old) result tokens.new }
{
    let found = names(alloc, tokens)?;
    ended(tokens, Kind::RightParen, found)
}
