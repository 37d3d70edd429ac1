//! Headings of FOR loops.

ghost use Rattle.std.specs.Prelude.{◌≡◌};
ghost use Rattle.ebr_grammar.specs.Outcome.{Reads};
ghost use Rattle.ebr_simpleparse.specs.Productions as productions;
ghost use Rattle.ebr_simpleparse.specs.Headings as grammar;

use crate::bounds::read_bound;
use ebr_ast::{Expr, RowsFrom};
use ebr_base::Shared;
use ebr_exprparse::read_expression;
use ebr_grammar::{Kind, ReadStop, Tokens, ended};
use ebr_sqlparse::read_query;
use std::alloc::Global;

/// What a FOR loop goes over.
#[derive(Drop)]
pub enum Heading {
    /// From a low bound to a high one, or with REVERSE where the first says so.
    Range(bool, Shared<Expr>, Shared<Expr>),
    /// The rows of a cursor or a query.
    Rows(RowsFrom),
}

/// Whether a query in parentheses stands here.
#[tactic(auto, unfolding(crate::specs::Headings::begins_query))]
fn begins_query(tokens: &Tokens<'_>) -> bool
    ensures { result ≡ grammar.begins_query tokens.now }
{
    tokens.sees(Kind::LeftParen) && tokens.sees_later(1, &[Kind::Select])
}

/// Whether a name alone stands here before LOOP.
#[tactic(auto, unfolding(crate::specs::Headings::begins_cursor))]
fn begins_cursor(tokens: &Tokens<'_>) -> bool
    ensures { result ≡ grammar.begins_cursor tokens.now }
{
    tokens.sees_name() && tokens.sees_later(1, &[Kind::Loop])
}

/// Whether rows are gone over.
#[tactic(auto, unfolding(crate::specs::Headings::is_rows))]
fn is_rows(tokens: &Tokens<'_>) -> bool
    ensures { result ≡ grammar.is_rows tokens.now }
{
    begins_query(tokens) || begins_cursor(tokens)
}

/// `( query )` or a cursor's name.
fn rows_from(alloc: Global, tokens: &mut Tokens<'_>) -> Result<RowsFrom, ReadStop>
    ensures { Reads (productions.reads_by grammar.rows_from tokens.old) result tokens.new }
{
    if tokens.eat(Kind::LeftParen) {
        let query = read_query(alloc, tokens)?;
        tokens.expect(Kind::RightParen)?;
        Ok(RowsFrom::Query(query))
    } else {
        Ok(RowsFrom::Cursor(tokens.name(alloc)?))
    }
}

fn rows(alloc: Global, tokens: &mut Tokens<'_>) -> Result<Heading, ReadStop>
    ensures { Reads (productions.reads_by grammar.rows tokens.old) result tokens.new }
{
    let from = rows_from(alloc, tokens)?;
    tokens.expect(Kind::Loop)?;
    Ok(Heading::Rows(from))
}

/// `e LOOP`.
fn high_bound(alloc: Global, tokens: &mut Tokens<'_>) -> Result<Shared<Expr>, ReadStop>
    ensures { Reads (productions.reads_by grammar.high_bound tokens.old) result tokens.new }
{
    let high = read_expression(alloc, tokens)?;
    ended(tokens, Kind::Loop, high)
}

fn range(alloc: Global, tokens: &mut Tokens<'_>) -> Result<Heading, ReadStop>
    ensures { Reads (productions.reads_by grammar.range tokens.old) result tokens.new }
{
    let found = read_bound(alloc, tokens)?;
    let (reversed, low) = found;
    let high = high_bound(alloc, tokens)?;
    Ok(Heading::Range(reversed, low, high))
}

/// Reads what a FOR loop goes over, behind IN up to and with LOOP.
///
/// Oracle Database PL/SQL Language Reference 19c, FOR LOOP Statement and Cursor FOR LOOP Statement:
/// `[REVERSE] e .. e LOOP`, `n LOOP` or `( query ) LOOP`. REVERSE is no reserved word: it is the
/// keyword wherever it can be (own).
#[tactic(auto, unfolding(crate::specs::Headings::heading_reader))]
pub fn read_heading(alloc: Global, tokens: &mut Tokens<'_>) -> Result<Heading, ReadStop>
    ensures { Reads (grammar.heading_reader tokens.old) result tokens.new }
{
    if is_rows(tokens) {
        rows(alloc, tokens)
    } else {
        range(alloc, tokens)
    }
}
