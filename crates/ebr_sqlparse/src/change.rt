//! Statements that change rows.

ghost use Rattle.ebr_grammar.specs.Outcome.{Reads};
ghost use Rattle.ebr_grammar.specs.Reading.{with_first};
ghost use Rattle.ebr_sqlparse.specs.Productions as productions;
ghost use Rattle.ebr_sqlparse.specs.Statements as grammar;

use crate::queries::read_filter;
use ebr_ast::{Assignment, Delete, Expr, Insert, Update};
use ebr_base::{List, Name, Shared};
use ebr_exprparse::read_expression;
use ebr_grammar::{Kind, ReadStop, Tokens, ended, shared};
use std::alloc::Global;

/// The table that a statement changes, with its alias.
#[derive(Drop)]
pub struct Changed {
    pub table: Name,
    pub alias: Option<Name>,
}

/// The names behind the first, and with it.
fn more_names(alloc: Global, tokens: &mut Tokens<'_>, first: Name) -> Result<List<Name>, ReadStop>
    ensures { Reads (with_first first (productions.reads_by grammar.more_names tokens.old)) result tokens.new }
{
    let mut found = List::new(alloc);
    found.push(first)?;
    for _turn in 0..tokens.left() {
        if !tokens.eat(Kind::Comma) {
            return Ok(found);
        }
        let next = tokens.name(alloc)?;
        found.push(next)?;
    }
    Ok(found)
}

/// `n {, n}`.
fn names(alloc: Global, tokens: &mut Tokens<'_>) -> Result<List<Name>, ReadStop>
    ensures { Reads (productions.reads_by grammar.names tokens.old) result tokens.new }
{
    let first = tokens.name(alloc)?;
    more_names(alloc, tokens, first)
}

/// `[( n {, n} )]`.
fn columns(alloc: Global, tokens: &mut Tokens<'_>) -> Result<List<Name>, ReadStop>
    ensures { Reads (productions.reads_by grammar.columns tokens.old) result tokens.new }
{
    if tokens.eat(Kind::LeftParen) {
        let columns = names(alloc, tokens)?;
        tokens.expect(Kind::RightParen)?;
        Ok(columns)
    } else {
        Ok(List::new(alloc))
    }
}

/// The expressions behind the first, and with it.
fn more_exprs(
    alloc: Global,
    tokens: &mut Tokens<'_>,
    first: Shared<Expr>,
) -> Result<List<Shared<Expr>>, ReadStop>
    ensures { Reads (with_first first (productions.reads_by grammar.more_exprs tokens.old)) result tokens.new }
{
    let mut found = List::new(alloc);
    found.push(first)?;
    for _turn in 0..tokens.left() {
        if !tokens.eat(Kind::Comma) {
            return Ok(found);
        }
        let next = read_expression(alloc, tokens)?;
        found.push(next)?;
    }
    Ok(found)
}

/// `e {, e}`.
fn exprs(alloc: Global, tokens: &mut Tokens<'_>) -> Result<List<Shared<Expr>>, ReadStop>
    ensures { Reads (productions.reads_by grammar.exprs tokens.old) result tokens.new }
{
    let first = read_expression(alloc, tokens)?;
    more_exprs(alloc, tokens, first)
}

/// `VALUES ( e {, e} )`.
fn values(alloc: Global, tokens: &mut Tokens<'_>) -> Result<List<Shared<Expr>>, ReadStop>
    ensures { Reads (productions.reads_by grammar.values tokens.old) result tokens.new }
{
    tokens.expect(Kind::Values)?;
    tokens.expect(Kind::LeftParen)?;
    let values = exprs(alloc, tokens)?;
    ended(tokens, Kind::RightParen, values)
}

/// Reads INSERT.
pub fn read_insert(alloc: Global, tokens: &mut Tokens<'_>) -> Result<Shared<Insert>, ReadStop>
    ensures { Reads (productions.reads_by grammar.insert tokens.old) result tokens.new }
{
    tokens.expect(Kind::Insert)?;
    tokens.expect(Kind::Into)?;
    let table = tokens.name(alloc)?;
    let columns = columns(alloc, tokens)?;
    let values = values(alloc, tokens)?;
    let insert = Insert {
        table,
        columns,
        values,
    };
    shared(alloc, insert)
}

fn target(alloc: Global, tokens: &mut Tokens<'_>) -> Result<Changed, ReadStop>
    ensures { Reads (productions.reads_by grammar.target tokens.old) result tokens.new }
{
    let table = tokens.name(alloc)?;
    let alias = tokens.maybe_name(alloc)?;
    Ok(Changed { table, alias })
}

/// `n = e`.
fn assignment(alloc: Global, tokens: &mut Tokens<'_>) -> Result<Assignment, ReadStop>
    ensures { Reads (productions.reads_by grammar.assignment tokens.old) result tokens.new }
{
    let column = tokens.name(alloc)?;
    tokens.expect(Kind::Equal)?;
    let value = read_expression(alloc, tokens)?;
    Ok(Assignment { column, value })
}

/// The assignments behind the first, and with it.
fn more_assignments(
    alloc: Global,
    tokens: &mut Tokens<'_>,
    first: Assignment,
) -> Result<List<Assignment>, ReadStop>
    ensures { Reads (with_first first (productions.reads_by grammar.more_assignments tokens.old)) result tokens.new }
{
    let mut found = List::new(alloc);
    found.push(first)?;
    for _turn in 0..tokens.left() {
        if !tokens.eat(Kind::Comma) {
            return Ok(found);
        }
        let next = assignment(alloc, tokens)?;
        found.push(next)?;
    }
    Ok(found)
}

/// `n = e {, n = e}`.
fn assignments(alloc: Global, tokens: &mut Tokens<'_>) -> Result<List<Assignment>, ReadStop>
    ensures { Reads (productions.reads_by grammar.assignments tokens.old) result tokens.new }
{
    let first = assignment(alloc, tokens)?;
    more_assignments(alloc, tokens, first)
}

/// What stands behind the table of UPDATE.
fn update_rest(
    alloc: Global,
    tokens: &mut Tokens<'_>,
    target: Changed,
) -> Result<Shared<Update>, ReadStop>
    ensures { Reads (with_first target (productions.reads_by grammar.update_rest tokens.old)) result tokens.new }
{
    tokens.expect(Kind::Set)?;
    let sets = assignments(alloc, tokens)?;
    let filter = read_filter(alloc, tokens)?;
    let update = Update {
        table: target.table,
        alias: target.alias,
        sets,
        filter,
    };
    shared(alloc, update)
}

/// Reads UPDATE.
pub fn read_update(alloc: Global, tokens: &mut Tokens<'_>) -> Result<Shared<Update>, ReadStop>
    ensures { Reads (productions.reads_by grammar.update tokens.old) result tokens.new }
{
    tokens.expect(Kind::Update)?;
    let target = target(alloc, tokens)?;
    update_rest(alloc, tokens, target)
}

/// Reads DELETE.
pub fn read_delete(alloc: Global, tokens: &mut Tokens<'_>) -> Result<Shared<Delete>, ReadStop>
    ensures { Reads (productions.reads_by grammar.delete tokens.old) result tokens.new }
{
    tokens.expect(Kind::Delete)?;
    tokens.eat(Kind::From);
    let target = target(alloc, tokens)?;
    let filter = read_filter(alloc, tokens)?;
    let delete = Delete {
        table: target.table,
        alias: target.alias,
        filter,
    };
    shared(alloc, delete)
}
