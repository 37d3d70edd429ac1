//! Queries.

ghost use Rattle.std.specs.Prelude.{◌≡◌};
ghost use Rattle.ebr_grammar.specs.Outcome.{Reads};
ghost use Rattle.ebr_grammar.specs.Reading.{with_first};
ghost use Rattle.ebr_sqlparse.specs.Productions as productions;
ghost use Rattle.ebr_sqlparse.specs.Statements as grammar;

use crate::items::read_select_list;
use ebr_ast::{Expr, Query, SelectList, SortKey, Source};
use ebr_base::{List, Shared};
use ebr_exprparse::read_expression;
use ebr_grammar::{Kind, ReadStop, Tokens, shared};
use std::alloc::Global;

/// What stands behind a query's sources.
#[derive(Drop)]
pub struct Tail {
    pub filter: Option<Shared<Expr>>,
    pub order: List<SortKey>,
    pub for_update: bool,
}

fn source(alloc: Global, tokens: &mut Tokens<'_>) -> Result<Source, ReadStop>
    ensures { Reads (productions.reads_by grammar.source tokens.old) result tokens.new }
{
    if tokens.eat(Kind::Dual) {
        return Ok(Source::Dual);
    }
    let name = tokens.name(alloc)?;
    let alias = tokens.maybe_name(alloc)?;
    Ok(Source::Named { name, alias })
}

/// The sources behind the first, and with it.
fn more_sources(
    alloc: Global,
    tokens: &mut Tokens<'_>,
    first: Source,
) -> Result<List<Source>, ReadStop>
    ensures { Reads (with_first first (productions.reads_by grammar.more_sources tokens.old)) result tokens.new }
{
    let mut found = List::new(alloc);
    found.push(first)?;
    for _turn in 0..tokens.left() {
        if !tokens.eat(Kind::Comma) {
            return Ok(found);
        }
        let next = source(alloc, tokens)?;
        found.push(next)?;
    }
    Ok(found)
}

/// `source {, source}`.
fn sources(alloc: Global, tokens: &mut Tokens<'_>) -> Result<List<Source>, ReadStop>
    ensures { Reads (productions.reads_by grammar.sources tokens.old) result tokens.new }
{
    let first = source(alloc, tokens)?;
    more_sources(alloc, tokens, first)
}

/// `[WHERE e]`.
pub fn read_filter(alloc: Global, tokens: &mut Tokens<'_>) -> Result<Option<Shared<Expr>>, ReadStop>
    ensures { Reads (productions.reads_by grammar.filter tokens.old) result tokens.new }
{
    if tokens.eat(Kind::Where) {
        Ok(Some(read_expression(alloc, tokens)?))
    } else {
        Ok(None)
    }
}

/// Whether a key is sorted downwards.
fn direction(tokens: &mut Tokens<'_>) -> Result<bool, ReadStop>
    ensures { Reads (productions.reads_by grammar.direction tokens.old) result tokens.new }
{
    if tokens.eat(Kind::Asc) {
        Ok(false)
    } else {
        Ok(tokens.eat(Kind::Desc))
    }
}

fn key(alloc: Global, tokens: &mut Tokens<'_>) -> Result<SortKey, ReadStop>
    ensures { Reads (productions.reads_by grammar.key tokens.old) result tokens.new }
{
    let key = read_expression(alloc, tokens)?;
    let descending = direction(tokens)?;
    Ok(SortKey { key, descending })
}

/// The keys behind the first, and with it.
fn more_keys(
    alloc: Global,
    tokens: &mut Tokens<'_>,
    first: SortKey,
) -> Result<List<SortKey>, ReadStop>
    ensures { Reads (with_first first (productions.reads_by grammar.more_keys tokens.old)) result tokens.new }
{
    let mut found = List::new(alloc);
    found.push(first)?;
    for _turn in 0..tokens.left() {
        if !tokens.eat(Kind::Comma) {
            return Ok(found);
        }
        let next = key(alloc, tokens)?;
        found.push(next)?;
    }
    Ok(found)
}

/// `key {, key}`.
fn keys(alloc: Global, tokens: &mut Tokens<'_>) -> Result<List<SortKey>, ReadStop>
    ensures { Reads (productions.reads_by grammar.keys tokens.old) result tokens.new }
{
    let first = key(alloc, tokens)?;
    more_keys(alloc, tokens, first)
}

/// `[ORDER BY key {, key}]`.
fn order(alloc: Global, tokens: &mut Tokens<'_>) -> Result<List<SortKey>, ReadStop>
    ensures { Reads (productions.reads_by grammar.order tokens.old) result tokens.new }
{
    if tokens.eat(Kind::Order) {
        tokens.expect(Kind::By)?;
        keys(alloc, tokens)
    } else {
        Ok(List::new(alloc))
    }
}

/// `[FOR UPDATE [NOWAIT]]`.
fn for_update(tokens: &mut Tokens<'_>) -> Result<bool, ReadStop>
    ensures { Reads (productions.reads_by grammar.for_update tokens.old) result tokens.new }
{
    if tokens.eat(Kind::For) {
        tokens.expect(Kind::Update)?;
        tokens.eat(Kind::Nowait);
        Ok(true)
    } else {
        Ok(false)
    }
}

fn query_tail(alloc: Global, tokens: &mut Tokens<'_>) -> Result<Tail, ReadStop>
    ensures { Reads (productions.reads_by grammar.query_tail tokens.old) result tokens.new }
{
    let filter = read_filter(alloc, tokens)?;
    let order = order(alloc, tokens)?;
    let for_update = for_update(tokens)?;
    Ok(Tail {
        filter,
        order,
        for_update,
    })
}

fn query_of(list: SelectList, sources: List<Source>, tail: Tail) -> Query
    ensures { result ≡ grammar.query_of list sources tail }
{
    Query {
        list,
        sources,
        filter: tail.filter,
        order: tail.order,
        for_update: tail.for_update,
    }
}

/// Reads a query of this list from its first source on, which stands behind FROM.
pub fn read_query_rest(
    alloc: Global,
    tokens: &mut Tokens<'_>,
    list: SelectList,
) -> Result<Shared<Query>, ReadStop>
    ensures { Reads (with_first list (productions.reads_by grammar.query_rest tokens.old)) result tokens.new }
{
    let sources = sources(alloc, tokens)?;
    let tail = query_tail(alloc, tokens)?;
    shared(alloc, query_of(list, sources, tail))
}

/// Reads a query, from SELECT on.
pub fn read_query(alloc: Global, tokens: &mut Tokens<'_>) -> Result<Shared<Query>, ReadStop>
    ensures { Reads (productions.reads_by grammar.query tokens.old) result tokens.new }
{
    tokens.expect(Kind::Select)?;
    let list = read_select_list(alloc, tokens)?;
    tokens.expect(Kind::From)?;
    read_query_rest(alloc, tokens, list)
}
