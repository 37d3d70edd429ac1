//! Editioning views.

ghost use Rattle.std.specs.Prelude.{◌≡◌};
ghost use Rattle.ebr_grammar.specs.Outcome.{Reads};
ghost use Rattle.ebr_grammar.specs.Reading.{with_first};
ghost use Rattle.ebr_ddlparse.specs.Base as base;
ghost use Rattle.ebr_ddlparse.specs.Views as spec;

use crate::names::read_closed_names;
use ebr_ast::{EditioningView, ViewItem};
use ebr_base::{List, Name, Shared};
use ebr_grammar::{Kind, ReadStop, Tokens, ended, shared};
use std::alloc::Global;

fn alias(alloc: Global, tokens: &mut Tokens<'_>) -> Result<Option<Name>, ReadStop>
    ensures { Reads (base.reading spec.alias tokens.old) result tokens.new }
{
    if tokens.eat(Kind::As) {
        Ok(Some(tokens.name(alloc)?))
    } else {
        tokens.maybe_name(alloc)
    }
}

fn item(alloc: Global, tokens: &mut Tokens<'_>) -> Result<ViewItem, ReadStop>
    ensures { Reads (base.reading spec.item tokens.old) result tokens.new }
{
    let column = tokens.name(alloc)?;
    let alias = alias(alloc, tokens)?;
    Ok(ViewItem { column, alias })
}

/// The items behind the first, and with it.
fn more_items(
    alloc: Global,
    tokens: &mut Tokens<'_>,
    first: ViewItem,
) -> Result<List<ViewItem>, ReadStop>
    ensures { Reads (with_first first (base.reading spec.more_items tokens.old)) result tokens.new }
{
    let mut found = List::new(alloc);
    found.push(first)?;
    for _turn in 0..tokens.left() {
        if !tokens.eat(Kind::Comma) {
            return Ok(found);
        }
        let next = item(alloc, tokens)?;
        found.push(next)?;
    }
    Ok(found)
}

fn items(alloc: Global, tokens: &mut Tokens<'_>) -> Result<List<ViewItem>, ReadStop>
    ensures { Reads (base.reading spec.items tokens.old) result tokens.new }
{
    let first = item(alloc, tokens)?;
    more_items(alloc, tokens, first)
}

/// The items between SELECT and FROM.
fn selected(alloc: Global, tokens: &mut Tokens<'_>) -> Result<List<ViewItem>, ReadStop>
    ensures { Reads (base.reading spec.selected tokens.old) result tokens.new }
{
    tokens.expect(Kind::As)?;
    tokens.expect(Kind::Select)?;
    let found = items(alloc, tokens)?;
    ended(tokens, Kind::From, found)
}

/// A view's items, and its table.
fn view_body(alloc: Global, tokens: &mut Tokens<'_>) -> Result<(List<ViewItem>, Name), ReadStop>
    ensures { Reads (base.reading spec.view_body tokens.old) result tokens.new }
{
    let items = selected(alloc, tokens)?;
    let table = tokens.name(alloc)?;
    Ok((items, table))
}

/// The names of a view's columns, where they are given.
fn view_names(alloc: Global, tokens: &mut Tokens<'_>) -> Result<List<Name>, ReadStop>
    ensures { Reads (base.reading spec.view_names tokens.old) result tokens.new }
{
    if tokens.eat(Kind::LeftParen) {
        read_closed_names(alloc, tokens)
    } else {
        Ok(List::new(alloc))
    }
}

/// A view's name, and the names of its columns.
fn view_head(alloc: Global, tokens: &mut Tokens<'_>) -> Result<(Name, List<Name>), ReadStop>
    ensures { Reads (base.reading spec.view_head tokens.old) result tokens.new }
{
    tokens.expect(Kind::Editioning)?;
    tokens.expect(Kind::View)?;
    let name = tokens.name(alloc)?;
    let names = view_names(alloc, tokens)?;
    Ok((name, names))
}

/// A view of its two parts.
fn view_of(head: (Name, List<Name>), body: (List<ViewItem>, Name)) -> EditioningView
    ensures { result ≡ spec.view_tree head body }
{
    let (name, names) = head;
    let (items, table) = body;
    EditioningView {
        name,
        names,
        items,
        table,
    }
}

/// A view, from EDITIONING on.
pub fn read_view(alloc: Global, tokens: &mut Tokens<'_>) -> Result<Shared<EditioningView>, ReadStop>
    ensures { Reads (base.reading spec.editioning_view tokens.old) result tokens.new }
{
    let head = view_head(alloc, tokens)?;
    let body = view_body(alloc, tokens)?;
    shared(alloc, view_of(head, body))
}
