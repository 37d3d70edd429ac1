//! What stands behind CREATE.

ghost use Rattle.ebr_grammar.specs.Outcome.{Reads};
ghost use Rattle.ebr_ddlparse.specs.Definitions as spec;

use crate::tables::read_closed_items;
use crate::views::read_view;
use ebr_ast::{Definition, UnitTree};
use ebr_base::Name;
use ebr_grammar::{Kind, ReadStop, Tokens};
use std::alloc::Global;

fn parent(alloc: Global, tokens: &mut Tokens<'_>) -> Result<Option<Name>, ReadStop>
    ensures { Reads (spec.reads_by spec.parent tokens.old) result tokens.new }
{
    if tokens.eat(Kind::As) {
        tokens.expect(Kind::Child)?;
        tokens.expect(Kind::Of)?;
        Ok(Some(tokens.name(alloc)?))
    } else {
        Ok(None)
    }
}

/// What stands behind CREATE EDITION.
fn create_edition(alloc: Global, tokens: &mut Tokens<'_>) -> Result<Definition, ReadStop>
    ensures { Reads (spec.reads_by spec.create_edition tokens.old) result tokens.new }
{
    let name = tokens.name(alloc)?;
    let parent = parent(alloc, tokens)?;
    Ok(Definition::CreateEdition { name, parent })
}

/// What stands behind CREATE TABLE.
fn create_table(alloc: Global, tokens: &mut Tokens<'_>) -> Result<Definition, ReadStop>
    ensures { Reads (spec.reads_by spec.create_table tokens.old) result tokens.new }
{
    let name = tokens.name(alloc)?;
    tokens.expect(Kind::LeftParen)?;
    let items = read_closed_items(alloc, tokens)?;
    let (columns, key) = items;
    Ok(Definition::CreateTable { name, columns, key })
}

fn create_view(
    alloc: Global,
    tokens: &mut Tokens<'_>,
    replace: bool,
) -> Result<Definition, ReadStop>
    ensures { Reads (spec.reads_by (spec.create_view replace) tokens.old) result tokens.new }
{
    let view = read_view(alloc, tokens)?;
    Ok(Definition::CreateObject {
        replace,
        unit: UnitTree::View(view),
    })
}

/// A view, with EDITIONABLE before it or not.
fn create_object(
    alloc: Global,
    tokens: &mut Tokens<'_>,
    replace: bool,
) -> Result<Definition, ReadStop>
    ensures { Reads (spec.reads_by (spec.create_object replace) tokens.old) result tokens.new }
{
    tokens.eat(Kind::Editionable);
    create_view(alloc, tokens, replace)
}

/// What stands behind CREATE.
pub fn read_create(alloc: Global, tokens: &mut Tokens<'_>) -> Result<Definition, ReadStop>
    ensures { Reads (spec.reads_by spec.create tokens.old) result tokens.new }
{
    if tokens.eat(Kind::Edition) {
        create_edition(alloc, tokens)
    } else if tokens.eat(Kind::Table) {
        create_table(alloc, tokens)
    } else if tokens.eat(Kind::Or) {
        tokens.expect(Kind::Replace)?;
        create_object(alloc, tokens, true)
    } else {
        create_object(alloc, tokens, false)
    }
}
