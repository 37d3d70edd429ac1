//! A table's columns and its key.

ghost use Rattle.std.specs.Prelude.{◌≡◌, ◌≤◌, []};
ghost use Rattle.ebr_grammar.specs.Outcome.{Reads};
ghost use Rattle.ebr_grammar.specs.Reading.{with_first};
ghost use Rattle.ebr_ddlparse.specs.Base as base;
ghost use Rattle.ebr_ddlparse.specs.Tables as spec;
ghost use Rattle.ebr_ddlparse.specs.Definitions as whole;
ghost use Rattle.ebr_ddlparse.specs.inside.Closing as inside;

use crate::names::read_closed_names;
use crate::types::read_declared_type;
use ebr_ast::{ColumnConstraint, ColumnTree};
use ebr_base::{List, Name};
use ebr_grammar::{Kind, ReadStop, Tokens};
use std::alloc::Global;

fn constraint(tokens: &mut Tokens<'_>) -> Result<ColumnConstraint, ReadStop>
    ensures { Reads (base.reading spec.constraint tokens.old) result tokens.new }
{
    if tokens.eat(Kind::Not) {
        tokens.expect(Kind::Null)?;
        Ok(ColumnConstraint::NotNull)
    } else {
        tokens.expect(Kind::Primary)?;
        tokens.expect(Kind::Key)?;
        Ok(ColumnConstraint::PrimaryKey)
    }
}

fn constraints(alloc: Global, tokens: &mut Tokens<'_>) -> Result<List<ColumnConstraint>, ReadStop>
    ensures { Reads (base.reading spec.constraints tokens.old) result tokens.new }
{
    let mut found = List::new(alloc);
    for _turn in 0..tokens.left() {
        if !tokens.sees_any(&[Kind::Not, Kind::Primary]) {
            return Ok(found);
        }
        let next = constraint(tokens)?;
        found.push(next)?;
    }
    Ok(found)
}

/// What stands behind a column's name.
fn column_rest(alloc: Global, tokens: &mut Tokens<'_>, name: Name) -> Result<ColumnTree, ReadStop>
    ensures { Reads (with_first name (base.reading spec.column_rest tokens.old)) result tokens.new }
{
    let ty = read_declared_type(alloc, tokens)?;
    let constraints = constraints(alloc, tokens)?;
    Ok(ColumnTree {
        name,
        ty,
        constraints,
    })
}

fn column(alloc: Global, tokens: &mut Tokens<'_>) -> Result<ColumnTree, ReadStop>
    ensures { Reads (base.reading spec.column tokens.old) result tokens.new }
{
    let name = tokens.name(alloc)?;
    column_rest(alloc, tokens, name)
}

fn key_words(tokens: &mut Tokens<'_>) -> Result<(), ReadStop>
    ensures { Reads (base.reading spec.key_words tokens.old) result tokens.new }
{
    tokens.expect(Kind::Primary)?;
    tokens.expect(Kind::Key)?;
    tokens.expect(Kind::LeftParen)?;
    Ok(())
}

/// What stands before a key's columns.
fn key_head(alloc: Global, tokens: &mut Tokens<'_>) -> Result<(), ReadStop>
    ensures { Reads (base.reading spec.key_head tokens.old) result tokens.new }
{
    if tokens.eat(Kind::Constraint) {
        let _name = tokens.name(alloc)?;
        key_words(tokens)
    } else {
        key_words(tokens)
    }
}

fn key(alloc: Global, tokens: &mut Tokens<'_>) -> Result<List<Name>, ReadStop>
    ensures { Reads (base.reading spec.key tokens.old) result tokens.new }
{
    key_head(alloc, tokens)?;
    read_closed_names(alloc, tokens)
}

/// Whether PRIMARY KEY ( stands behind so many tokens.
fn is_key_words(tokens: &Tokens<'_>, skipped: usize) -> bool
    requires { skipped ≤ 2 }
    ensures { result ≡ spec.is_key_words skipped tokens.now }
{
    tokens.sees_later(skipped, &[Kind::Primary])
        && tokens.sees_later(skipped + 1, &[Kind::Key])
        && tokens.sees_later(skipped + 2, &[Kind::LeftParen])
}

/// Whether a key begins here.
#[tactic(auto, unfolding(crate::specs::Tables::is_key))]
fn is_key(tokens: &Tokens<'_>) -> bool
    ensures { result ≡ spec.is_key tokens.now }
{
    is_key_words(tokens, 0) || (tokens.sees(Kind::Constraint) && is_key_words(tokens, 2))
}

/// The columns and no key, where the parenthesis closes.
fn without_key(
    alloc: Global,
    tokens: &mut Tokens<'_>,
    columns: List<ColumnTree>,
) -> Result<(List<ColumnTree>, List<Name>), ReadStop>
    ensures { Reads (inside.closing (columns, []) tokens.old) result tokens.new }
{
    tokens.expect(Kind::RightParen)?;
    Ok((columns, List::new(alloc)))
}

/// The columns with the key that stands here, where the parenthesis closes behind it.
fn with_key(
    alloc: Global,
    tokens: &mut Tokens<'_>,
    columns: List<ColumnTree>,
) -> Result<(List<ColumnTree>, List<Name>), ReadStop>
    ensures { Reads (inside.closed_key columns (base.reading spec.key tokens.old)) result tokens.new }
{
    let key = key(alloc, tokens)?;
    tokens.expect(Kind::RightParen)?;
    Ok((columns, key))
}

/// The columns behind the first, and with it, and the key, up to the closing parenthesis.
fn more_entries(
    alloc: Global,
    tokens: &mut Tokens<'_>,
    first: ColumnTree,
) -> Result<(List<ColumnTree>, List<Name>), ReadStop>
    ensures { Reads (inside.closed_behind first (whole.reads_by whole.more_entries tokens.old)) result tokens.new }
{
    let mut columns = List::new(alloc);
    columns.push(first)?;
    for _turn in 0..tokens.left() {
        if !tokens.eat(Kind::Comma) {
            return without_key(alloc, tokens, columns);
        }
        if is_key(tokens) {
            return with_key(alloc, tokens, columns);
        }
        let next = column(alloc, tokens)?;
        columns.push(next)?;
    }
    without_key(alloc, tokens, columns)
}

/// A table's columns and its key, which is empty where there is none, up to the closing parenthesis.
pub fn read_closed_items(
    alloc: Global,
    tokens: &mut Tokens<'_>,
) -> Result<(List<ColumnTree>, List<Name>), ReadStop>
    ensures { Reads (whole.reads_by whole.closed_items tokens.old) result tokens.new }
{
    let first = column(alloc, tokens)?;
    more_entries(alloc, tokens, first)
}
