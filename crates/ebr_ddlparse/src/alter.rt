//! What stands behind ALTER.

ghost use Rattle.ebr_grammar.specs.Outcome.{Reads};
ghost use Rattle.ebr_grammar.specs.Reading.{with_first};
ghost use Rattle.ebr_ddlparse.specs.Definitions as spec;

use crate::types::read_declared_type;
use ebr_ast::Definition;
use ebr_base::Name;
use ebr_grammar::{Kind, ReadStop, Tokens, ended};
use std::alloc::Global;

/// What stands behind ALTER DATABASE.
fn default_edition(alloc: Global, tokens: &mut Tokens<'_>) -> Result<Definition, ReadStop>
    ensures { Reads (spec.reads_by spec.default_edition tokens.old) result tokens.new }
{
    tokens.expect(Kind::Default)?;
    tokens.expect(Kind::Edition)?;
    tokens.expect(Kind::Equal)?;
    let name = tokens.name(alloc)?;
    Ok(Definition::DefaultEdition(name))
}

fn new_column(alloc: Global, tokens: &mut Tokens<'_>, table: Name) -> Result<Definition, ReadStop>
    ensures { Reads (with_first table (spec.reads_by spec.new_column tokens.old)) result tokens.new }
{
    let column = tokens.name(alloc)?;
    let ty = read_declared_type(alloc, tokens)?;
    Ok(Definition::AddColumn { table, column, ty })
}

fn closed_column(
    alloc: Global,
    tokens: &mut Tokens<'_>,
    table: Name,
) -> Result<Definition, ReadStop>
    ensures { Reads (with_first table (spec.reads_by spec.closed_column tokens.old)) result tokens.new }
{
    let added = new_column(alloc, tokens, table)?;
    ended(tokens, Kind::RightParen, added)
}

/// What stands behind ADD.
fn added_column(alloc: Global, tokens: &mut Tokens<'_>, table: Name) -> Result<Definition, ReadStop>
    ensures { Reads (with_first table (spec.reads_by spec.added_column tokens.old)) result tokens.new }
{
    if tokens.eat(Kind::LeftParen) {
        closed_column(alloc, tokens, table)
    } else {
        new_column(alloc, tokens, table)
    }
}

/// What stands behind ALTER TABLE.
fn alter_table(alloc: Global, tokens: &mut Tokens<'_>) -> Result<Definition, ReadStop>
    ensures { Reads (spec.reads_by spec.alter_table tokens.old) result tokens.new }
{
    let table = tokens.name(alloc)?;
    tokens.expect(Kind::Add)?;
    added_column(alloc, tokens, table)
}

/// Whether ENABLE stands there, or DISABLE.
fn switch(tokens: &mut Tokens<'_>) -> Result<bool, ReadStop>
    ensures { Reads (spec.reads_by spec.switch tokens.old) result tokens.new }
{
    if tokens.eat(Kind::Enable) {
        return Ok(true);
    }
    tokens.expect(Kind::Disable)?;
    Ok(false)
}

/// What stands behind ALTER TRIGGER.
fn alter_trigger(alloc: Global, tokens: &mut Tokens<'_>) -> Result<Definition, ReadStop>
    ensures { Reads (spec.reads_by spec.alter_trigger tokens.old) result tokens.new }
{
    let name = tokens.name(alloc)?;
    let enabled = switch(tokens)?;
    Ok(Definition::AlterTrigger { name, enabled })
}

/// What stands behind ALTER.
pub fn read_alter(alloc: Global, tokens: &mut Tokens<'_>) -> Result<Definition, ReadStop>
    ensures { Reads (spec.reads_by spec.alter tokens.old) result tokens.new }
{
    if tokens.eat(Kind::Database) {
        default_edition(alloc, tokens)
    } else if tokens.eat(Kind::Table) {
        alter_table(alloc, tokens)
    } else {
        tokens.expect(Kind::Trigger)?;
        alter_trigger(alloc, tokens)
    }
}
