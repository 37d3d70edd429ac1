//! Definitions from their texts, their plans, and rows of tables.

ghost use Rattle.std.specs.Prelude.{IfOk};
ghost use Rattle.ebr_cross.specs.Following.{MayFollow};

use ebr_ast::Definition;
use ebr_base::{Bytes, EditionNo, List, MAX_COUNT, Name, NoMemory, Shared};
use ebr_cross::{Catalogue, CatalogueRecord};
use ebr_ddlparse::definition;
use ebr_lexer::{LexStop, Token, lex};
use ebr_plparse::created;
use std::alloc::Global;

/// Drops a value by one call, also where several things are dropped.
pub fn release<T: Drop>(_value: T) {}

/// A name; where the text spells none, the test fails with want of memory.
pub fn name(alloc: Global, text: &str) -> Result<Name, NoMemory> {
    Name::of(alloc, text.as_bytes())?.ok_or(NoMemory)
}

/// The edition of a digit.
pub fn edition(digit: &str) -> EditionNo {
    match digit {
        "1" => EditionNo(1),
        "2" => EditionNo(2),
        _ => EditionNo(3),
    }
}

/// A row of a table: its answer, its edition and its text, with ` @ ` between them and `~` behind; and the rest.
pub fn first_row(table: &str) -> Option<(&str, &str, &str, &str)> {
    let (row, rest) = table.split_once('~')?;
    let (wanted, row) = row.split_once(" @ ")?;
    let (edition, text) = row.split_once(" @ ")?;
    Some((wanted, edition, text, rest))
}

/// The tokens of a text; where it has none, the test fails with want of memory.
fn tokens_of(alloc: Global, text: &str) -> Result<List<Token>, NoMemory> {
    if text.len() >= MAX_COUNT {
        return Err(NoMemory);
    }
    match lex(alloc, text.as_bytes()) {
        Ok(tokens) => Ok(tokens),
        Err(LexStop::NoMemory) | Err(LexStop::Fault { .. }) => Err(NoMemory),
    }
}

/// The definition that tokens spell; where they spell none, the test fails with want of memory.
fn defined(alloc: Global, tokens: &[Token]) -> Result<Definition, NoMemory> {
    match created(alloc, tokens)? {
        Some(what) => Ok(what),
        None => definition(alloc, tokens)?.ok_or(NoMemory),
    }
}

/// The definition that a text spells.
pub fn definition_of(alloc: Global, text: &str) -> Result<Shared<Definition>, NoMemory> {
    let tokens = tokens_of(alloc, text)?;
    let what = defined(alloc, tokens.as_slice())?;
    Ok(Shared::new(alloc, what)?)
}

/// The record that a definition makes; where it is refused, the test fails with want of memory.
pub fn planned(
    alloc: Global,
    c: &Catalogue,
    e: EditionNo,
    what: &Definition,
) -> Result<CatalogueRecord, NoMemory>
    ensures { IfOk result (λ made. MayFollow c.now made) }
{
    let text = Shared::new(alloc, Bytes::new(alloc))?;
    match c.plan(alloc, e, &[], what, &text) {
        Ok(made) => Ok(made),
        Err(_) => Err(NoMemory),
    }
}
