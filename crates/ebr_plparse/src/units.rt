//! Units of every kind, blocks, and what creates units.

ghost use Rattle.std.specs.Prelude.{◌≡◌, IfOk};
ghost use Rattle.ebr_grammar.specs.Outcome.{Reads};
ghost use Rattle.ebr_plparse.specs.Productions.{reads_by};
ghost use Rattle.ebr_plparse.specs.Units as grammar;

use crate::packages::{read_any_package, read_shared_subprogram};
use crate::triggers::read_trigger;
use ebr_ast::{Block, Definition, Expr, Path, Stmt, UnitTree};
use ebr_base::{List, NoMemory, Shared};
use ebr_ddlparse::read_editioning_view;
use ebr_grammar::{Kind, ReadStop, Tokens, shared};
use ebr_stmtparse::{read_block, read_call};
use std::alloc::Global;

/// The block that holds this one call.
fn calling(alloc: Global, path: Path, arguments: List<Shared<Expr>>) -> Result<Block, NoMemory>
    ensures { IfOk result (λ block. block ≡ grammar.calling path arguments) }
{
    let mut statements = List::new(alloc);
    statements.push(Shared::new(alloc, Stmt::Call(path, Some(arguments)))?)?;
    Ok(Block {
        declarations: List::new(alloc),
        statements,
        handlers: List::new(alloc),
    })
}

/// What stands behind CALL.
fn call(alloc: Global, tokens: &mut Tokens<'_>) -> Result<Block, ReadStop>
    ensures { Reads (reads_by grammar.call tokens.old) result tokens.new }
{
    let called = read_call(alloc, tokens)?;
    let (path, arguments) = called;
    match arguments {
        Some(arguments) => Ok(calling(alloc, path, arguments)?),
        None => Err(ReadStop::NoTree),
    }
}

/// A block, or the block that a CALL means.
fn block_or_call(alloc: Global, tokens: &mut Tokens<'_>) -> Result<Block, ReadStop>
    ensures { Reads (reads_by grammar.block tokens.old) result tokens.new }
{
    if tokens.eat(Kind::Call) {
        call(alloc, tokens)
    } else {
        let block = read_block(alloc, tokens)?;
        Ok(block)
    }
}

/// A block, or a CALL, which means the block that holds this one call.
pub fn read_any_block(alloc: Global, tokens: &mut Tokens<'_>) -> Result<Shared<Block>, ReadStop>
    ensures { Reads (reads_by grammar.block tokens.old) result tokens.new }
{
    let block = block_or_call(alloc, tokens)?;
    shared(alloc, block)
}

/// What CREATE makes.
fn stored(alloc: Global, tokens: &mut Tokens<'_>) -> Result<UnitTree, ReadStop>
    ensures { Reads (reads_by grammar.stored tokens.old) result tokens.new }
{
    if tokens.sees_any(&[Kind::Procedure, Kind::Function]) {
        Ok(UnitTree::Subprogram(read_shared_subprogram(alloc, tokens)?))
    } else if tokens.eat(Kind::Package) {
        read_any_package(alloc, tokens)
    } else if tokens.eat(Kind::Trigger) {
        Ok(UnitTree::Trigger(read_trigger(alloc, tokens)?))
    } else {
        Ok(UnitTree::View(read_editioning_view(alloc, tokens)?))
    }
}

/// A unit, an editioning view, a block or a CALL.
pub fn read_text(alloc: Global, tokens: &mut Tokens<'_>) -> Result<UnitTree, ReadStop>
    ensures { Reads (reads_by grammar.text tokens.old) result tokens.new }
{
    if tokens.sees_any(&[Kind::Begin, Kind::Declare, Kind::Call]) {
        Ok(UnitTree::Block(read_any_block(alloc, tokens)?))
    } else {
        stored(alloc, tokens)
    }
}

fn create_stored(
    alloc: Global,
    tokens: &mut Tokens<'_>,
    replace: bool,
) -> Result<Definition, ReadStop>
    ensures { Reads (reads_by (grammar.create_stored replace) tokens.old) result tokens.new }
{
    let unit = stored(alloc, tokens)?;
    Ok(Definition::CreateObject { replace, unit })
}

/// What is created, with EDITIONABLE before it or not.
fn create_object(
    alloc: Global,
    tokens: &mut Tokens<'_>,
    replace: bool,
) -> Result<Definition, ReadStop>
    ensures { Reads (reads_by (grammar.create_object replace) tokens.old) result tokens.new }
{
    tokens.eat(Kind::Editionable);
    create_stored(alloc, tokens, replace)
}

/// What stands behind CREATE.
fn create(alloc: Global, tokens: &mut Tokens<'_>) -> Result<Definition, ReadStop>
    ensures { Reads (reads_by grammar.create tokens.old) result tokens.new }
{
    if tokens.eat(Kind::Or) {
        tokens.expect(Kind::Replace)?;
        create_object(alloc, tokens, true)
    } else {
        create_object(alloc, tokens, false)
    }
}

/// The creation of a unit or an editioning view.
pub fn read_definition(alloc: Global, tokens: &mut Tokens<'_>) -> Result<Definition, ReadStop>
    ensures { Reads (reads_by grammar.definition tokens.old) result tokens.new }
{
    tokens.expect(Kind::Create)?;
    create(alloc, tokens)
}
