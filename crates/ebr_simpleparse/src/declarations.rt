//! Declarations.

ghost use Rattle.ebr_grammar.specs.Outcome.{Reads};
ghost use Rattle.ebr_grammar.specs.Reading.{with_first};
ghost use Rattle.ebr_simpleparse.specs.Productions as productions;
ghost use Rattle.ebr_simpleparse.specs.Declarations as grammar;

use crate::types::read_typed;
use ebr_ast::{Decl, Expr, Query};
use ebr_base::{Name, Shared};
use ebr_exprparse::read_expression;
use ebr_grammar::{Kind, ReadStop, Tokens, ended};
use ebr_sqlparse::read_query;
use std::alloc::Global;

/// `- k ) ;`, of which it gives k.
fn exception_code(tokens: &mut Tokens<'_>) -> Result<u64, ReadStop>
    ensures { Reads (productions.reads_by grammar.exception_code tokens.old) result tokens.new }
{
    tokens.expect(Kind::Minus)?;
    let code = tokens.number()?;
    tokens.expect(Kind::RightParen)?;
    tokens.expect(Kind::Semicolon)?;
    Ok(code)
}

/// What stands behind EXCEPTION_INIT.
fn exception_init(alloc: Global, tokens: &mut Tokens<'_>) -> Result<Decl, ReadStop>
    ensures { Reads (productions.reads_by grammar.exception_init tokens.old) result tokens.new }
{
    tokens.expect(Kind::LeftParen)?;
    let exception = tokens.name(alloc)?;
    tokens.expect(Kind::Comma)?;
    let code = exception_code(tokens)?;
    Ok(Decl::ExceptionInit(exception, code))
}

/// What stands behind PRAGMA.
fn pragma(alloc: Global, tokens: &mut Tokens<'_>) -> Result<Decl, ReadStop>
    ensures { Reads (productions.reads_by grammar.pragma tokens.old) result tokens.new }
{
    if tokens.eat(Kind::ExceptionInit) {
        return exception_init(alloc, tokens);
    }
    tokens.expect(Kind::AutonomousTransaction)?;
    tokens.expect(Kind::Semicolon)?;
    Ok(Decl::Autonomous)
}

fn closed_query(alloc: Global, tokens: &mut Tokens<'_>) -> Result<Shared<Query>, ReadStop>
    ensures { Reads (productions.reads_by grammar.closed_query tokens.old) result tokens.new }
{
    let found = read_query(alloc, tokens)?;
    ended(tokens, Kind::Semicolon, found)
}

/// What stands behind CURSOR.
fn cursor(alloc: Global, tokens: &mut Tokens<'_>) -> Result<Decl, ReadStop>
    ensures { Reads (productions.reads_by grammar.cursor tokens.old) result tokens.new }
{
    let name = tokens.name(alloc)?;
    tokens.expect(Kind::Is)?;
    let query = closed_query(alloc, tokens)?;
    Ok(Decl::Cursor(name, query))
}

/// `[(:= | DEFAULT) e]`.
fn initial_value(alloc: Global, tokens: &mut Tokens<'_>) -> Result<Option<Shared<Expr>>, ReadStop>
    ensures { Reads (productions.reads_by grammar.initial_value tokens.old) result tokens.new }
{
    if tokens.eat(Kind::Assign) {
        Ok(Some(read_expression(alloc, tokens)?))
    } else if tokens.eat(Kind::Default) {
        Ok(Some(read_expression(alloc, tokens)?))
    } else {
        Ok(None)
    }
}

fn closed_value(alloc: Global, tokens: &mut Tokens<'_>) -> Result<Option<Shared<Expr>>, ReadStop>
    ensures { Reads (productions.reads_by grammar.closed_value tokens.old) result tokens.new }
{
    let initial = initial_value(alloc, tokens)?;
    ended(tokens, Kind::Semicolon, initial)
}

/// What stands behind the name of a variable or constant.
fn variable(alloc: Global, tokens: &mut Tokens<'_>, name: Name) -> Result<Decl, ReadStop>
    ensures { Reads (with_first name (productions.reads_by grammar.variable tokens.old)) result tokens.new }
{
    let found = read_typed(alloc, tokens)?;
    let (constant, ty) = found;
    let initial = closed_value(alloc, tokens)?;
    Ok(Decl::Variable {
        name,
        constant,
        ty,
        initial,
    })
}

/// What stands behind a name.
fn declared(alloc: Global, tokens: &mut Tokens<'_>, name: Name) -> Result<Decl, ReadStop>
    ensures { Reads (with_first name (productions.reads_by grammar.declared tokens.old)) result tokens.new }
{
    if tokens.eat(Kind::Exception) {
        tokens.expect(Kind::Semicolon)?;
        Ok(Decl::Exception(name))
    } else {
        variable(alloc, tokens, name)
    }
}

/// Reads a declaration, with the semicolon behind it.
///
/// Oracle Database PL/SQL Language Reference 19c, chapter PL/SQL Language Elements: a variable or
/// constant, an exception, a cursor, or a pragma EXCEPTION_INIT or AUTONOMOUS_TRANSACTION.
pub fn read_declaration(alloc: Global, tokens: &mut Tokens<'_>) -> Result<Decl, ReadStop>
    ensures { Reads (productions.reads_by grammar.declaration tokens.old) result tokens.new }
{
    if tokens.eat(Kind::Pragma) {
        return pragma(alloc, tokens);
    }
    if tokens.eat(Kind::Cursor) {
        return cursor(alloc, tokens);
    }
    let name = tokens.name(alloc)?;
    declared(alloc, tokens, name)
}
