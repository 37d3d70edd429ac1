//! Statements that hold no others.

ghost use Rattle.ebr_grammar.specs.Outcome.{Reads};
ghost use Rattle.ebr_grammar.specs.Reading.{with_first};
ghost use Rattle.ebr_simpleparse.specs.Productions as productions;
ghost use Rattle.ebr_simpleparse.specs.Simple as grammar;

use crate::paths::{read_maybe_arguments, read_new_column, read_path, read_targets};
use ebr_ast::{CursorStmt, Expr, Path, Query, SelectList, SqlStmt, Stmt, Target};
use ebr_base::Shared;
use ebr_exprparse::read_expression;
use ebr_grammar::{Kind, ReadStop, Tokens, ended};
use ebr_sqlparse::{
    read_delete, read_insert, read_query_rest, read_select_list, read_transaction, read_update,
};
use std::alloc::Global;

/// With what such a statement begins that is no name.
pub const SIMPLE_WORDS: [Kind; 18] = [
    Kind::Select,
    Kind::Insert,
    Kind::Update,
    Kind::Delete,
    Kind::Commit,
    Kind::Rollback,
    Kind::Savepoint,
    Kind::Open,
    Kind::Fetch,
    Kind::Close,
    Kind::Return,
    Kind::Raise,
    Kind::Exit,
    Kind::Continue,
    Kind::Null,
    Kind::DbmsOutput,
    Kind::RaiseApplicationError,
    Kind::Colon,
];

/// FROM and the rest of a query of this list.
fn from_sources(
    alloc: Global,
    tokens: &mut Tokens<'_>,
    list: SelectList,
) -> Result<Shared<Query>, ReadStop>
    ensures { Reads (with_first list (productions.reads_by grammar.from_sources tokens.old)) result tokens.new }
{
    tokens.expect(Kind::From)?;
    read_query_rest(alloc, tokens, list)
}

/// What stands behind INTO.
fn into_targets(
    alloc: Global,
    tokens: &mut Tokens<'_>,
    list: SelectList,
) -> Result<SqlStmt, ReadStop>
    ensures { Reads (with_first list (productions.reads_by grammar.into_targets tokens.old)) result tokens.new }
{
    let targets = read_targets(alloc, tokens)?;
    let query = from_sources(alloc, tokens, list)?;
    Ok(SqlStmt::SelectInto(query, targets))
}

/// What stands behind SELECT.
fn select_into(alloc: Global, tokens: &mut Tokens<'_>) -> Result<SqlStmt, ReadStop>
    ensures { Reads (productions.reads_by grammar.select_into tokens.old) result tokens.new }
{
    let list = read_select_list(alloc, tokens)?;
    tokens.expect(Kind::Into)?;
    into_targets(alloc, tokens, list)
}

fn sql(alloc: Global, tokens: &mut Tokens<'_>) -> Result<SqlStmt, ReadStop>
    ensures { Reads (productions.reads_by grammar.sql tokens.old) result tokens.new }
{
    if tokens.eat(Kind::Select) {
        select_into(alloc, tokens)
    } else if tokens.sees(Kind::Insert) {
        Ok(SqlStmt::Insert(read_insert(alloc, tokens)?))
    } else if tokens.sees(Kind::Update) {
        Ok(SqlStmt::Update(read_update(alloc, tokens)?))
    } else if tokens.sees(Kind::Delete) {
        Ok(SqlStmt::Delete(read_delete(alloc, tokens)?))
    } else {
        Ok(SqlStmt::Transaction(read_transaction(alloc, tokens)?))
    }
}

fn closed_sql(alloc: Global, tokens: &mut Tokens<'_>) -> Result<SqlStmt, ReadStop>
    ensures { Reads (productions.reads_by grammar.closed_sql tokens.old) result tokens.new }
{
    let found = sql(alloc, tokens)?;
    ended(tokens, Kind::Semicolon, found)
}

/// What stands behind FETCH.
fn fetch(alloc: Global, tokens: &mut Tokens<'_>) -> Result<CursorStmt, ReadStop>
    ensures { Reads (productions.reads_by grammar.fetch tokens.old) result tokens.new }
{
    let cursor = tokens.name(alloc)?;
    tokens.expect(Kind::Into)?;
    let targets = read_targets(alloc, tokens)?;
    Ok(CursorStmt::Fetch(cursor, targets))
}

fn cursor(alloc: Global, tokens: &mut Tokens<'_>) -> Result<CursorStmt, ReadStop>
    ensures { Reads (productions.reads_by grammar.cursor tokens.old) result tokens.new }
{
    if tokens.eat(Kind::Open) {
        Ok(CursorStmt::Open(tokens.name(alloc)?))
    } else if tokens.eat(Kind::Fetch) {
        fetch(alloc, tokens)
    } else {
        tokens.expect(Kind::Close)?;
        Ok(CursorStmt::Close(tokens.name(alloc)?))
    }
}

fn closed_cursor(alloc: Global, tokens: &mut Tokens<'_>) -> Result<CursorStmt, ReadStop>
    ensures { Reads (productions.reads_by grammar.closed_cursor tokens.old) result tokens.new }
{
    let found = cursor(alloc, tokens)?;
    ended(tokens, Kind::Semicolon, found)
}

/// What stands behind RETURN.
fn returned(alloc: Global, tokens: &mut Tokens<'_>) -> Result<Option<Shared<Expr>>, ReadStop>
    ensures { Reads (productions.reads_by grammar.returned tokens.old) result tokens.new }
{
    if tokens.eat(Kind::Semicolon) {
        return Ok(None);
    }
    let value = read_expression(alloc, tokens)?;
    tokens.expect(Kind::Semicolon)?;
    Ok(Some(value))
}

/// What stands behind RAISE.
fn raised(alloc: Global, tokens: &mut Tokens<'_>) -> Result<Option<Path>, ReadStop>
    ensures { Reads (productions.reads_by grammar.raised tokens.old) result tokens.new }
{
    if tokens.eat(Kind::Semicolon) {
        return Ok(None);
    }
    let exception = read_path(alloc, tokens)?;
    tokens.expect(Kind::Semicolon)?;
    Ok(Some(exception))
}

/// `[WHEN e]`.
fn condition(alloc: Global, tokens: &mut Tokens<'_>) -> Result<Option<Shared<Expr>>, ReadStop>
    ensures { Reads (productions.reads_by grammar.condition tokens.old) result tokens.new }
{
    if tokens.eat(Kind::When) {
        Ok(Some(read_expression(alloc, tokens)?))
    } else {
        Ok(None)
    }
}

fn closed_condition(
    alloc: Global,
    tokens: &mut Tokens<'_>,
) -> Result<Option<Shared<Expr>>, ReadStop>
    ensures { Reads (productions.reads_by grammar.closed_condition tokens.old) result tokens.new }
{
    let found = condition(alloc, tokens)?;
    ended(tokens, Kind::Semicolon, found)
}

/// RETURN, RAISE, EXIT or CONTINUE.
fn jump(alloc: Global, tokens: &mut Tokens<'_>) -> Result<Stmt, ReadStop>
    ensures { Reads (productions.reads_by grammar.jump tokens.old) result tokens.new }
{
    if tokens.eat(Kind::Return) {
        Ok(Stmt::Return(returned(alloc, tokens)?))
    } else if tokens.eat(Kind::Raise) {
        Ok(Stmt::Raise(raised(alloc, tokens)?))
    } else if tokens.eat(Kind::Exit) {
        Ok(Stmt::Exit(closed_condition(alloc, tokens)?))
    } else {
        tokens.expect(Kind::Continue)?;
        Ok(Stmt::Continue(closed_condition(alloc, tokens)?))
    }
}

/// `e ) ;`.
fn last_argument(alloc: Global, tokens: &mut Tokens<'_>) -> Result<Shared<Expr>, ReadStop>
    ensures { Reads (productions.reads_by grammar.last_argument tokens.old) result tokens.new }
{
    let text = read_expression(alloc, tokens)?;
    tokens.expect(Kind::RightParen)?;
    tokens.expect(Kind::Semicolon)?;
    Ok(text)
}

/// What stands behind DBMS_OUTPUT.
fn put_line(alloc: Global, tokens: &mut Tokens<'_>) -> Result<Stmt, ReadStop>
    ensures { Reads (productions.reads_by grammar.put_line tokens.old) result tokens.new }
{
    tokens.expect(Kind::Dot)?;
    tokens.expect(Kind::PutLine)?;
    tokens.expect(Kind::LeftParen)?;
    let text = last_argument(alloc, tokens)?;
    Ok(Stmt::PutLine(text))
}

/// `( - k ,`, of which it gives k.
fn error_code(tokens: &mut Tokens<'_>) -> Result<u64, ReadStop>
    ensures { Reads (productions.reads_by grammar.error_code tokens.old) result tokens.new }
{
    tokens.expect(Kind::LeftParen)?;
    tokens.expect(Kind::Minus)?;
    let code = tokens.number()?;
    tokens.expect(Kind::Comma)?;
    Ok(code)
}

/// What stands behind RAISE_APPLICATION_ERROR.
fn raise_error(alloc: Global, tokens: &mut Tokens<'_>) -> Result<Stmt, ReadStop>
    ensures { Reads (productions.reads_by grammar.raise_error tokens.old) result tokens.new }
{
    let code = error_code(tokens)?;
    let text = last_argument(alloc, tokens)?;
    Ok(Stmt::RaiseApplicationError(code, text))
}

/// `:= e ;`.
fn assigned(alloc: Global, tokens: &mut Tokens<'_>) -> Result<Shared<Expr>, ReadStop>
    ensures { Reads (productions.reads_by grammar.assigned tokens.old) result tokens.new }
{
    tokens.expect(Kind::Assign)?;
    let value = read_expression(alloc, tokens)?;
    ended(tokens, Kind::Semicolon, value)
}

/// What stands behind the colon.
fn new_assignment(alloc: Global, tokens: &mut Tokens<'_>) -> Result<Stmt, ReadStop>
    ensures { Reads (productions.reads_by grammar.new_assignment tokens.old) result tokens.new }
{
    let column = read_new_column(alloc, tokens)?;
    let value = assigned(alloc, tokens)?;
    Ok(Stmt::Assign(Target::New(column), value))
}

/// What stands behind a name with its member.
fn assignment_or_call(alloc: Global, tokens: &mut Tokens<'_>, path: Path) -> Result<Stmt, ReadStop>
    ensures { Reads (with_first path (productions.reads_by grammar.assignment_or_call tokens.old)) result tokens.new }
{
    if tokens.sees(Kind::Assign) {
        let value = assigned(alloc, tokens)?;
        Ok(Stmt::Assign(Target::Name(path), value))
    } else {
        let arguments = read_maybe_arguments(alloc, tokens)?;
        tokens.expect(Kind::Semicolon)?;
        Ok(Stmt::Call(path, arguments))
    }
}

/// A statement that begins with a name.
fn named(alloc: Global, tokens: &mut Tokens<'_>) -> Result<Stmt, ReadStop>
    ensures { Reads (productions.reads_by grammar.named_statement tokens.old) result tokens.new }
{
    let path = read_path(alloc, tokens)?;
    assignment_or_call(alloc, tokens, path)
}

fn null(tokens: &mut Tokens<'_>) -> Result<Stmt, ReadStop>
    ensures { Reads (productions.reads_by grammar.null tokens.old) result tokens.new }
{
    tokens.expect(Kind::Semicolon)?;
    Ok(Stmt::Null)
}

/// Reads a statement that holds no others, with the semicolon behind it.
///
/// Oracle Database PL/SQL Language Reference 19c, chapter PL/SQL Language Elements: NULL, an
/// assignment, a call, RETURN, RAISE, EXIT, CONTINUE, OPEN, FETCH, CLOSE, a statement of SQL,
/// DBMS_OUTPUT.PUT_LINE or RAISE_APPLICATION_ERROR.
pub fn read_simple(alloc: Global, tokens: &mut Tokens<'_>) -> Result<Stmt, ReadStop>
    ensures { Reads (productions.reads_by grammar.simple tokens.old) result tokens.new }
{
    if tokens.sees_any(&[
        Kind::Select,
        Kind::Insert,
        Kind::Update,
        Kind::Delete,
        Kind::Commit,
        Kind::Rollback,
        Kind::Savepoint,
    ]) {
        Ok(Stmt::Sql(closed_sql(alloc, tokens)?))
    } else if tokens.sees_any(&[Kind::Open, Kind::Fetch, Kind::Close]) {
        Ok(Stmt::Cursor(closed_cursor(alloc, tokens)?))
    } else if tokens.sees_any(&[Kind::Return, Kind::Raise, Kind::Exit, Kind::Continue]) {
        jump(alloc, tokens)
    } else if tokens.eat(Kind::Null) {
        null(tokens)
    } else if tokens.eat(Kind::DbmsOutput) {
        put_line(alloc, tokens)
    } else if tokens.eat(Kind::RaiseApplicationError) {
        raise_error(alloc, tokens)
    } else if tokens.eat(Kind::Colon) {
        new_assignment(alloc, tokens)
    } else {
        named(alloc, tokens)
    }
}
