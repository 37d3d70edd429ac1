//! Types.

ghost use Rattle.ebr_grammar.specs.Outcome.{Reads};
ghost use Rattle.ebr_grammar.specs.Reading.{with_first};
ghost use Rattle.ebr_ddlparse.specs.Base as base;
ghost use Rattle.ebr_ddlparse.specs.Types as spec;

use ebr_ast::DeclaredType;
use ebr_base::Name;
use ebr_grammar::{Kind, ReadStop, Tokens};
use std::alloc::Global;

/// What stands behind a table's name and the dot.
fn column_of(alloc: Global, tokens: &mut Tokens<'_>, table: Name) -> Result<DeclaredType, ReadStop>
    ensures { Reads (with_first table (base.reading spec.column_of tokens.old)) result tokens.new }
{
    let column = tokens.name(alloc)?;
    tokens.expect(Kind::Percent)?;
    tokens.expect(Kind::TypeWord)?;
    Ok(DeclaredType::OfColumn(table, column))
}

/// What stands behind the parenthesis of NUMBER.
fn digits(tokens: &mut Tokens<'_>) -> Result<u64, ReadStop>
    ensures { Reads (base.reading spec.digits tokens.old) result tokens.new }
{
    let count = tokens.number()?;
    tokens.expect(Kind::RightParen)?;
    Ok(count)
}

/// BYTE, CHAR or nothing.
fn unit(tokens: &mut Tokens<'_>) -> Result<(), ReadStop>
    ensures { Reads (base.reading spec.unit tokens.old) result tokens.new }
{
    if tokens.eat(Kind::Byte) {
        return Ok(());
    }
    if tokens.eat(Kind::Char) {
        return Ok(());
    }
    Ok(())
}

fn closed_unit(tokens: &mut Tokens<'_>) -> Result<(), ReadStop>
    ensures { Reads (base.reading spec.closed_unit tokens.old) result tokens.new }
{
    unit(tokens)?;
    tokens.expect(Kind::RightParen)?;
    Ok(())
}

/// What stands behind the parenthesis of VARCHAR2.
fn size(tokens: &mut Tokens<'_>) -> Result<u64, ReadStop>
    ensures { Reads (base.reading spec.size tokens.old) result tokens.new }
{
    let bytes = tokens.number()?;
    closed_unit(tokens)?;
    Ok(bytes)
}

/// What stands behind NUMBER.
fn number_type(alloc: Global, tokens: &mut Tokens<'_>, word: Name) -> Result<DeclaredType, ReadStop>
    ensures { Reads (with_first word (base.reading spec.number_type tokens.old)) result tokens.new }
{
    if tokens.eat(Kind::LeftParen) {
        let count = digits(tokens)?;
        Ok(DeclaredType::Number(Some(count)))
    } else if tokens.eat(Kind::Dot) {
        column_of(alloc, tokens, word)
    } else {
        Ok(DeclaredType::Number(None))
    }
}

/// What stands behind INTEGER.
fn integer_type(
    alloc: Global,
    tokens: &mut Tokens<'_>,
    word: Name,
) -> Result<DeclaredType, ReadStop>
    ensures { Reads (with_first word (base.reading spec.integer_type tokens.old)) result tokens.new }
{
    if tokens.eat(Kind::Dot) {
        column_of(alloc, tokens, word)
    } else {
        Ok(DeclaredType::Integer)
    }
}

/// What stands behind VARCHAR2.
fn varchar2_type(
    alloc: Global,
    tokens: &mut Tokens<'_>,
    word: Name,
) -> Result<DeclaredType, ReadStop>
    ensures { Reads (with_first word (base.reading spec.varchar2_type tokens.old)) result tokens.new }
{
    if tokens.eat(Kind::LeftParen) {
        let bytes = size(tokens)?;
        Ok(DeclaredType::Varchar2(bytes))
    } else {
        tokens.expect(Kind::Dot)?;
        column_of(alloc, tokens, word)
    }
}

/// What stands behind BOOLEAN.
fn boolean_type(
    alloc: Global,
    tokens: &mut Tokens<'_>,
    word: Name,
) -> Result<DeclaredType, ReadStop>
    ensures { Reads (with_first word (base.reading spec.boolean_type tokens.old)) result tokens.new }
{
    if tokens.eat(Kind::Dot) {
        column_of(alloc, tokens, word)
    } else {
        Ok(DeclaredType::Boolean)
    }
}

/// What stands behind another name.
fn of_column(alloc: Global, tokens: &mut Tokens<'_>, table: Name) -> Result<DeclaredType, ReadStop>
    ensures { Reads (with_first table (base.reading spec.of_column tokens.old)) result tokens.new }
{
    tokens.expect(Kind::Dot)?;
    column_of(alloc, tokens, table)
}

pub fn read_declared_type(alloc: Global, tokens: &mut Tokens<'_>) -> Result<DeclaredType, ReadStop>
    ensures { Reads (base.reading spec.declared_type tokens.old) result tokens.new }
{
    if tokens.sees(Kind::Number) {
        let word = tokens.name_among(alloc, &[Kind::Number])?;
        number_type(alloc, tokens, word)
    } else if tokens.sees(Kind::Integer) {
        let word = tokens.name_among(alloc, &[Kind::Integer])?;
        integer_type(alloc, tokens, word)
    } else if tokens.sees(Kind::Varchar2) {
        let word = tokens.name_among(alloc, &[Kind::Varchar2])?;
        varchar2_type(alloc, tokens, word)
    } else if tokens.sees(Kind::Boolean) {
        let word = tokens.name_among(alloc, &[Kind::Boolean])?;
        boolean_type(alloc, tokens, word)
    } else {
        let table = tokens.name_but(
            alloc,
            &[Kind::Number, Kind::Integer, Kind::Varchar2, Kind::Boolean],
        )?;
        of_column(alloc, tokens, table)
    }
}
