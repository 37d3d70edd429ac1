//! Types of parameters and of results.

ghost use Rattle.ebr_grammar.specs.Outcome.{Reads};
ghost use Rattle.ebr_grammar.specs.Reading.{with_first};
ghost use Rattle.ebr_plparse.specs.Productions.{reads_by};
ghost use Rattle.ebr_plparse.specs.Heads as grammar;

use ebr_ast::ParameterType;
use ebr_base::Name;
use ebr_grammar::{Kind, ReadStop, Tokens};
use std::alloc::Global;

/// What stands behind a table's name and the dot.
pub fn read_column_of(alloc: Global, tokens: &mut Tokens<'_>) -> Result<Name, ReadStop>
    ensures { Reads (reads_by grammar.column_of tokens.old) result tokens.new }
{
    let column = tokens.name(alloc)?;
    tokens.expect(Kind::Percent)?;
    tokens.expect(Kind::TypeWord)?;
    Ok(column)
}

/// What stands behind a table's name.
fn of_column(alloc: Global, tokens: &mut Tokens<'_>, table: Name) -> Result<ParameterType, ReadStop>
    ensures { Reads (with_first table (reads_by grammar.of_column tokens.old)) result tokens.new }
{
    tokens.expect(Kind::Dot)?;
    let column = read_column_of(alloc, tokens)?;
    Ok(ParameterType::OfColumn(table, column))
}

/// What stands behind a type's word, which names a table before a dot.
fn word_type(
    alloc: Global,
    tokens: &mut Tokens<'_>,
    word: Name,
    ty: ParameterType,
) -> Result<ParameterType, ReadStop>
    ensures { Reads (with_first word (reads_by (grammar.word_type ty) tokens.old)) result tokens.new }
{
    if tokens.eat(Kind::Dot) {
        let column = read_column_of(alloc, tokens)?;
        Ok(ParameterType::OfColumn(word, column))
    } else {
        Ok(ty)
    }
}

/// A type, but not of a column of the table OUT.
pub fn read_other_type(alloc: Global, tokens: &mut Tokens<'_>) -> Result<ParameterType, ReadStop>
    ensures { Reads (reads_by grammar.other_type tokens.old) result tokens.new }
{
    if tokens.sees(Kind::Number) {
        let word = tokens.name_among(alloc, &[Kind::Number])?;
        word_type(alloc, tokens, word, ParameterType::Number)
    } else if tokens.sees(Kind::Integer) {
        let word = tokens.name_among(alloc, &[Kind::Integer])?;
        word_type(alloc, tokens, word, ParameterType::Integer)
    } else if tokens.sees(Kind::Varchar2) {
        let word = tokens.name_among(alloc, &[Kind::Varchar2])?;
        word_type(alloc, tokens, word, ParameterType::Varchar2)
    } else if tokens.sees(Kind::Boolean) {
        let word = tokens.name_among(alloc, &[Kind::Boolean])?;
        word_type(alloc, tokens, word, ParameterType::Boolean)
    } else {
        let table = tokens.name_but(
            alloc,
            &[
                Kind::Number,
                Kind::Integer,
                Kind::Varchar2,
                Kind::Boolean,
                Kind::Out,
            ],
        )?;
        of_column(alloc, tokens, table)
    }
}

pub fn read_parameter_type(
    alloc: Global,
    tokens: &mut Tokens<'_>,
) -> Result<ParameterType, ReadStop>
    ensures { Reads (reads_by grammar.parameter_type tokens.old) result tokens.new }
{
    if tokens.sees(Kind::Out) {
        let table = tokens.name_among(alloc, &[Kind::Out])?;
        of_column(alloc, tokens, table)
    } else {
        read_other_type(alloc, tokens)
    }
}
