//! Parameters.

ghost use Rattle.ebr_grammar.specs.Outcome.{Reads};
ghost use Rattle.ebr_grammar.specs.Reading.{with_first};
ghost use Rattle.ebr_plparse.specs.Productions.{reads_by};
ghost use Rattle.ebr_plparse.specs.Heads as grammar;

use crate::types::{read_column_of, read_other_type, read_parameter_type};
use ebr_ast::{Mode, Parameter, ParameterType};
use ebr_base::{List, Name};
use ebr_grammar::{Kind, ReadStop, Tokens};
use std::alloc::Global;

/// What stands behind the word OUT, with the mode before it, and the mode that it makes where it names no table.
fn behind_out(
    alloc: Global,
    tokens: &mut Tokens<'_>,
    out: Name,
    before: Option<Mode>,
    with_out: Mode,
) -> Result<(Option<Mode>, ParameterType), ReadStop>
    ensures { Reads (with_first out (reads_by (grammar.behind_out before with_out) tokens.old)) result tokens.new }
{
    if tokens.eat(Kind::Dot) {
        let column = read_column_of(alloc, tokens)?;
        Ok((before, ParameterType::OfColumn(out, column)))
    } else {
        let ty = read_parameter_type(alloc, tokens)?;
        Ok((Some(with_out), ty))
    }
}

/// What stands behind IN.
fn behind_in(
    alloc: Global,
    tokens: &mut Tokens<'_>,
) -> Result<(Option<Mode>, ParameterType), ReadStop>
    ensures { Reads (reads_by grammar.behind_in tokens.old) result tokens.new }
{
    if tokens.sees(Kind::Out) {
        let out = tokens.name_among(alloc, &[Kind::Out])?;
        behind_out(alloc, tokens, out, Some(Mode::In), Mode::InOut)
    } else {
        let ty = read_other_type(alloc, tokens)?;
        Ok((Some(Mode::In), ty))
    }
}

/// A mode as it is written, and a type.
fn passing(
    alloc: Global,
    tokens: &mut Tokens<'_>,
) -> Result<(Option<Mode>, ParameterType), ReadStop>
    ensures { Reads (reads_by grammar.passing tokens.old) result tokens.new }
{
    if tokens.eat(Kind::In) {
        behind_in(alloc, tokens)
    } else if tokens.sees(Kind::Out) {
        let out = tokens.name_among(alloc, &[Kind::Out])?;
        behind_out(alloc, tokens, out, None, Mode::Out)
    } else {
        let ty = read_other_type(alloc, tokens)?;
        Ok((None, ty))
    }
}

fn parameter(alloc: Global, tokens: &mut Tokens<'_>) -> Result<Parameter, ReadStop>
    ensures { Reads (reads_by grammar.parameter tokens.old) result tokens.new }
{
    let name = tokens.name(alloc)?;
    let passing = passing(alloc, tokens)?;
    let (mode, ty) = passing;
    Ok(Parameter { name, mode, ty })
}

/// The parameters behind the first, and with it.
fn more_parameters(
    alloc: Global,
    tokens: &mut Tokens<'_>,
    first: Parameter,
) -> Result<List<Parameter>, ReadStop>
    ensures { Reads (with_first first (reads_by grammar.more_parameters tokens.old)) result tokens.new }
{
    let mut found = List::new(alloc);
    found.push(first)?;
    for _turn in 0..tokens.left() {
        if !tokens.eat(Kind::Comma) {
            return Ok(found);
        }
        let next = parameter(alloc, tokens)?;
        found.push(next)?;
    }
    Ok(found)
}

fn parameters(alloc: Global, tokens: &mut Tokens<'_>) -> Result<List<Parameter>, ReadStop>
    ensures { Reads (reads_by grammar.parameters tokens.old) result tokens.new }
{
    let first = parameter(alloc, tokens)?;
    more_parameters(alloc, tokens, first)
}

/// Parameters up to the closing parenthesis.
pub fn read_closed_parameters(
    alloc: Global,
    tokens: &mut Tokens<'_>,
) -> Result<List<Parameter>, ReadStop>
    ensures { Reads (reads_by grammar.closed_parameters tokens.old) result tokens.new }
{
    let found = parameters(alloc, tokens)?;
    tokens.expect(Kind::RightParen)?;
    Ok(found)
}
