//! Heads of subprograms.

ghost use Rattle.std.specs.Prelude.{◌≡◌};
ghost use Rattle.ebr_grammar.specs.Outcome.{Reads};
ghost use Rattle.ebr_plparse.specs.Productions.{reads_by};
ghost use Rattle.ebr_plparse.specs.Heads as grammar;

use crate::parameters::read_closed_parameters;
use crate::types::read_parameter_type;
use ebr_ast::{Head, Parameter, ParameterType};
use ebr_base::{List, Name};
use ebr_grammar::{Kind, ReadStop, Tokens};
use std::alloc::Global;

/// The parameters, where they are given.
fn maybe_parameters(alloc: Global, tokens: &mut Tokens<'_>) -> Result<List<Parameter>, ReadStop>
    ensures { Reads (reads_by grammar.maybe_parameters tokens.old) result tokens.new }
{
    if tokens.eat(Kind::LeftParen) {
        read_closed_parameters(alloc, tokens)
    } else {
        Ok(List::new(alloc))
    }
}

/// A name with its parameters.
fn signature(alloc: Global, tokens: &mut Tokens<'_>) -> Result<(Name, List<Parameter>), ReadStop>
    ensures { Reads (reads_by grammar.signature tokens.old) result tokens.new }
{
    let name = tokens.name(alloc)?;
    let parameters = maybe_parameters(alloc, tokens)?;
    Ok((name, parameters))
}

/// A head of its parts.
fn head_of(signature: (Name, List<Parameter>), ty: Option<ParameterType>) -> Head
    ensures { result ≡ grammar.head_tree signature ty }
{
    let (name, parameters) = signature;
    Head {
        name,
        parameters,
        result: ty,
    }
}

/// What stands behind PROCEDURE.
fn procedure_head(alloc: Global, tokens: &mut Tokens<'_>) -> Result<Head, ReadStop>
    ensures { Reads (reads_by grammar.procedure_head tokens.old) result tokens.new }
{
    let signature = signature(alloc, tokens)?;
    Ok(head_of(signature, None))
}

/// What stands behind FUNCTION.
fn function_head(alloc: Global, tokens: &mut Tokens<'_>) -> Result<Head, ReadStop>
    ensures { Reads (reads_by grammar.function_head tokens.old) result tokens.new }
{
    let signature = signature(alloc, tokens)?;
    tokens.expect(Kind::Return)?;
    let ty = read_parameter_type(alloc, tokens)?;
    Ok(head_of(signature, Some(ty)))
}

/// The head of a procedure or a function.
pub fn read_head(alloc: Global, tokens: &mut Tokens<'_>) -> Result<Head, ReadStop>
    ensures { Reads (reads_by grammar.head tokens.old) result tokens.new }
{
    if tokens.eat(Kind::Procedure) {
        procedure_head(alloc, tokens)
    } else {
        tokens.expect(Kind::Function)?;
        function_head(alloc, tokens)
    }
}
