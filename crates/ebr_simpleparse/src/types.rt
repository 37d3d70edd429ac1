//! Types, before which CONSTANT may stand.

ghost use Rattle.std.specs.Prelude.{◌≡◌};
ghost use Rattle.ebr_grammar.specs.Outcome.{Reads};
ghost use Rattle.ebr_simpleparse.specs.Types as spec;

use ebr_ast::DeclaredType;
use ebr_ddlparse::read_type;
use ebr_grammar::{Kind, ReadStop, Tokens};
use std::alloc::Global;

/// Whether CONSTANT stands here as the keyword.
#[tactic(auto, unfolding(crate::specs::Types::is_constant))]
fn is_constant(tokens: &Tokens<'_>) -> bool
    ensures { result ≡ spec.is_constant tokens.now }
{
    tokens.sees(Kind::Constant) && !tokens.sees_later(1, &[Kind::Dot])
}

/// CONSTANT with a type.
fn constant(alloc: Global, tokens: &mut Tokens<'_>) -> Result<(bool, DeclaredType), ReadStop>
    ensures { Reads (spec.reads_plainly spec.constant tokens.old) result tokens.new }
{
    tokens.expect(Kind::Constant)?;
    let ty = read_type(alloc, tokens)?;
    Ok((true, ty))
}

/// A type alone.
fn variable(alloc: Global, tokens: &mut Tokens<'_>) -> Result<(bool, DeclaredType), ReadStop>
    ensures { Reads (spec.reads_plainly spec.variable tokens.old) result tokens.new }
{
    let ty = read_type(alloc, tokens)?;
    Ok((false, ty))
}

/// A type, and whether CONSTANT stands before it.
#[tactic(auto, unfolding(crate::specs::Types::typed_reader))]
pub fn read_typed(alloc: Global, tokens: &mut Tokens<'_>) -> Result<(bool, DeclaredType), ReadStop>
    ensures { Reads (spec.typed_reader tokens.old) result tokens.new }
{
    if is_constant(tokens) {
        constant(alloc, tokens)
    } else {
        variable(alloc, tokens)
    }
}
