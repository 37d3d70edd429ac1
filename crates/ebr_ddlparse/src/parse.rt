//! Whole definitions, and the readers for other grammars.

ghost use Rattle.std.specs.Prelude.{◌≡◌, List as Sequence, Some, IfOk, IfSome};
ghost use Rattle.ebr_grammar.specs.Outcome.{Reads};
ghost use Rattle.ebr_ast.specs.declared.definition.Definition.{Definition as Tree};
ghost use Rattle.ebr_ddlparse.specs.Types.{type_reader};
ghost use Rattle.ebr_ddlparse.specs.Views.{view_reader};
ghost use Rattle.ebr_ddlparse.specs.Definitions as spec;

use crate::alter::read_alter;
use crate::create::read_create;
use crate::drops::read_drop;
use crate::types::read_declared_type;
use crate::views::read_view;
use ebr_ast::{DeclaredType, Definition, EditioningView};
use ebr_base::{NoMemory, Shared};
use ebr_grammar::{Kind, ReadStop, Tokens, whole};
use ebr_lexer::Token;
use std::alloc::Global;

/// Reads a type, for the readers of what holds types.
#[tactic(auto, unfolding(crate::specs::Types::type_reader))]
pub fn read_type(alloc: Global, tokens: &mut Tokens<'_>) -> Result<DeclaredType, ReadStop>
    ensures { Reads (type_reader tokens.old) result tokens.new }
{
    read_declared_type(alloc, tokens)
}

/// Reads an editioning view from the word EDITIONING on, for the readers of CREATE.
#[tactic(auto, unfolding(crate::specs::Views::view_reader))]
pub fn read_editioning_view(
    alloc: Global,
    tokens: &mut Tokens<'_>,
) -> Result<Shared<EditioningView>, ReadStop>
    ensures { Reads (view_reader tokens.old) result tokens.new }
{
    read_view(alloc, tokens)
}

fn read_definition(alloc: Global, tokens: &mut Tokens<'_>) -> Result<Definition, ReadStop>
    ensures { Reads (spec.reads_by spec.definition tokens.old) result tokens.new }
{
    if tokens.eat(Kind::Create) {
        read_create(alloc, tokens)
    } else if tokens.eat(Kind::Alter) {
        read_alter(alloc, tokens)
    } else {
        tokens.expect(Kind::Drop)?;
        read_drop(alloc, tokens)
    }
}

/// The definition that the tokens spell, all of them; none where they spell none.
pub fn definition(alloc: Global, tokens: &[Token]) -> Result<Option<Definition>, NoMemory>
    // What is found is spelled by the tokens.
    ensures found { IfOk result (λ r. IfSome r (λ d. spec.SpellsDefinition tokens.now d)) }
    // What the tokens spell is found.
    ensures only { (d : Tree) → spec.SpellsDefinition tokens.now d → IfOk result (λ r. r ≡ Some d) }
{
    let mut rest = Tokens::new(tokens);
    let read = read_definition(alloc, &mut rest);
    whole(read, &rest)
}

/// Tokens spell one definition at most.
pub fn one_tree()
    ensures { (ts : Sequence Token) (a b : Tree) → spec.SpellsDefinition ts a → spec.SpellsDefinition ts b → a ≡ b }
{}
