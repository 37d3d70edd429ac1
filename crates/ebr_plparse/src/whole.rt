//! Whole texts of units.

ghost use Rattle.std.specs.Prelude.{◌≡◌, IfOk, IfSome, Some, List as Sequence};
ghost use Rattle.ebr_ast.specs.declared.definition.Definition.{Definition as Created};
ghost use Rattle.ebr_plparse.specs.Units as grammar;

use crate::units::{read_any_block, read_definition, read_text};
use ebr_ast::{Block, Definition, UnitTree};
use ebr_base::{NoMemory, Shared};
use ebr_grammar::{Tokens, whole};
use ebr_lexer::Token;
use std::alloc::Global;

/// The unit, editioning view, block or CALL that the tokens spell, all of them; None where they spell none.
///
/// A unit or a view is given from its own first word on: PROCEDURE, FUNCTION, PACKAGE, TRIGGER or EDITIONING.
pub fn unit(alloc: Global, tokens: &[Token]) -> Result<Option<UnitTree>, NoMemory>
    // What is found is spelled by the tokens.
    ensures found { IfOk result (λ r. IfSome r (grammar.SpellsUnit tokens.now)) }
    // What the tokens spell is found.
    ensures only { (x : UnitTree) → grammar.SpellsUnit tokens.now x → IfOk result (λ r. r ≡ Some x) }
{
    let mut rest = Tokens::new(tokens);
    let read = read_text(alloc, &mut rest);
    whole(read, &rest)
}

/// The CREATE of a unit or an editioning view that the tokens spell, all of them; None where they spell none.
pub fn created(alloc: Global, tokens: &[Token]) -> Result<Option<Definition>, NoMemory>
    // What is found is spelled by the tokens.
    ensures found { IfOk result (λ r. IfSome r (grammar.SpellsCreation tokens.now)) }
    // What the tokens spell is found.
    ensures only { (x : Definition) → grammar.SpellsCreation tokens.now x → IfOk result (λ r. r ≡ Some x) }
{
    let mut rest = Tokens::new(tokens);
    let read = read_definition(alloc, &mut rest);
    whole(read, &rest)
}

/// The block that the tokens spell, all of them, or the block that a CALL means; None where they spell neither.
pub fn block(alloc: Global, tokens: &[Token]) -> Result<Option<Shared<Block>>, NoMemory>
    // What is found is spelled by the tokens.
    ensures found { IfOk result (λ r. IfSome r (grammar.SpellsBlock tokens.now)) }
    // What the tokens spell is found.
    ensures only { (x : Block) → grammar.SpellsBlock tokens.now x → IfOk result (λ r. r ≡ Some x) }
{
    let mut rest = Tokens::new(tokens);
    let read = read_any_block(alloc, &mut rest);
    whole(read, &rest)
}

/// Tokens spell one tree of a kind at most.
pub fn one_tree()
    ensures unit { (ts : Sequence Token) (a b : UnitTree) → grammar.SpellsUnit ts a → grammar.SpellsUnit ts b → a ≡ b }
    ensures created { (ts : Sequence Token) (a b : Created) → grammar.SpellsCreation ts a → grammar.SpellsCreation ts b → a ≡ b }
    ensures block { (ts : Sequence Token) (a b : Block) → grammar.SpellsBlock ts a → grammar.SpellsBlock ts b → a ≡ b }
{}
