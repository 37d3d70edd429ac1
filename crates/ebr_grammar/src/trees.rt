//! Small steps of readers that hold a tree, generic so that what they drop is dropped by one call.

ghost use Rattle.std.specs.Prelude.{◌≡◌, Some, IfOk, List as Sequence};
ghost use Rattle.ebr_lexer.specs.declared.token.Token.{Token};
ghost use Rattle.ebr_grammar.specs.Forms.{Found};
ghost use Rattle.ebr_grammar.specs.Outcome.{Reads};
ghost use Rattle.ebr_grammar.specs.Reading as reading;

use crate::kind::Kind;
use crate::tokens::{ReadStop, Tokens};
use ebr_base::{NoMemory, Shared};
use std::alloc::Global;

/// The tree, made shareable: what was read, before any tokens.
pub fn shared<T: Drop>(alloc: Global, tree: T) -> Result<Shared<T>, ReadStop>
    ensures { (ts : Sequence Token) → Reads (Some (tree, ts)) result ts }
{
    Ok(Shared::new(alloc, tree)?)
}

/// The tree that was read, where a token of the kind stands behind it, which is then read.
pub fn ended<T: Drop>(tokens: &mut Tokens<'_>, kind: Kind, tree: T) -> Result<T, ReadStop>
    ensures { Reads (reading.read_word kind tree tokens.old) result tokens.new }
{
    if tokens.eat(kind) {
        Ok(tree)
    } else {
        Err(ReadStop::NoTree)
    }
}

/// The tree that was read, where no token is left; None where none was read.
pub fn whole<T: Drop>(read: Result<T, ReadStop>, rest: &Tokens<'_>) -> Result<Option<T>, NoMemory>
    ensures { (found : Found T) → Reads found read rest.now → IfOk result (λ r. r ≡ reading.whole found) }
{
    match read {
        Ok(tree) => {
            if rest.left() == 0 {
                Ok(Some(tree))
            } else {
                Ok(None)
            }
        }
        Err(ReadStop::NoTree) => Ok(None),
        Err(ReadStop::NoMemory) => Err(NoMemory),
    }
}
