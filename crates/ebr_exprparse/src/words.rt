//! Words of which each stands for a value.

ghost use Rattle.ebr_grammar.specs.Outcome.{Reads};
ghost use Rattle.ebr_exprparse.specs.inside.Words as spec;

use ebr_grammar::{Kind, ReadStop, Tokens};

/// The value of the first of these words that stands there, which is then read.
#[tactic(auto, using(crate::proofs::Found::seen, crate::proofs::Found::unseen))]
pub fn read_one_of<T: Copy>(tokens: &mut Tokens<'_>, mut words: &[(Kind, T)]) -> Result<T, ReadStop>
    ensures { Reads (spec.read_one words.entry.now tokens.old) result tokens.new }
{
    while let [first, rest @ ..] = words {
        let (word, value) = *first;
        if tokens.eat(word) {
            return Ok(value);
        }
        words = rest;
    }
    Err(ReadStop::NoTree)
}
