//! Words.

ghost use Rattle.std.specs.Prelude.{◌≡◌, ◌≤◌, ◌<◌, length, true, IfOk};
ghost use Rattle.std.specs.List.{prefix_len};
ghost use Rattle.ebr_base.specs.Word.{is_letter, is_word_byte};
ghost use Rattle.ebr_lexer.specs.Lexis.{first_is};
ghost use Rattle.ebr_base.specs.Answers.{Answers};
ghost use Rattle.ebr_lexer.specs.Reading.{word_front};

use crate::token::{Front, TokenKind};
use ebr_base::{Code, Stop, is_word_byte, to_upper_case};
use std::alloc::Global;

/// The most bytes that a word has.
const MAX_WORD: usize = 128;

/// The word in front, in upper case.
#[tactic(auto, using(crate::proofs::Runs::word_some))]
pub fn word_front(alloc: Global, bytes: &[u8]) -> Result<Front, Stop>
    requires { first_is is_letter bytes.now ≡ true }
    ensures value { Answers result (word_front bytes.now) }
    ensures within { IfOk result (λ f. f.length ≤ length bytes.now) }
    ensures some { IfOk result (λ f. 0 < f.length) }
{
    let length = word_length(bytes);
    if length > MAX_WORD {
        return Err(Stop::Raised(Code::Ebr(23)));
    }
    let word = to_upper_case(alloc, &bytes[..length])?;
    Ok(Front {
        what: Some(TokenKind::Word(word)),
        length,
    })
}

/// How many word bytes stand in front.
fn word_length(bytes: &[u8]) -> usize
    ensures value { result ≡ prefix_len is_word_byte bytes.now }
    ensures within { result ≤ length bytes.now }
{
    bytes.iter().take_while(|byte| is_word_byte(**byte)).count()
}
