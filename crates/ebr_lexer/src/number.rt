//! Numbers.

ghost use Rattle.std.specs.Prelude.{◌≡◌, ◌≤◌, ◌<◌, length, true, IfOk};
ghost use Rattle.std.specs.List.{prefix_len, list_all};
ghost use Rattle.ebr_base.specs.Word.{is_digit};
ghost use Rattle.ebr_lexer.specs.Lexis.{decimal, first_is};
ghost use Rattle.ebr_base.specs.Answers.{Answers};
ghost use Rattle.ebr_lexer.specs.Reading.{number_front};

use crate::token::{Front, TokenKind};
use ebr_base::{Code, Stop};

/// The most digits that a number has.
const MAX_DIGITS: usize = 18;

/// Whether a byte is a digit.
pub fn is_digit(byte: u8) -> bool
    ensures { result ≡ is_digit byte }
{
    byte.is_ascii_digit()
}

/// The number in front.
#[tactic(auto, using(crate::proofs::Runs::prefix_some))]
pub fn number_front(bytes: &[u8]) -> Result<Front, Stop>
    requires { first_is is_digit bytes.now ≡ true }
    ensures value { Answers result (number_front bytes.now) }
    ensures within { IfOk result (λ f. f.length ≤ length bytes.now) }
    ensures some { IfOk result (λ f. 0 < f.length) }
{
    let length = digit_count(bytes);
    if length > MAX_DIGITS {
        return Err(Stop::Raised(Code::Ebr(22)));
    }
    Ok(Front {
        what: Some(TokenKind::Number(decimal(&bytes[..length]))),
        length,
    })
}

/// How many digits stand in front.
fn digit_count(bytes: &[u8]) -> usize
    ensures value { result ≡ prefix_len is_digit bytes.now }
    ensures within { result ≤ length bytes.now }
{
    bytes.iter().take_while(|byte| is_digit(**byte)).count()
}

/// The number that digits spell.
fn decimal(digits: &[u8]) -> u64
    requires all { list_all is_digit digits.now ≡ true }
    requires few { length digits.now ≤ 18 }
    ensures { result ≡ decimal digits.now }
{
    let mut value = 0;
    for byte in digits {
        value = value * 10 + (*byte - b'0') as u64;
    }
    value
}
