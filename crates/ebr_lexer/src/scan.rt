//! The tokens of a text.

ghost use Rattle.std.specs.Prelude.{◌≡◌, ◌≤◌, ◌<◌, ◌+◌, ◌++◌, length, slice_index, List as Sequence, ℕ, Ok, Err, IfOk, OnOk, All, AllPairs};
ghost use Rattle.ebr_base.specs.declared.code.Code.{Code};
ghost use Rattle.ebr_lexer.specs.declared.token.Token.{Token};
ghost use Rattle.ebr_lexer.specs.Lexis.{Tokens, FirstFault, Found, Tells, LiesWithin, Precedes};
ghost use Rattle.ebr_lexer.specs.Reading.{front, read, token_there};
ghost use Rattle.ebr_lexer.specs.inside.Places.{Places};

use crate::front::front;
use crate::token::{Front, LexStop, Token, TokenKind};
use ebr_base::{List, MAX_COUNT, NoMemory, Stop, rest_from};
use std::alloc::Global;

/// The tokens of a text, in order, or its first fault.
///
/// Its work is linear in the text. It takes memory for the list, and once for each word and string.
///
/// Oracle Database PL/SQL Language Reference 19c, Lexical Units.
pub fn lex(alloc: Global, bytes: &[u8]) -> Result<List<Token>, LexStop>
    requires { length bytes.now < MAX_COUNT }
    // What is read is what the text has, and a fault is its first.
    ensures found { Found bytes.now result }
    // No token is empty; each stands within the text, and ends before the next begins.
    ensures within { IfOk result (All (LiesWithin bytes.now)) }
    ensures ordered { IfOk result (AllPairs Precedes) }
    // The tokens that a text has are read, unless memory runs out.
    ensures tokens { (ts : Sequence Token) → Tokens bytes.now ts → Tells result (Ok ts) }
    // The first fault of a text is told, unless memory runs out.
    ensures fault { (at : ℕ) (code : Code) → FirstFault bytes.now at code → Tells result (Err (at, code)) }
{
    scan(alloc, bytes)
}

/// Reads from left to right.
fn scan(alloc: Global, bytes: &[u8]) -> Result<List<Token>, LexStop>
    requires { length bytes.now < MAX_COUNT }
    ensures { Tells result (read (length bytes.now) 0 bytes.now) }
{
    let mut tokens = List::new(alloc);
    let mut place = 0;
    for _ in 0..bytes.len() {
        let rest = rest_from(bytes, place);
        if rest.is_empty() {
            return Ok(tokens);
        }
        let Front { what, length } = front_at(alloc, place, rest)?;
        let from = place;
        place = from + length;
        add_token(&mut tokens, what, from, place)?;
    }
    Ok(tokens)
}

/// What stands in front of bytes that begin at a place.
fn front_at(alloc: Global, at: usize, bytes: &[u8]) -> Result<Front, LexStop>
    requires place { at < MAX_COUNT }
    requires some { 0 < length bytes.now }
    requires small { length bytes.now < MAX_COUNT }
    ensures value { Places at result (front (slice_index bytes.now 0) bytes.now) }
    ensures within { IfOk result (λ f. f.length ≤ length bytes.now) }
    ensures some { IfOk result (λ f. 0 < f.length) }
{
    match front(alloc, bytes) {
        Ok(front) => Ok(front),
        Err(Stop::NoMemory) => Err(LexStop::NoMemory),
        Err(Stop::Raised(code)) => Err(LexStop::Fault {
            at: at as u32,
            code,
        }),
    }
}

/// Adds the token that stands from one place to another, if there is one.
fn add_token(
    tokens: &mut List<Token>,
    what: Option<TokenKind>,
    from: usize,
    to: usize,
) -> Result<(), NoMemory>
    requires small { to ≤ MAX_COUNT }
    requires ordered { from ≤ to }
    ensures { OnOk result (tokens.new ≡ tokens.old ++ token_there what from to) }
{
    match what {
        Some(what) => tokens.push(Token {
            from: from as u32,
            to: to as u32,
            what,
        }),
        None => Ok(()),
    }
}
