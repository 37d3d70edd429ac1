//! The tokens of a piece, its fault, and where its stored text ends.

ghost use Rattle.std.specs.Prelude.{◌≡◌, ◌≤◌, ◌<◌, ℕ, List as Sequence, length, take, false, IfOk, All, AllPairs};
ghost use Rattle.ebr_lexer.specs.Lexis.{LiesWithin, Precedes};
ghost use Rattle.ebr_cut.specs.declared.scanned.Scanned.{Scanned};
ghost use Rattle.ebr_cut.specs.Scans.{Scans, IfTokens, KeepsTokens, StandsInFront, end_of, is_word, opens, closes, count_behind, is_too_deep, with_depth, stored};

use ebr_base::{Code, List, MAX_COUNT, NoMemory};
use ebr_lexer::{LexStop, Symbol, Token, TokenKind, lex};
use std::alloc::Global;

/// The largest nesting count that a piece may reach.
const MAX_NESTING: u32 = 64;

/// What the bytes of a piece are.
#[derive(Debug, Drop)]
pub enum Scanned {
    /// Its tokens, in order.
    Tokens(List<Token>),
    /// Its first lexical fault, EBR-0020 to EBR-0024, or EBR-0025 where it has none and its
    /// nesting count passes 64.
    Fault(Code),
}

/// The tokens of a piece's text, or its fault.
///
/// The nesting count goes through the tokens from 0: `(`, `BEGIN`, and `LOOP` or `IF` not directly
/// after `END` add 1; `)` and `END` take 1 away, never below 0.
pub fn scan(alloc: Global, text: &[u8]) -> Result<Scanned, NoMemory>
    requires { length text.now < MAX_COUNT }
    // The text has what is answered.
    ensures found { IfOk result (Scans text.now) }
    // What the text has is answered.
    ensures only { (s : Scanned) → Scans text.now s → IfOk result (λ r. r ≡ s) }
    // No token is empty; each stands within the text, and ends before the next begins.
    ensures within { IfOk result (IfTokens (All (LiesWithin text.now))) }
    ensures ordered { IfOk result (IfTokens (AllPairs Precedes)) }
{
    match lex(alloc, text) {
        Ok(tokens) => Ok(with_depth(tokens)),
        Err(LexStop::Fault { code, .. }) => Ok(Scanned::Fault(code)),
        Err(LexStop::NoMemory) => Err(NoMemory),
    }
}

/// The tokens, unless they are nested too deep.
fn with_depth(tokens: List<Token>) -> Scanned
    ensures { result ≡ with_depth tokens }
{
    if is_too_deep(tokens.as_slice()) {
        Scanned::Fault(Code::Ebr(25))
    } else {
        Scanned::Tokens(tokens)
    }
}

/// Whether the nesting count passes the limit.
fn is_too_deep(tokens: &[Token]) -> bool
    ensures { result ≡ is_too_deep false 0 tokens.now }
{
    let mut count = 0;
    let mut ended = false;
    for token in tokens {
        count = count_behind(ended, count, &token.what);
        if count > MAX_NESTING {
            return true;
        }
        ended = is_word(b"END", &token.what);
    }
    false
}

/// The nesting count behind a token; `ended` tells that `END` stands directly before the token.
fn count_behind(ended: bool, count: u32, token: &TokenKind) -> u32
    requires { count < 65 }
    ensures { result ≡ count_behind ended count token.now }
{
    if opens(ended, token) {
        count + 1
    } else if closes(token) {
        count.saturating_sub(1)
    } else {
        count
    }
}

/// Whether a token opens a level.
fn opens(ended: bool, token: &TokenKind) -> bool
    ensures { result ≡ opens ended token.now }
{
    match token {
        TokenKind::Symbol(Symbol::LeftParen) => true,
        _ => {
            is_word(b"BEGIN", token) || !ended && (is_word(b"LOOP", token) || is_word(b"IF", token))
        }
    }
}

/// Whether a token closes a level.
fn closes(token: &TokenKind) -> bool
    ensures { result ≡ closes token.now }
{
    match token {
        TokenKind::Symbol(Symbol::RightParen) => true,
        _ => is_word(b"END", token),
    }
}

/// Whether a token is this word.
fn is_word(word: &[u8], token: &TokenKind) -> bool
    ensures { result ≡ is_word word.now token.now }
{
    match token {
        TokenKind::Word(spelled) => spelled.as_slice() == word,
        _ => false,
    }
}

/// The place behind the last token; 0 where there is none.
///
/// In a piece's text it ends the stored text, which begins in front.
pub fn end_of(tokens: &[Token]) -> u32
    ensures value { result ≡ end_of 0 tokens.now }
    // It stands within each text that has the tokens within.
    ensures within { (text : Sequence ℕ) → All (LiesWithin text) tokens.now → result ≤ length text }
    // Where the first token stands in front, the stored text is what stands before this place.
    ensures stored { (text : Sequence ℕ) → StandsInFront tokens.now → take result text ≡ stored text tokens.now }
    // It has the same tokens.
    ensures tokens { (text : Sequence ℕ) → KeepsTokens text tokens.now (take result text) }
{
    match tokens.last() {
        Some(last) => last.to,
        None => 0,
    }
}
