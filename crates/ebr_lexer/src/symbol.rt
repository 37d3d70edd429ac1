//! Symbols, the longest first.

ghost use Rattle.std.specs.Prelude.{◌≡◌, ◌≤◌, ◌<◌, length, IfOk};
ghost use Rattle.ebr_lexer.specs.Symbols.{single, double, alone, symbol_of};
ghost use Rattle.ebr_base.specs.Answers.{Answers};
ghost use Rattle.ebr_lexer.specs.Reading.{symbol_front};

use crate::token::{Front, TokenKind};
use ebr_base::{Code, Stop};

/// A delimiter.
///
/// Oracle Database PL/SQL Language Reference 19c, Lexical Units, Delimiters.
#[derive(Clone, Copy, Debug, PartialEq, Eq)]
pub enum Symbol {
    /// `:=`
    Assign,
    /// `..`
    Range,
    /// `<>` or `!=`
    NotEqual,
    /// `<=`
    AtMost,
    /// `>=`
    AtLeast,
    /// `||`
    Concat,
    /// `(`
    LeftParen,
    /// `)`
    RightParen,
    /// `,`
    Comma,
    /// `;`
    Semicolon,
    /// `.`
    Dot,
    /// `=`
    Equal,
    /// `<`
    Less,
    /// `>`
    Greater,
    /// `+`
    Plus,
    /// `-`
    Minus,
    /// `*`
    Star,
    /// `/`
    Slash,
    /// `:`
    Colon,
    /// `%`
    Percent,
}

/// The symbol in front.
pub fn symbol_front(bytes: &[u8]) -> Result<Front, Stop>
    ensures value { Answers result (symbol_front bytes.now) }
    ensures within { IfOk result (λ f. f.length ≤ length bytes.now) }
    ensures some { IfOk result (λ f. 0 < f.length) }
{
    match symbol_of(bytes) {
        Some((symbol, length)) => Ok(Front {
            what: Some(TokenKind::Symbol(symbol)),
            length,
        }),
        None => Err(Stop::Raised(Code::Ebr(20))),
    }
}

/// The longest symbol in front, and how many bytes it has.
fn symbol_of(bytes: &[u8]) -> Option<(Symbol, usize)>
    ensures { result ≡ symbol_of bytes.now }
{
    match bytes {
        [] => None,
        [first] => alone(*first),
        [first, second, ..] => match double(*first, *second) {
            Some(symbol) => Some((symbol, 2)),
            None => alone(*first),
        },
    }
}

/// The symbol that one byte spells, and its length.
fn alone(byte: u8) -> Option<(Symbol, usize)>
    ensures { result ≡ alone byte }
{
    match single(byte) {
        Some(symbol) => Some((symbol, 1)),
        None => None,
    }
}

/// The symbol that two bytes spell.
#[tactic(auto, unfolding(crate::specs::Symbols::double))]
fn double(first: u8, second: u8) -> Option<Symbol>
    ensures { result ≡ double first second }
{
    match (first, second) {
        (b':', b'=') => Some(Symbol::Assign),
        (b'.', b'.') => Some(Symbol::Range),
        (b'<', b'>') => Some(Symbol::NotEqual),
        (b'!', b'=') => Some(Symbol::NotEqual),
        (b'<', b'=') => Some(Symbol::AtMost),
        (b'>', b'=') => Some(Symbol::AtLeast),
        (b'|', b'|') => Some(Symbol::Concat),
        _ => None,
    }
}

/// The symbol that one byte spells.
#[tactic(auto, unfolding(crate::specs::Symbols::single))]
fn single(byte: u8) -> Option<Symbol>
    ensures { result ≡ single byte }
{
    match byte {
        b'(' => Some(Symbol::LeftParen),
        b')' => Some(Symbol::RightParen),
        b',' => Some(Symbol::Comma),
        b';' => Some(Symbol::Semicolon),
        b'.' => Some(Symbol::Dot),
        b'=' => Some(Symbol::Equal),
        b'<' => Some(Symbol::Less),
        b'>' => Some(Symbol::Greater),
        b'+' => Some(Symbol::Plus),
        b'-' => Some(Symbol::Minus),
        b'*' => Some(Symbol::Star),
        b'/' => Some(Symbol::Slash),
        b':' => Some(Symbol::Colon),
        b'%' => Some(Symbol::Percent),
        _ => None,
    }
}
