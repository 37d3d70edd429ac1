//! Tokens, and why a text has none.

use crate::symbol::Symbol;
use ebr_base::{Bytes, Code, NoMemory};

/// What a token is.
///
/// Oracle Database PL/SQL Language Reference 19c, Lexical Units: identifiers, literals and
/// delimiters.
#[derive(Debug, Drop)]
pub enum TokenKind {
    /// A word in upper case, reserved or not, of at most 128 bytes.
    Word(Bytes),
    /// The value of a run of at most 18 digits.
    Number(u64),
    /// The content of a string, of at most 32,767 bytes, in which a doubled quote is one.
    Text(Bytes),
    /// A delimiter.
    Symbol(Symbol),
}

/// A token with its span: the places of its first byte and of the byte after its last, counted in
/// bytes from 0.
#[derive(Debug, Drop)]
pub struct Token {
    pub from: u32,
    pub to: u32,
    pub what: TokenKind,
}

/// Why a text has no tokens.
#[derive(Clone, Copy, Debug, PartialEq, Eq)]
pub enum LexStop {
    /// The first fault of the text: the place of its first byte, counted from 0, and its code.
    ///
    /// EBR-0020: a byte that begins no token, no comment and is not white. EBR-0021: a string or a
    /// comment without an end. EBR-0022: more than 18 digits. EBR-0023: a word of more than 128
    /// bytes. EBR-0024: a string of more than 32,767 bytes.
    Fault { at: u32, code: Code },
    /// There was no memory.
    NoMemory,
}

impl From<NoMemory> for LexStop {
    ghost use Rattle.std.specs.Prelude.{◌≡◌};
    ghost use Rattle.ebr_lexer.specs.declared.token.LexStop.TheVariants.{NoMemory};

    ghost from_gives = { λ _ e. e ≡ NoMemory };

    fn from(_: NoMemory) -> LexStop {
        LexStop::NoMemory
    }
}

/// What stands in front of a text, and how many bytes it takes: a token, or none where it is a
/// white byte or a comment.
#[derive(Debug, Drop)]
pub struct Front {
    pub what: Option<TokenKind>,
    pub length: usize,
}
