//! A piece of a script.

use ebr_ast::Statement;
use ebr_base::Code;

/// What a piece is.
#[derive(Drop)]
pub enum PieceKind {
    /// The statement that it spells.
    Tree(Statement),
    /// The code of its first fault.
    Refused(Code),
}

/// A piece of a script: the bytes from the place `from` to before the place `to`. Places are counted in bytes from the
/// script's beginning, from 0.
#[derive(Drop)]
pub struct Piece {
    pub from: u32,
    /// Where its stored text ends, which begins at `from`: the place behind its last token. It is `from` where the piece
    /// has no token, a lexical fault, or too deep a nesting.
    pub text_end: u32,
    pub to: u32,
    pub what: PieceKind,
}
