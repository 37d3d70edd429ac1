//! Where the pieces of a script stand, and what each begins with.

/// What a piece begins with, as its first words tell.
#[derive(Clone, Copy, Debug, PartialEq, Eq)]
pub enum Lead {
    /// `CREATE [OR REPLACE] [EDITIONABLE]` and then `PROCEDURE`, `FUNCTION`, `PACKAGE` or `TRIGGER`:
    /// a unit piece.
    Unit,
    /// `BEGIN` or `DECLARE`: a unit piece.
    Block,
    /// `CALL`
    Call,
    /// Anything else.
    Other,
}

/// A piece of a script: the bytes from the place `from` to before the place `to`, counted from 0.
///
/// It begins where something stands that isn't skipped, and ends before what ends it.
#[derive(Clone, Copy, Debug, PartialEq, Eq, Drop)]
pub struct Span {
    pub from: u32,
    pub to: u32,
    pub lead: Lead,
}

/// What stands in front of the rest of a script.
#[derive(Clone, Copy, Debug)]
pub struct Front {
    /// What a piece begins with, and how many bytes it has; none where something is skipped.
    pub piece: Option<(Lead, usize)>,
    /// How many bytes it takes, with what ends a piece.
    pub length: usize,
    /// Whether only white bytes have come since the line began, after it.
    pub fresh: bool,
}
