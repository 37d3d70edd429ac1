//! What of an expression is read.

/// What of an expression is read.
#[derive(Clone, Copy, Debug, PartialEq, Eq)]
pub enum Level {
    /// The whole of it.
    Whole,
    /// A sum alone.
    Sum,
}
