//! The kinds of changes.

/// What a statement does to a row, and an event of a trigger.
#[derive(Clone, Copy, Debug, PartialEq, Eq)]
pub enum Op {
    Insert,
    Update,
    Delete,
}
