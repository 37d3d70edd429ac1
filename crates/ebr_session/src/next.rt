//! What a session says where it has gone on.

use ebr_asks::Ask;

/// What comes next.
#[derive(Drop)]
pub enum NextAsk {
    /// An ask, whose answer the session waits for.
    Ask(Ask),
    /// The session has ended.
    Done,
}
