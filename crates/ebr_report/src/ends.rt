//! How sessions end.

use ebr_base::SessionId;

/// How a session ended.
#[derive(Clone, Copy, Debug, PartialEq, Eq)]
pub enum EndKind {
    /// It read its script to its end and left.
    Ended,
    /// Its sink failed, so it left.
    SinkFault,
    /// An answer was that the disk failed or that the engine has stopped.
    Stopped,
    /// It found no memory, or an answer was that there was none.
    NoMemory,
}

/// What a session came to.
#[derive(Drop)]
pub struct SessionEnd<S> {
    pub session: SessionId,
    /// How many asks it made, Leave among them.
    pub requests: u32,
    /// How many of them were refused.
    pub refused: u32,
    pub end: EndKind,
    /// What it printed to.
    pub sink: Option<S>,
}
