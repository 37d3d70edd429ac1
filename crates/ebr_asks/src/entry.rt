//! The entries of a history.

use crate::answer::Answer;
use crate::ask::Ask;
use ebr_base::SessionId;

/// An ask of a session with its answer: one event of a history.
#[derive(Drop)]
pub struct Entry {
    pub session: SessionId,
    pub ask: Ask,
    pub answer: Answer,
}

/// An ask with its answer, as one session sees it.
#[derive(Drop)]
pub struct Exchange {
    pub ask: Ask,
    pub answer: Answer,
}
