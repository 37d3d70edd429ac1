//! What a machine says where it has stopped.

use ebr_asks::Ask;
use ebr_base::Code;

/// How a run has ended.
#[derive(Clone, Copy)]
pub enum End {
    Returned,
    /// By what nothing handled.
    Raised(Code),
}

/// What comes next.
#[derive(Drop)]
pub enum Next {
    /// An ask, whose answer the machine waits for.
    Ask(Ask),
    Done(End),
}
