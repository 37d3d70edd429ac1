//! What the sessions of a run pass before they ask.

use ebr_base::SessionId;

/// What a session passes before each ask, in its thread. It promises nothing.
pub trait Gate: Drop + Sync {
    /// Before the k-th ask of a session, counted from 1.
    fn pass(&self, session: SessionId, k: u64);
}

/// A gate that is always open.
#[derive(Clone, Copy, Debug)]
pub struct OpenGate;

impl Gate for OpenGate {
    fn pass(&self, _session: SessionId, _k: u64) {}
}
