//! The calls of a host, as it tells them.

use ebr_base::Bytes;

/// What a host is asked to open.
#[derive(Clone, Copy, Debug, PartialEq, Eq)]
pub enum HostMethod {
    /// The source of a word.
    Source,
    /// A sink for a word.
    Sink,
    /// The disk of a word.
    Disk,
}

/// A call that a host has answered.
#[derive(Debug, Drop)]
pub struct HostCall {
    pub method: HostMethod,
    pub word: Bytes,
    /// Whether it was answered `Failed`.
    pub failed: bool,
}
