//! What is written at the end of a run: the summary of its sessions, and lines. Each writes to a sink until a write fails, and
//! takes no memory.
//!
//! What is used above: `offer`, which writes bytes from a place on, `write_line`, and `write_summary`. Each says what the sink
//! holds then, and that the sink's count of faults is one more exactly where a write failed. Nothing of it is only tested.
#![tactic(auto)]

mod ends;
mod summary;
mod write;

pub use ends::{EndKind, SessionEnd};
pub use summary::write_summary;
pub use write::{offer, write_line};
