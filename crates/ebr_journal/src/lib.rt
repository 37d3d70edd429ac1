//! The journal: records on a disk, each there before it is acknowledged, whatever stops the machine.
//!
//! What is used above: `Journal::start` and `scan`, which find the records of a file or the smallest place where it is damaged;
//! `Journal::append` and `upgrade`; and `Upgraded`, a journal with the mark, which is a keeper of records (`Keep`). Their
//! contracts say what a crash at each moment of a call may leave, of a disk that tells its images. The bytes are in
//! `docs/JOURNAL.md`, and as a definition in `specs/Journal.antt`.
//!
//! The number and the order of the calls of the disk are tested alone, and so is that a call succeeds where memory is ample and
//! the disk doesn't fail.
#![tactic(auto)]

mod found;
mod journal;
mod laws;
mod piece;
mod put;
mod read;
mod start;
mod upgraded;

pub use found::Found;
pub use journal::Journal;
pub use laws::{damages_are_one, each_file_is_read_or_damaged, read_or_damaged, records_are_one};
pub use start::{StartFault, StartWhy, scan};
pub use upgraded::Upgraded;
