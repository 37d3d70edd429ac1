//! The server: the one call `serve`, which joins the parts. It tells the command of the words (`ebr_words`), reads the order
//! (`ebr_order`) and the scripts, makes the sinks, opens the journal (`ebr_startup`), has the sessions run, by turns (`ebr_worker`) or each
//! in a thread of its own (`ebr_threads`), and writes the summary (`ebr_report`), or the lines of a journal (`ebr_dump`), and the last line.
//! `serve_alone` is `serve` for all words but those of `run`: it starts no thread and waits for nobody.
//!
//! The program uses `serve`, whose contract is the headline: the history is legal, each session's asks are those of its
//! script, and its sink, which for `try` is the report, holds what the script prints, or a part of it where a write failed or
//! the session left early; and a crash at any moment leaves the journal's records and the first of those that were made, among
//! them each that was acknowledged.
//!
//! That calls succeed with ample memory is tested alone (`ebr_servertests`, and the cases).
#![tactic(auto)]

mod codes;
mod command;
mod exit;
mod journal;
mod opened;
mod over;
mod read;
mod rehearsal;
mod report;
mod scripts;
mod threads;

pub use command::{Outcome, serve, serve_alone};
pub use ebr_asks::{Answer, Ask, Entry};
pub use ebr_report::{EndKind, SessionEnd};
pub use exit::ExitCode;
pub use read::MAX_SCRIPT;
