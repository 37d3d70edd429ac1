//! Runs scripts through `serve` over a host in memory, for `ebr_servertests` and `ebr_threadtests`.
//!
//! What is used above: `served` hands back what a run of one script came to, and `prints` compares a script's replies; `rehearsed` hands
//! back what a rehearsal came to, and `came_to` compares its replies and its report; `rehearsed_over`, `rehearsed_on` and `dumped` do so over a
//! journal of given bytes, and `disk_is` and `dumps` compare what is left and what is written. `ran` hands back what a run in threads came
//! to, and `ran_in_order` does where an `OrderGate` keeps the order of the asks. No contract is given: those above state what they want.
#![tactic(auto)]

mod gate;
mod journals;
mod rehearsals;
mod runs;
mod trial;

pub use gate::OrderGate;
pub use journals::{DUMP, bytes_of, disk_is, dumped, dumps, journal, rehearsed_on, rehearsed_over};
pub use rehearsals::{
    Stop, came_to, failing_sink, failing_source, file, rehearse_words, rehearsed, stops,
};
pub use runs::{ran, ran_in_order, ran_over, run_words, script_files};
pub use trial::{Faults, MemOutcome, NO_FAULTS, TRY, ended, prints, release, served, words_of};
