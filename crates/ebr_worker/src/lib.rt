//! Sessions at work over one engine. A worker hands its session's asks over and writes what it printed; a rehearsal gives the
//! workers their turns by a written order.
//!
//! What is used above: `sessions_of` begins the sessions of scripts, each with its sink, and `run_sessions` runs them over any engine and
//! any keeper and says what each session came to, in one legal history, and what became of the keeper. Sessions that aren't to run give
//! their sinks back. `run_alone` runs one script from an empty database. `Worker::turn` and `rehearse_core` are their parts. A worker asks whoever answers (`Asked`): an engine, or a turn in
//! which threads take one.
//!
//! That calls succeed with ample memory is tested alone (`ebr_servertests`, and the cases).
#![tactic(auto)]

mod asked;
mod engine;
mod held;
mod limits;
mod memory;
mod rehearse;
mod run;
mod worker;

pub use asked::Asked;
pub use engine::answer;
pub use held::{keeper_of, release_records};
pub use limits::MAX_ASKS;
pub use rehearse::rehearse_core;
pub use run::{Rehearsed, Sessions, results_of, run_alone, run_sessions, sessions_of, sinks_of};
pub use worker::Worker;
