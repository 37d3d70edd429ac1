//! Sessions at work in threads of their own, over one engine that they take in turn.
//!
//! What is used above: `run_threads`, which runs sessions over an engine, each in a thread, and says what each of them came to, in one
//! legal history, just as `run_sessions` of `ebr_worker` does of one thread. `run_core` is its part. Each worker sits at a chair of a
//! turn that holds the engine. It takes the turn for one ask and nothing else, and its chair's list grows by the exchange that the
//! history has. So what the history has of a session is its worker's transcript, whatever order the threads came in, and nothing is
//! compared.
//!
//! Nothing is proved of waiting: not that a worker's turn comes, nor how long that takes.
#![tactic(auto)]

mod at_turn;
mod desk;
mod run;
mod seated;

pub use run::{Unrun, run_core, run_threads};
