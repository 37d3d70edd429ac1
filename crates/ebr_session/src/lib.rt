//! Sessions: what a script asks and prints, one ask after the other.
//!
//! The crates above use the contracts of `Session`, in the words of `specs/Has.antt`. `Session::new` begins a script,
//! `advance` says its next ask, `take` hands it the answer, and `quit` makes it leave. Each says what becomes of a `Progress`:
//! the transcript, what was printed, the ask that is out, and whether the session has ended. `Follows` ties a `Progress` to
//! `SessionRun` of `specs/Sessions.antt`: the asks and whether the session has ended are those of the run of the script with the
//! answers that the transcript has, and so is what was printed, or a first part of it where the session waits to go on or has quit.
//!
//! That calls succeed with ample memory is tested alone (`ebr_servertests`, and the cases).
#![tactic(auto)]

mod after;
mod checks;
mod held;
mod next;
mod printing;
mod script;
mod session;
mod transcript;
mod work;

pub use next::NextAsk;
pub use session::{MOST_BYTES, Session};
