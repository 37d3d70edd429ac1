//! Blocks that a session runs, and the replies of its requests.
//!
//! The crates above use the contracts of `Call`, in the words of `specs/Courses.antt`. A course is what a session does, by
//! the answers still to come and the moment at which it quits; `GoesOn` says with which step it goes on. `Call::new` begins a
//! block, `advance` runs it up to its next ask (`Asks`) or to what is done at its end, and `take` hands it an answer. What a
//! block does is `run_valid` of `specs/Steps.antt`. `print_result` prints the lines that tell how a request ended.
//!
//! That calls succeed with ample memory is tested alone (`ebr_servertests`, and the cases).
#![tactic(auto)]

mod call;
mod levels;
mod lines;
mod reply;

pub use call::{Call, MOST_STEPS};
pub use levels::Levels;
pub use lines::print_lines;
pub use reply::{print_code, print_result};
