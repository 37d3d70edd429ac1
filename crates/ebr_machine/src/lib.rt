//! The machine that runs slot code, and stops at each ask.
//!
//! A `Machine` is a run of a unit with its arguments. `advance` runs it up to its next ask or its end and says which, `take`
//! hands it the answer to the ask that is out. What a run does is said by `RunCode` of `ebr_code`, a function from all
//! answers to what is seen: the asks, the lines, the steps, the states of packages, the row of a trigger's body, and how the
//! run stands. The promise, in the words of `specs/Has.antt`:
//!
//! - `Has`: with the answers so far and any further ones, the machine will do what the run does. `Machine::new` gives it for
//!   `RunCode`; `advance` and `take` keep it, `take` with one answer more.
//! - `Shows`: behind `advance` just that is seen of the machine which is seen of the run with the answers so far; where it says
//!   `Done`, further answers change nothing.
//! - `IsOut`: an ask is out. `advance` gives it where it says `Ask`, and `take` asks for it.
//!
//! All of it is proved, for each unit, book, list of arguments, number of steps and list of answers, answers of the wrong kind
//! too. Only want of memory is free: that runs succeed with ample memory is tested alone (the cases), and how long an
//! instruction takes is measured alone. Nothing is recursive in the run: a call takes a task, unless what it calls ends without
//! asking a book, and a level of each of the four vectors that hold all variables, cursors, handled faults and operands. A loop
//! takes tasks where a turn of it asks a book.
#![tactic(auto)]

mod begin;
mod calls;
mod ends;
mod go;
mod loops;
mod machine;
mod next;
mod opening;
mod packages;
mod plain;
mod shapes;
mod subprograms;

pub use ebr_memory::Packages;
pub use ebr_running::BodyFrame;
pub use machine::{Frame, MOST_CALLS, Machine};
pub use next::{End, Next};
