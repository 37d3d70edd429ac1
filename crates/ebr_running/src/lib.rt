//! What a machine has done and will do, and each instruction that asks no book for it.
//!
//! The crate above uses the clauses of the methods of `Running`, all in the words of `specs/Rest.antt`: what is left of a run
//! behind a method is what was left before it, begun with what the instruction means.
//!
//! That calls succeed with ample memory is tested alone, by programs that run (the cases).
#![tactic(auto)]

mod answers;
mod asks;
mod columns;
mod compute;
mod control;
mod cursors;
mod fetches;
mod handlers;
mod leaving;
mod moves;
mod numbers;
mod rows;
mod running;
mod tasks;

pub use running::{BodyFrame, Caller, Flow, Left, Pending, Running, Task};
