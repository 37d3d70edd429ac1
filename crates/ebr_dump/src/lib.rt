//! The records of a journal as lines that a user reads.
//!
//! What is used above: `dump`, which gives a line for each record, exactly as `Dump` of `specs/Dump.antt` has them. That it
//! succeeds with ample memory is tested alone.
#![tactic(auto)]

mod line;
mod lines;
mod names;
#[cfg(test)]
mod tests;

pub use lines::dump;
