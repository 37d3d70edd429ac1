//! Reads the trees of PL/SQL units from tokens: of subprograms, packages, triggers and blocks, and of what creates
//! them.
//!
//! The crates above use `unit`, `created` and `block`: a tree exactly where all the tokens spell it. That texts have
//! their trees where memory is ample is tested by the cases.
#![tactic(auto)]

mod heads;
mod packages;
mod parameters;
mod triggers;
mod types;
mod units;
mod whole;

pub use whole::{block, created, one_tree, unit};
