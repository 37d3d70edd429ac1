//! What the rules of valid units say of expressions and of statements of SQL in code.
//!
//! `ebr_validity` has the twelve rules, each a test of places. What is used above: `expression`, `query`,
//! `insert`, `update`, `delete`, `into` and `target` go through the places of their part in reading order, and keep the least
//! number of a rule that one of them breaks: `noted` of `specs/Noted.antt`.
//!
//! That calls succeed with ample memory is tested alone (the cases).
#![tactic(auto)]

mod expressions;
mod judge;
mod mention;
mod sql;
mod targets;
mod verdict;

pub use expressions::{arguments, expression, parameters_of, wanted};
pub use judge::{calls, cursors, raises};
pub use sql::{delete, insert, query, update};
pub use targets::{into, target};
pub use verdict::must;
