//! Reads the trees of definitions from tokens: of editions, tables, editioning views and triggers, and of what is
//! dropped.
//!
//! The crates above use `definition` (a tree exactly where all the tokens spell it), and the readers of types and
//! editioning views at a cursor. That texts have their trees where memory is ample is tested by the cases.
#![tactic(auto)]

mod alter;
mod create;
mod drops;
mod names;
mod parse;
mod tables;
mod types;
mod views;

pub use parse::{definition, one_tree, read_editioning_view, read_type};
