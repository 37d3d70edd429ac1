//! Reads expressions of SQL and PL/SQL from tokens.
//!
//! The crates above use `read_expression`, at a cursor: what it reads is what the grammar of `specs/Expressions.antt`
//! gives there. `expr` says of a place in tokens that this is what they spell. That texts have their trees where memory
//! is ample is tested by the cases.
#![tactic(auto)]

mod expression;
mod level;
mod parse;
mod trees;
mod words;

pub use parse::{expr, read_expression};
