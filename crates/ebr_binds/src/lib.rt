//! Statements of SQL in code, in which each name that is no column is a bind.
//!
//! A column wins over a variable. The crates above use `query`, `insert`, `update` and `delete`, which make exactly the
//! statements that `ebr_run/specs/Binds.antt` defines, with what gives each bind its value, in the order of the binds.
//!
//! That calls succeed with ample memory is tested alone, by programs that run (the cases).
#![tactic(auto)]

mod copy;
mod expressions;
mod origin;
mod parts;
mod statements;

pub use statements::{delete, insert, query, update};
