//! What no reply tells of queries and of statements that change rows, computed by the definitions alone.
//!
//! `run` of `ebr_query` and the steps of `ebr_dml` give just what is defined, so this holds of them. All else that they do, and that their
//! calls succeed with ample memory, the scripts of `cases/` show over the program.
#![tactic(auto)]

mod definitions;

pub use definitions::{locks_are_counted, rows_have_the_columns_of_their_table};
