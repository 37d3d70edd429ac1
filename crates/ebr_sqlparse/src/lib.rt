//! Reads SQL, transaction statements and the choice of an edition from tokens.
//!
//! The crates above use `sql`, `transaction` and `session` (a tree exactly where all the tokens spell it), and the
//! readers at a cursor for what stands in PL/SQL. That texts have their trees where memory is ample is tested by
//! the cases.
#![tactic(auto)]

mod change;
mod items;
mod queries;
mod statements;
mod whole;

pub use change::{read_delete, read_insert, read_update};
pub use ebr_ddlparse::definition;
pub use ebr_exprparse::expr;
pub use items::read_select_list;
pub use queries::{read_query, read_query_rest};
pub use statements::read_transaction;
pub use whole::{calls_of_aggregates, one_tree, session, sql, transaction};
