//! The tables of the catalogue, which belong to no edition: `Tables` keeps the living ones by name and in order of id.
//!
//! What is used above: each call of `Tables` answers as `create_answer`, `add_answer` and `remove_answer` of
//! `specs/Tables.antt` define it, and leaves the tables that `with_table`, `with_column` and `without_table` say;
//! `find` and `nth` hand out `AreTables`, which holds at all times.
//!
//! That calls succeed with ample memory is tested alone.
#![tactic(auto)]

mod definition;
mod keyed;
mod tables;

pub use definition::with_key_not_null;
pub use tables::Tables;
