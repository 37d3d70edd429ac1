//! The columns and the key of a table, off the tree of CREATE TABLE.
//!
//! What is used above: `is_bad_table` tells what EBR-0029 refuses, `table_of` gives the definition of a table, and
//! `column_type`, `column_names`, `key_names` and `repeats_a_name` its parts, each as `specs/Columns.antt` defines it.
//!
//! That calls succeed with ample memory is tested alone.
#![tactic(auto)]

mod columns;

pub use columns::{column_names, column_type, is_bad_table, key_names, repeats_a_name, table_of};
