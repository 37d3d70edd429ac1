//! What is known around a statement of SQL in code, and the columns of a query there.
//!
//! What is used above: `Around` tells what a name in a statement is that is no column, `fields` gives the columns of a query
//! (`fields_of` of `specs/Columns.antt`), and `list_fields` those over sources that are found.
#![tactic(auto)]

mod around;
mod columns;

pub use around::{Around, image_type};
pub use columns::{fields, list_fields};
