//! The checks of a unit or a block against what an edition sees.
//!
//! What is used above: `check` finds the `verdict` of `ebr_validity`, the least number of a rule that doesn't hold, and
//! none exactly where the unit `is_valid`.
//!
//! That calls succeed with ample memory is tested alone (`ebr_parsetests`, and the cases).
#![tactic(auto)]

mod declaration;
mod faults;
mod handlers;
mod package;
mod scope;
mod statement;
mod unit;

pub use faults::{CheckFault, check};
pub use unit::row_columns;
