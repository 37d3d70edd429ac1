//! Recovery: the database of the records that a journal keeps.
//!
//! What is used above: `Recovery::next` carries out the record that comes next where it is `Allowed` (`ebr_allowed`) behind those
//! before it, and refuses it where it isn't; the catalogue and the data are then those of the records. `Recovery::extend` carries
//! out a list of them up to the first one that isn't allowed, and `begin_with` gives the engine over a whole list.
//!
//! That calls succeed with ample memory is tested alone.
#![tactic(auto)]

mod begin;
mod fault;
mod held;
mod objects;
mod plan;
mod recovery;
mod rows;
mod tables;

pub use begin::{Unbegun, begin_with};
pub use fault::{ListFault, RecoveryFault};
pub use recovery::Recovery;
