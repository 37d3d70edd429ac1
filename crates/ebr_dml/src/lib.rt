//! INSERT, UPDATE, DELETE and APPLY TRIGGER, one row after the other, so that triggers come between.
//!
//! What is used above: `Dml::start` gives what `started` of `specs/Steps.antt` says, and `Dml::step` what `stepped` says: each
//! row before its BEFORE triggers, and, changed as `written` of `specs/Tests.antt` has it, before its AFTER triggers. `CanStep`
//! is what a step asks for, and what it leaves.
//!
//! That calls succeed with ample memory is tested alone (the cases).
#![tactic(auto)]

mod columns;
mod dml;
mod image;
mod plan;
mod planning;
mod rows;
mod step;
mod taken;
mod value;
mod write;

pub use dml::Dml;
pub use step::DmlStep;
