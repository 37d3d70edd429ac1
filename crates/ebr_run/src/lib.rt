//! What PL/SQL does: the meaning of blocks, subprograms, packages and trigger bodies, by their trees.
//!
//! The crates above use `Run` of `specs/Run.antt`: what a unit does, over the view of its edition, with the answers that it
//! is given. It is a definition, and no code stands behind it here; the types of this crate are what its words and those of
//! slot code share: where a variable or a cursor is, what type it has, what is called and what was raised.
//!
//! That copies of these succeed with ample memory is tested alone (the cases).
#![tactic(auto)]

mod callee;
mod fault;
mod place;

pub use callee::{Callee, Reference};
pub use fault::{Exception, Fault};
pub use place::{Bind, Location, VariableType};
