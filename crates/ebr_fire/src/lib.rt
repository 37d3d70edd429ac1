//! Which triggers a change of rows fires, and in which order.
//!
//! What is used above: `fires` lists the firings of an INSERT, UPDATE or DELETE, as `Fires` of `specs/Fires.antt` defines
//! them, and `crossing` those of crossedition triggers among them (`Crossing`). Both look at the catalogue alone, and not at
//! whether a trigger is valid.
//!
//! That calls succeed with ample memory is tested alone.
#![tactic(auto)]

mod actual;
mod firing;
mod groups;
mod kind;
mod seen;

pub use firing::Firing;
pub use groups::{crossing, fires};
