//! Slot code of expressions, of targets and of calls.
//!
//! The crates above use `expression`, `call_statement`, and `target_place` with `store`, which add exactly the code that
//! `ebr_code/specs/Codes.antt` defines at the end of a list; what is known around the code is an `Around` of `ebr_places`.
//! A name that stands for nothing that belongs there has the code `Broken`. Want of memory alone is refused.
//!
//! That calls succeed with ample memory is tested alone, by programs that run (the cases).
#![tactic(auto)]

mod calls;
mod expressions;
mod held;
mod names;
mod operators;
mod targets;

pub use calls::call_statement;
pub use expressions::expression;
pub use names::{cursor_place, load, refer};
pub use operators::act;
pub use targets::{Place, place_types, store, stores, target_place, target_places};
