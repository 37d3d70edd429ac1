//! What names in code stand for: the places of variables and cursors, exceptions, and what is called.
//!
//! The crates above use `Around`, which contracts see as the `Env` of `ebr_run/specs/Scope.antt`, and the look-ups `meant`,
//! `plain`, `called`, `applied` and `raised`, which are the words of these names there.
//!
//! That calls succeed with ample memory is tested alone, by programs that run (the cases).
#![tactic(auto)]

mod around;
mod codes;
mod denoted;
mod exceptions;
mod kinds;
mod lookup;
mod members;
mod names;

pub use around::{Around, Frame, Mark};
pub use codes::Codes;
pub use denoted::{Bound, Denoted, Part};
pub use kinds::{declared_type, parameter_type};
pub use lookup::{applied, called, meant, plain, raised};
