//! The operators, built-in functions and printed texts of SQL and PL/SQL values.
//!
//! The crates above use the contracts of `binary` and `function`: the answer is what `specs/Forms.antt` defines
//! for the operator or function, and only what makes a text takes memory. `order` is the order of two values,
//! `fits` tells what the assignment of a value raises, and `text_of` prints a value.
//!
//! Tests alone show that the calls succeed where memory is ample.
#![tactic(auto)]

mod assign;
mod calls;
mod comparison;
mod form;
mod logic;
mod number;
mod numeral;
mod outcome;
mod part;
mod pattern;
mod text;

pub use assign::fits;
pub use calls::{binary, function};
pub use comparison::order;
pub use form::{BinOp, Builtin, Place};
pub use text::text_of;
