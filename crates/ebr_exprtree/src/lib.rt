//! Syntax trees of expressions. They stand apart from the trees of statements, so that what reads or computes expressions needs
//! no more.
//!
//! What is used above: the types, with the `==` of those that hold no tree. A tree is copied by the `Shared` that holds it.
//!
//! Nothing here is only tested.
#![tactic(auto)]

mod expression;
mod op;

pub use expression::{Addend, AdditiveOperator, Attribute, Comparison, Expr, Path, RowImage};
pub use op::Op;
