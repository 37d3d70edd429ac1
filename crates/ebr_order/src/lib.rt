//! The written order of a rehearsal: bytes that name sessions by their numbers.
//!
//! What is used above: `read_order`, which gives the sessions in their turns, or the place of the first byte that is wrong.
//!
//! That orders are read where memory is ample is tested alone (`ebr_servertests`).
#![tactic(auto)]

mod number;
mod order;

pub use order::{OrderErr, read_order};
