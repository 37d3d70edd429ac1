//! Row locks: which transaction holds which row.
//!
//! What is used above: `take`, `holder`, `held`, `holds_in` and `release_to` of `Locks` answer and change as `specs/Locks.antt`
//! defines it over the plain list of locks, and no row is locked twice (`AreLocks`). `reserve` makes the room that a
//! `take` uses up. Rows, tables and transactions are found by ordered sets, so a release costs what it frees.
//!
//! That calls succeed with ample memory is tested alone.
#![tactic(auto)]

mod list;
mod locks;

pub use locks::{Held, Locks};
