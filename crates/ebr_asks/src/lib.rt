//! What sessions and trigger bodies ask of the engine, what it answers, and the entries of a history. By the contract of
//! `CloneIn` a copy of an ask or of an answer is equal; that copies succeed with ample memory is tested alone.
//!
//! The crates above use the types. Statements, binds, definitions, views, rows and lines stand behind `Shared`, so that a copy of
//! an ask or of an answer copies no tree and no value.
#![tactic(auto)]

mod answer;
mod ask;
mod entry;

pub use answer::Answer;
pub use ask::Ask;
pub use entry::{Entry, Exchange};
