//! The engine: it answers the asks of all sessions, one at a time, keeps their history, and has the records kept.
//!
//! What is used above: `Engine::answer`, which replies as `Reply` of `specs/Machine.antt` defines it, in the database that the asks
//! before it left, and adds the entry; the whole history is `Legal` (`specs/History.antt`).
//!
//! That calls succeed with ample memory is tested alone (`ebr_enginetests`).
#![tactic(auto)]

mod asks;
mod current;
mod define;
mod engine;
mod kept;
mod laws;
mod leaving;
mod parts;
mod views;

pub use define::add_table;
pub use engine::Engine;
pub use laws::{databases_are_rebuilt, definitions_are_read_back, histories_are_kept};
