//! What statements work on, and the words that they are defined with.
//!
//! What is used above: `World`, the parts that statements work on; `has_room`, which says whether a
//! session may carry rows; the definitions of `specs/Places.antt` and `specs/Statements.antt`.
//!
//! `has_room` takes no memory, and nothing of it is only tested.
#![tactic(auto)]

mod weight;
mod world;

pub use weight::has_room;
pub use world::World;
