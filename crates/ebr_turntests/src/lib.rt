//! Tests of the turn: any number of writers append to one book in turn, each in a thread of its own.
//!
//! `write_all` is proved: in its book the items of each writer's number are 1 to the count, in order, and there are no
//! others. That it gives one, and that the threads come to an end, is tested.
#![tactic(auto)]

mod book;
#[cfg(test)]
mod tests;
mod writer;
mod writers;

pub use book::Book;
pub use writer::Writer;
pub use writers::{join_all, seat_all, work, write, write_all, write_one};
