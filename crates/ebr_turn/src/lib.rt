//! A turn with seats: a value that threads take one after the other, each at a chair of its own.
//!
//! What is used above: the trait `Booked`, of a value that stands for a list of numbers and items; `Turn` and `Chair` with
//! `new`, `split`, `enter`, `leave`, `join` and `close`. A chair that was split off has a number and a list of items.
//! `enter` gives the value when the chair's ticket is served, `leave` gives it back with one more entry, which has the
//! chair's number, and the chair's list grows by that item. So at `close` the items of each number are the list of that
//! number's chair, whatever order the threads came in (`Closes`), and nothing is compared at run time.
//!
//! Contracts see a turn as its name, the list of its first value and its seats (`TurnState`), a chair as its turn and what it
//! knows (`ChairState`, `View`). The words that they use stand in `specs/Chairs.antt`.
//!
//! Nothing is proved of waiting: not that a ticket's turn comes, nor how long that takes.
#![tactic(auto)]

mod booked;
mod parking;
mod rule;
mod turn;
mod view;

pub use booked::Booked;
pub use turn::{Chair, Turn, Unmade};
pub use view::{Stage, View};
