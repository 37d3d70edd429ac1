//! Where sessions stand: their editions, calls and transactions, and what their asks count.
//!
//! What is used above: the first tests of an ask (`first_tests`), the asks for transactions, in each of which the seats stay those
//! of the database's sessions (`Holds` of `specs/Seats.antt`), and the ends of calls and sessions.
//!
//! That calls succeed with ample memory is tested alone (`ebr_enginetests`).
#![tactic(auto)]

mod call;
mod carried;
mod seat;
mod transact;

pub use call::{count_ask, empty_seat, end_call, leave, open_call, set_edition};
pub use carried::{answer_weight, ask_weight};
pub use seat::{Seat, editions_in_use, first_seats, first_tests, place};
pub use transact::{
    back_to_top, commit_top, levels_of, own_of, pop_top, push_top, roll_back_top, savepoint_top,
    seat_of, top_of,
};
