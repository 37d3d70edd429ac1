//! The database: what the records and the sessions are, and the asks for transactions.
//!
//! What is used above: `commit`, `roll_back`, `savepoint`, `back_to`, `push_autonomous` and `pop_autonomous` do what
//! `specs/Transact.antt` says of the transaction on a session's stack, and leave what transactions have changed storable
//! (`AllStorable`); `commit` has a record kept by a `Keep`.
//!
//! That calls succeed with ample memory, over a keeper that keeps, is tested alone (`ebr_enginetests`).
#![tactic(auto)]

mod failure;
mod laws;
mod transact;

pub use failure::{Failure, Halt};
pub use laws::asks_are_read_back;
pub use transact::{
    back_to, commit, keep_record, pop_autonomous, push_autonomous, roll_back, savepoint,
};
