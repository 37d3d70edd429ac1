//! Transactions: what each sees, changes, locks and goes back to, and when it may touch a row or take a key.
//!
//! What is used above: each call of `Transactions` answers and changes as `specs/Calls.antt` defines it over plain lists: the
//! commits, the live transactions with their changes and savepoints, and the locks. Which transactions are live is told by
//! their names, which most calls leave as they are (`stacks`). What a transaction has changed may be committed at any time:
//! it is not too much for a record, and leaves no two rows of a table with one key (`MayCommit`). Of room one word speaks,
//! `IsPrepared`.
//!
//! That calls succeed with ample memory is tested alone.
#![tactic(auto)]

mod keys;
mod limits;
mod live;
mod load;
mod reads;
mod savepoints;
mod transaction;
mod transactions;

pub use load::LoadFault;
pub use savepoints::{Savepoint, Savepoints, TxMark};
pub use transactions::Transactions;
