//! What bodies of triggers leave of the transactions below them.
//!
//! A body may issue statements in the transaction of the statement that fires it, and open autonomous transactions above it.
//! What is used above: the laws of `proofs/` on what all that leaves of the transaction, `Leaves` of `specs/Levels.antt`, and
//! `Inside` while autonomous transactions are open. There is no code here, and so nothing is only tested.
#![tactic(auto)]
