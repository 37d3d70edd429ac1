//! What statements and transactions leave of the tables' integrity.
//!
//! A transaction's changes are such that its commit is allowed: of tables that live, with values that fit the columns, of rows that
//! are there, and with no key twice. What is used above: the laws of `proofs/`. There is no code here, and so nothing is only
//! tested.
#![tactic(auto)]
