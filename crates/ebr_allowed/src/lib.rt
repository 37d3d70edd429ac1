//! Which record is allowed behind which, and that a database makes no other.
//!
//! What recovery tests of a journal's records, `Allowed` of `specs/Allowed.antt`, holds of every record that the database makes,
//! whatever it is asked: the laws of `laws`, over the definitions alone.
#![tactic(auto)]

mod laws;

pub use laws::{
    a_first_database_is_consistent, first_records_are_allowed, histories_are_allowed,
    records_before_are_allowed, replies_are_allowed,
};
