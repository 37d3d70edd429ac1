//! Statements whose triggers run bodies.
//!
//! What is used above: `run_sql` runs a session's statement against what its edition sees, with the bodies of the triggers that it
//! fires, as `Stmt` of `ebr_bodies` defines it. A statement may stand in the body of a trigger that another one fires,
//! and so on, 50 deep.
//!
//! That calls succeed with ample memory is tested alone.
#![tactic(auto)]

mod asks;
mod course;
mod cycle;
mod held;
mod levels;
mod query;
mod ready;
mod row;
mod run;
mod site;
mod start;
mod tables;
mod tally;

pub use run::run_sql;
