//! The changes of one transaction, found by their rows and by the keys that they give.
//!
//! What is used above: the calls of `Changes`, whose contracts are over the plain list of changes and over what each is
//! filed under. Each takes logarithmic time, and `cut` goes through what it takes out.
//!
//! That calls succeed with ample memory is tested alone.
#![tactic(auto)]

mod changes;

pub use changes::Changes;
