//! Grammars as data: a production says which tokens spell which trees, reading follows it with one token of
//! look-ahead, and the two are proved to agree for every grammar that passes a test that computes.
//!
//! The crates above use the cursor `Tokens`, whose contract says what each reading gives, and the laws of `proofs/` for
//! their own grammars. That its calls succeed where memory is ample is only tested, by the cases.
#![tactic(auto)]

mod kind;
mod names;
mod tokens;
mod trees;

pub use kind::{Kind, NAME_KINDS, is_same, kind_of};
pub use names::unreserved_words_are_names;
pub use tokens::{ReadStop, Tokens};
pub use trees::{ended, shared, whole};
