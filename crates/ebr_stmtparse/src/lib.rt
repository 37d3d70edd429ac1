//! Reads blocks, and the statements of PL/SQL that hold others, from tokens.
//!
//! The crate above uses its readers of blocks, bodies and initial parts at a cursor: what each reads is what the grammar
//! of `specs/Statements.antt` gives there. That texts have their trees where memory is ample is tested by
//! the cases.
#![tactic(auto)]

mod blocks;
mod grammar;
mod parse;
mod statements;

pub use ebr_simpleparse::{read_call, read_declaration};
pub use grammar::Initial;
pub use parse::{read_block, read_body, read_initial};
