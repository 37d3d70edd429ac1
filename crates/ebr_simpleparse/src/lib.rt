//! Reads declarations, and the statements of PL/SQL that hold no others, from tokens.
//!
//! The crate above uses its readers at a cursor: what each reads is what the grammar of `specs/` gives there. That texts
//! have their trees where memory is ample is tested by the cases.
#![tactic(auto)]

mod bounds;
mod declarations;
mod headings;
mod paths;
mod simple;
mod types;

pub use declarations::read_declaration;
pub use headings::{Heading, read_heading};
pub use paths::{read_call, read_caught};
pub use simple::{SIMPLE_WORDS, read_simple};
