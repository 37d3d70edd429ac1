//! The lexis: reads the tokens of a text, or its first fault.
//!
//! The crates above use the contract of `lex`: what is read is what the text has by the definitions of
//! `specs/Lexis.antt`, of which `one_answer` says that a text has its tokens or its first fault and only one
//! of them. `begins`, `line_length`, `comment_length` and `string_length` tell how far comments and strings
//! go, for the crate that cuts scripts.
//!
//! Tests alone show that `lex` reads texts where memory is ample.
#![tactic(auto)]

mod blank;
mod extent;
mod front;
mod laws;
mod number;
mod scan;
mod symbol;
mod text;
mod token;
mod word;

pub use extent::{begins, comment_length, line_length, string_length};
pub use laws::one_answer;
pub use scan::lex;
pub use symbol::Symbol;
pub use token::{LexStop, Token, TokenKind};
