//! The pieces of a script, each with the statement that it spells or the code of its fault.
//!
//! What the server uses is `pieces`: the pieces are those that the relation `Cut` allows, in one way. A stored text is
//! read again by `stored`.
//!
//! That calls succeed with ample memory is tested alone (`ebr_enginetests`).
#![tactic(auto)]

mod piece;
mod script;
mod statement;

pub use piece::{Piece, PieceKind};
pub use script::{one_cut, one_definition, pieces, stored, text_of, texts_of_tokens};
