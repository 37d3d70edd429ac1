//! Cuts a script into its pieces, and tells the tokens or the lexical fault of each.
//!
//! The crates above use the contract of `cut`: the script is cut so by the definitions of
//! `specs/Sections.antt`, of which `one_cut` says that each script is cut in one way and that each of its
//! bytes is accounted for. Of a piece's text `scan` tells what it has, and `end_of` where its stored text
//! ends.
//!
//! Tests alone show that scripts are cut where memory is ample, and that hostile ones end. Nothing is said of their time.
#![tactic(auto)]

mod blank;
mod comment;
mod front;
mod head;
mod laws;
mod line;
mod pieces;
mod scanned;
mod span;
mod statement;

pub use laws::one_cut;
pub use pieces::{cut, text_of};
pub use scanned::{Scanned, end_of, scan};
pub use span::{Lead, Span};
