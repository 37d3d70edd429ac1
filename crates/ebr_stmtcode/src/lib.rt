//! Slot code of declarations, statements and blocks.
//!
//! The crates above use `block`, `guarded`, `declaration` and `declarations`, which add exactly the code that
//! `ebr_code/specs/Codes.antt` defines at the end of a list. Declarations make their names known in the `Around` of
//! `ebr_places`; blocks and statements leave it as it was. Want of memory alone is refused.
//!
//! That calls succeed with ample memory is tested alone, by programs that run (the cases).
#![tactic(auto)]

mod choices;
mod cursors;
mod declare;
mod exceptions;
mod held;
mod leaving;
mod loops;
mod rows;
mod sql;
mod statements;

pub use declare::{declaration, declarations};
pub use statements::{block, guarded, next};
