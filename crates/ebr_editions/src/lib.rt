//! The line of editions (`Chain`), and the objects that are actual in each of them (`Actuals`).
//!
//! What is used above: `create`, `drop_leaf` and `set_default` answer and change as `specs/Editions.antt` defines it, and
//! `IsLine` holds at all times; `put`, `hide`, `visible` and `actual` answer as `specs/Objects.antt` defines it from the
//! plain list of definitions and drops that were made, and there always is such a list (`HasEntries` of
//! `specs/Held.antt`).
//!
//! That calls succeed with ample memory is tested alone.
#![tactic(auto)]

mod actuals;
mod chain;
mod defined;
mod entry;

pub use actuals::Actuals;
pub use chain::Chain;
pub use entry::EditionEntry;
