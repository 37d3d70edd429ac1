//! Which units are valid: a definition, behind which `ebr_rules` and `ebr_check` have the code.
//!
//! `is_valid` of `specs/Verdict.antt` says that a unit or a block is valid against what an edition sees: each of the twelve rules
//! of `specs/Rules.antt` holds at each place of it that the rule speaks of (`specs/Sites.antt`). What a run of PL/SQL does rests
//! on these words too, so they stand apart from the code that judges by them.
#![tactic(auto)]

mod typed;

pub use typed::Typed;
