//! Slot code of units from their trees.
//!
//! The crates above use the contract of `compile`: it answers the slot code of a unit, `Codes` of `ebr_code/specs/Units.antt`,
//! for what an edition sees, and counts a step for it. What this code does is `RunCode` of `ebr_code`, and so, by the law of
//! `ebr_laws`, what the unit does.
//!
//! Tests alone show that it succeeds where memory is ample (the cases).
#![tactic(auto)]

ghost use Rattle.std.specs.Prelude.{◌≡◌, ◌+◌, ◌≤◌, true, IfOk, OnOk};
ghost use Rattle.ebr_ast.specs.Views.{IsInOrder};
ghost use Rattle.ebr_validity.specs.Verdict.{is_valid};
ghost use Rattle.ebr_code.specs.Units.{Codes};

mod held;
mod packages;
mod steps;
mod triggers;
mod unit;
mod units;

use crate::unit::unit;
use ebr_ast::{EditionView, UnitTree};
use ebr_base::NoMemory;
use ebr_code::Unit;
use ebr_scope::Seen;
use std::alloc::Global;
use std::sync::ledger::Ledger;
pub use steps::Steps;

/// The slot code of a valid unit, over what an edition sees. One step is counted where it is had.
pub fn compile<L: Ledger>(
    alloc: Global,
    v: &EditionView,
    u: &UnitTree,
    steps: &mut Steps<L>,
) -> Result<Unit, NoMemory>
    requires order { IsInOrder v.now }
    requires valid { is_valid v.now u.now ≡ true }
    ensures code { IfOk result (λ code. Codes v.now u.now code) }
    ensures step { OnOk result (steps.new ≡ steps.old + 1) }
    ensures most { steps.new ≤ steps.old + 1 }
{
    let seen = Seen::new(v);
    let code = unit(alloc, u, &seen)?;
    steps.tick();
    Ok(code)
}
