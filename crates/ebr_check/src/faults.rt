//! The check of a unit.

ghost use Rattle.std.specs.Prelude.{◌≡◌, ◌↔◌, None, true, IfOk, option_map};
ghost use Rattle.ebr_ast.specs.Views.{IsInOrder};
ghost use Rattle.ebr_validity.specs.Verdict.{verdict, is_valid};

use crate::unit::unit;
use ebr_ast::{EditionView, UnitTree};
use ebr_base::NoMemory;
use ebr_scope::Seen;
use std::alloc::Global;

/// A rule that a unit breaks.
#[derive(Clone, Copy, Debug, PartialEq, Eq)]
pub struct CheckFault {
    /// The number of the rule, from 1 to 12.
    pub rule: u8,
}

/// The least number of a rule that a unit or a block breaks; none exactly where it is valid.
///
/// Oracle Database PL/SQL Language Reference 19c; the rules, and their numbers, are own.
pub fn check(alloc: Global, v: &EditionView, u: &UnitTree) -> Result<Option<CheckFault>, NoMemory>
    requires { IsInOrder v.now }
    ensures least { IfOk result (λ fault. option_map (λ f. f.rule) fault ≡ verdict v.now u.now) }
    ensures valid { IfOk result (λ fault. (fault ≡ None) ↔ (is_valid v.now u.now ≡ true)) }
{
    let mut least = None;
    unit(alloc, u, &Seen::new(v), &mut least)?;
    Ok(fault(least))
}

fn fault(least: Option<u8>) -> Option<CheckFault>
    ensures { option_map (λ f. f.rule) result ≡ least }
{
    match least {
        Some(rule) => Some(CheckFault { rule }),
        None => None,
    }
}
