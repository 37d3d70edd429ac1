//! Whether calls have the shape that subprograms have.

ghost use Rattle.std.specs.Prelude.{◌≡◌, map, nat_eq};
ghost use Rattle.ebr_run.specs.Calls as spec;
ghost use Rattle.ebr_code.specs.Runs.{formal, part_of};

use ebr_code::{Callee, Parameter, Subprogram};

/// Whether a call has the shape that the subprogram has.
pub fn agrees(callee: &Callee, found: &Subprogram) -> bool
    ensures { result ≡ spec.agrees callee.now (part_of found.now) }
{
    callee.arguments == found.parameters.len() && gives_so_many(found, callee.results)
}

/// Whether a subprogram gives so many values back.
fn gives_so_many(found: &Subprogram, results: usize) -> bool
    ensures { result ≡ nat_eq results (spec.results (part_of found.now)) }
{
    if !found.function {
        return hand_back(found.parameters.as_slice(), results);
    }
    match results.checked_sub(1) {
        Some(others) => hand_back(found.parameters.as_slice(), others),
        None => false,
    }
}

/// Whether so many of the parameters hand a value back.
fn hand_back(parameters: &[Parameter], count: usize) -> bool
    ensures { result ≡ nat_eq count (spec.giving (map formal parameters.now)) }
{
    let mut left = count;
    for parameter in parameters {
        if parameter.gives {
            match left.checked_sub(1) {
                Some(others) => left = others,
                None => return false,
            }
        }
    }
    left == 0
}
