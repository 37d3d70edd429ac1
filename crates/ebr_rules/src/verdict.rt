//! The least number of a rule that is broken.

ghost use Rattle.std.specs.Prelude.{◌≡◌};
ghost use Rattle.ebr_rules.specs.Noted as spec;

/// Keeps the number of a rule that is broken, if none so far is less.
pub fn must(least: &mut Option<u8>, rule: u8, holds: bool)
    ensures { least.new ≡ spec.lower rule holds least.old }
{
    if !holds {
        *least = Some(lesser(*least, rule));
    }
}

fn lesser(least: Option<u8>, rule: u8) -> u8
    ensures { result ≡ spec.lesser least rule }
{
    match least {
        Some(found) => found.min(rule),
        None => rule,
    }
}
