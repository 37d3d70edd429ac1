//! Which handler catches a fault.

ghost use Rattle.std.specs.Prelude.{◌≡◌, map, option_map};
ghost use Rattle.std.specs.List.{list_any};
ghost use Rattle.std.specs.Option.{option_copied};
ghost use Rattle.ebr_run.specs.Faults as spec;
ghost use Rattle.ebr_code.specs.Instructions as code;
ghost use Rattle.ebr_code.specs.Instructions.{handling_of};
ghost use Rattle.ebr_memory.specs.Catching as catching;

use ebr_base::{Code, ObjectKey};
use ebr_code::{Caught, Exception, Fault, Handler};

/// The first handler that catches a fault.
pub fn catcher<'a>(handlers: &'a [Handler], fault: &Fault) -> Option<&'a Handler>
    ensures { option_map handling_of (option_copied result) ≡ catching.catcher (map handling_of handlers.now) fault.now }
{
    for handler in handlers {
        if catches(handler, fault) {
            return Some(handler);
        }
    }
    None
}

fn catches(handler: &Handler, fault: &Fault) -> bool
    ensures { result ≡ spec.is_caught (code.catches (handling_of handler.now).caught) fault.now }
{
    is_caught(&handler.caught, fault)
}

fn is_caught(caught: &Caught, fault: &Fault) -> bool
    ensures { result ≡ spec.is_caught (code.catches caught.now) fault.now }
{
    match caught {
        Caught::Others => true,
        Caught::These(faults) => is_among(faults.as_slice(), fault),
    }
}

fn is_among(faults: &[Fault], fault: &Fault) -> bool
    ensures { result ≡ list_any (spec.same_fault fault.now) faults.now }
{
    faults.iter().any(|other| same_fault(fault, other))
}

fn same_fault(a: &Fault, b: &Fault) -> bool
    ensures { result ≡ spec.same_fault a.now b.now }
{
    match (a, b) {
        (Fault::Code(a), Fault::Code(b)) => same_code(*a, *b),
        (Fault::User(a), Fault::User(b)) => same_exception(a.get(), b.get()),
        _ => false,
    }
}

fn same_code(a: Code, b: Code) -> bool
    ensures { result ≡ spec.same_code a b }
{
    match (a, b) {
        (Code::Ora(a), Code::Ora(b)) | (Code::Ebr(a), Code::Ebr(b)) => a == b,
        _ => false,
    }
}

fn same_exception(a: &Exception, b: &Exception) -> bool
    ensures { result ≡ spec.same_exception a.now b.now }
{
    same_unit(&a.unit, &b.unit) && a.block == b.block && a.name == b.name
}

fn same_unit(a: &Option<ObjectKey>, b: &Option<ObjectKey>) -> bool
    ensures { result ≡ spec.same_unit a.now b.now }
{
    match (a, b) {
        (None, None) => true,
        (Some(a), Some(b)) => *a == *b,
        _ => false,
    }
}
