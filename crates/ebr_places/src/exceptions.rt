//! Exceptions, and the codes that they have.

ghost use Rattle.std.specs.Prelude.{◌≡◌, Some, IfOk, option_map};
ghost use Rattle.ebr_run.specs.Scope as spec;
ghost use Rattle.ebr_run.specs.declared.fault.Fault.TheVariants as fault;
ghost use Rattle.ebr_places.specs.Lent.{lent};

use crate::denoted::Denoted;
use ebr_base::{Code, List, Name, NoMemory, ObjectKey, Shared, both};
use ebr_run::{Exception, Fault};
use std::alloc::Global;

/// The same places in a list of their own.
fn copied(alloc: Global, path: &[usize]) -> Result<List<usize>, NoMemory>
    ensures { IfOk result (λ copy. copy ≡ path.now) }
{
    let mut copy = List::new(alloc);
    for at in path {
        copy.push(*at)?;
    }
    Ok(copy)
}

fn user(
    alloc: Global,
    unit: &Option<ObjectKey>,
    path: &[usize],
    name: &Name,
) -> Result<Fault, NoMemory>
    ensures { IfOk result (λ f. f ≡ fault.User (record { unit = unit.now; block = path.now; name = name.now })) }
{
    let block = copied(alloc, path)?;
    let (unit, name) = both(alloc, unit, name)?;
    Ok(Fault::User(Shared::new(alloc, Exception { unit, block, name })?))
}

/// The fault of a declared exception to which EXCEPTION_INIT gives a number: this code, where the rules allow it.
fn numbered(
    alloc: Global,
    unit: &Option<ObjectKey>,
    path: &[usize],
    name: &Name,
    number: u64,
) -> Result<Fault, NoMemory>
    ensures { IfOk result (λ f. f ≡ spec.fault_of (Some number) (record { unit = unit.now; block = path.now; name = name.now })) }
{
    if 1 <= number && number <= 20999 && number != 1403 {
        Ok(Fault::Code(Code::Ora(number as u32)))
    } else {
        user(alloc, unit, path, name)
    }
}

/// The fault of a declared exception, with the number that EXCEPTION_INIT gives it.
pub fn declared_exception(
    alloc: Global,
    unit: &Option<ObjectKey>,
    path: &[usize],
    name: &Name,
    number: Option<u64>,
) -> Result<Fault, NoMemory>
    ensures { IfOk result (λ f. f ≡ spec.fault_of number (record { unit = unit.now; block = path.now; name = name.now })) }
{
    match number {
        Some(number) => numbered(alloc, unit, path, name, number),
        None => user(alloc, unit, path, name),
    }
}

/// The code of an exception that has a name everywhere.
#[tactic(auto, unfolding(ebr_run::specs::Scope::predefined_code))]
fn predefined_code(name: &[u8]) -> Option<u32>
    ensures { result ≡ spec.predefined_code name.now }
{
    if name == b"NO_DATA_FOUND".as_slice() {
        Some(1403)
    } else if name == b"TOO_MANY_ROWS".as_slice() {
        Some(1422)
    } else if name == b"ZERO_DIVIDE".as_slice() {
        Some(1476)
    } else if name == b"VALUE_ERROR".as_slice() {
        Some(6502)
    } else if name == b"DUP_VAL_ON_INDEX".as_slice() {
        Some(1)
    } else if name == b"INVALID_CURSOR".as_slice() {
        Some(1001)
    } else if name == b"CURSOR_ALREADY_OPEN".as_slice() {
        Some(6511)
    } else if name == b"INVALID_NUMBER".as_slice() {
        Some(1722)
    } else {
        None
    }
}

/// The exception that has a name everywhere.
pub fn predefined<'a>(name: &Name) -> Option<Denoted<'a>>
    ensures { option_map lent result ≡ spec.predefined name.now }
{
    match predefined_code(name.as_slice()) {
        Some(code) => Some(Denoted::Exception(None, Fault::Code(Code::Ora(code)))),
        None => None,
    }
}
