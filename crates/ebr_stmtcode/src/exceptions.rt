//! What is raised and caught.

ghost use Rattle.std.specs.Prelude.{◌≡◌, ◌++◌, filter_map, Some, IfOk, OnOk};
ghost use Rattle.ebr_run.specs.Scope as scope;
ghost use Rattle.ebr_run.specs.Statements as run;
ghost use Rattle.ebr_code.specs.Codes as spec;
ghost use Rattle.ebr_places.specs.Lent.{lent};

use ebr_ast::{Caught, Path};
use ebr_base::{List, Name, NoMemory};
use ebr_code::{Fault, Instruction, Operation, Reference};
use ebr_exprcode::act;
use ebr_places::{Around, Denoted, raised};
use std::alloc::Global;

/// Raises a declared exception, and refers to its package before.
fn raise_declared(
    owner: Option<Name>,
    fault: Fault,
    out: &mut List<Instruction>,
) -> Result<(), NoMemory>
    ensures { OnOk result (out.new ≡ out.old ++ spec.raise_declared owner fault) }
{
    if let Some(owner) = owner {
        act(out, Operation::Refer(Reference::Other, owner))?;
    }
    act(out, Operation::Raise(fault))
}

fn raise_found(found: Denoted<'_>, out: &mut List<Instruction>) -> Result<(), NoMemory>
    ensures { OnOk result (out.new ≡ out.old ++ spec.raise_of (Some (lent found.entry))) }
{
    match found {
        Denoted::Exception(owner, fault) => raise_declared(owner, fault, out),
        Denoted::Variable(_, _)
        | Denoted::Cursor(_, _, _)
        | Denoted::Record(_)
        | Denoted::Subprogram(_, _, _) => act(out, Operation::Broken),
    }
}

fn raise_named(
    alloc: Global,
    path: &Path,
    around: &Around<'_>,
    out: &mut List<Instruction>,
) -> Result<(), NoMemory>
    ensures { OnOk result (out.new ≡ out.old ++ spec.raise_of (scope.raised around.now path.now)) }
{
    match raised(alloc, around, path)? {
        Some(found) => raise_found(found, out),
        None => act(out, Operation::Broken),
    }
}

/// Raises what the innermost of so many handlers handles.
fn reraise(out: &mut List<Instruction>, handlers: usize) -> Result<(), NoMemory>
    ensures { OnOk result (out.new ≡ out.old ++ spec.reraise_code handlers) }
{
    if handlers == 0 {
        act(out, Operation::Broken)
    } else {
        act(out, Operation::Reraise(handlers - 1))
    }
}

/// Adds the code of RAISE.
pub fn raise(
    alloc: Global,
    path: &Option<Path>,
    around: &Around<'_>,
    out: &mut List<Instruction>,
) -> Result<(), NoMemory>
    ensures { OnOk result (out.new ≡ out.old ++ spec.raise_code path.now around.now) }
{
    match path {
        None => reraise(out, around.handlers()),
        Some(path) => raise_named(alloc, path, around, out),
    }
}

fn fault_in(found: Denoted<'_>) -> Option<Fault>
    ensures { result ≡ run.fault_in (Some (lent found.entry)) }
{
    match found {
        Denoted::Exception(_, fault) => Some(fault),
        Denoted::Variable(_, _)
        | Denoted::Cursor(_, _, _)
        | Denoted::Record(_)
        | Denoted::Subprogram(_, _, _) => None,
    }
}

/// The exception of a name.
fn exception(alloc: Global, path: &Path, around: &Around<'_>) -> Result<Option<Fault>, NoMemory>
    ensures { IfOk result (λ fault. fault ≡ run.exception_named around.now path.now) }
{
    match raised(alloc, around, path)? {
        Some(found) => Ok(fault_in(found)),
        None => Ok(None),
    }
}

/// The exceptions of names.
fn exceptions(
    alloc: Global,
    list: &List<Path>,
    around: &Around<'_>,
) -> Result<List<Fault>, NoMemory>
    ensures { IfOk result (λ faults. faults ≡ filter_map (run.exception_named around.now) list.now) }
{
    let mut faults = List::new(alloc);
    for path in list.as_slice() {
        if let Some(fault) = exception(alloc, path, around)? {
            faults.push(fault)?;
        }
    }
    Ok(faults)
}

/// What a handler catches.
pub fn caught(alloc: Global, it: &Caught, around: &Around<'_>) -> Result<ebr_code::Caught, NoMemory>
    ensures { IfOk result (λ caught. caught ≡ spec.caught_code around.now it.now) }
{
    match it {
        Caught::Others => Ok(ebr_code::Caught::Others),
        Caught::Named(list) => Ok(ebr_code::Caught::These(exceptions(alloc, list, around)?)),
    }
}
