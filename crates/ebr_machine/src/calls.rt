//! Calls.

ghost use Rattle.std.specs.Prelude.{◌≡◌, map, Some, OnOk};
ghost use Rattle.std.specs.Prelude.{slice_get as get};
ghost use Rattle.std.specs.Option.{option_copied};
ghost use Rattle.ebr_code.specs.Books.{Book};
ghost use Rattle.ebr_code.specs.Runs.{formal, part_of};
ghost use Rattle.ebr_code.specs.Instructions.{operate};
ghost use Rattle.ebr_code.specs.declared.instruction.Operation.TheVariants as does;
ghost use Rattle.ebr_running.specs.Rest.{ActsIn, DoesIn};
ghost use Rattle.ebr_machine.specs.inside.Callees as callees;

use crate::opening::enter;
use crate::shapes::agrees;
use crate::subprograms::run_called;
use ebr_base::{Class, Code, EditionNo, Name, NoMemory, Shared, Value};
use ebr_code::{Callee, CodeBook, Fault, Parameter, Subprogram, Unit};
use ebr_memory::unfit;
use ebr_running::{Flow, Running};
use std::alloc::Global;

/// Calls a subprogram with the topmost operands.
pub fn call<B: CodeBook>(
    run: &mut Running,
    alloc: Global,
    book: &B,
    edition: EditionNo,
    callee: &Callee,
) -> Result<(), NoMemory>
    requires { run.old.flow ≡ Flow.Normal }
    ensures { OnOk result (ActsIn (B.answers book.now edition) run.old run.new (operate (does.Call callee.now))) }
{
    let Some(unit) = called_unit(book, edition, callee) else {
        run.raise(Fault::Code(Code::Ora(6508)));
        return Ok(());
    };
    let Some(found) = unit.get().subprograms.get(callee.place) else {
        run.raise(Fault::Code(Code::Ora(6508)));
        return Ok(());
    };
    call_found(run, alloc, unit, found, callee)?;
    Ok(())
}

/// Calls a subprogram that is there.
fn call_found(
    run: &mut Running,
    alloc: Global,
    unit: &Shared<Unit>,
    found: &Subprogram,
    callee: &Callee,
) -> Result<(), NoMemory>
    requires { run.old.flow ≡ Flow.Normal }
    ensures { OnOk result ((book : Book) → Some found.now ≡ get unit.now.subprograms callee.now.place
        → DoesIn book run.old run.new (callees.called book run.old.makings_left run.old.frames_left (Some (part_of found.now)) callee.now)) }
{
    if run.frames_left == 0 {
        run.raise(Fault::Code(Code::Ebr(8)));
        return Ok(());
    }
    if !agrees(callee, found) {
        run.end_broken();
        return Ok(());
    }
    match first_unfit(
        found.parameters.as_slice(),
        run.operands.last(callee.arguments),
    ) {
        Some(code) => {
            run.raise(Fault::Code(code));
            Ok(())
        }
        None => {
            let frames_left = run.frames_left;
            enter(run, callee.arguments)?;
            run_called(run, alloc, unit, found, callee, frames_left)?;
            Ok(())
        }
    }
}

/// The unit of a call; that of a packaged subprogram is there with the package's specification alone.
fn called_unit<'a, B: CodeBook>(
    book: &'a B,
    edition: EditionNo,
    callee: &Callee,
) -> Option<&'a Shared<Unit>>
    ensures { option_copied result ≡ callees.called_unit (B.answers book.now edition) callee.now }
{
    match callee.unit.class {
        Class::Body => body_unit(book, edition, &callee.unit.name),
        Class::Unit => book.unit(edition, Class::Unit, &callee.unit.name),
        Class::Trigger => book.unit(edition, Class::Trigger, &callee.unit.name),
    }
}

/// A package's body, where its specification is there too.
pub fn body_unit<'a, B: CodeBook>(
    book: &'a B,
    edition: EditionNo,
    name: &Name,
) -> Option<&'a Shared<Unit>>
    ensures { option_copied result ≡ callees.body_unit (B.answers book.now edition) name.now }
{
    match book.unit(edition, Class::Unit, name) {
        Some(_) => book.unit(edition, Class::Body, name),
        None => None,
    }
}

/// The code that passing a value to a parameter raises.
fn unfit_for(parameter: &Parameter, value: &Value) -> Option<Code>
    ensures { result ≡ callees.unfit_for (formal parameter.now) value.now }
{
    if parameter.takes {
        unfit(&Some(parameter.ty), value)
    } else {
        None
    }
}

/// The code that passing values to parameters raises first.
fn first_unfit(parameters: &[Parameter], values: &[Value]) -> Option<Code>
    ensures { result ≡ callees.first_unfit (map formal parameters.now) values.now }
{
    let mut left = parameters;
    for value in values {
        match left.split_first() {
            Some((parameter, rest)) => {
                if let Some(code) = unfit_for(parameter, value) {
                    return Some(code);
                }
                left = rest;
            }
            None => return None,
        }
    }
    None
}
