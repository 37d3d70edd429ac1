//! Subprograms whose memory has begun.

ghost use Rattle.std.specs.Prelude.{◌≡◌, [], ◌∷◌, OnOk};
ghost use Rattle.ebr_code.specs.Books.{Book};
ghost use Rattle.ebr_machine.specs.inside.Callees as callees;
ghost use Rattle.ebr_machine.specs.inside.Callees.{GoesAs, LeavesAlike};

use crate::ends::end_call;
use crate::opening::{first_flow, push_end, push_first, push_rest};
use crate::plain::row;
use ebr_asks::Ask;
use ebr_base::{NoMemory, Shared};
use ebr_code::{Callee, Code, Instruction, Subprogram, Unit};
use ebr_running::{Flow, Pending, Running};
use std::alloc::Global;

/// Runs a subprogram whose memory has begun. What asks no book is done at once; one that ends by it leaves no task.
pub fn run_called(
    run: &mut Running,
    alloc: Global,
    unit: &Shared<Unit>,
    found: &Subprogram,
    callee: &Callee,
    frames_left: u32,
) -> Result<(), NoMemory>
    requires { run.old.flow ≡ Flow.Normal }
    ensures { OnOk result ((book : Book) → GoesAs book run.new (callees.with_subprogram unit.now callee.now frames_left found.now run.old)) }
{
    if found.autonomous {
        push_called(run, alloc, unit, found, callee, frames_left)?;
        return Ok(());
    }
    let body = unguarded(&found.code);
    let at = row(run, alloc, body.get(), 0)?;
    if is_over(run.flow, found.function, ends_at(body, at)) {
        end_call(
            run,
            alloc,
            unit.get(),
            callee.place,
            callee.results,
            frames_left,
        )?;
        return Ok(());
    }
    push_end(alloc, &mut run.tasks, unit, callee, frames_left)?;
    push_rest(alloc, &mut run.tasks, found.function, body, at)?;
    Ok(())
}

/// The statements of a subprogram whose code is nothing else, and which has no handlers: what is raised there leaves it.
fn unguarded(code: &Code) -> &Code
    ensures { LeavesAlike result.now code.now }
{
    let Some(first) = code.get().get(0) else {
        return code;
    };
    if code.get().len() != 1 {
        return code;
    }
    statements(code, first)
}

/// What the one instruction of a code guards without handlers, or else the code.
fn statements<'a>(code: &'a Code, only: &'a Instruction) -> &'a Code
    ensures { code.now ≡ only.now ∷ [] → LeavesAlike result.now code.now }
{
    match only {
        Instruction::Guard(body, _, handlers) => {
            if handlers.get().len() > 0 {
                return code;
            }
            body
        }
        _ => code,
    }
}

/// Puts all that a subprogram has to do on top of the tasks.
fn push_called(
    run: &mut Running,
    alloc: Global,
    unit: &Shared<Unit>,
    found: &Subprogram,
    callee: &Callee,
    frames_left: u32,
) -> Result<(), NoMemory>
    ensures { OnOk result (run.new ≡ callees.with_subprogram unit.now callee.now frames_left found.now run.old) }
{
    push_end(alloc, &mut run.tasks, unit, callee, frames_left)?;
    push_first(alloc, &mut run.tasks, found)?;
    run.flow = first_flow(found.autonomous);
    run.ask = Ask::PushAuto;
    run.pending = Pending::Done;
    Ok(())
}

/// Whether nothing of a code is left at a place.
pub fn ends_at(code: &Code, place: usize) -> bool
    ensures { result ≡ callees.ends_at code.now place }
{
    code.get().get(place).is_none()
}

/// Whether a subprogram is over: by RETURN, or at the end of its code, where a function raises.
fn is_over(flow: Flow, function: bool, ended: bool) -> bool
    ensures { result ≡ callees.is_over flow function ended }
{
    match flow {
        Flow::Returned => true,
        Flow::Normal => !function && ended,
        _ => false,
    }
}
