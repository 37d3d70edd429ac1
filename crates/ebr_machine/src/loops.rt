//! Loops, whose turns are done one after the other and leave no task as long as they ask no book.

ghost use Rattle.std.specs.Prelude.{◌≡◌, ◌∷◌, map, OnOk, IfOk};
ghost use Rattle.ebr_code.specs.Instructions.{act, meaning_of};
ghost use Rattle.ebr_code.specs.declared.instruction.Instruction.TheOpen as form;
ghost use Rattle.ebr_running.specs.Rest.{Acts, Follows, IsRunning};
ghost use Rattle.ebr_running.specs.declared.running.Task.TheVariants as task;
ghost use Rattle.ebr_machine.specs.inside.Turns as turns;
ghost use Rattle.ebr_machine.specs.inside.Turns.{Stepped, Turned};

use crate::plain::{is_normal, row};
use crate::subprograms::ends_at;
use ebr_base::{CloneIn, NoMemory};
use ebr_code::Code;
use ebr_running::{Flow, Running, Task};
use std::alloc::Global;

/// What is behind a loop's turn.
pub fn end_turn(run: &mut Running, alloc: Global, head: Code, body: Code) -> Result<(), NoMemory>
    requires { IsRunning run.old.flow }
    ensures { OnOk result (Follows run.old run.new (task.Loop head body ∷ run.old.tasks)) }
{
    match run.flow {
        Flow::Normal | Flow::Continue => {
            run.flow = Flow::Normal;
            repeat(run, alloc, &head, &body)?;
            Ok(())
        }
        _ => {
            run.end_turn(alloc, head, body)?;
            Ok(())
        }
    }
}

/// A loop, up to its end or to what asks a book.
pub fn repeat(run: &mut Running, alloc: Global, head: &Code, body: &Code) -> Result<(), NoMemory>
    requires { run.old.flow ≡ Flow.Normal }
    ensures { OnOk result (Acts run.old run.new (act (form.Loop (map meaning_of head.now) (map meaning_of body.now)))) }
{
    'turns: for _turn in 0..u64::MAX {
        if !turn(run, alloc, head, body)? {
            return Ok(());
        }
    }
    Err(NoMemory)
}

/// The head of a turn, and what is behind it. Answers whether the loop is still to do.
fn turn(run: &mut Running, alloc: Global, head: &Code, body: &Code) -> Result<bool, NoMemory>
    requires { run.old.flow ≡ Flow.Normal }
    ensures { IfOk result (λ more. Turned more run.old run.new head.now body.now turns.loop_in) }
{
    run.operands.clear();
    let at = row(run, alloc, head.get(), 0)?;
    if turn_ends(run.flow, ends_at(head, at)) {
        run.flow = Flow::Normal;
        return Ok(turn_body(run, alloc, head, body)?);
    }
    run.tasks
        .push(Task::Head(head.clone_in(alloc)?, body.clone_in(alloc)?))?;
    run.tasks.push(Task::Rest(head.clone_in(alloc)?, at))?;
    Ok(false)
}

/// The step and the body of a turn. Answers whether the loop is still to do.
fn turn_body(run: &mut Running, alloc: Global, head: &Code, body: &Code) -> Result<bool, NoMemory>
    requires { run.old.flow ≡ Flow.Normal }
    ensures { IfOk result (λ more. Turned more run.old run.new head.now body.now turns.turn_in) }
{
    let at = stepped(run, alloc, body)?;
    if turn_ends(run.flow, ends_at(body, at)) {
        run.flow = Flow::Normal;
        return Ok(true);
    }
    run.tasks
        .push(Task::Loop(head.clone_in(alloc)?, body.clone_in(alloc)?))?;
    run.tasks.push(Task::Rest(body.clone_in(alloc)?, at))?;
    Ok(false)
}

/// The step of a turn and the first instructions of its body. Answers the place behind them.
fn stepped(run: &mut Running, alloc: Global, body: &Code) -> Result<usize, NoMemory>
    requires { run.old.flow ≡ Flow.Normal }
    ensures { IfOk result (λ at. Stepped run.old run.new at body.now) }
{
    run.step()?;
    if !is_normal(run.flow) {
        return Ok(0);
    }
    Ok(row(run, alloc, body.get(), 0)?)
}

/// Whether a loop goes on behind a code that was done up to where it ended or not: at its end, or by CONTINUE.
fn turn_ends(flow: Flow, ended: bool) -> bool
    ensures { result ≡ turns.turn_ends flow ended }
{
    match flow {
        Flow::Normal => ended,
        Flow::Continue => true,
        _ => false,
    }
}
