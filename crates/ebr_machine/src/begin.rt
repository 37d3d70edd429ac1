//! Instructions, one after the other.

ghost use Rattle.std.specs.Prelude.{◌≡◌, ◌+◌, drop, slice_get, OnOk, IfOk};
ghost use Rattle.std.specs.Option.{option_copied};
ghost use Rattle.ebr_code.specs.Instructions as code;
ghost use Rattle.ebr_code.specs.Instructions.{meaning_of, operate};
ghost use Rattle.ebr_running.specs.Rest.{ActsIn, DoesIn, calls};
ghost use Rattle.ebr_machine.specs.inside.Rows.{LeavesRest};

use crate::calls::call;
use crate::loops::repeat;
use crate::packages::refer;
use crate::plain::{is_normal, plain, row};
use ebr_base::{CloneIn, EditionNo, NoMemory};
use ebr_code::{Code, CodeBook, Instruction, Operation};
use ebr_running::{Flow, Running, Task};
use std::alloc::Global;

fn operate<B: CodeBook>(
    run: &mut Running,
    alloc: Global,
    book: &B,
    edition: EditionNo,
    operation: &Operation,
) -> Result<(), NoMemory>
    requires { run.old.flow ≡ Flow.Normal }
    ensures { OnOk result (ActsIn (B.answers book.now edition) run.old run.new (operate operation.now)) }
{
    match operation {
        Operation::Call(callee) => call(run, alloc, book, edition, callee),
        Operation::Refer(reference, name) => refer(run, alloc, book, edition, *reference, name),
        _ => {
            plain(run, alloc, operation)?;
            Ok(())
        }
    }
}

fn begin<B: CodeBook>(
    run: &mut Running,
    alloc: Global,
    book: &B,
    edition: EditionNo,
    instruction: &Instruction,
) -> Result<(), NoMemory>
    requires { run.old.flow ≡ Flow.Normal }
    ensures { OnOk result (ActsIn (B.answers book.now edition) run.old run.new (meaning_of instruction.now)) }
{
    match instruction {
        Instruction::Do(operation) => operate(run, alloc, book, edition, operation)?,
        Instruction::Decide(op, rest) => run.decide(alloc, *op, rest)?,
        Instruction::If(then, otherwise) => run.choose(alloc, then, otherwise)?,
        Instruction::Loop(head, body) => repeat(run, alloc, head, body)?,
        Instruction::Guard(body, place, handlers) => run.guard(alloc, body, *place, handlers)?,
        Instruction::Closing(cursor, body) => run.closing(alloc, cursor, body)?,
        Instruction::Numbers(place, reversed, body) => run.numbers(alloc, *place, *reversed, body)?,
    }
    Ok(())
}

/// The instructions of a code from a place on: those that ask no book and hold no code in one row, and then the next one.
pub fn go_on<B: CodeBook>(
    run: &mut Running,
    alloc: Global,
    book: &B,
    edition: EditionNo,
    body: Code,
    place: usize,
) -> Result<(), NoMemory>
    requires { run.old.flow ≡ Flow.Normal }
    ensures { OnOk result (DoesIn (B.answers book.now edition) run.old run.new (code.run (drop place body) (calls (B.answers book.now edition) run.old))) }
{
    let at = row(run, alloc, body.get(), place)?;
    if is_normal(run.flow) {
        begin_at(run, alloc, book, edition, &body, at)?;
        return Ok(());
    }
    run.tasks.push(Task::Rest(body, at))?;
    Ok(())
}

/// The instruction of a code at a place, and then those behind it.
fn begin_at<B: CodeBook>(
    run: &mut Running,
    alloc: Global,
    book: &B,
    edition: EditionNo,
    body: &Code,
    place: usize,
) -> Result<(), NoMemory>
    requires { run.old.flow ≡ Flow.Normal }
    ensures { OnOk result (DoesIn (B.answers book.now edition) run.old run.new (code.run (drop place body.now) (calls (B.answers book.now edition) run.old))) }
{
    match instruction_at(body, place) {
        None => Ok(()),
        Some(instruction) => {
            leave_rest(run, alloc, body, behind(place)?)?;
            begin(run, alloc, book, edition, instruction)?;
            Ok(())
        }
    }
}

/// Leaves the instructions of a code from a place on for later, where there are any.
fn leave_rest(run: &mut Running, alloc: Global, body: &Code, place: usize) -> Result<(), NoMemory>
    ensures { OnOk result (LeavesRest run.old run.new body.now place) }
{
    match instruction_at(body, place) {
        None => Ok(()),
        Some(_) => {
            run.tasks.push(Task::Rest(body.clone_in(alloc)?, place))?;
            Ok(())
        }
    }
}

/// The instruction at a place.
fn instruction_at(body: &Code, place: usize) -> Option<&Instruction>
    ensures { option_copied result ≡ slice_get body.now place }
{
    body.get().get(place)
}

/// The place behind a place.
fn behind(place: usize) -> Result<usize, NoMemory>
    ensures { IfOk result (λ next. next ≡ place + 1) }
{
    match place.checked_add(1) {
        Some(next) => Ok(next),
        None => Err(NoMemory),
    }
}
