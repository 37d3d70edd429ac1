//! A run up to the next ask or the end.

ghost use Rattle.std.specs.Prelude.{◌≡◌, ◌∷◌, OnOk, IfOk};
ghost use Rattle.std.specs.Prelude.{List as Sequence};
ghost use Rattle.ebr_asks.specs.declared.ask.Ask as asked;
ghost use Rattle.ebr_asks.specs.declared.answer.Answer as answered;
ghost use Rattle.ebr_run.specs.Faults as faults;
ghost use Rattle.ebr_code.specs.Books.{Book};
ghost use Rattle.ebr_running.specs.Rest as rest;
ghost use Rattle.ebr_machine.specs.inside.Says as inside;
ghost use Rattle.ebr_running.specs.Rest.{FollowsIn, IsRunning, IsStill, rest_of};

use crate::begin::go_on;
use crate::ends::{end_call, end_making};
use crate::loops::end_turn;
use crate::next::{End, Next};
use ebr_asks::Answer;
use ebr_base::{CloneIn, Code, EditionNo, NoMemory};
use ebr_code::{CodeBook, Fault};
use ebr_running::{Flow, Running, Task};
use std::alloc::Global;

/// What the topmost task does when what is above it has ended.
fn turn<B: CodeBook>(
    run: &mut Running,
    alloc: Global,
    book: &B,
    edition: EditionNo,
    top: Task,
) -> Result<(), NoMemory>
    requires { IsRunning run.old.flow }
    ensures { OnOk result (FollowsIn (B.answers book.now edition) run.old run.new (top ∷ run.old.tasks)) }
{
    match top {
        Task::Rest(body, place) => match run.flow {
            Flow::Normal => go_on(run, alloc, book, edition, body, place)?,
            _ => {}
        },
        Task::Head(head, body) => run.end_head(alloc, head, body)?,
        Task::Loop(head, body) => end_turn(run, alloc, head, body)?,
        Task::Numbers(place, reversed, low, high, body) => run.end_number(
            alloc, place, reversed, low, high, body,
        )?,
        Task::Guard(place, handlers) => run.end_guard(alloc, place, &handlers)?,
        Task::Closing(cursor) => run.end_closing(&cursor)?,
        Task::Function => run.end_function(),
        Task::Autonomous(function, code) => match run.flow {
            Flow::Normal => run.begin_autonomous(function, code)?,
            _ => {}
        },
        Task::Close => run.close(),
        Task::Making(name, makings_left) => end_making(run, &name, makings_left),
        Task::Call(caller) => end_call(
            run,
            alloc,
            caller.unit.get(),
            caller.place,
            caller.results,
            caller.frames_left,
        )?,
    }
    Ok(())
}

/// Runs up to the next ask or the end.
fn run_on<B: CodeBook>(
    run: &mut Running,
    alloc: Global,
    book: &B,
    edition: EditionNo,
) -> Result<(), NoMemory>
    ensures rest { OnOk result ((asks : Sequence asked.Ask) (answers : Sequence answered.Answer) → rest_of (B.answers book.now edition) run.new asks answers ≡ rest_of (B.answers book.now edition) run.old asks answers) }
    ensures still { OnOk result (IsStill run.new.flow run.new.tasks) }
{
    'tasks: for _turn in 0..u64::MAX {
        if !is_running(run.flow) {
            return Ok(());
        }
        match run.tasks.pop() {
            None => return Ok(()),
            Some(top) => turn(run, alloc, book, edition, top)?,
        }
    }
    Err(NoMemory)
}

/// What it says where it has stopped.
fn say(run: &Running, alloc: Global) -> Result<Next, NoMemory>
    ensures { IfOk result (λ next. next ≡ inside.says run.now.flow run.now.fault run.now.ask) }
{
    match run.flow {
        Flow::Waiting => Ok(Next::Ask(run.ask.clone_in(alloc)?)),
        Flow::Raised => Ok(Next::Done(End::Raised(final_code(&run.fault)))),
        Flow::Stopped(code) => Ok(Next::Done(End::Raised(code))),
        _ => Ok(Next::Done(End::Returned)),
    }
}

/// Takes the answer that has arrived, and runs up to the next ask or the end.
pub fn go<B: CodeBook>(
    run: &mut Running,
    alloc: Global,
    book: &B,
    edition: EditionNo,
    arrived: Option<Answer>,
) -> Result<Next, NoMemory>
    ensures stands { OnOk result ((asks : Sequence asked.Ask) (answers : Sequence answered.Answer) → rest_of (B.answers book.now edition) run.new asks answers ≡ rest.stands (B.answers book.now edition) run.old arrived asks answers) }
    ensures still { OnOk result (IsStill run.new.flow run.new.tasks) }
    ensures says { IfOk result (λ next. next ≡ inside.says run.new.flow run.new.fault run.new.ask) }
{
    start(run, alloc, arrived)?;
    run_on(run, alloc, book, edition)?;
    Ok(say(run, alloc)?)
}

/// Takes the answer that has arrived.
fn start(run: &mut Running, alloc: Global, arrived: Option<Answer>) -> Result<(), NoMemory>
    ensures { OnOk result ((book : Book) (asks : Sequence asked.Ask) (answers : Sequence answered.Answer) → rest_of book run.new asks answers ≡ rest.stands book run.old arrived asks answers) }
{
    match arrived {
        None => Ok(()),
        Some(answer) => {
            run.absorb(alloc, answer)?;
            Ok(())
        }
    }
}

/// The code of what nothing handled.
fn final_code(fault: &Fault) -> Code
    ensures { result ≡ faults.final_code fault.now }
{
    match fault {
        Fault::Code(code) => *code,
        Fault::User(_) => Code::Ora(6510),
    }
}

fn is_running(flow: Flow) -> bool
    ensures { result ≡ rest.running flow }
{
    match flow {
        Flow::Waiting => false,
        _ => true,
    }
}
