//! The memory and the tasks that subprograms begin with.

ghost use Rattle.std.specs.Prelude.{◌≡◌, ◌≤◌, [], ◌∷◌, length, take, drop, reverse, OnOk};
ghost use Rattle.ebr_memory.specs.Levels.{with_top};
ghost use Rattle.ebr_running.specs.Rest as rest;
ghost use Rattle.ebr_running.specs.declared.running.Task.TheVariants as task;
ghost use Rattle.ebr_machine.specs.inside.Callees as callees;

use ebr_base::{CloneIn, NoMemory, Shared, Value};
use ebr_code::{Callee, Code, Subprogram, Unit};
use ebr_memory::{Levels, Stack, Stacks, put_variable};
use ebr_running::{Caller, Flow, Running, Task};
use std::alloc::Global;

/// Begins the memory of a subprogram, whose first variables are so many of the topmost operands.
pub fn enter(run: &mut Running, arguments: usize) -> Result<(), NoMemory>
    ensures { OnOk result (run.new ≡ callees.with_arguments arguments run.old) }
{
    let count = run.operands.last(arguments).len();
    run.variables.open()?;
    move_over(&mut run.operands, &mut run.variables, count)?;
    run.cursors.open()?;
    run.faults.open()?;
    run.operands.open()?;
    run.frames_left = run.frames_left.saturating_sub(1);
    Ok(())
}

/// Moves so many of the topmost operands to where there is no variable yet, the topmost last. It takes no list for them.
fn move_over(
    operands: &mut Stacks<Value>,
    variables: &mut Levels<Value>,
    count: usize,
) -> Result<(), NoMemory>
    requires enough { count ≤ length operands.old.top }
    requires empty { variables.old.top ≡ [] }
    ensures variables { OnOk result (variables.new ≡ with_top (reverse (take count operands.old.top)) variables.old) }
    ensures operands { OnOk result (operands.new ≡ with_top (drop count operands.old.top) operands.old) }
{
    for at in (0..count).rev() {
        let Some(value) = operands.pop() else {
            return Ok(());
        };
        put_variable(variables, at, value)?;
    }
    Ok(())
}

/// Whether a subprogram begins at once, or waits for its transaction.
pub fn first_flow(autonomous: bool) -> Flow
    ensures { result ≡ rest.first_flow autonomous }
{
    if autonomous {
        Flow::Waiting
    } else {
        Flow::Normal
    }
}

/// Puts what a subprogram has to do on top of the tasks.
pub fn push_first(
    alloc: Global,
    tasks: &mut Stack<Task>,
    found: &Subprogram,
) -> Result<(), NoMemory>
    ensures { OnOk result (tasks.new ≡ rest.first_tasks found.now.autonomous found.now.function found.now.code tasks.old) }
{
    if found.autonomous {
        tasks.push(Task::Autonomous(found.function, found.code.clone_in(alloc)?))?;
        return Ok(());
    }
    push_rest(alloc, tasks, found.function, &found.code, 0)?;
    Ok(())
}

/// Puts the rest of a subprogram's code from a place on, in whichever transaction, on top of the tasks.
pub fn push_rest(
    alloc: Global,
    tasks: &mut Stack<Task>,
    function: bool,
    code: &Code,
    place: usize,
) -> Result<(), NoMemory>
    ensures { OnOk result (tasks.new ≡ callees.rest_tasks function code.now place tasks.old) }
{
    if function {
        tasks.push(Task::Function)?;
        tasks.push(Task::Rest(code.clone_in(alloc)?, place))?;
        return Ok(());
    }
    tasks.push(Task::Rest(code.clone_in(alloc)?, place))?;
    Ok(())
}

/// Puts the end of a call on top of the tasks.
pub fn push_end(
    alloc: Global,
    tasks: &mut Stack<Task>,
    unit: &Shared<Unit>,
    callee: &Callee,
    frames_left: u32,
) -> Result<(), NoMemory>
    ensures { OnOk result (tasks.new ≡ task.Call (callees.called_from unit.now callee.now.place callee.now.results frames_left) ∷ tasks.old) }
{
    let caller = Caller {
        unit: unit.clone_in(alloc)?,
        place: callee.place,
        results: callee.results,
        frames_left,
    };
    tasks.push(Task::Call(caller))?;
    Ok(())
}
