//! The ends of subprograms and of packages' makings.

ghost use Rattle.std.specs.Prelude.{◌≡◌, ◌∷◌, ◌++◌, map, OnOk};
ghost use Rattle.ebr_run.specs.Calls as spec;
ghost use Rattle.ebr_code.specs.Runs.{formal};
ghost use Rattle.ebr_memory.specs.Levels.{with_top};
ghost use Rattle.ebr_running.specs.Rest as rest;
ghost use Rattle.ebr_running.specs.Rest.{Follows, IsRunning};
ghost use Rattle.ebr_running.specs.declared.running.Task.TheVariants as task;
ghost use Rattle.ebr_machine.specs.inside.Callees as callees;
ghost use Rattle.ebr_machine.specs.inside.Callees.{GoesBack};

use ebr_base::{Name, NoMemory, Value};
use ebr_code::{Parameter, Unit};
use ebr_memory::{Levels, Stacks, variable};
use ebr_running::{Flow, Running};
use std::alloc::Global;

/// The end of the subprogram at a place of a unit, whose caller takes so many values back and has so many frames left.
pub fn end_call(
    run: &mut Running,
    alloc: Global,
    unit: &Unit,
    place: usize,
    results: usize,
    frames_left: u32,
) -> Result<(), NoMemory>
    requires { IsRunning run.old.flow }
    ensures { OnOk result (Follows run.old run.new (task.Call (callees.called_from unit.now place results frames_left) ∷ run.old.tasks)) }
{
    run.frames_left = frames_left;
    if !leaves(run.flow) {
        close_all(run);
        run.operands.clear();
        return Ok(());
    }
    keep_given(alloc, unit, place, &mut run.operands, &run.variables)?;
    go_back(run, results);
    Ok(())
}

/// Goes on in the caller, which takes so many values back: the operands that were kept.
fn go_back(run: &mut Running, results: usize)
    ensures { GoesBack run.old run.new run.old.operands.top results }
{
    let given = run.operands.len();
    close_memory(run);
    run.operands.join();
    if given != results {
        run.end_broken();
        return;
    }
    run.flow = Flow::Normal;
}

/// The end of a package's making. Where it failed the state is forgotten.
pub fn end_making(run: &mut Running, name: &Name, makings_left: usize)
    requires { IsRunning run.old.flow }
    ensures { Follows run.old run.new (task.Making name.now makings_left ∷ run.old.tasks) }
{
    run.makings_left = makings_left;
    close_all(run);
    if leaves(run.flow) {
        run.flow = Flow::Normal;
        return;
    }
    run.packages.forget(name);
    run.operands.clear();
}

/// Whether a subprogram is left, and not by what was raised.
fn leaves(flow: Flow) -> bool
    ensures { result ≡ callees.leaves flow }
{
    match flow {
        Flow::Normal | Flow::Exit | Flow::Continue | Flow::Returned => true,
        _ => false,
    }
}

/// Goes on with the memory beneath.
fn close_all(run: &mut Running)
    ensures { run.new ≡ callees.closing run.old }
{
    close_memory(run);
    run.operands.close();
}

/// Goes on with the memory beneath, but for the operands.
fn close_memory(run: &mut Running)
    ensures { run.new ≡ callees.closing_memory run.old }
{
    run.variables.close();
    run.cursors.close();
    run.faults.close();
}

/// Keeps all that the subprogram at a place of a unit gives back as its operands, a function's value topmost.
fn keep_given(
    alloc: Global,
    unit: &Unit,
    place: usize,
    operands: &mut Stacks<Value>,
    variables: &Levels<Value>,
) -> Result<(), NoMemory>
    ensures { OnOk result (operands.new ≡ with_top (callees.gives (rest.part_in unit.now place) operands.old.top variables.now.top) operands.old) }
{
    let Some(found) = unit.subprograms.get(place) else {
        operands.clear();
        return Ok(());
    };
    keep_computed(found.function, operands);
    hand_back(alloc, found.parameters.as_slice(), variables, operands)?;
    Ok(())
}

/// Keeps what a function computed.
fn keep_computed(function: bool, operands: &mut Stacks<Value>)
    ensures { operands.new ≡ with_top (spec.result_values function operands.old.top) operands.old }
{
    if !function {
        operands.clear();
    }
}

/// Puts the values of the parameters that hand one back beneath all other operands, the last one lowest.
fn hand_back(
    alloc: Global,
    parameters: &[Parameter],
    variables: &Levels<Value>,
    to: &mut Stacks<Value>,
) -> Result<(), NoMemory>
    ensures { OnOk result (to.new ≡ with_top (to.old.top ++ callees.handed 0 (map formal parameters.now) variables.now.top) to.old) }
{
    for (place, parameter) in parameters.iter().enumerate() {
        if parameter.gives {
            to.push_lowest(variable(alloc, variables, place)?)?;
        }
    }
    Ok(())
}
