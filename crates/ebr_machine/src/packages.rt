//! References to packages, and their making.

ghost use Rattle.std.specs.Prelude.{◌≡◌, ◌<◌, ◌-◌, None, OnOk};
ghost use Rattle.std.specs.Option.{option_copied};
ghost use Rattle.ebr_run.specs.Packages as packages;
ghost use Rattle.ebr_code.specs.Instructions.{operate};
ghost use Rattle.ebr_code.specs.Runs.{parts_of};
ghost use Rattle.ebr_code.specs.declared.instruction.Operation.TheVariants as does;
ghost use Rattle.ebr_memory.specs.Packages.{made_of};
ghost use Rattle.ebr_running.specs.Rest.{ActsIn, DoesIn, Moves};
ghost use Rattle.ebr_machine.specs.inside.Callees as callees;

use crate::calls::body_unit;
use ebr_base::{Class, CloneIn, Code as Refusal, EditionNo, Name, NoMemory, Shared, Stamp};
use ebr_code::{Code, CodeBook, Fault, Reference, Unit};
use ebr_memory::{Made, PackageStatus};
use ebr_running::{Flow, Running, Task};
use std::alloc::Global;

/// Refers to a package, whose state is made where it isn't there.
pub fn refer<B: CodeBook>(
    run: &mut Running,
    alloc: Global,
    book: &B,
    edition: EditionNo,
    reference: Reference,
    name: &Name,
) -> Result<(), NoMemory>
    requires { run.old.flow ≡ Flow.Normal }
    ensures { OnOk result (ActsIn (B.answers book.now edition) run.old run.new (operate (does.Refer reference name.now))) }
{
    match run.row {
        None => {
            refer_to(run, alloc, book, edition, name)?;
            Ok(())
        }
        Some(_) => {
            refer_under(run, reference);
            Ok(())
        }
    }
}

/// Refers to a package under a trigger, where none is made, and none of its variables and cursors may be used.
fn refer_under(run: &mut Running, reference: Reference)
    requires { run.old.flow ≡ Flow.Normal }
    ensures { Moves run.old run.new (callees.under reference) }
{
    match reference {
        Reference::Other => {}
        Reference::Data => run.raise(Fault::Code(Refusal::Ebr(12))),
    }
}

/// Refers to a package outside triggers.
fn refer_to<B: CodeBook>(
    run: &mut Running,
    alloc: Global,
    book: &B,
    edition: EditionNo,
    name: &Name,
) -> Result<(), NoMemory>
    requires { run.old.flow ≡ Flow.Normal }
    ensures { OnOk result (DoesIn (B.answers book.now edition) run.old run.new (callees.refers (B.answers book.now edition) run.old.makings_left run.old.frames_left name.now)) }
{
    let made = visible(book, edition, name);
    match run.packages.status(name, made) {
        PackageStatus::Current => Ok(()),
        PackageStatus::Absent => {
            make(run, alloc, book, edition, name, made)?;
            Ok(())
        }
        PackageStatus::Outdated(stateful) => {
            run.packages.forget(name);
            if stateful {
                run.raise(Fault::Code(Refusal::Ora(4068)));
                return Ok(());
            }
            make(run, alloc, book, edition, name, made)?;
            Ok(())
        }
    }
}

/// What a package would be made from now.
fn visible<B: CodeBook>(book: &B, edition: EditionNo, name: &Name) -> Made
    ensures { made_of result ≡ (parts_of (B.answers book.now edition)).made name.now }
{
    Made {
        specification: book.stamp(edition, Class::Unit, name),
        body: book.stamp(edition, Class::Body, name),
    }
}

/// Makes a package, where a making may still begin.
fn make<B: CodeBook>(
    run: &mut Running,
    alloc: Global,
    book: &B,
    edition: EditionNo,
    name: &Name,
    made: Made,
) -> Result<(), NoMemory>
    requires flow { run.old.flow ≡ Flow.Normal }
    requires absent { packages.state_of name.now run.old.packages ≡ None }
    requires made { made_of made ≡ (parts_of (B.answers book.now edition)).made name.now }
    ensures { OnOk result (DoesIn (B.answers book.now edition) run.old run.new (callees.makes (B.answers book.now edition) run.old.makings_left run.old.frames_left name.now)) }
{
    if run.makings_left == 0 {
        run.end_broken();
        return Ok(());
    }
    make_inside(run, alloc, book, edition, name, made)?;
    Ok(())
}

/// Makes a package: its state is there before its code runs.
fn make_inside<B: CodeBook>(
    run: &mut Running,
    alloc: Global,
    book: &B,
    edition: EditionNo,
    name: &Name,
    made: Made,
) -> Result<(), NoMemory>
    requires flow { run.old.flow ≡ Flow.Normal }
    requires makings { 0 < run.old.makings_left }
    requires absent { packages.state_of name.now run.old.packages ≡ None }
    requires made { made_of made ≡ (parts_of (B.answers book.now edition)).made name.now }
    ensures { OnOk result (DoesIn (B.answers book.now edition) run.old run.new (callees.makes_inside (B.answers book.now edition) (run.old.makings_left - 1) run.old.frames_left name.now)) }
{
    let Some(unit) = maker(book, edition, name, made.body) else {
        run.raise(Fault::Code(Refusal::Ora(6508)));
        return Ok(());
    };
    let Some(initial) = &unit.get().initial else {
        run.raise(Fault::Code(Refusal::Ora(6508)));
        return Ok(());
    };
    run.packages
        .renew(name.clone_in(alloc)?, made, initial.stateful)?;
    begin_making(run, alloc, name, initial.code.clone_in(alloc)?)?;
    Ok(())
}

/// The unit that makes a package: its body where one is visible.
fn maker<'a, B: CodeBook>(
    book: &'a B,
    edition: EditionNo,
    name: &Name,
    body: Option<Stamp>,
) -> Option<&'a Shared<Unit>>
    ensures { option_copied result ≡ callees.maker_of (B.answers book.now edition) name.now body }
{
    match body {
        Some(_) => body_unit(book, edition, name),
        None => book.unit(edition, Class::Unit, name),
    }
}

/// Begins the code that makes a package.
fn begin_making(run: &mut Running, alloc: Global, name: &Name, code: Code) -> Result<(), NoMemory>
    ensures { OnOk result (run.new ≡ callees.making name.now code run.old) }
{
    run.variables.open()?;
    run.cursors.open()?;
    run.faults.open()?;
    run.operands.open()?;
    run.tasks
        .push(Task::Making(name.clone_in(alloc)?, run.makings_left))?;
    run.tasks.push(Task::Rest(code, 0))?;
    run.makings_left = run.makings_left.saturating_sub(1);
    Ok(())
}
