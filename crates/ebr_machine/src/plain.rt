//! Operations that ask no book, and rows of them.

ghost use Rattle.std.specs.Prelude.{◌≡◌, true, map, OnOk, IfOk};
ghost use Rattle.ebr_code.specs.Instructions as code;
ghost use Rattle.ebr_code.specs.Instructions.{act, meaning_of, operate};
ghost use Rattle.ebr_code.specs.declared.instruction.Instruction.TheOpen as form;
ghost use Rattle.ebr_running.specs.Rest.{Computes};
ghost use Rattle.ebr_machine.specs.inside.Rows as rows;
ghost use Rattle.ebr_machine.specs.inside.Rows.{IfDone, Ran};

use ebr_base::{CloneIn, List, NoMemory};
use ebr_code::{Code, Instruction, Operation};
use ebr_memory::is_true;
use ebr_running::{Flow, Running};
use std::alloc::Global;

/// Whether an operation asks no book.
pub fn is_plain(operation: &Operation) -> bool
    ensures { result ≡ rows.is_plain operation.now }
{
    match operation {
        Operation::Call(_) => false,
        Operation::Refer(_, _) => false,
        _ => true,
    }
}

/// Does an operation that asks no book.
pub fn plain(run: &mut Running, alloc: Global, operation: &Operation) -> Result<(), NoMemory>
    requires flow { run.old.flow ≡ Flow.Normal }
    requires plain { rows.is_plain operation.now ≡ true }
    ensures { OnOk result (Computes run.old run.new (operate operation.now)) }
{
    match operation {
        Operation::Step => run.step(),
        Operation::Push(value) => run.push(value.clone_in(alloc)?),
        Operation::Copy => run.copy(alloc),
        Operation::Over => run.over(alloc),
        Operation::Nip => run.nip(),
        Operation::Drop => {
            run.take_away();
            Ok(())
        }
        Operation::Load(from) => run.load(alloc, from),
        Operation::Assign(to, ty) => run.assign(to, ty),
        Operation::LoadColumn(image, place) => run.load_column(alloc, *image, *place),
        Operation::AssignNew(place, ty) => run.assign_new(alloc, *place, *ty),
        Operation::Firing(op) => run.firing(*op),
        Operation::SqlCode(place) => run.sqlcode(*place),
        Operation::Binary(op) => run.binary(alloc, *op),
        Operation::Function(function, count) => run.function(alloc, *function, *count),
        Operation::Unsigned => run.unsigned(),
        Operation::Affect(count) => {
            run.affect(*count);
            Ok(())
        }
        Operation::Affected(attribute) => run.affected(*attribute),
        Operation::Raise(fault) => {
            run.raise(fault.clone_in(alloc)?);
            Ok(())
        }
        Operation::Reraise(place) => run.reraise(alloc, *place),
        Operation::PutLine => run.put_line(alloc),
        Operation::Return => {
            run.end_return();
            Ok(())
        }
        Operation::Give(ty) => run.give_back(ty),
        Operation::Exit => {
            run.end_exit();
            Ok(())
        }
        Operation::Continue => {
            run.end_continue();
            Ok(())
        }
        Operation::Sql {
            stmt,
            binds,
            lookup,
        } => run.sql(alloc, stmt, *binds, lookup),
        Operation::Transact(transaction) => run.transact(alloc, transaction),
        Operation::Open(cursor) => {
            run.test_closed(cursor);
            Ok(())
        }
        Operation::Reset(cursor) => run.reset(cursor),
        Operation::Close(cursor) => run.close_cursor(cursor),
        Operation::Broken => {
            run.end_broken();
            Ok(())
        }
        Operation::Attribute(cursor, attribute) => run.attribute(cursor, *attribute),
        Operation::Fetch(cursor, types) => run.fetch(alloc, cursor, types),
        Operation::Call(_) => Ok(()),
        Operation::Refer(_, _) => Ok(()),
    }
}

/// Does an instruction that asks no book and holds no code, and answers whether it is one.
fn simple(run: &mut Running, alloc: Global, instruction: &Instruction) -> Result<bool, NoMemory>
    requires { run.old.flow ≡ Flow.Normal }
    ensures { IfOk result (λ done. IfDone done run.old run.new (meaning_of instruction.now)) }
{
    match instruction {
        Instruction::Do(operation) => {
            if is_plain(operation) {
                plain(run, alloc, operation)?;
                return Ok(true);
            }
            Ok(false)
        }
        _ => Ok(false),
    }
}

/// Does a code of one instruction at most, where that asks no book and holds no code, and answers whether it is one.
fn brief(run: &mut Running, alloc: Global, body: &Code) -> Result<bool, NoMemory>
    requires { run.old.flow ≡ Flow.Normal }
    ensures { IfOk result (λ done. IfDone done run.old run.new (code.run body.now)) }
{
    match body.get().as_slice().split_first() {
        None => Ok(true),
        Some((only, rest)) => match rest.split_first() {
            None => Ok(simple(run, alloc, only)?),
            Some(_) => Ok(false),
        },
    }
}

/// IF, where the code that it runs is of one instruction at most; answers whether it is one. `EXIT WHEN` and the end of WHILE
/// are such.
fn chosen(run: &mut Running, alloc: Global, then: &Code, otherwise: &Code) -> Result<bool, NoMemory>
    requires { run.old.flow ≡ Flow.Normal }
    ensures { IfOk result (λ done. IfDone done run.old run.new (act (form.If (map meaning_of then.now) (map meaning_of otherwise.now)))) }
{
    let Some(value) = run.operands.pop() else {
        run.end_broken();
        return Ok(true);
    };
    let body = if is_true(&value) { then } else { otherwise };
    if brief(run, alloc, body)? {
        return Ok(true);
    }
    run.operands.push(value)?;
    Ok(false)
}

/// Does an instruction that asks no book and holds no code, or an IF that runs at most one such instruction; answers whether it
/// is one.
fn done(run: &mut Running, alloc: Global, instruction: &Instruction) -> Result<bool, NoMemory>
    requires { run.old.flow ≡ Flow.Normal }
    ensures { IfOk result (λ done. IfDone done run.old run.new (meaning_of instruction.now)) }
{
    match instruction {
        Instruction::If(then, otherwise) => chosen(run, alloc, then, otherwise),
        _ => simple(run, alloc, instruction),
    }
}

/// Does the instructions from a place on up to the first that `done` doesn't do, while they end normally, and answers the place
/// behind them.
pub fn row(
    run: &mut Running,
    alloc: Global,
    body: &List<Instruction>,
    place: usize,
) -> Result<usize, NoMemory>
    requires { run.old.flow ≡ Flow.Normal }
    ensures { IfOk result (λ at. Ran run.old run.new place at body.now) }
{
    for at in place..usize::MAX {
        if !is_normal(run.flow) {
            return Ok(at);
        }
        let Some(instruction) = body.get(at) else {
            return Ok(at);
        };
        if !done(run, alloc, instruction)? {
            return Ok(at);
        }
    }
    Err(NoMemory)
}

/// Whether what ran last has ended normally.
pub fn is_normal(flow: Flow) -> bool
    ensures { result ≡ rows.is_normal flow }
{
    match flow {
        Flow::Normal => true,
        _ => false,
    }
}
