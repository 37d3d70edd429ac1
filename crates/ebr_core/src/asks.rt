//! The replies to asks for transactions, of statements, and for the beginning and the end of a call.

ghost use Rattle.std.specs.Prelude.{◌≡◌, ◌<◌, IfOk, None, Some, true, is_some};
ghost use Rattle.ebr_asks.specs.declared.answer.Answer.TheVariants.{Done};
ghost use Rattle.ebr_database.specs.Database.{data_of, own_on_top, reply_commit, reply_rollback, reply_savepoint, reply_back_to, reply_push, reply_pop};
ghost use Rattle.ebr_seats.specs.Ends.{reply_end};
ghost use Rattle.ebr_asks.specs.declared.ask.Ask.TheVariants as asks;
ghost use Rattle.ebr_core.specs.Machine as spec;
ghost use Rattle.ebr_core.specs.History.{only_reads};
ghost use Rattle.ebr_core.specs.inside.Held.{ForSession, IsDone, IsHeld, IsBookOf, IsPlaced, IsReplied, Replies, Tries, answered, failed, refused_by};
ghost use Rattle.ebr_seats.specs.Seats.{seat_at};
ghost use Rattle.ebr_seats.specs.declared.seat.Seat.{Seat as Held};

use crate::current::{Current, Told, with_copy};
use ebr_asks::{Answer, Ask};
use ebr_ast::SqlTree;
use ebr_base::{Code, EditionNo, Name, NoMemory, SessionId, Stop, Value};
use ebr_database::{Failure, Halt, asks_are_read_back};
use ebr_record::Keep;
use ebr_seats::{
    back_to_top, commit_top, end_call, open_call, own_of, pop_top, push_top, roll_back_top,
    savepoint_top, seat_of, set_edition, top_of,
};
use ebr_statements::run_sql;
use std::alloc::Global;

/// A call begins: all that the session's edition sees, with its book, which serves the call to its end, and a copy of the answer.
/// Where there is no memory for it, all is as before.
pub fn begin<K: Keep>(
    alloc: Global,
    current: &mut Current<K>,
    s: SessionId,
    e: EditionNo,
) -> Result<Told, Halt>
    requires { IsHeld K.as_keeper current.old s }
    ensures reply { ForSession K.as_keeper current.old s (λ db d x. d ≡ e → Tries K.as_keeper true current.old current.new db result (spec.reply_begin d db s x)) }
    ensures book { ForSession K.as_keeper current.old s (λ db d x. IfOk result (λ told. IsBookOf told.0.0 told.0.1)) }
{
    let view = current.views.of(alloc, &current.world.catalogue, e)?;
    let book = current.world.book.book_of(alloc, &view)?;
    let told = with_copy(alloc, (Answer::View(view), Some(book)))?;
    open_call(&current.world.tx, &mut current.seats, s)?;
    Ok(told)
}

/// A query that locks no rows, with a copy of its answer. Where there is no memory for one, all is as before.
pub fn query<K: Keep>(
    alloc: Global,
    current: &mut Current<K>,
    s: SessionId,
    e: EditionNo,
    stmt: &SqlTree,
    binds: &[Value],
    left: u32,
    ask: &Ask,
) -> Result<Told, Halt>
    requires held { IsHeld K.as_keeper current.old s }
    requires is { ask.now ≡ asks.Sql stmt.now binds.now left }
    requires reads { only_reads stmt.now ≡ true }
    ensures reply { ForSession K.as_keeper current.old s (λ db d x. d ≡ e → Tries K.as_keeper true current.old current.new db result (spec.reply_sql d db s x stmt.now binds.now left)) }
    ensures book { IfOk result (λ told. told.0.1 ≡ None) }
{
    let t = top_of(current.seats.as_slice(), s);
    let room = seat_of(current.seats.as_slice(), s).room_for(ask);
    let view = current.views.of(alloc, &current.world.catalogue, e)?;
    let mark = current.world.tx.mark(t)?;
    let answer = run_sql(
        alloc,
        &mut current.world,
        t,
        view.get(),
        stmt,
        binds,
        left,
        room,
    )?;
    match with_copy(alloc, (answer, None)) {
        Ok(told) => Ok(told),
        Err(why) => {
            current.world.tx.back_to_mark(t, mark);
            Err(why)
        }
    }
}

/// A statement with the bodies of its triggers, in the transaction on top of the session's stack.
pub fn sql<K: Keep>(
    alloc: Global,
    current: &mut Current<K>,
    s: SessionId,
    e: EditionNo,
    stmt: &SqlTree,
    binds: &[Value],
    left: u32,
    ask: &Ask,
) -> Result<Answer, Halt>
    requires held { IsHeld K.as_keeper current.old s }
    requires is { ask.now ≡ asks.Sql stmt.now binds.now left }
    ensures { ForSession K.as_keeper current.old s (λ db d x. d ≡ e → Replies K.as_keeper current.old current.new result (spec.reply_sql d db s x stmt.now binds.now left)) }
{
    let t = top_of(current.seats.as_slice(), s);
    let room = seat_of(current.seats.as_slice(), s).room_for(ask);
    let view = current.views.of(alloc, &current.world.catalogue, e)?;
    run_sql(
        alloc,
        &mut current.world,
        t,
        view.get(),
        stmt,
        binds,
        left,
        room,
    )
}

/// Replies to an ask that is done or refused.
pub fn transact<K: Keep>(
    alloc: Global,
    current: &mut Current<K>,
    s: SessionId,
    ask: &Ask,
) -> Result<(), Failure>
    requires held { IsHeld K.as_keeper current.old s }
    requires done { IsDone ask.now }
    requires placed { IsPlaced K.as_keeper current.old s ask.now }
    ensures { ForSession K.as_keeper current.old s (λ db e x. Replies K.as_keeper current.old current.new (answered result) (spec.reply_in e db s x ask.now)) }
{
    match ask {
        Ask::Commit => commit(alloc, current, s),
        Ask::Rollback => {
            roll_back(alloc, current, s);
            Ok(())
        }
        Ask::Savepoint(name) => savepoint(alloc, current, s, name),
        Ask::BackTo(name) => back_to(current, s, name),
        Ask::SetEdition(name) => switch(current, s, name),
        Ask::PushAuto => push(current, s),
        Ask::PopAuto { failed } => pop(current, s, *failed),
        Ask::Begin | Ask::Sql { .. } | Ask::Ddl { .. } | Ask::EndCall { .. } | Ask::Leave => Ok(()),
    }
}

/// COMMIT.
pub fn commit<K: Keep>(alloc: Global, current: &mut Current<K>, s: SessionId) -> Result<(), Failure>
    requires { IsHeld K.as_keeper current.old s }
    ensures { ForSession K.as_keeper current.old s (λ db e x. Replies K.as_keeper current.old current.new (answered result) (reply_commit db s x)) }
{
    asks_are_read_back();
    commit_top(
        alloc,
        &mut current.world.tx,
        &mut current.world.keeper,
        &mut current.seats,
        s,
    )
}

fn roll_back<K: Keep>(alloc: Global, current: &mut Current<K>, s: SessionId)
    requires { IsHeld K.as_keeper current.old s }
    ensures { ForSession K.as_keeper current.old s (λ db e x. IsReplied K.as_keeper current.old current.new Done (reply_rollback db s x)) }
{
    asks_are_read_back();
    roll_back_top(alloc, &mut current.world.tx, &mut current.seats, s);
}

fn savepoint<K: Keep>(
    alloc: Global,
    current: &mut Current<K>,
    s: SessionId,
    name: &Name,
) -> Result<(), Failure>
    requires { IsHeld K.as_keeper current.old s }
    ensures { ForSession K.as_keeper current.old s (λ db e x. Replies K.as_keeper current.old current.new (answered result) (reply_savepoint db s x name.now)) }
{
    asks_are_read_back();
    savepoint_top(
        alloc,
        &mut current.world.tx,
        current.seats.as_slice(),
        s,
        name,
    )?;
    Ok(())
}

fn back_to<K: Keep>(current: &mut Current<K>, s: SessionId, name: &Name) -> Result<(), Failure>
    requires { IsHeld K.as_keeper current.old s }
    ensures { ForSession K.as_keeper current.old s (λ db e x. Replies K.as_keeper current.old current.new (answered result) (reply_back_to db s x name.now)) }
{
    asks_are_read_back();
    failed(back_to_top(&mut current.world.tx, &mut current.seats, s, name))
}

fn push<K: Keep>(current: &mut Current<K>, s: SessionId) -> Result<(), Failure>
    requires { IsHeld K.as_keeper current.old s }
    ensures { ForSession K.as_keeper current.old s (λ db e x. is_some x.call ≡ true → Replies K.as_keeper current.old current.new (answered result) (reply_push db s x)) }
{
    asks_are_read_back();
    failed(push_top(&mut current.world.tx, &mut current.seats, s))
}

fn pop<K: Keep>(current: &mut Current<K>, s: SessionId, failed: bool) -> Result<(), Failure>
    requires held { IsHeld K.as_keeper current.old s }
    requires level { (seat : Held) → seat_at current.old.seats.items s.0 ≡ Some seat → 0 < seat.levels }
    ensures { ForSession K.as_keeper current.old s (λ db e x. Replies K.as_keeper current.old current.new (answered result) (reply_pop db s x failed)) }
{
    asks_are_read_back();
    refused_by(pop_top(&mut current.world.tx, &mut current.seats, s, failed))
}

/// A refusal.
fn refused_by(done: Result<(), Code>) -> Result<(), Failure>
    ensures { result ≡ refused_by done }
{
    match done {
        Ok(()) => Ok(()),
        Err(code) => Err(Failure::Refused(code)),
    }
}

/// A refusal, or want of memory, with which the engine gives up.
fn failed(done: Result<(), Stop>) -> Result<(), Failure>
    ensures { result ≡ failed done }
{
    match done {
        Ok(()) => Ok(()),
        Err(Stop::Raised(code)) => Err(Failure::Refused(code)),
        Err(Stop::NoMemory) => Err(Failure::from(NoMemory)),
    }
}

/// The session's edition is the one of that name from now on; EBR-0016 where its transaction has begun, ORA-38802 where there is
/// none of that name. It takes no memory.
fn switch<K: Keep>(current: &mut Current<K>, s: SessionId, name: &Name) -> Result<(), Failure>
    requires { IsHeld K.as_keeper current.old s }
    ensures { ForSession K.as_keeper current.old s (λ db e x. Replies K.as_keeper current.old current.new (answered result) (spec.reply_set db s x name.now)) }
{
    if current.world.tx.begun(own_of(s)) {
        return Err(Failure::Refused(Code::Ebr(16)));
    }
    match current.world.catalogue.edition_named(name) {
        Ok(e) => {
            set_edition(&mut current.seats, s, e);
            Ok(())
        }
        Err(code) => Err(Failure::Refused(code)),
    }
}

/// The call ends. It takes no memory.
pub fn end<K: Keep>(current: &mut Current<K>, s: SessionId, failed: bool)
    requires { IsHeld K.as_keeper current.old s }
    ensures { ForSession K.as_keeper current.old s (λ db e x. own_on_top (data_of db) s ≡ true → IsReplied K.as_keeper current.old current.new Done (reply_end db s x failed)) }
{
    end_call(&mut current.world.tx, &mut current.seats, s, failed);
}
