//! The asks for transactions, for the one on top of a session's stack.

ghost use Rattle.std.specs.Prelude.{◌≡◌, ◌<◌, ◌+◌, ◌-◌, ◌==◌, true, is_some, Some, Ok, OnErr, OnOk};
ghost use Rattle.ebr_tx.specs.Data.{named_at, IsLive};
ghost use Rattle.ebr_tx.specs.Calls.{mark_of, IsMarkOf};
ghost use Rattle.ebr_database.specs.Database.{as_answer, reply_commit, reply_rollback, reply_savepoint, reply_back_to, reply_push, reply_pop};
ghost use Rattle.ebr_seats.specs.Seats.{Finishes, ForSession, HasSeat, IsHeld, Leaves, LeavesOr, ended_if, moved_if, seat_at, with_seat};
ghost use Rattle.ebr_seats.specs.declared.seat.Seat.{Seat as Held};

use crate::seat::{Seat, place};
use ebr_base::{CloneIn, Code, Name, NoMemory, SessionId, Stop, TxId};
use ebr_database::{
    Failure, asks_are_read_back, back_to, commit, pop_autonomous, push_autonomous, roll_back,
    savepoint,
};
use ebr_record::Keep;
use ebr_tx::Transactions;
use std::alloc::Global;

/// The seat of a session.
pub fn seat_of(seats: &[Seat], s: SessionId) -> &Seat
    requires { HasSeat seats.now s }
    ensures { Some result.now ≡ seat_at seats.now s.0 }
{
    &seats[place(s)]
}

/// How many autonomous transactions of a session are open.
pub fn levels_of(seats: &[Seat], s: SessionId) -> u32
    requires { HasSeat seats.now s }
    ensures { (seat : Held) → seat_at seats.now s.0 ≡ Some seat → result ≡ seat.levels }
{
    seats[place(s)].levels
}

/// The transaction on top of a session's stack.
pub fn top_of(seats: &[Seat], s: SessionId) -> TxId
    requires { HasSeat seats.now s }
    ensures { (seat : Held) → seat_at seats.now s.0 ≡ Some seat → result ≡ named_at s seat.levels }
{
    TxId {
        session: s,
        depth: levels_of(seats, s),
    }
}

/// A session's own transaction, at the bottom of its stack.
pub fn own_of(s: SessionId) -> TxId
    ensures { result ≡ named_at s 0 }
{
    TxId {
        session: s,
        depth: 0,
    }
}

/// COMMIT. Where the session's own transaction ended, the mark of an open call is the empty one.
pub fn commit_top<K: Keep>(
    alloc: Global,
    tx: &mut Transactions,
    keeper: &mut K,
    seats: &mut Vec<Seat>,
    s: SessionId,
) -> Result<(), Failure>
    requires { IsHeld tx.old.contents seats.old.items s }
    ensures { ForSession tx.old.contents seats.old.items s (λ used db x. used ≡ (K.as_keeper keeper.old).used
        → Finishes (K.as_keeper keeper.old) (K.as_keeper keeper.new) tx.new.contents seats.new.items result (reply_commit db s x)) }
{
    asks_are_read_back();
    let t = top_of(seats.as_slice(), s);
    commit(tx, keeper, t)?;
    end_mark(alloc, seats, s);
    Ok(())
}

/// ROLLBACK. It takes no memory.
pub fn roll_back_top(alloc: Global, tx: &mut Transactions, seats: &mut Vec<Seat>, s: SessionId)
    requires { IsHeld tx.old.contents seats.old.items s }
    ensures { ForSession tx.old.contents seats.old.items s (λ used db x. Leaves used tx.new.contents seats.new.items (as_answer (Ok tt)) (reply_rollback db s x)) }
{
    asks_are_read_back();
    let t = top_of(seats.as_slice(), s);
    roll_back(tx, t);
    end_mark(alloc, seats, s);
}

/// The transaction on top ended.
fn end_mark(alloc: Global, seats: &mut Vec<Seat>, s: SessionId)
    requires { HasSeat seats.old.items s }
    ensures { (seat : Held) → seat_at seats.old.items s.0 ≡ Some seat → seats.new.items ≡ with_seat seats.old.items s (ended_if (seat.levels == 0) seat) }
{
    let at = place(s);
    seats[at].end_mark_on_top(alloc);
}

/// SAVEPOINT. Want of memory changes nothing.
pub fn savepoint_top(
    alloc: Global,
    tx: &mut Transactions,
    seats: &[Seat],
    s: SessionId,
    name: &Name,
) -> Result<(), NoMemory>
    requires { IsHeld tx.old.contents seats.now s }
    ensures exact { ForSession tx.old.contents seats.now s (λ used db x. OnOk result (Leaves used tx.new.contents seats.now (as_answer (Ok tt)) (reply_savepoint db s x name.now))) }
    ensures unchanged { OnErr result (tx.new.contents ≡ tx.old.contents) }
{
    asks_are_read_back();
    let t = top_of(seats, s);
    let name = name.clone_in(alloc)?;
    savepoint(tx, t, name)
}

/// ROLLBACK TO SAVEPOINT. Where the session's own transaction went back, a mark of the open call that lies later moves back.
pub fn back_to_top(
    tx: &mut Transactions,
    seats: &mut Vec<Seat>,
    s: SessionId,
    name: &Name,
) -> Result<(), Stop>
    requires { IsHeld tx.old.contents seats.old.items s }
    ensures { ForSession tx.old.contents seats.old.items s (λ used db x. LeavesOr used tx.new.contents seats.new.items result (reply_back_to db s x name.now)) }
{
    asks_are_read_back();
    let t = top_of(seats.as_slice(), s);
    if let Err(code) = back_to(tx, t, name) {
        return Err(Stop::Raised(code));
    }
    move_mark(tx, seats, s)?;
    Ok(())
}

/// The transaction on top went back.
fn move_mark(tx: &Transactions, seats: &mut Vec<Seat>, s: SessionId) -> Result<(), NoMemory>
    requires seat { HasSeat seats.old.items s }
    requires live { IsLive tx.now.contents (named_at s 0) }
    ensures mark { OnOk result (IsMarkOf tx.now.contents (named_at s 0) (mark_of tx.now.contents (named_at s 0))) }
    ensures moved { (seat : Held) → seat_at seats.old.items s.0 ≡ Some seat
        → OnOk result (seats.new.items ≡ with_seat seats.old.items s (moved_if (seat.levels == 0) (mark_of tx.now.contents (named_at s 0)) seat)) }
{
    let mark = tx.mark(own_of(s))?;
    let at = place(s);
    seats[at].move_mark_on_top(mark);
    Ok(())
}

/// An autonomous transaction begins, while a call is open; EBR-0014 where 50 are open.
pub fn push_top(tx: &mut Transactions, seats: &mut Vec<Seat>, s: SessionId) -> Result<(), Stop>
    requires { IsHeld tx.old.contents seats.old.items s }
    ensures { ForSession tx.old.contents seats.old.items s (λ used db x. is_some x.call ≡ true
        → LeavesOr used tx.new.contents seats.new.items result (reply_push db s x)) }
{
    asks_are_read_back();
    push_autonomous(tx, s)?;
    raise(seats, s);
    Ok(())
}

/// An autonomous transaction ends, of which one is open; ORA-06519 where it hasn't failed and left changes or locks. It takes no
/// memory.
pub fn pop_top(
    tx: &mut Transactions,
    seats: &mut Vec<Seat>,
    s: SessionId,
    failed: bool,
) -> Result<(), Code>
    requires held { IsHeld tx.old.contents seats.old.items s }
    requires level { (seat : Held) → seat_at seats.old.items s.0 ≡ Some seat → 0 < seat.levels }
    ensures { ForSession tx.old.contents seats.old.items s (λ used db x. Leaves used tx.new.contents seats.new.items (as_answer result) (reply_pop db s x failed)) }
{
    asks_are_read_back();
    let popped = pop_autonomous(tx, s, failed);
    lower(seats, s);
    popped
}

/// One more autonomous transaction is open.
fn raise(seats: &mut Vec<Seat>, s: SessionId)
    requires seat { HasSeat seats.old.items s }
    requires few { (seat : Held) → seat_at seats.old.items s.0 ≡ Some seat → seat.levels < 50 }
    ensures { (seat : Held) → seat_at seats.old.items s.0 ≡ Some seat → seats.new.items ≡ with_seat seats.old.items s (record seat { levels = seat.levels + 1 }) }
{
    let at = place(s);
    seats[at].push_level();
}

/// One autonomous transaction less is open.
fn lower(seats: &mut Vec<Seat>, s: SessionId)
    requires seat { HasSeat seats.old.items s }
    requires some { (seat : Held) → seat_at seats.old.items s.0 ≡ Some seat → 0 < seat.levels }
    ensures { (seat : Held) → seat_at seats.old.items s.0 ≡ Some seat → seats.new.items ≡ with_seat seats.old.items s (record seat { levels = seat.levels - 1 }) }
{
    let at = place(s);
    seats[at].pop_level();
}
