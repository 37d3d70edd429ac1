//! The beginning and the end of a call, the session's edition, what is counted of its asks, and its end.

ghost use Rattle.std.specs.Prelude.{◌≡◌, filter, not, true, Some, None, IfSome, OnOk, OnErr};
ghost use Rattle.ebr_asks.specs.declared.answer.Answer.TheVariants.{Done};
ghost use Rattle.ebr_tx.specs.Data.{Data as Contents, IsLive, named_at, names_of, stack_of};
ghost use Rattle.ebr_tx.specs.Calls.{HasLevel, IsMarkOf, after_pop, top};
ghost use Rattle.ebr_locks.specs.Locks.{same_tx};
ghost use Rattle.ebr_database.specs.Storable.{AllStorable};
ghost use Rattle.ebr_database.specs.Database.{counted, data_of, own_on_top, with_session};
ghost use Rattle.ebr_seats.specs.Ends.{back_where, call_opened, closed_from_top, reply_end, reply_leave};
ghost use Rattle.ebr_seats.specs.Seats.{ForSession, HasSeat, Holds, IsHeld, Leaves, counted_seat, seat_at, stack_to, with_seat};
ghost use Rattle.ebr_seats.specs.inside.Apart.{Others};
ghost use Rattle.ebr_seats.specs.declared.seat.Seat.{Seat as Held};

use crate::carried::{answer_weight, ask_weight};
use crate::seat::{Seat, place};
use crate::transact::{levels_of, own_of};
use ebr_asks::{Answer, Ask};
use ebr_base::{EditionNo, NoMemory, SessionId};
use ebr_database::{pop_autonomous, roll_back};
use ebr_tx::{Transactions, TxMark};

/// A call begins, whose mark is what the session's transaction is. Want of memory changes nothing.
pub fn open_call(tx: &Transactions, seats: &mut Vec<Seat>, s: SessionId) -> Result<(), NoMemory>
    requires { IsHeld tx.now.contents seats.old.items s }
    ensures opened { ForSession tx.now.contents seats.old.items s (λ used db x. OnOk result (Holds used tx.now.contents seats.new.items (call_opened db s x))) }
    ensures unchanged { OnErr result (seats.new.items ≡ seats.old.items) }
{
    let mark = tx.mark(own_of(s))?;
    put_mark(seats, s, mark);
    Ok(())
}

fn put_mark(seats: &mut Vec<Seat>, s: SessionId, mark: TxMark)
    requires { HasSeat seats.old.items s }
    ensures { (seat : Held) → seat_at seats.old.items s.0 ≡ Some seat → seats.new.items ≡ with_seat seats.old.items s (record seat { call = Some mark }) }
{
    let at = place(s);
    seats[at].open_call(mark);
}

/// The call ends, above whose transaction none is open. Where it failed, the session's transaction goes back to the mark. It takes
/// no memory.
pub fn end_call(tx: &mut Transactions, seats: &mut Vec<Seat>, s: SessionId, failed: bool)
    requires { IsHeld tx.old.contents seats.old.items s }
    ensures { ForSession tx.old.contents seats.old.items s (λ used db x. own_on_top (data_of db) s ≡ true → Leaves used tx.new.contents seats.new.items Done (reply_end db s x failed)) }
{
    let mark = take_mark(seats, s);
    go_back(tx, s, failed, mark);
}

fn take_mark(seats: &mut Vec<Seat>, s: SessionId) -> Option<TxMark>
    requires { HasSeat seats.old.items s }
    ensures mark { (seat : Held) → seat_at seats.old.items s.0 ≡ Some seat → result ≡ seat.call }
    ensures seats { (seat : Held) → seat_at seats.old.items s.0 ≡ Some seat → seats.new.items ≡ with_seat seats.old.items s (record seat { call = None }) }
{
    let at = place(s);
    seats[at].end_call()
}

fn go_back(tx: &mut Transactions, s: SessionId, failed: bool, mark: Option<TxMark>)
    requires live { IsLive tx.old.contents (named_at s 0) }
    requires mark { IfSome mark (IsMarkOf tx.old.contents (named_at s 0)) }
    ensures contents { tx.new.contents ≡ back_where failed mark (named_at s 0) tx.old.contents }
    ensures stacks { names_of tx.new.contents.live ≡ names_of tx.old.contents.live }
{
    if !failed {
        return;
    }
    if let Some(mark) = mark {
        tx.back_to_mark(own_of(s), mark);
    }
}

/// The session is in an edition from now on.
pub fn set_edition(seats: &mut Vec<Seat>, s: SessionId, e: EditionNo)
    requires { HasSeat seats.old.items s }
    ensures { (d : Contents) → ForSession d seats.old.items s (λ used db x. Holds used d seats.new.items (with_session db s (record x { edition = Some e }))) }
{
    put_edition(seats, s, e);
}

fn put_edition(seats: &mut Vec<Seat>, s: SessionId, e: EditionNo)
    requires { HasSeat seats.old.items s }
    ensures { (seat : Held) → seat_at seats.old.items s.0 ≡ Some seat → seats.new.items ≡ with_seat seats.old.items s (record seat { edition = Some e }) }
{
    let at = place(s);
    seats[at].set_edition(e);
}

/// An ask is counted, and what it and its answer carry.
pub fn count_ask(seats: &mut Vec<Seat>, s: SessionId, ask: &Ask, answer: &Answer)
    requires { HasSeat seats.old.items s }
    ensures { (d : Contents) → ForSession d seats.old.items s (λ used db x. Holds used d seats.new.items (with_session db s (counted ask.now answer.now x))) }
{
    count(seats, s, ask_weight(ask), answer_weight(answer));
}

fn count(seats: &mut Vec<Seat>, s: SessionId, asked: u64, answered: u64)
    requires { HasSeat seats.old.items s }
    ensures { (seat : Held) → seat_at seats.old.items s.0 ≡ Some seat → seats.new.items ≡ with_seat seats.old.items s (counted_seat asked answered seat) }
{
    let at = place(s);
    seats[at].count(asked, answered);
}

/// The session leaves: its open autonomous transactions are closed, and all that it has done is undone. It takes no memory.
pub fn leave(tx: &mut Transactions, seats: &mut Vec<Seat>, s: SessionId)
    requires { IsHeld tx.old.contents seats.old.items s }
    ensures { ForSession tx.old.contents seats.old.items s (λ used db x. Leaves used tx.new.contents seats.new.items Done (reply_leave db s x)) }
{
    let levels = levels_of(seats.as_slice(), s);
    close_levels(tx, s, levels);
    roll_back(tx, own_of(s));
    empty_seat(seats, s);
}

/// The seat of a session that leaves.
pub fn empty_seat(seats: &mut Vec<Seat>, s: SessionId)
    requires { HasSeat seats.old.items s }
    ensures { (seat : Held) → seat_at seats.old.items s.0 ≡ Some seat → seats.new.items ≡ with_seat seats.old.items s (record seat { edition = None; call = None; levels = 0 }) }
{
    let at = place(s);
    seats[at].leave();
}

/// Closes so many autonomous transactions from the top down, all that are open.
fn close_levels(tx: &mut Transactions, s: SessionId, levels: u32)
    requires stack { stack_of (names_of tx.old.contents.live) s ≡ stack_to s levels }
    requires storable { AllStorable tx.old.contents }
    ensures contents { tx.new.contents ≡ closed_from_top levels s tx.old.contents }
    ensures stack { stack_of (names_of tx.new.contents.live) s ≡ stack_to s 0 }
    ensures storable { AllStorable tx.new.contents }
    ensures others { Others tx.old.contents tx.new.contents s }
{
    for _turn in 0..levels {
        close_top(tx, s);
    }
}

/// Closes the autonomous transaction on top. What it leaves is undone, so nothing is refused.
fn close_top(tx: &mut Transactions, s: SessionId)
    requires level { HasLevel tx.old.contents s }
    requires storable { AllStorable tx.old.contents }
    ensures contents { tx.new.contents ≡ after_pop tx.old.contents s }
    ensures stacks { names_of tx.new.contents.live ≡ filter (λ n. not (same_tx n (top tx.old.contents s))) (names_of tx.old.contents.live) }
    ensures storable { AllStorable tx.new.contents }
{
    let _ = pop_autonomous(tx, s, true);
}
