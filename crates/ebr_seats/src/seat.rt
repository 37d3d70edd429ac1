//! The seats of sessions.

ghost use Rattle.std.specs.Prelude.{◌≡◌, ◌==◌, ◌<◌, ◌≤◌, ◌+◌, ◌-◌, ◌++◌, ◌∷◌, [], min, IfOk, OnOk, Some, None, replicate, option_map, if◌then◌else◌};
ghost use Rattle.std.specs.List.{filter_map};
ghost use Rattle.ebr_base.specs.declared.numbers.SessionId.{SessionId as Id};
ghost use Rattle.ebr_tx.specs.Calls.{levels};
ghost use Rattle.ebr_database.specs.Carried.{room_for};
ghost use Rattle.ebr_database.specs.Database.{Session, Database, data_of, empty_mark, moved_back};
ghost use Rattle.ebr_seats.specs.Tests as spec;
ghost use Rattle.ebr_seats.specs.Seats.{Begin, counted_seat, ended_if, first_seat, moved_if};

use crate::carried::{MAX_CARRIED, TOO_MUCH, ask_weight};
use ebr_asks::Ask;
use ebr_base::{Code, EditionNo, List, MAX_COUNT, NoMemory, SessionId};
use ebr_tx::{Savepoints, TxMark};
use std::alloc::Global;
use std::mem;

/// The most asks of a session that are no ends.
const MAX_ASKS: u32 = 50_000;

/// Where a session stands. Its numbers are counted no further than what is tested of them.
#[derive(Drop)]
pub struct Seat {
    /// None where it has left.
    pub edition: Option<EditionNo>,
    /// What its own transaction was when the call began that is open.
    pub call: Option<TxMark>,
    /// How many autonomous transactions are open.
    pub levels: u32,
    /// Up to `MAX_ASKS`.
    pub asks: u32,
    /// Up to `TOO_MUCH`.
    pub carried: u64,
}

impl Seat {
    /// That of a session that has done nothing.
    pub fn new(e: EditionNo) -> Seat
        ensures { result ≡ first_seat e }
    {
        Seat {
            edition: Some(e),
            call: None,
            levels: 0,
            asks: 0,
            carried: 0,
        }
    }

    /// A call begins.
    pub fn open_call(&mut self, mark: TxMark)
        ensures { self.new ≡ record self.old { call = Some mark } }
    {
        put(&mut self.call, Some(mark));
    }

    /// The call ends, and its mark is handed out.
    pub fn end_call(&mut self) -> Option<TxMark>
        ensures mark { result ≡ self.old.call }
        ensures seat { self.new ≡ record self.old { call = None } }
    {
        mem::replace(&mut self.call, None)
    }

    /// The session's own transaction ended: the mark of an open call is the empty one.
    pub fn end_mark(&mut self, alloc: Global)
        ensures { self.new ≡ record self.old { call = option_map (λ m. empty_mark) self.old.call } }
    {
        if self.call.is_some() {
            put(&mut self.call, Some(empty_mark(alloc)));
        }
    }

    /// The transaction on top of the session's stack ended.
    pub fn end_mark_on_top(&mut self, alloc: Global)
        ensures { self.new ≡ ended_if (self.old.levels == 0) self.old }
    {
        if self.levels == 0 {
            self.end_mark(alloc);
        }
    }

    /// The transaction on top of the session's stack went back; this is what its own transaction now is.
    pub fn move_mark_on_top(&mut self, to: TxMark)
        ensures { self.new ≡ moved_if (self.old.levels == 0) to self.old }
    {
        if self.levels == 0 {
            self.move_mark(to);
        }
    }

    /// A mark that lies later than this one moves back to it.
    pub fn move_mark(&mut self, to: TxMark)
        ensures { self.new ≡ record self.old { call = option_map (moved_back to) self.old.call } }
    {
        if is_later(&self.call, &to) {
            put(&mut self.call, Some(to));
        }
    }

    /// An autonomous transaction was opened.
    pub fn push_level(&mut self)
        requires { self.old.levels < MAX_COUNT }
        ensures { self.new ≡ record self.old { levels = self.old.levels + 1 } }
    {
        self.levels += 1;
    }

    /// An autonomous transaction was closed.
    pub fn pop_level(&mut self)
        requires { 0 < self.old.levels }
        ensures { self.new ≡ record self.old { levels = self.old.levels - 1 } }
    {
        self.levels -= 1;
    }

    /// The session is in an edition.
    pub fn set_edition(&mut self, e: EditionNo)
        ensures { self.new ≡ record self.old { edition = Some e } }
    {
        self.edition = Some(e);
    }

    /// The session leaves.
    pub fn leave(&mut self)
        ensures { self.new ≡ record self.old { edition = None; call = None; levels = 0 } }
    {
        self.edition = None;
        put(&mut self.call, None);
        self.levels = 0;
    }

    /// An ask is counted, and what it and its answer carry.
    pub fn count(&mut self, asked: u64, answered: u64)
        ensures { self.new ≡ counted_seat asked answered self.old }
    {
        self.asks = self.asks.min(MAX_ASKS - 1) + 1;
        self.carried = (self.carried.min(TOO_MUCH)
            + asked.min(TOO_MUCH)
            + answered.min(TOO_MUCH)).min(TOO_MUCH);
    }

    /// The room for what an ask's answer adds.
    pub fn room_for(&self, ask: &Ask) -> u32
        ensures { (x : Session) → self.now.carried ≡ min 16777217 x.carried → result ≡ room_for x.carried ask.now }
    {
        let carried = self.carried.min(TOO_MUCH) + ask_weight(ask);
        MAX_CARRIED.saturating_sub(carried) as u32
    }

    /// Whether the session has made so many asks that it may make none but ends.
    fn is_one_too_many(&self, ask: &Ask) -> bool
        ensures { (x : Session) → self.now.asks ≡ min 50000 x.asks → result ≡ spec.is_one_too_many x ask.now }
    {
        !is_end(ask) && self.asks >= MAX_ASKS
    }

    /// Whether there is no room for the binds.
    fn has_no_room(&self, ask: &Ask) -> bool
        ensures { (x : Session) → self.now.carried ≡ min 16777217 x.carried → result ≡ spec.has_no_room x ask.now }
    {
        match ask {
            Ask::Sql { .. } => self.carried.min(TOO_MUCH) + ask_weight(ask) > MAX_CARRIED,
            _ => false,
        }
    }

    /// Whether the ask stands in the wrong place.
    fn is_misplaced(&self, ask: &Ask) -> bool
        ensures { (db : Database) (s : Id) (x : Session) → self.now.call ≡ x.call → self.now.levels ≡ levels (data_of db) s → result ≡ spec.is_misplaced db s x ask.now }
    {
        match ask {
            Ask::Begin | Ask::Ddl { .. } | Ask::SetEdition(_) => self.call.is_some(),
            Ask::PushAuto => self.call.is_none(),
            Ask::PopAuto { .. } => self.levels == 0,
            Ask::EndCall { .. } => self.call.is_none() || self.levels > 0,
            _ => false,
        }
    }
}

/// What refuses an ask before its own tests, in order: EBR-0010 after too many asks, EBR-0011 where there is no room for the
/// binds, EBR-0015 in the wrong place.
pub fn first_tests(seat: &Seat, ask: &Ask) -> Option<Code>
    ensures { (db : Database) (s : Id) (x : Session) → seat.now.call ≡ x.call → seat.now.levels ≡ levels (data_of db) s
        → seat.now.asks ≡ min 50000 x.asks → seat.now.carried ≡ min 16777217 x.carried → result ≡ spec.first_tests db s x ask.now }
{
    if seat.is_one_too_many(ask) {
        return Some(Code::Ebr(10));
    }
    if seat.has_no_room(ask) {
        return Some(Code::Ebr(11));
    }
    if seat.is_misplaced(ask) {
        return Some(Code::Ebr(15));
    }
    None
}

/// Whether a call is open whose mark lies later than this one.
fn is_later(call: &Option<TxMark>, to: &TxMark) -> bool
    ensures { option_map (moved_back to.now) call.now ≡ (if result then Some to.now else call.now) }
{
    match call {
        Some(mark) => to.changes < mark.changes || to.locks < mark.locks,
        None => false,
    }
}

/// The mark of a transaction that has done nothing.
fn empty_mark(alloc: Global) -> TxMark
    ensures { result ≡ empty_mark }
{
    TxMark {
        begun: None,
        changes: 0,
        locks: 0,
        savepoints: Savepoints::new(alloc),
    }
}

/// Puts a value in the place of another one.
fn put<T: Drop>(place: &mut T, value: T)
    ensures { place.new ≡ value }
{
    *place = value;
}

fn is_end(ask: &Ask) -> bool
    ensures { result ≡ spec.is_end ask.now }
{
    match ask {
        Ask::PopAuto { .. } | Ask::EndCall { .. } | Ask::Leave => true,
        _ => false,
    }
}

/// The place of a session's seat.
pub fn place(s: SessionId) -> usize
    requires { 1 ≤ s.0 }
    ensures { result ≡ s.0 - 1 }
{
    s.0 as usize - 1
}

/// The seats of so many sessions in an edition.
pub fn first_seats(alloc: Global, sessions: u32, e: EditionNo) -> Result<Vec<Seat>, NoMemory>
    ensures seats { IfOk result (λ seats. seats.items ≡ replicate sessions (first_seat e)) }
    ensures begin { IfOk result (λ seats. Begin sessions e seats.items) }
{
    let mut seats = Vec::new(alloc);
    for _turn in 0..sessions {
        seats.push(Seat::new(e))?;
    }
    Ok(seats)
}

/// The editions in which sessions are.
pub fn editions_in_use(alloc: Global, seats: &[Seat]) -> Result<List<EditionNo>, NoMemory>
    ensures { IfOk result (λ editions. editions ≡ filter_map (λ x. x.edition) seats.now) }
{
    let mut editions = List::new(alloc);
    for seat in seats {
        add_edition(&mut editions, seat)?;
    }
    Ok(editions)
}

fn add_edition(editions: &mut List<EditionNo>, seat: &Seat) -> Result<(), NoMemory>
    ensures { OnOk result (editions.new ≡ editions.old ++ filter_map (λ x. x.edition) (seat.now ∷ [])) }
{
    match seat.edition {
        Some(e) => editions.push(e),
        None => Ok(()),
    }
}
