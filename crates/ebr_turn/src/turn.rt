//! The turn and its chairs.
ghost use Rattle.std.specs.Prelude.{◌≡◌, ◌^◌, ◌<◌, ◌≤◌, [], ◌∷◌, true, Some, IfOk, IfErr};
ghost use Rattle.ebr_turn.specs.declared.view.Stage.TheVariants.{Idle, Waits};
ghost use Rattle.ebr_turn.specs.Chairs.{In, opener, entered, Met, Leaves, Left, Closes, parted, fresh, joined};
ghost use Rattle.ebr_turn.specs.inside.Rule.{holding};

use crate::booked::Booked;
use crate::parking::Parkers;
use crate::rule::{Advances, Draws, Looks, Numbered, Parts, TurnSeat, TurnTable, Unites};
use atomic_table::{Refused, Table};
use std::alloc::{AllocError, AllocFailed, Global};
use std::marker::{Brand, Model};
use std::snapshot::Snapshot;
use std::sync::Wait;

/// A value that one chair after the other takes, in the order of their tickets. It must be spent by `close`.
pub struct Turn<T: Booked> {
    table: TurnTable<T>,
    parkers: Parkers,
}

impl<T: Booked> Model for Turn<T> {
    ghost use Rattle.std.specs.Prelude.{◌≡◌};
    ghost use Rattle.ebr_turn.specs.Chairs.{TurnState};

    ghost Value = { TurnState T.Item };

    ghost view = { λ t. record { id = t.table.shared.table_id; base = T.booked t.table.shared.key.0.value; seats = t.table.shared.key.1 } };

    ghost invariant = { λ t. (t.table.shared.table_id.words ≡ 2) × (t.table.shared.table_id.slots ≡ 1) };
}

/// The right to enter a turn, under a number. It must be spent by `join` or `close`.
pub struct Chair<T: Booked> {
    seat: TurnSeat<T>,
}

impl<T: Booked> Model for Chair<T> {
    ghost use Rattle.std.specs.Prelude.{◌≡◌, ◌<◌};
    ghost use Rattle.ebr_turn.specs.Chairs.{ChairState};
    ghost use Rattle.ebr_turn.specs.inside.Rule.{carried};

    ghost Value = { ChairState T.Item };

    ghost view = { λ c. record { turn = c.seat.table_id; view = c.seat.me.0 } };

    ghost invariant = { λ c. (c.seat.me.1 ≡ carried c.seat.me.0.stage) × (0 < c.seat.me.0.share) };
}

/// There was no memory for a turn.
#[derive(Drop)]
pub struct Unmade<T> {
    /// The value that the turn was to hold, as it was given.
    pub value: T,
}

impl<T: Booked> Turn<T> {
    /// A turn that holds the value, and its first chair, which has no number and all of the seats. It refuses for want of
    /// memory alone, and hands the value back.
    pub fn new(alloc: Global, value: T, seats: u32) -> Result<(Turn<T>, Chair<T>), Unmade<T>>
        requires { 0 < seats }
        ensures turn { IfOk result (λ t. (t.0.base ≡ T.booked value) × (t.0.seats ≡ seats)) }
        ensures chair { IfOk result (λ t. (t.1.turn ≡ t.0.id) × (t.1.view ≡ opener (T.booked value) seats)) }
        ensures unmade { IfErr result (λ u. u.value ≡ value) }
    {
        let parkers = match Parkers::new(alloc, seats) {
            Ok(parkers) => parkers,
            Err(AllocError) => return Err(Unmade { value }),
        };
        let about = (Snapshot::of(&value), seats);
        let mut slots = Vec::new(alloc);
        if let Err(failed) = slots.push(Some(value)) {
            let AllocFailed { value } = failed;
            slots.destroy_empty();
            return Err(Unmade {
                value: value.unwrap(),
            });
        }
        match Table::new(alloc, &[0, 0], slots, &about) {
            Ok((table, seat)) => Ok((Turn { table, parkers }, Chair { seat })),
            Err(Refused { mut slots }) => {
                let value = slots.pop().unwrap().unwrap();
                slots.destroy_empty();
                Err(Unmade { value })
            }
        }
    }

    /// Takes the value, when the chair's ticket is served. It may wait. The chair then holds the turn, and past the list of
    /// the value that was given to `new` the items of the chair's number are the chair's list (`Met`).
    ///
    /// A chair enters as often as its view has turns left, so that no ticket wraps: one that was split off has begun with
    /// 2^31 of them, so this asks that it has entered fewer than 2^31 times.
    pub fn enter<R: Wait>(&self, rt: &R, chair: &mut Chair<T>) -> T
        requires turn { chair.old.turn ≡ self.now.id }
        requires idle { chair.old.view.stage ≡ Idle }
        requires left { 0 < chair.old.view.left }
        ensures turn { chair.new.turn ≡ chair.old.turn }
        ensures chair { chair.new.view ≡ entered chair.old.view (T.booked result) }
        ensures met { Met T.booked chair.old.view result }
    {
        let ticket = self.table.shared.fetch_add::<Draws>(&mut chair.seat, 0, 1);
        self.wait(rt, &mut chair.seat, ticket);
        self.table
            .shared
            .exchange(&mut chair.seat, 0, None)
            .unwrap()
    }

    /// Looks until the seat's ticket is served. The seat then has the slot with the value.
    fn wait<R: Wait>(&self, rt: &R, seat: &mut TurnSeat<T>, ticket: u64)
        requires turn { seat.old.table_id ≡ self.now.id }
        requires waits { (seat.old.me.0.stage ≡ Waits ticket) × (seat.old.me.1 ≡ []) × (0 < seat.old.me.0.share) }
        ensures turn { (seat.new.table_id ≡ seat.old.table_id) × (seat.new.id ≡ seat.old.id) }
        ensures met { (y : T) × (seat.new.me ≡ (holding seat.old.me.0 (T.booked y), (0, Some y) ∷ [])) × Met T.booked seat.old.me.0 y }
    {
        let mut looks = 0u32;
        for _ in rt.forever() {
            let serving = self.table.shared.load::<Looks>(seat, 1);
            if serving == ticket {
                return;
            }
            self.parkers.pause(rt, ticket, serving, looks);
            looks = looks.saturating_add(1);
        }
        unreachable!()
    }

    /// Gives the value back with one more entry than was met, which has the chair's number (`Leaves`). The chair's list
    /// grows by that item (`Left`), and the next ticket is served.
    pub fn leave(&self, chair: &mut Chair<T>, value: T)
        requires turn { chair.old.turn ≡ self.now.id }
        requires entry { Leaves T.booked chair.old.view value }
        ensures turn { chair.new.turn ≡ chair.old.turn }
        ensures left { Left T.booked chair.old.view value chair.new.view }
    {
        let shared = &self.table.shared;
        let old = shared.exchange(&mut chair.seat, 0, Some(value));
        let None = old else { unreachable!() };
        let served = shared.fetch_add::<Advances>(&mut chair.seat, 1, 1);
        self.parkers.call(served.wrapping_add(1));
    }

    /// A new chair with one seat of its parent's, a number that no chair of the turn has had, and an empty list. It takes no
    /// memory. Only the chair splits that has the given numbers: the first one, or that which took it in.
    pub fn split(&self, parent: &mut Chair<T>, number: u32) -> Chair<T>
        requires turn { parent.old.turn ≡ self.now.id }
        requires idle { parent.old.view.stage ≡ Idle }
        requires share { (2 ≤ parent.old.view.share) × (2 ^ 31 ≤ parent.old.view.left) }
        requires new { (parent.old.view.gives ≡ true) × (In number parent.old.view.given → ⊥) }
        ensures turn { (parent.new.turn ≡ parent.old.turn) × (result.turn ≡ parent.old.turn) }
        ensures parent { parent.new.view ≡ parted number parent.old.view }
        ensures child { result.view ≡ fresh number parent.old.view }
    {
        let _ = number;
        self.split_off::<Brand>(parent, number)
    }

    /// The same for a number that is named by a type, as what splits a view reads no argument.
    fn split_off<N: Numbered>(&self, parent: &mut Chair<T>, number: u32) -> Chair<T>
        requires number { number ≡ N.number }
        requires turn { parent.old.turn ≡ self.now.id }
        requires idle { parent.old.view.stage ≡ Idle }
        requires share { (2 ≤ parent.old.view.share) × (2 ^ 31 ≤ parent.old.view.left) }
        requires new { (parent.old.view.gives ≡ true) × (In number parent.old.view.given → ⊥) }
        ensures turn { (parent.new.turn ≡ parent.old.turn) × (result.turn ≡ parent.old.turn) }
        ensures parent { parent.new.view ≡ parted number parent.old.view }
        ensures child { result.view ≡ fresh number parent.old.view }
    {
        let _ = number;
        let seat = self.table.shared.split_seat::<Parts<N>>(&mut parent.seat);
        Chair { seat }
    }

    /// Takes the other chair's seats into this one, which keeps its number and list, and those that it kept, beside its own,
    /// and the numbers that it gave.
    pub fn join(&self, into: &mut Chair<T>, other: Chair<T>)
        requires turn { (into.old.turn ≡ self.now.id) × (other.turn ≡ self.now.id) }
        requires idle { (into.old.view.stage ≡ Idle) × (other.view.stage ≡ Idle) }
        ensures turn { into.new.turn ≡ into.old.turn }
        ensures chair { into.new.view ≡ joined into.old.view other.view }
    {
        let Chair { seat } = other;
        self.table.shared.join_seat::<Unites>(&mut into.seat, seat);
    }

    /// The value comes back, when all chairs have been joined into this one. Its list is the first one, and then one in which
    /// the items of each number are those of the list that stands with this number in the chair; a number that no chair had
    /// has none (`Closes`).
    pub fn close(self, last: Chair<T>) -> T
        requires turn { last.turn ≡ self.id }
        requires idle { last.view.stage ≡ Idle }
        requires share { last.view.share ≡ self.seats }
        ensures { Closes T.booked self.base last.view result }
    {
        let Turn { table, parkers } = self;
        drop(parkers);
        let Chair { seat } = last;
        let mut closed = table.close_with(seat);
        let value = closed.take(0);
        closed.free();
        value.unwrap()
    }
}
