//! The rule of the turn's table, and its moves. The table has two words, the next ticket and the ticket that is served, and
//! one slot, which has the value.
ghost use Rattle.ebr_turn.specs.Chairs.{opener, parted, fresh, joined};
ghost use Rattle.ebr_turn.specs.inside.Rule.{Sits, drew, looked, advanced, gone};

use crate::booked::Booked;
use crate::view::View;
use atomic_table::{Join, Play, Seat, Split, Table, TableRule};
use std::alloc::Global;
use std::marker::{Brand, PhantomData};
use std::snapshot::Snapshot;

/// The value that the turn was made with, and how many seats it has.
pub(crate) type Key<T> = (Snapshot<T>, u32);

/// The rule of the table of a turn.
pub(crate) struct TurnRule;

impl<T: Booked> TableRule<Option<T>, View<T::Item>, Key<T>> for TurnRule {
    ghost holds = { λ key. Sits T.booked (T.booked key.0.value) key.1 };

    ghost first = { λ key. opener (T.booked key.0.value) key.1 };
}

/// A ticket is drawn.
pub(crate) struct Draws;

impl<T: Booked> Play<Option<T>, View<T::Item>> for Draws {
    ghost then = { drew T.booked };
}

/// A chair looks which ticket is served. Where it is its own, it has the slot.
pub(crate) struct Looks;

impl<T: Booked> Play<Option<T>, View<T::Item>> for Looks {
    ghost then = { looked T.booked };
}

/// The slot is given back, and the next ticket is served.
pub(crate) struct Advances;

impl<T: Booked> Play<Option<T>, View<T::Item>> for Advances {
    ghost then = { advanced T.booked };
}

/// Names the number of a new chair.
pub(crate) trait Numbered {
    ghost use Rattle.std.specs.Prelude.{ℕ};

    ghost number: { ℕ };
}

impl Numbered for Brand {
    ghost number = { 0 };
}

/// A chair with a number is split off.
pub(crate) struct Parts<N> {
    of: PhantomData<N>,
}

impl<I, N: Numbered> Split<View<I>> for Parts<N> {
    ghost left = { parted N.number };

    ghost right = { fresh N.number };
}

/// A chair is joined into another one.
pub(crate) struct Unites;

impl<I> Join<View<I>> for Unites {
    ghost both = { joined };

    ghost spent = { gone };
}

/// The table of a turn.
pub(crate) type TurnTable<T> = Table<
    Option<T>,
    View<<T as Booked>::Item>,
    Key<T>,
    TurnRule,
    Global,
>;

/// The seat of a chair at that table.
pub(crate) type TurnSeat<T> = Seat<Option<T>, View<<T as Booked>::Item>>;
