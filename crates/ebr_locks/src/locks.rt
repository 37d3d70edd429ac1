//! The rows that are locked, in the order in which they were.

ghost use Rattle.std.specs.Prelude.{◌≡◌, [], None, Some, length, take, IfOk, OnOk, OnErr};
ghost use Rattle.ebr_locks.specs.Locks.{HasRoom, AreLocks, holder_of, locks_of, others_than, take_answer, after_take, released, is_held_in, is_locked};
ghost use Rattle.ebr_locks.specs.inside.Filed.{with_place, taken_of};

use crate::list::LockList;
use ebr_base::{MAX_COUNT, NoMemory, RowId, TableId, TxId};
use std::alloc::Global;
use std::marker::Model;

/// Another transaction holds the row.
#[derive(Clone, Copy, Debug, PartialEq, Eq)]
pub struct Held {
    pub by: TxId,
}

/// Which transaction holds which row. Contracts see the locks in the order in which they were taken.
#[derive(Drop)]
pub struct Locks {
    // The lock that a reserve made a place for is the last one.
    list: LockList,
    place: Option<(RowId, TxId)>,
}

impl Model for Locks {
    ghost use Rattle.std.specs.Prelude.{[], length};
    ghost use Rattle.ebr_locks.specs.Locks.{LockTable};
    ghost use Rattle.ebr_locks.specs.inside.Filed.{IsPlaced, taken_of, with_place};

    ghost Value = { LockTable };

    ghost view = { λ s. record { taken = taken_of s.list s.place; room = record { place = s.place; free = length (with_place [] s.place) } } };

    ghost invariant = { λ s. IsPlaced s.list s.place };
}

impl Locks {
    /// No locks.
    pub fn new(alloc: Global) -> Result<Locks, NoMemory>
        ensures { IfOk result (λ locks. locks.taken ≡ []) }
    {
        Ok(Locks {
            list: LockList::new(alloc),
            place: None,
        })
    }

    /// Makes a place for a lock of this row by this transaction. No lock changes. It finds no memory where
    /// 4,294,967,295 rows are locked, so that `held` counts them all.
    #[tactic(auto, unfolding(crate::specs::Locks::HasRoom))]
    pub fn reserve(&mut self, row: RowId, tx: TxId) -> Result<(), NoMemory>
        ensures room { OnOk result (HasRoom self.new row tx) }
        ensures taken { self.new.taken ≡ self.old.taken }
    {
        give_back(&mut self.list, self.place);
        self.place = None;
        if self.list.len() >= MAX_COUNT {
            return Err(NoMemory);
        }
        if self.list.holder(row).is_some() {
            return Ok(());
        }
        self.list.push((row, tx))?;
        self.place = Some((row, tx));
        Ok(())
    }

    /// The transaction that holds a row.
    pub fn holder(&self, row: RowId) -> Option<TxId>
        ensures holder { result ≡ holder_of row self.now.taken }
        ensures kept { AreLocks self.now.taken }
    {
        if has_place(self.place, row) {
            return None;
        }
        self.list.holder(row)
    }

    /// Locks a row for a transaction, which uses up the place that a reserve made. Where it holds the row already,
    /// nothing changes. Where another one does, nothing changes and the answer names it.
    #[tactic(auto, unfolding(crate::specs::Locks::HasRoom))]
    pub fn take(&mut self, row: RowId, tx: TxId) -> Result<(), Held>
        requires { HasRoom self.old row tx }
        ensures answer { result ≡ take_answer (holder_of row self.old.taken) tx }
        ensures taken { self.new.taken ≡ after_take (holder_of row self.old.taken) row tx self.old.taken }
        ensures held { OnOk result (holder_of row self.new.taken ≡ Some tx) }
        ensures unchanged { OnErr result (self.new.taken ≡ self.old.taken) }
    {
        match self.holder(row) {
            None => {
                self.place = None;
                Ok(())
            }
            Some(by) if by == tx => Ok(()),
            Some(by) => Err(Held { by }),
        }
    }

    /// How many rows a transaction holds.
    pub fn held(&self, tx: TxId) -> u32
        ensures { result ≡ length (locks_of tx self.now.taken) }
    {
        (self.list.held(tx) - places(self.place, tx)) as u32
    }

    /// Whether a transaction but this one holds a row of the table.
    pub fn holds_in(&self, table: TableId, but: TxId) -> bool
        ensures { result ≡ is_held_in table but self.now.taken }
    {
        match self.place {
            Some(lock) => self.list.holds_other_in(table, but, lock.0),
            None => self.list.holds_in(table, but),
        }
    }

    /// Frees the rows that a transaction took after its first `mark`. The locks of others stay. It costs what it frees.
    pub fn release_to(&mut self, tx: TxId, mark: u32)
        ensures taken { self.new.taken ≡ released tx mark self.old.taken }
        ensures own { locks_of tx self.new.taken ≡ take mark (locks_of tx self.old.taken) }
        ensures others { others_than tx self.new.taken ≡ others_than tx self.old.taken }
    {
        give_back(&mut self.list, self.place);
        self.place = None;
        self.list.release_to(tx, mark as usize);
    }
}

/// Takes out the lock that a place was made for.
fn give_back(list: &mut LockList, place: Option<(RowId, TxId)>)
    requires { list.old ≡ with_place (taken_of list.old place) place }
    ensures { list.new ≡ taken_of list.old place }
{
    match place {
        Some(lock) => list.release_last(lock.1),
        None => {}
    }
}

/// Whether a place was made for a lock of a row.
fn has_place(place: Option<(RowId, TxId)>, row: RowId) -> bool
    ensures { result ≡ is_locked row (with_place [] place) }
{
    match place {
        Some(lock) => lock.0 == row,
        None => false,
    }
}

/// How many places were made for locks of a transaction.
fn places(place: Option<(RowId, TxId)>, tx: TxId) -> usize
    ensures { result ≡ length (locks_of tx (with_place [] place)) }
{
    match place {
        Some(lock) => (lock.1 == tx) as usize,
        None => 0,
    }
}
