//! The locks in the order in which they were taken, found by their rows, by their tables and by their transactions.

ghost use Rattle.std.specs.Prelude.{◌≡◌, ◌<◌, ◌≤◌, ◌-◌, false, [], ◌∷◌, ◌++◌, length, All, IfSome, IfNone, OnOk, OnErr, List as Sequence};
ghost use Rattle.std.specs.Bool.{OnTrue, OnFalse};
ghost use Rattle.std.specs.List.Sorted.{IsStrictlySortedBy};
ghost use Rattle.std.specs.Ordering.{nat_cmp};
ghost use Rattle.std.specs.Map.{keys_of, values_of};
ghost use Rattle.ebr_locks.specs.Locks.{holder_of, locks_of, is_held_in, is_locked, released, AreLocks};
ghost use Rattle.ebr_locks.specs.inside.Filed.{Entry, row_spot, table_spot, tx_number, numbers_of, next_spot, is_held_but, AreOwned, IsLastOf, AddsSpot, AddsOwned, LeavesSpots, LeavesOwned, SomeBelow, NoneBelow};

use ebr_base::{MAX_COUNT, NoMemory, RowId, SessionId, TableId, TxId};
use ebr_spots::{Spot, Spots};
use std::alloc::Global;
use std::collections::BTreeMap;
use std::marker::Model;

/// The locks by sequence numbers, which rise as they are taken. Contracts see them in this order.
#[derive(Drop)]
pub struct LockList {
    taken: BTreeMap<usize, (RowId, TxId), Global>,
    rows: Spots,
    tables: Spots,
    // A transaction's n-th lock stands at the list n, and at its sequence number there.
    owners: Spots,
}

impl Model for LockList {
    ghost use Rattle.std.specs.Prelude.{List};
    ghost use Rattle.std.specs.Map.{values_of};
    ghost use Rattle.ebr_locks.specs.Locks.{Lock};
    ghost use Rattle.ebr_locks.specs.inside.Filed.{IsFiled};

    ghost Value = { List Lock };

    ghost view = { λ s. values_of s.taken.entries };

    ghost invariant = { λ s. IsFiled s.taken.entries s.rows s.tables s.owners };
}

impl LockList {
    /// No lock, which takes no memory.
    pub fn new(alloc: Global) -> LockList
        ensures { result ≡ [] }
    {
        LockList {
            taken: BTreeMap::new(alloc),
            rows: Spots::new(alloc),
            tables: Spots::new(alloc),
            owners: Spots::new(alloc),
        }
    }

    /// How many locks there are.
    pub fn len(&self) -> usize
        ensures { result ≡ length self.now }
    {
        self.taken.len()
    }

    /// Adds a lock of a row that nobody holds. An `Err` changes nothing.
    pub fn push(&mut self, lock: (RowId, TxId)) -> Result<(), NoMemory>
        requires free { is_locked lock.0 self.old ≡ false }
        requires few { length self.old < MAX_COUNT }
        ensures ok { OnOk result (self.new ≡ self.old ++ lock ∷ []) }
        ensures err { OnErr result (self.new ≡ self.old) }
    {
        let Some(number) = next_number(&self.taken) else {
            return Err(NoMemory);
        };
        self.rows.add(row_spot(&lock))?;
        match file_rest(
            &mut self.taken,
            &mut self.tables,
            &mut self.owners,
            &lock,
            number,
        ) {
            Ok(()) => Ok(()),
            Err(refused) => {
                self.rows.remove(row_spot(&lock));
                Err(refused)
            }
        }
    }

    /// Takes a transaction's last lock out, if it has one. It takes no memory.
    pub fn release_last(&mut self, tx: TxId)
        ensures { self.new ≡ released tx (length (locks_of tx self.old) - 1) self.old }
    {
        let Some(last) = last_of(&self.owners, &tx) else {
            return;
        };
        let Some(lock) = self.taken.remove(&last.place) else {
            return;
        };
        self.owners.remove(last);
        self.rows.remove(row_spot(&lock));
        self.tables.remove(table_spot(&lock));
    }

    /// Takes a transaction's locks out, but for its first `mark`.
    pub fn release_to(&mut self, tx: TxId, mark: usize)
        ensures { self.new ≡ released tx mark self.old }
    {
        let mut held = self.held(tx);
        while held > mark {
            self.release_last(tx);
            held -= 1;
        }
    }

    /// The transaction that holds a row.
    pub fn holder(&self, row: RowId) -> Option<TxId>
        ensures { result ≡ holder_of row self.now }
    {
        match self.rows.first_from(spot(row.table.0, row.row.0, 0, 0)) {
            Some(first) => Some(TxId {
                session: SessionId(first.list),
                depth: first.place as u32,
            }),
            None => None,
        }
    }

    /// How many rows a transaction holds.
    pub fn held(&self, tx: TxId) -> usize
        ensures { result ≡ length (locks_of tx self.now) }
    {
        match last_of(&self.owners, &tx) {
            Some(last) => last.list as usize + 1,
            None => 0,
        }
    }

    /// Whether a transaction but this one holds a row of the table.
    pub fn holds_in(&self, table: TableId, but: TxId) -> bool
        ensures { result ≡ is_held_in table but self.now }
    {
        let number = tx_number(&but);
        self.tables.next_number(table.0, number).is_some()
            || holds_below(&self.tables, table, number)
    }

    /// Whether a transaction but this one holds another row of the table than this one. It goes through the locks.
    pub fn holds_other_in(&self, table: TableId, but: TxId, row: RowId) -> bool
        ensures { result ≡ is_held_but table but row self.now }
    {
        self.taken.values().any(|lock| lock.0.table == table && lock.1 != but && lock.0 != row)
    }
}

/// A sequence number above all that are given, unless they have come to their end.
fn next_number(taken: &BTreeMap<usize, (RowId, TxId), Global>) -> Option<usize>
    ensures { IfSome result (λ n. All (λ k. k < n) (keys_of taken.now.entries)) }
{
    match taken.last_key_value() {
        Some((last, _)) => last.checked_add(1),
        None => Some(0),
    }
}

/// Where a transaction's last lock stands.
fn last_of(owners: &Spots, tx: &TxId) -> Option<Spot>
    ensures some { (entries : Sequence Entry) → length entries ≤ MAX_COUNT → AreOwned owners.now entries → IfSome result (IsLastOf tx.now entries) }
    ensures none { (entries : Sequence Entry) → length entries ≤ MAX_COUNT → AreOwned owners.now entries → IfNone result (numbers_of tx.now.session.0 tx.now.depth entries ≡ []) }
    ensures fits { IfSome result (λ k. k.list < 4294967295) }
{
    owners.last_before(spot(tx.session.0, tx.depth as u64, u32::MAX, 0))
}

/// Where the next lock of a transaction stands.
fn next_spot(owners: &Spots, tx: &TxId, number: usize) -> Spot
    ensures { (entries : Sequence Entry) → length entries ≤ MAX_COUNT → AreOwned owners.now entries → result ≡ next_spot tx.now number entries }
{
    let list = match last_of(owners, tx) {
        Some(last) => last.list + 1,
        None => 0,
    };
    spot(tx.session.0, tx.depth as u64, list, number)
}

/// Files a lock under its table, its transaction and its sequence number. An `Err` changes nothing that is found, where
/// nobody holds the row.
fn file_rest(
    taken: &mut BTreeMap<usize, (RowId, TxId), Global>,
    tables: &mut Spots,
    owners: &mut Spots,
    lock: &(RowId, TxId),
    number: usize,
) -> Result<(), NoMemory>
    requires { All (λ k. k < number) (keys_of taken.old.entries) }
    ensures taken { OnOk result (taken.new.entries ≡ taken.old.entries ++ (number, lock.now) ∷ []) }
    ensures rising { OnOk result (IsStrictlySortedBy nat_cmp (keys_of taken.new.entries)) }
    ensures tables { OnOk result (AddsSpot lock.now table_spot tables.old tables.new) }
    ensures owners { OnOk result (AddsOwned (number, lock.now) owners.old owners.new) }
    ensures taken_stays { OnErr result (taken.new.entries ≡ taken.old.entries) }
    ensures tables_stay { OnErr result (LeavesSpots lock.now table_spot tables.old tables.new) }
    ensures owners_stay { OnErr result (LeavesOwned owners.old owners.new) }
{
    tables.add(table_spot(lock))?;
    match enter(taken, owners, lock, number) {
        Ok(()) => Ok(()),
        Err(refused) => {
            tables.remove(table_spot(lock));
            Err(refused)
        }
    }
}

/// Enters a lock under its transaction and its sequence number. An `Err` changes nothing that is found.
fn enter(
    taken: &mut BTreeMap<usize, (RowId, TxId), Global>,
    owners: &mut Spots,
    lock: &(RowId, TxId),
    number: usize,
) -> Result<(), NoMemory>
    requires { All (λ k. k < number) (keys_of taken.old.entries) }
    ensures taken { OnOk result (taken.new.entries ≡ taken.old.entries ++ (number, lock.now) ∷ []) }
    ensures rising { OnOk result (IsStrictlySortedBy nat_cmp (keys_of taken.new.entries)) }
    ensures owners { OnOk result (AddsOwned (number, lock.now) owners.old owners.new) }
    ensures taken_stays { OnErr result (taken.new.entries ≡ taken.old.entries) }
    ensures owners_stay { OnErr result (LeavesOwned owners.old owners.new) }
{
    let next = next_spot(owners, &lock.1, number);
    owners.add(next)?;
    match taken.insert(number, *lock) {
        Ok(_) => Ok(()),
        Err(_) => {
            owners.remove(next);
            Err(NoMemory)
        }
    }
}

/// Whether a transaction of a lower number holds a row of the table.
fn holds_below(tables: &Spots, table: TableId, number: u64) -> bool
    ensures yes { OnTrue result (SomeBelow tables.now table.0 number) }
    ensures no { OnFalse result (NoneBelow tables.now table.0 number) }
{
    if number == 0 {
        return false;
    }
    tables.last_number(table.0, number - 1).is_some()
}

fn spot(table: u32, number: u64, list: u32, place: usize) -> Spot
    ensures { result ≡ record { table = table; number = number; list = list; place = place } }
{
    Spot {
        table,
        number,
        list,
        place,
    }
}

/// A lock under its row.
fn row_spot(lock: &(RowId, TxId)) -> Spot
    ensures spot { result ≡ row_spot lock.now }
    ensures fits { lock.now.1.depth ≤ 4294967295 }
{
    spot(
        lock.0.table.0,
        lock.0.row.0,
        lock.1.session.0,
        lock.1.depth as usize,
    )
}

/// A lock under its table and transaction.
fn table_spot(lock: &(RowId, TxId)) -> Spot
    ensures { result ≡ table_spot lock.now }
{
    spot(lock.0.table.0, tx_number(&lock.1), 0, lock.0.row.0 as usize)
}

/// A transaction as one number.
fn tx_number(tx: &TxId) -> u64
    ensures number { result ≡ tx_number tx.now }
    ensures fits { tx.now.depth ≤ 4294967295 }
{
    tx.session.0 as u64 * 4294967296 + tx.depth as u64
}
