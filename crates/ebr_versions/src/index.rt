//! The index of the commits: under which row and which key each change is filed.

ghost use Rattle.std.specs.Prelude.{◌≡◌, ◌<◌, ◌-◌, take, slice_get, set, [], ◌∷◌, ◌++◌, length, OnOk, OnErr};
ghost use Rattle.std.specs.Bool.{OnTrue, OnFalse};
ghost use Rattle.ebr_versions.specs.Data.{is_row};
ghost use Rattle.ebr_versions.specs.inside.Index.{Indexed, Keeps, row_mark, key_mark, Files, Stays, Withdraws, AreOvertaken, FollowsKeys, LosesKey};

use ebr_base::{NoMemory, RowId};
use ebr_spots::{Spot, Spots};
use std::alloc::Global;
use std::marker::Model;

/// What a change is filed under: its row, and the number of the key that it gives it.
#[derive(Clone, Copy, Debug, PartialEq, Eq)]
pub struct Entry {
    pub row: RowId,
    pub print: Option<u64>,
}

/// The changes of all commits by their rows and by the keys that they give, and behind them those of the commit to come,
/// which a reserve files before it is made.
#[derive(Drop)]
pub struct Index {
    rows: Spots,
    keys: Spots,
    pending: Vec<Entry>,
}

impl Model for Index {
    ghost use Rattle.ebr_versions.specs.inside.Index.{Indexed};

    ghost Value = { Indexed };

    ghost view = { λ x. record { rows = x.rows; keys = x.keys; pending = x.pending.items } };
}

impl Index {
    /// The index of no commit.
    pub fn new(alloc: Global) -> Index
        ensures { result ≡ record { rows = []; keys = []; pending = [] } }
    {
        Index {
            rows: Spots::new(alloc),
            keys: Spots::new(alloc),
            pending: Vec::new(alloc),
        }
    }

    /// The changes by their rows.
    pub fn rows(&self) -> &Spots
        ensures { result.now ≡ self.now.rows }
    {
        &self.rows
    }

    /// The changes by the keys that they give.
    pub fn keys(&self) -> &Spots
        ensures { result.now ≡ self.now.keys }
    {
        &self.keys
    }

    /// Files one more change of the list to come, which has this number. An `Err` changes nothing that is filed.
    pub fn file(&mut self, list: u32, entry: Entry) -> Result<(), NoMemory>
        ensures ok { OnOk result (self.new.pending ≡ self.old.pending ++ entry ∷ []) }
        ensures err { OnErr result (self.new.pending ≡ self.old.pending) }
        ensures keeps { Keeps list self.old self.new }
    {
        self.pending.reserve(1)?;
        let place = self.pending.len();
        file(&mut self.rows, &mut self.keys, entry, list, place)?;
        self.pending.push_reserved(entry);
        Ok(())
    }

    /// Before one more change of a row is filed in the list to come, which has this number: the last one so far gives a key
    /// that the row won't have after that list, so it is no longer filed under it. It takes no memory.
    pub fn overtake(&mut self, list: u32, row: RowId)
        ensures entries { AreOvertaken row self.old.pending self.new.pending }
        ensures keeps { Keeps list self.old self.new }
    {
        let end = self.pending.len();
        let Some(place) = last_place(&self.rows, row, list, end) else {
            return;
        };
        lose_key(&mut self.keys, &mut self.pending, row, list, place);
    }

    /// Takes the list to come out, which has this number. It takes no memory.
    pub fn withdraw(&mut self, list: u32)
        ensures none { self.new.pending ≡ [] }
        ensures keeps { Keeps list self.old self.new }
    {
        while self.withdraw_last(list) {}
    }

    /// Takes the last change of the list to come out, if there is one.
    pub fn withdraw_last(&mut self, list: u32) -> bool
        ensures rest { self.new.pending ≡ take (length self.old.pending - 1) self.old.pending }
        ensures some { OnTrue result (length self.new.pending < length self.old.pending) }
        ensures none { OnFalse result (self.new.pending ≡ []) }
        ensures keeps { Keeps list self.old self.new }
    {
        let Some(entry) = self.pending.pop() else {
            return false;
        };
        let place = self.pending.len();
        withdraw(&mut self.rows, &mut self.keys, entry, list, place);
        true
    }

    /// What the change at a place of the list to come is filed under.
    pub fn entry(&self, place: usize) -> Option<Entry>
        ensures { result ≡ slice_get self.now.pending place }
    {
        entry_at(self.pending.as_slice(), place)
    }

    /// How many changes the list to come has.
    pub fn len(&self) -> usize
        ensures { result ≡ length self.now.pending }
    {
        self.pending.len()
    }

    /// Takes the changes of the list to come out but the first `n`. It takes no memory.
    pub fn cut(&mut self, list: u32, n: u32)
        ensures rest { self.new.pending ≡ take n self.old.pending }
        ensures keeps { Keeps list self.old self.new }
    {
        while self.len() > n as usize {
            self.withdraw_last(list);
        }
    }

    /// The list to come is there, and no other one is to come. It takes no memory.
    pub fn publish(&mut self)
        ensures { self.new ≡ record self.old { pending = [] } }
    {
        self.pending.clear();
    }
}

fn entry_at(entries: &[Entry], place: usize) -> Option<Entry>
    ensures { result ≡ slice_get entries.now place }
{
    entries.get(place).copied()
}

/// The last place before one at which a change of a row is filed in a list.
fn last_place(rows: &Spots, row: RowId, list: u32, end: usize) -> Option<usize> {
    match rows.last_before(spot(row.table.0, row.row.0, list, end)) {
        Some(last) if last.list == list => Some(last.place),
        _ => None,
    }
}

/// Takes the change at a place of the list to come out of the keys, if it is of this row.
fn lose_key(keys: &mut Spots, pending: &mut Vec<Entry>, row: RowId, list: u32, place: usize)
    ensures entries { AreOvertaken row pending.old.items pending.new.items }
    ensures keys { FollowsKeys list pending.old.items pending.new.items keys.old keys.new }
{
    let Some(entry) = entry_at(pending.as_slice(), place) else {
        return;
    };
    if !is_of(entry, row) {
        return;
    }
    withdraw_key(keys, entry, list, place);
    put_entry(pending, place, Entry { row, print: None });
}

fn is_of(entry: Entry, row: RowId) -> bool
    ensures { result ≡ is_row entry.row row }
{
    entry.row == row
}

fn put_entry(entries: &mut Vec<Entry>, place: usize, entry: Entry)
    requires { place < length entries.old.items }
    ensures { entries.new.items ≡ set entries.old.items place entry }
{
    entries[place] = entry;
}

/// The spot of a change.
pub fn spot(table: u32, number: u64, list: u32, place: usize) -> Spot
    ensures { result ≡ record { table = table; number = number; list = list; place = place } }
{
    Spot {
        table,
        number,
        list,
        place,
    }
}

/// Files a change at a place of the list to come. An `Err` changes nothing that is filed.
fn file(
    rows: &mut Spots,
    keys: &mut Spots,
    entry: Entry,
    list: u32,
    place: usize,
) -> Result<(), NoMemory>
    ensures rows { OnOk result (Files row_mark list place entry rows.old rows.new) }
    ensures keys { OnOk result (Files key_mark list place entry keys.old keys.new) }
    ensures rows_stay { OnErr result (Stays row_mark list place rows.old rows.new) }
    ensures keys_stay { OnErr result (keys.new ≡ keys.old) }
{
    file_row(rows, entry, list, place)?;
    match file_key(keys, entry, list, place) {
        Ok(()) => Ok(()),
        Err(refused) => {
            withdraw_row(rows, entry, list, place);
            Err(refused)
        }
    }
}

fn file_row(rows: &mut Spots, entry: Entry, list: u32, place: usize) -> Result<(), NoMemory>
    ensures ok { OnOk result (Files row_mark list place entry rows.old rows.new) }
    ensures err { OnErr result (rows.new ≡ rows.old) }
{
    rows.add(spot(entry.row.table.0, entry.row.row.0, list, place))?;
    Ok(())
}

fn file_key(keys: &mut Spots, entry: Entry, list: u32, place: usize) -> Result<(), NoMemory>
    ensures ok { OnOk result (Files key_mark list place entry keys.old keys.new) }
    ensures err { OnErr result (keys.new ≡ keys.old) }
{
    match entry.print {
        Some(print) => {
            keys.add(spot(entry.row.table.0, print, list, place))?;
            Ok(())
        }
        None => Ok(()),
    }
}

/// Takes a change out of its place, the last one of the list to come.
fn withdraw(rows: &mut Spots, keys: &mut Spots, entry: Entry, list: u32, place: usize)
    ensures rows { Withdraws row_mark list place entry rows.old rows.new }
    ensures keys { Withdraws key_mark list place entry keys.old keys.new }
{
    withdraw_row(rows, entry, list, place);
    withdraw_key(keys, entry, list, place);
}

fn withdraw_row(rows: &mut Spots, entry: Entry, list: u32, place: usize)
    ensures { Withdraws row_mark list place entry rows.old rows.new }
{
    rows.remove(spot(entry.row.table.0, entry.row.row.0, list, place));
}

fn withdraw_key(keys: &mut Spots, entry: Entry, list: u32, place: usize)
    ensures last { Withdraws key_mark list place entry keys.old keys.new }
    ensures any { LosesKey list place entry keys.old keys.new }
{
    match entry.print {
        Some(print) => {
            keys.remove(spot(entry.row.table.0, print, list, place));
        }
        None => {}
    }
}
