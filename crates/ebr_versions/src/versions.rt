//! The committed data with its tables.

ghost use Rattle.std.specs.Prelude.{◌≡◌, ◌<◌, [], ◌∷◌, ◌++◌, length, take, Some, IfOk, OnOk, OnErr, IfSome, false};
ghost use Rattle.std.specs.Option.{option_copied};
ghost use Rattle.ebr_versions.specs.Data.{Latest, At, changed_since, next_row, greatest_number, row_no};
ghost use Rattle.ebr_versions.specs.inside.Index.{entry_of, print_of, AreEntriesOf, Keeps};

use crate::index::{Entry, Index};
use crate::print::print_at;
use crate::table::{Table, Tables};
use crate::{keys, rows};
use ebr_base::{Change, List, MAX_COUNT, NoMemory, RowId, RowNo, Shared, TableId, Value};
use std::alloc::Global;
use std::marker::Model;

/// All commits, each with its changes, the tables with their keys, and the index of the changes.
#[derive(Drop)]
pub struct Versions {
    commits: Vec<List<Change>>,
    tables: Tables,
    index: Index,
}

impl Model for Versions {
    ghost use Rattle.std.specs.Prelude.{◌-◌, vec_len, vec_capacity};
    ghost use Rattle.ebr_versions.specs.Store.{Store, IsStored};

    ghost Value = { Store };

    ghost view = { λ v. record { commits = v.commits.items; tables = v.tables; room = record { pending = v.index.pending; free = vec_capacity v.commits - vec_len v.commits } } };

    ghost invariant = { λ v. IsStored v.commits.items v.tables v.index };
}

impl Versions {
    ghost use Rattle.ebr_versions.specs.Store.{HasRoom, OfAdded, IsSound};
    ghost use Rattle.ebr_versions.specs.Keys.{is_added, key_places, HasKey, KeysDiffer};

    /// No commit and no table.
    pub fn new(alloc: Global) -> Result<Versions, NoMemory>
        ensures commits { IfOk result (λ v. v.commits ≡ []) }
        ensures tables { IfOk result (λ v. v.tables ≡ []) }
    {
        Ok(Versions {
            commits: Vec::new(alloc),
            tables: Tables::new(alloc),
            index: Index::new(alloc),
        })
    }

    /// Adds a table that wasn't added before, with the places of its key's columns; no place is no key. An `Err` changes
    /// nothing.
    pub fn add_table(&mut self, t: TableId, key: List<u16>) -> Result<(), NoMemory>
        requires { is_added self.old.tables t ≡ false }
        ensures ok { OnOk result (self.new.tables ≡ self.old.tables ++ record { id = t; key = key } ∷ []) }
        ensures err { OnErr result (self.new.tables ≡ self.old.tables) }
        ensures commits { self.new.commits ≡ self.old.commits }
    {
        self.tables.add(Table { id: t, key })?;
        Ok(())
    }

    /// Makes room for committing just these changes. It finds no memory where there are 4,294,967,295 commits. An `Err`
    /// changes nothing but room.
    #[tactic(auto, unfolding(crate::specs::Store::HasRoom))]
    pub fn reserve(&mut self, changes: &List<Change>) -> Result<(), NoMemory>
        ensures room { OnOk result (HasRoom self.new changes.now) }
        ensures commits { self.new.commits ≡ self.old.commits }
        ensures tables { self.new.tables ≡ self.old.tables }
    {
        if self.commits.len() >= MAX_COUNT {
            return Err(NoMemory);
        }
        self.commits.reserve(1)?;
        let list = self.commits.len() as u32;
        self.index.withdraw(list);
        file(&mut self.index, &self.tables, changes.as_slice(), list)?;
        Ok(())
    }

    /// Gives back the room that a reserve made and no commit has used, over which reads would step. It takes no memory.
    pub fn give_back(&mut self)
        ensures commits { self.new.commits ≡ self.old.commits }
        ensures tables { self.new.tables ≡ self.old.tables }
    {
        let count = self.commits.len() as u32;
        self.index.withdraw(count);
    }

    /// Adds a commit with these changes, in the room that was made for them, and gives its number, counted from 1. It
    /// takes no memory. No two rows of a table may share a key afterwards.
    #[tactic(auto, unfolding(crate::specs::Store::HasRoom))]
    pub fn commit(&mut self, changes: List<Change>) -> u32
        requires room { HasRoom self.old changes }
        requires added { OfAdded self.old.tables changes }
        requires keys { KeysDiffer (self.old.commits ++ changes ∷ []) self.old.tables }
        ensures commits { self.new.commits ≡ self.old.commits ++ changes ∷ [] }
        ensures tables { self.new.tables ≡ self.old.tables }
        ensures number { result ≡ length self.new.commits }
    {
        self.index.publish();
        self.commits.push_reserved(changes);
        self.commits.len() as u32
    }

    /// The places of a table's key, none where it has no key or wasn't added.
    pub fn key_places(&self, t: TableId) -> &[u16]
        ensures { result.now ≡ key_places self.now.tables t }
    {
        self.tables.key_places(t)
    }

    /// What a change is filed under: its row, and the number of the key that it gives it.
    pub fn entry(&self, change: &Change) -> Entry
        ensures { result ≡ entry_of self.now.tables change.now }
    {
        entry_of(&self.tables, change)
    }

    /// How many commits there are.
    pub fn count(&self) -> u32
        ensures count { result ≡ length self.now.commits }
        ensures sound { IsSound self.now.commits self.now.tables }
    {
        self.commits.len() as u32
    }

    /// The values of a row after the first `n` commits, none where it isn't there.
    pub fn at(&self, n: u32, row: RowId) -> Option<&Shared<List<Value>>>
        ensures { option_copied result ≡ At self.now.commits n row }
    {
        rows::at(self.commits.as_slice(), self.index.rows(), n, row)
    }

    /// The values of a row after all commits, none where it isn't there.
    pub fn latest(&self, row: RowId) -> Option<&Shared<List<Value>>>
        ensures { option_copied result ≡ Latest self.now.commits row }
    {
        rows::latest(self.commits.as_slice(), self.index.rows(), row)
    }

    /// The number, counted from 1, of the first commit after the first `n` that changes the row.
    pub fn changed_since(&self, row: RowId, n: u32) -> Option<u32>
        ensures { result ≡ changed_since self.now.commits row n }
    {
        rows::changed_since(self.commits.as_slice(), self.index.rows(), row, n)
    }

    /// The least row number above `after` that a commit has in the table, removed rows among them.
    pub fn next_row(&self, t: TableId, after: RowNo) -> Option<RowNo>
        ensures { result ≡ next_row self.now.commits t after }
    {
        rows::next_row(self.commits.as_slice(), self.index.rows(), t, after)
    }

    /// The greatest row number that a commit has in the table, removed rows among them; 0 where it has no row.
    pub fn greatest_row(&self, t: TableId) -> RowNo
        ensures { result ≡ row_no (greatest_number self.now.commits t) }
    {
        rows::greatest_row(self.commits.as_slice(), self.index.rows(), t)
    }

    /// The row of the table whose last committed values have this key, none where no row has it. The table was added
    /// with a key of that many places.
    pub fn find_key(&self, t: TableId, key: &[Value]) -> Option<RowNo>
        requires some { 0 < length key.now }
        requires as_many { length (key_places self.now.tables t) ≡ length key.now }
        ensures found { IfSome result (λ r. HasKey self.now.commits self.now.tables t r key.now) }
        ensures only { (r : RowNo) → HasKey self.now.commits self.now.tables t r key.now → result ≡ Some r }
    {
        self.find_key_at(self.count(), t, key)
    }

    /// The row of the table that had this key after the first `n` commits, none where no row had it. The table was added
    /// with a key of that many places.
    pub fn find_key_at(&self, n: u32, t: TableId, key: &[Value]) -> Option<RowNo>
        requires some { 0 < length key.now }
        requires as_many { length (key_places self.now.tables t) ≡ length key.now }
        ensures found { IfSome result (λ r. HasKey (take n self.now.commits) self.now.tables t r key.now) }
        ensures only { (r : RowNo) → HasKey (take n self.now.commits) self.now.tables t r key.now → result ≡ Some r }
    {
        let places = self.tables.key_places(t);
        let n = self.commits.len().min(n as usize) as u32;
        keys::find_key(
            self.commits.as_slice(),
            self.index.rows(),
            self.index.keys(),
            places,
            t,
            key,
            n,
        )
    }
}

/// Files changes of the list to come, which has nothing yet: each under its row, and the last one of a row under its key. So a
/// key that was given and taken again within a commit makes no look-up longer. An `Err` changes nothing that is filed of the
/// lists before.
fn file(index: &mut Index, tables: &Tables, changes: &[Change], list: u32) -> Result<(), NoMemory>
    requires { index.old.pending ≡ [] }
    ensures ok { OnOk result (AreEntriesOf tables.now changes.now index.new.pending) }
    ensures keeps { Keeps list index.old index.new }
{
    for change in changes {
        index.overtake(list, change.row);
        index.file(list, entry_of(tables, change))?;
    }
    Ok(())
}

/// What a change is filed under.
fn entry_of(tables: &Tables, change: &Change) -> Entry
    ensures { result ≡ entry_of tables.now change.now }
{
    Entry {
        row: change.row,
        print: print_of(tables.key_places(change.row.table), &change.values),
    }
}

fn print_of(places: &[u16], values: &Option<Shared<List<Value>>>) -> Option<u64>
    ensures { result ≡ print_of places.now values.now }
{
    if places.is_empty() {
        return None;
    }
    match values {
        Some(values) => Some(print_at(places, values.get().as_slice())),
        None => None,
    }
}
