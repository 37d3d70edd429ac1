//! The changes of a transaction in order.

ghost use Rattle.std.specs.Prelude.{◌≡◌, ◌<◌, ◌≤◌, ◌+◌, [], ◌∷◌, ◌++◌, length, take, slice_get, IfOk, OnOk, OnErr, IfSome, IfNone};
ghost use Rattle.std.specs.Option.{option_copied};
ghost use Rattle.std.specs.Bool.{OnTrue, OnFalse};
ghost use Rattle.ebr_spots.specs.Spots.{IsNextNumber};
ghost use Rattle.std.specs.List.{list_any};
ghost use Rattle.ebr_versions.specs.Data.{last_change, changes_row, is_in, next_number_in, greatest_number_in};

use ebr_base::{Change, List, NoMemory, RowId, TableId};
use ebr_versions::{Entry, Index, spot};
use std::alloc::Global;
use std::marker::Model;
use std::mem;

/// The changes of one transaction in order, each with the number of the key that it gives.
#[derive(Drop)]
pub struct Changes {
    changes: Vec<Change>,
    index: Index,
}

impl Model for Changes {
    ghost use Rattle.ebr_changes.specs.Filed.{Filed, AreFiled};

    ghost Value = { Filed };

    ghost view = { λ x. record { changes = x.changes.items; entries = x.index.pending } };

    ghost invariant = { λ x. AreFiled x.changes.items x.index };
}

impl Changes {
    ghost use Rattle.ebr_changes.specs.Filed.{IsLastFiled, IsNoneFiledBefore};

    /// No change, which takes no memory.
    pub fn new(alloc: Global) -> Changes
        ensures { result ≡ record { changes = []; entries = [] } }
    {
        Changes {
            changes: Vec::new(alloc),
            index: Index::new(alloc),
        }
    }

    /// Adds a change that gives a key of this number. An `Err` changes nothing.
    pub fn push(&mut self, c: Change, print: Option<u64>) -> Result<(), NoMemory>
        ensures changes { OnOk result (self.new.changes ≡ self.old.changes ++ c ∷ []) }
        ensures entries { OnOk result (self.new.entries ≡ self.old.entries ++ record { row = c.row; print = print } ∷ []) }
        ensures err { OnErr result (self.new ≡ self.old) }
    {
        self.changes.reserve(1)?;
        self.index.file(0, Entry { row: c.row, print })?;
        self.changes.push_reserved(c);
        Ok(())
    }

    /// Goes back to the first `n` changes. It takes no memory.
    pub fn cut(&mut self, n: u32)
        ensures changes { self.new.changes ≡ take n self.old.changes }
        ensures entries { self.new.entries ≡ take n self.old.entries }
    {
        self.changes.truncate(n as usize);
        self.index.cut(0, n);
    }

    /// The last change of a row.
    pub fn last(&self, row: RowId) -> Option<&Change>
        ensures { option_copied result ≡ last_change row self.now.changes }
    {
        match self
            .index
            .rows()
            .last_before(spot(row.table.0, row.row.0, 1, 0))
        {
            Some(last) => change_at(self.changes.as_slice(), last.place),
            None => None,
        }
    }

    /// Takes all changes out. It takes no memory.
    pub fn take(&mut self, alloc: Global) -> List<Change>
        ensures changes { result ≡ self.old.changes }
        ensures none { self.new ≡ record { changes = []; entries = [] } }
    {
        self.index = Index::new(alloc);
        List::from_vec(mem::replace(&mut self.changes, Vec::new(alloc)))
    }

    /// The changes, in order.
    pub fn as_slice(&self) -> &[Change]
        ensures { result.now ≡ self.now.changes }
    {
        self.changes.as_slice()
    }

    /// Whether one of the changes is of a row.
    pub fn changes_row(&self, row: RowId) -> bool
        ensures { result ≡ changes_row row self.now.changes }
    {
        match self.last(row) {
            Some(_) => true,
            None => false,
        }
    }

    /// Whether one of the changes is in a table.
    pub fn changes_table(&self, t: TableId) -> bool
        ensures { result ≡ list_any (is_in t) self.now.changes }
    {
        self.index.rows().fit();
        self.index.rows().last_number(t.0, u64::MAX).is_some()
    }

    /// The least number above another among a table's rows.
    pub fn next_number(&self, t: TableId, after: u64) -> Option<u64>
        ensures { result ≡ next_number_in self.now.changes t after }
    {
        match self.index.rows().next_number(t.0, after) {
            Some(next) => Some(next.number),
            None => None,
        }
    }

    /// The greatest number among a table's rows; 0 where there is none.
    pub fn greatest_number(&self, t: TableId) -> u64
        ensures { result ≡ greatest_number_in self.now.changes t }
    {
        self.index.rows().fit();
        match self.index.rows().last_number(t.0, u64::MAX) {
            Some(last) => last.number,
            None => 0,
        }
    }

    /// The last place before one of a change that is filed under this number of a key.
    pub fn last_filed(&self, t: TableId, print: u64, end: usize) -> Option<usize>
        ensures some { IfSome result (IsLastFiled self.now.entries t print end) }
        ensures none { IfNone result (IsNoneFiledBefore self.now.entries t print end) }
    {
        match self.index.keys().last_before(spot(t.0, print, 0, end)) {
            Some(last) => Some(last.place),
            None => None,
        }
    }

    /// How many changes there are.
    pub fn len(&self) -> usize
        ensures changes { result ≡ length self.now.changes }
        ensures entries { result ≡ length self.now.entries }
    {
        self.changes.len()
    }

    /// The change at a place.
    pub fn change(&self, place: usize) -> Option<&Change>
        ensures { option_copied result ≡ slice_get self.now.changes place }
    {
        change_at(self.changes.as_slice(), place)
    }
}

fn change_at(changes: &[Change], place: usize) -> Option<&Change>
    ensures { option_copied result ≡ slice_get changes.now place }
{
    changes.get(place)
}
