//! One live transaction.

ghost use Rattle.std.specs.Prelude.{◌≡◌, ◌≤◌, ◌∷◌, ◌++◌, [], take, OnOk, OnErr};
ghost use Rattle.ebr_tx.specs.Data.{not_begun};
ghost use Rattle.ebr_tx.specs.Calls.{begun_at, with_change, with_savepoint, marked, kept_to, ended};
ghost use Rattle.ebr_tx.specs.Limits.{is_full, max_record, record_length};
ghost use Rattle.ebr_tx.specs.inside.Filed.{IsCounted};

use crate::limits::{MAX_CHANGES, change_length, changes_length, is_too_long};
use crate::savepoints::{Savepoint, Savepoints, TxMark};
use ebr_base::{Change, List, Name, NoMemory, TxId, rest_from};
use ebr_changes::Changes;
use std::alloc::Global;
use std::marker::Model;

/// A live transaction: what it has done so far, and how many bytes its changes have in a record.
#[derive(Drop)]
pub struct Live {
    id: TxId,
    begun: Option<u32>,
    changes: Changes,
    length: u64,
    savepoints: Savepoints,
}

impl Model for Live {
    ghost use Rattle.ebr_tx.specs.inside.Filed.{FiledTransaction, IsCounted};

    ghost Value = { FiledTransaction };

    ghost view = { λ x. record { transaction = record { id = x.id; begun = x.begun; changes = x.changes.changes; savepoints = x.savepoints }; entries = x.changes.entries } };

    ghost invariant = { λ x. IsCounted x.length x.changes.changes };
}

impl Live {
    /// One that has done nothing, which takes no memory.
    pub fn new(alloc: Global, id: TxId) -> Live
        ensures { result ≡ record { transaction = not_begun id; entries = [] } }
    {
        Live {
            id,
            begun: None,
            changes: Changes::new(alloc),
            length: 0,
            savepoints: Savepoints::new(alloc),
        }
    }

    /// Its name.
    pub fn id(&self) -> TxId
        ensures { result ≡ self.now.transaction.id }
    {
        self.id
    }

    /// At how many commits it has begun.
    pub fn begun(&self) -> Option<u32>
        ensures { result ≡ self.now.transaction.begun }
    {
        self.begun
    }

    /// Its changes.
    pub fn changes(&self) -> &Changes
        ensures { result.now ≡ record { changes = self.now.transaction.changes; entries = self.now.entries } }
    {
        &self.changes
    }

    /// Its savepoints.
    pub fn savepoints(&self) -> &Savepoints
        ensures { result.now ≡ self.now.transaction.savepoints }
    {
        &self.savepoints
    }

    /// Whether one more change is too many, or makes the record of its commit too long.
    pub fn is_full(&self, c: &Change) -> bool
        ensures { result ≡ is_full self.now.transaction.changes c.now }
    {
        self.changes.len() >= MAX_CHANGES || is_too_long(self.length, c)
    }

    /// Begins at so many commits, where it hasn't begun.
    pub fn begin(&mut self, count: u32)
        ensures { self.new ≡ record self.old { transaction = begun_at count self.old.transaction } }
    {
        if self.begun.is_none() {
            self.begun = Some(count);
        }
    }

    /// Adds a change that gives a key of this number. An `Err` changes nothing.
    pub fn push(&mut self, c: Change, print: Option<u64>) -> Result<(), NoMemory>
        requires { record_length (self.old.transaction.changes ++ c ∷ []) ≤ max_record }
        ensures ok { OnOk result (self.new ≡ record { transaction = with_change c self.old.transaction; entries = self.old.entries ++ record { row = c.row; print = print } ∷ [] }) }
        ensures err { OnErr result (self.new ≡ self.old) }
    {
        let length = change_length(&c);
        self.changes.push(c, print)?;
        self.length += length;
        Ok(())
    }

    /// Ends, and gives its changes. It takes no memory.
    pub fn end(&mut self, alloc: Global) -> List<Change>
        ensures changes { result ≡ self.old.transaction.changes }
        ensures ended { self.new ≡ record { transaction = ended self.old.transaction; entries = [] } }
    {
        self.begun = None;
        self.length = 0;
        self.savepoints = Savepoints::new(alloc);
        self.changes.take(alloc)
    }

    /// Adds a savepoint, in place of one of the same name. An `Err` changes nothing.
    pub fn put_savepoint(&mut self, savepoint: Savepoint) -> Result<(), NoMemory>
        ensures ok { OnOk result (self.new ≡ record self.old { transaction = with_savepoint savepoint self.old.transaction }) }
        ensures err { OnErr result (self.new ≡ self.old) }
    {
        self.savepoints.put(savepoint)
    }

    /// Goes back to the savepoint of a name, at which it had so many changes. It takes no memory.
    pub fn back_to(&mut self, name: &Name, changes: u32)
        ensures { self.new ≡ record { transaction = kept_to name.now changes self.old.transaction; entries = take changes self.old.entries } }
    {
        self.savepoints.cut_after(name);
        self.length = cut(&mut self.changes, self.length, changes);
    }

    /// Goes back to a mark. It takes no memory.
    pub fn back_to_mark(&mut self, mark: TxMark)
        ensures { self.new ≡ record { transaction = marked mark self.old.transaction; entries = take mark.changes self.old.entries } }
    {
        self.begun = mark.begun;
        self.savepoints = mark.savepoints;
        self.length = cut(&mut self.changes, self.length, mark.changes);
    }
}

/// Takes out the changes but the first `n`, and gives the bytes of these. It takes no memory.
fn cut(changes: &mut Changes, length: u64, n: u32) -> u64
    requires { IsCounted length changes.old.changes }
    ensures counted { IsCounted result changes.new.changes }
    ensures changes { changes.new ≡ record { changes = take n changes.old.changes; entries = take n changes.old.entries } }
{
    let kept = changes.len().min(n as usize);
    let undone = changes_length(rest_from(changes.as_slice(), kept));
    changes.cut(n);
    length - undone
}
