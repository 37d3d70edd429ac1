//! A keeper in memory.

ghost use Rattle.std.specs.Prelude.{◌≡◌, ◌==◌, ◌≤◌, ◌++◌, ◌∷◌, [], IfOk, OnOk, OnErr};
ghost use Rattle.std.specs.List.{list_any};

use crate::keep::{JournalFault, Keep};
use crate::lengths::length;
use crate::record::Record;
use ebr_base::{CloneIn, List, NoMemory};
use std::alloc::Global;
use std::marker::Model;

/// The most bytes of a journal.
const MAX_JOURNAL: u64 = 536_870_912;

/// Keeps records in a list, which it tells, and fails at the calls that it was made with.
#[derive(Drop)]
pub struct ListKeep {
    alloc: Global,
    records: List<Record>,
    used: u64,
    failing: List<u32>,
    calls: u64,
    faults: u64,
    stopped: bool,
}

impl Model for ListKeep {
    ghost use Rattle.std.specs.Prelude.{◌≡◌, ◌≤◌};
    ghost use Rattle.ebr_record.specs.Keeper.{max_journal, used_by};
    ghost use Rattle.ebr_record.specs.InMemory.{ListState};

    ghost Value = { ListState };

    ghost view = { λ k. record { records = k.records; failing = k.failing; calls = k.calls; faults = k.faults; stopped = k.stopped } };

    ghost invariant = { λ k. (k.used ≡ used_by k.records) × (k.used ≤ max_journal) };
}

impl ListKeep {
    ghost use Rattle.ebr_record.specs.InMemory.{none_kept};

    /// A keeper that has kept nothing. The calls of `keep` whose numbers, counted from 1, are in `failing` find a fault.
    pub fn new(alloc: Global, failing: &[u32]) -> Result<ListKeep, NoMemory>
        ensures { IfOk result (λ k. k ≡ none_kept failing.now) }
    {
        let failing = List::from_vec(Vec::from_slice(alloc, failing)?);
        Ok(ListKeep {
            alloc,
            records: List::new(alloc),
            used: 9,
            failing,
            calls: 0,
            faults: 0,
            stopped: false,
        })
    }

    /// The records that were kept.
    pub fn records(&self) -> &[Record]
        ensures { result.now ≡ self.now.records }
    {
        self.records.as_slice()
    }
}

impl Keep for ListKeep {
    ghost use Rattle.ebr_record.specs.Payload.{HasPayload};
    ghost use Rattle.ebr_record.specs.Keeper.{max_journal, used_by};
    ghost use Rattle.ebr_record.specs.InMemory.{AnswersTo, after_call, as_keeper, left_since_earlier};

    ghost as_keeper = { as_keeper };

    ghost leaves_less = { λ k. left_since_earlier k.records };

    fn is_stopped(&self) -> bool {
        self.stopped
    }

    /// Keeps a copy of a record. It finds a fault exactly at the calls that it was made with, where it hasn't stopped and
    /// the record fits.
    fn keep(&mut self, r: &Record) -> Result<(), JournalFault>
        requires payload { HasPayload r.now }
        ensures answer { AnswersTo self.old r.now result }
        ensures after { self.new ≡ after_call self.old r.now result }
        ensures within { used_by self.new.records ≤ max_journal }
    {
        self.calls = self.calls.saturating_add(1);
        if self.stopped {
            return Err(JournalFault::Stopped);
        }
        let len = self.used + 9 + length(r);
        if len > MAX_JOURNAL {
            return Err(JournalFault::Full { len });
        }
        self.stopped = true;
        if is_named(self.failing.as_slice(), self.calls) {
            self.faults = self.faults.saturating_add(1);
            return Err(JournalFault::DiskFault);
        }
        if let Err(NoMemory) = push_copy(self.alloc, &mut self.records, r) {
            return Err(JournalFault::NoMemory);
        }
        self.used = len;
        self.stopped = false;
        Ok(())
    }
}

/// Whether one of these names the call.
fn is_named(failing: &[u32], call: u64) -> bool
    ensures { result ≡ list_any (λ n. n == call) failing.now }
{
    failing.iter().any(|n| u64::from(*n) == call)
}

/// Adds a copy of a record.
fn push_copy(alloc: Global, records: &mut List<Record>, r: &Record) -> Result<(), NoMemory>
    ensures ok { OnOk result (records.new ≡ records.old ++ r.now ∷ []) }
    ensures err { OnErr result (records.new ≡ records.old) }
{
    records.push(r.clone_in(alloc)?)
}
