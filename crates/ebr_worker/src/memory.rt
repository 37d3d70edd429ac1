//! A keeper in memory.

ghost use Rattle.std.specs.Prelude.{◌≡◌, IfOk};

use ebr_base::NoMemory;
use ebr_record::{JournalFault, Keep, ListKeep, Record};
use std::alloc::Global;
use std::marker::Model;

/// Keeps records in a list. It never fails but for want of memory.
#[derive(Drop)]
pub struct MemoryKeep {
    list: ListKeep,
}

impl Model for MemoryKeep {
    ghost use Rattle.std.specs.Prelude.{◌≡◌, []};
    ghost use Rattle.ebr_worker.specs.inside.Memory.{Kept};

    ghost Value = { Kept };

    ghost view = { λ k. record { records = k.list.records; stopped = k.list.stopped } };

    ghost invariant = { λ k. (k.list.failing ≡ []) × (k.list.faults ≡ 0) };
}

impl MemoryKeep {
    ghost use Rattle.ebr_worker.specs.inside.Memory.{nothing_kept};

    /// A keeper that has kept nothing.
    pub fn new(alloc: Global) -> Result<MemoryKeep, NoMemory>
        ensures { IfOk result (λ k. k ≡ nothing_kept) }
    {
        let list = ListKeep::new(alloc, &[])?;
        Ok(MemoryKeep { list })
    }
}

impl Keep for MemoryKeep {
    ghost use Rattle.ebr_record.specs.InMemory.{left_since_earlier};
    ghost use Rattle.ebr_worker.specs.inside.Memory.{as_keeper};

    ghost as_keeper = { as_keeper };

    ghost leaves_less = { λ k. left_since_earlier k.records };

    fn is_stopped(&self) -> bool {
        self.list.is_stopped()
    }

    fn keep(&mut self, r: &Record) -> Result<(), JournalFault> {
        self.list.keep(r)
    }
}
