//! The journal of a disk.

ghost use Rattle.std.specs.Prelude.{◌≡◌, ◌↔◌, false, IsTrue, IfOk, IfErr, OnOk};
ghost use Rattle.ebr_outside.specs.Disk.{Passes};
ghost use Rattle.ebr_record.specs.Keeper.{IsAtRest};
ghost use Rattle.ebr_record.specs.Payload.{HasPayload};
ghost use Rattle.ebr_encoding.specs.declared.form.Form.TheVariants.{Long, Short};
ghost use Rattle.ebr_encoding.specs.Spelled.{HasForm};
ghost use Rattle.ebr_journal.specs.Keeper.{Appends, HasThese, Upgrades, as_keeper};
ghost use Rattle.ebr_journal.specs.Begun.{Refused, Started};

use crate::found::{Found, MAX_JOURNAL, head};
use crate::put::{put, put_record};
use crate::start::{StartFault, open};
use ebr_encoding::{Form, has_form};
use ebr_outside::{Disk, DiskErr};
use ebr_record::{JournalFault, Record, length};
use std::alloc::Global;
use std::marker::Model;

/// What stands behind the mark's gate, and a closed gate.
const MARK: [u8; 7] = [0, 0, 0, 2, 10, 2, 0];

/// Keeps records on a disk.
#[derive(Drop)]
pub struct Journal<D: Disk> {
    alloc: Global,
    disk: D,
    /// The place of the closed gate.
    gate: u64,
    /// The bytes of the records, each counted as in the long form, with the first byte, the mark and the closed gate.
    used: u64,
    /// The form of the next record: long exactly where the mark is there.
    form: Form,
    stopped: bool,
}

impl<D: Disk> Model for Journal<D> {
    ghost use Rattle.ebr_journal.specs.Keeper.{IsSound, JournalState};

    ghost Value = { JournalState D };

    ghost view = { λ j. record { disk = j.disk; gate = j.gate; used = j.used; form = j.form; stopped = j.stopped } };

    ghost invariant = { λ j. IsSound (D.as_medium j.disk) j.gate j.used j.form j.stopped };
}

impl<D: Disk> Journal<D> {
    /// Begins a journal on a disk, and gives the records that are there.
    ///
    /// It brings the disk to rest first. Until that sync has ended a crash leaves what it left at the entry; from then on the file as
    /// it was read, or where that was blank, a blank file or a journal of no records. Where it is damaged nothing is written.
    pub fn start(alloc: Global, disk: D) -> Result<(Journal<D>, Found), StartFault<D>>
        ensures started { IfOk result (λ ok. Started (D.as_medium disk) (D.as_medium ok.0.disk) (as_keeper D.as_medium ok.0) ok.1) }
        ensures refused { IfErr result (λ fault. Refused (D.as_medium disk) fault.why (D.as_medium fault.disk)) }
    {
        let mut disk = disk;
        match open(alloc, &mut disk) {
            Ok(walked) => {
                let journal = Journal {
                    alloc,
                    disk,
                    gate: walked.gate,
                    used: walked.used,
                    form: walked.form,
                    stopped: false,
                };
                Ok((journal, walked.found))
            }
            Err(why) => Err(StartFault { disk, why }),
        }
    }

    /// Whether a record may stand in the form that follows. Behind the mark each one may that has a payload.
    pub fn takes(&self, r: &Record) -> bool
        requires { HasPayload r.now }
        ensures { IsTrue result ↔ HasForm self.now.form r.now }
    {
        has_form(self.form, r)
    }

    /// Keeps a record by four calls of the disk, in the form that follows. At `Ok` it is acknowledged: from then on a crash
    /// leaves it.
    ///
    /// `Stopped` comes exactly after an earlier `DiskFault` or `NoMemory`, `Full` exactly where the records with this one would
    /// be counted with more than 536,870,912 bytes, and `DiskFault` only where the disk counted a fault in this call.
    pub fn append(&mut self, r: &Record) -> Result<(), JournalFault>
        requires payload { HasPayload r.now }
        requires fits { HasForm self.old.form r.now }
        ensures appends { Appends (as_keeper D.as_medium self.old) (as_keeper D.as_medium self.new) r.now result }
        ensures form { self.new.form ≡ self.old.form }
    {
        if self.stopped {
            return Err(JournalFault::Stopped);
        }
        let size = length(r);
        let len = self.used + 9 + size;
        if len > MAX_JOURNAL {
            return Err(JournalFault::Full { len });
        }
        self.stopped = true;
        match put_record(self.alloc, &mut self.disk, self.form, self.gate, r) {
            Ok(()) => {
                self.gate += head(self.form) + size;
                self.used = len;
                self.stopped = false;
                Ok(())
            }
            Err(DiskErr::Failed) => Err(JournalFault::DiskFault),
            Err(DiskErr::NoMemory) => Err(JournalFault::NoMemory),
        }
    }

    /// Writes the mark by the same four calls, where it isn't there: from then on records are kept in the long form. The records
    /// stay as they are, at each moment: each image that a crash leaves has them.
    ///
    /// It never answers `Full`, and its other faults are those of `append`, which stop this and each later call of either.
    pub fn upgrade(&mut self) -> Result<(), JournalFault>
        ensures upgrades { Upgrades (as_keeper D.as_medium self.old) (as_keeper D.as_medium self.new) result }
        ensures images { IsTrue (D.as_medium self.old.disk).tells → Passes (D.as_medium self.old.disk) (D.as_medium self.new.disk) (HasThese (as_keeper D.as_medium self.old).records) }
        ensures marked { OnOk result (self.new.form ≡ Long) }
        ensures there { self.old.form ≡ Long → self.new ≡ self.old }
    {
        if self.stopped {
            return Err(JournalFault::Stopped);
        }
        match self.form {
            Form::Long => Ok(()),
            Form::Short => self.add_mark(),
        }
    }

    /// Writes the mark, which isn't there.
    fn add_mark(&mut self) -> Result<(), JournalFault>
        requires running { self.old.stopped ≡ false }
        requires unmarked { self.old.form ≡ Short }
        ensures upgrades { Upgrades (as_keeper D.as_medium self.old) (as_keeper D.as_medium self.new) result }
        ensures images { IsTrue (D.as_medium self.old.disk).tells → Passes (D.as_medium self.old.disk) (D.as_medium self.new.disk) (HasThese (as_keeper D.as_medium self.old).records) }
        ensures marked { OnOk result (self.new.form ≡ Long) }
    {
        self.stopped = true;
        match put(&mut self.disk, self.gate, &MARK) {
            Ok(()) => {
                self.gate += 7;
                self.form = Form::Long;
                self.stopped = false;
                Ok(())
            }
            Err(DiskErr::Failed) => Err(JournalFault::DiskFault),
            Err(DiskErr::NoMemory) => Err(JournalFault::NoMemory),
        }
    }

    /// Whether an earlier call found a fault or no memory, so that each later one answers `Stopped`.
    pub fn is_stopped(&self) -> bool
        ensures stopped { result ≡ self.now.stopped }
        ensures rest { IsAtRest (as_keeper D.as_medium self.now) }
    {
        self.stopped
    }

    /// The disk.
    pub fn into_disk(self) -> D
        ensures { result ≡ self.disk }
    {
        let Journal { disk, .. } = self;
        disk
    }
}
