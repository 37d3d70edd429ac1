//! What is read of a journal. Nothing is written.

ghost use Rattle.std.specs.Prelude.{ℕ, List as Sequence, ◌≡◌, ◌≢◌, ◌+◌, ◌<◌, ◌≤◌, length, slice_index, IsTrue, IfOk, IfErr, OnOk, IsErrOf};
ghost use Rattle.ebr_faults.specs.Faults.{Rises};
ghost use Rattle.ebr_outside.specs.Disk.{Stands};
ghost use Rattle.ebr_record.specs.Keeper.{max_journal};
ghost use Rattle.ebr_encoding.specs.Spelled.{most_bytes};
ghost use Rattle.ebr_journal.specs.Journal.{MayStand, share_in};
ghost use Rattle.ebr_journal.specs.Pieces.{Shows};
ghost use Rattle.ebr_journal.specs.Found.{Are, ContentsAre, Counts, HasCome, HasPlace, IsRead, LiesWithin, StandsAt, WalkGives, begun, with_mark, with_one};

use crate::found::{Found, MAX_JOURNAL, head, last_gate, most_bytes, number, spared};
use crate::piece::Piece;
use ebr_base::{List, NoMemory};
use ebr_encoding::{DecodeErr, Form, decode};
use ebr_outside::{Disk, DiskErr};
use ebr_record::Record;
use std::alloc::Global;

/// The byte of an open gate.
const OPEN: u8 = 1;

/// What stands for a payload behind the mark's gate.
const MARK: [u8; 2] = [10, 2];

/// What stands at a gate.
#[derive(Drop)]
pub enum Gate {
    /// The gate is closed.
    Closed,
    /// The gate is open, and behind it stand a record and, at this place, a further gate.
    Open(Record, u64),
    /// The gate is open, and behind it stand the rest of the mark and a further gate.
    Mark,
    /// The gate is open, and nothing that may stand there does, or no further gate.
    Broken,
}

/// What is read of a journal up to a gate.
#[derive(Drop)]
pub struct Walked {
    pub found: Found,
    /// The place of the gate.
    pub gate: u64,
    /// The bytes that the records are counted with.
    pub used: u64,
    /// The form of what follows.
    pub form: Form,
}

/// What a file is.
#[derive(Drop)]
pub enum Contents {
    /// A file that is still to be made a journal.
    Blank,
    /// A journal, up to its closed gate.
    Journal(Walked),
    /// A file that is damaged at this place, behind these records.
    Damaged(u64, Found),
}

impl Walked {
    /// At the first gate.
    pub fn begin(alloc: Global) -> Walked
        ensures { result ≡ begun }
    {
        let found = Found {
            records: List::new(alloc),
            short: 0,
        };
        Walked {
            found,
            gate: 1,
            used: 9,
            form: Form::Short,
        }
    }

    /// Behind a record, with the next gate at this place.
    fn add(&mut self, r: Record, next: u64) -> Result<(), NoMemory>
        requires counts { Counts self.old }
        requires early { self.old.gate < max_journal }
        requires form { MayStand self.old.form r }
        requires next { next ≡ self.old.gate + share_in self.old.form r }
        ensures { OnOk result (self.new ≡ with_one self.old r) }
    {
        self.used += next - self.gate + spared(self.form);
        self.gate = next;
        if matches!(self.form, Form::Short) {
            self.found.short += 1;
        }
        self.found.records.push(r)
    }

    /// Behind the mark.
    fn pass_mark(&mut self)
        requires { self.old.gate < max_journal }
        ensures { self.new ≡ with_mark self.old }
    {
        self.gate += 7;
        self.form = Form::Long;
    }
}

/// Reads what a file is.
#[tactic(auto, using(crate::proofs::Reading::begun_fit))]
pub fn found<D: Disk>(alloc: Global, disk: &mut D) -> Result<Contents, DiskErr>
    ensures stands { Stands (D.as_medium disk.old) (D.as_medium disk.new) }
    ensures failed { IsErrOf result DiskErr.Failed → Rises (D.as_medium disk.old).faults (D.as_medium disk.new).faults }
    ensures contents { IfOk result (λ c. ContentsAre (D.as_medium disk.old) c) }
{
    let len = disk.len()?;
    if len <= 1 {
        return Ok(Contents::Blank);
    }
    let mut piece = Piece::new(alloc);
    piece.cover(disk, len, 0, 1)?;
    if piece.slice(0, 1)[0] == 1 {
        return walk(alloc, disk, &mut piece, len);
    }
    if len == 2 {
        return Ok(Contents::Blank);
    }
    Ok(Contents::Damaged(0, Walked::begin(alloc).found))
}

/// Reads the records from place 1 on, from gate to gate.
#[tactic(auto, using(crate::proofs::Reading::fit_of))]
fn walk<D: Disk>(
    alloc: Global,
    disk: &mut D,
    piece: &mut Piece,
    len: u64,
) -> Result<Contents, DiskErr>
    requires some { 1 < len }
    requires told { IsTrue (D.as_medium disk.old).tells → len ≡ length (D.as_medium disk.old).reads }
    requires shows { Shows (D.as_medium disk.old) piece.old }
    ensures stands { Stands (D.as_medium disk.old) (D.as_medium disk.new) }
    ensures failed { IsErrOf result DiskErr.Failed → Rises (D.as_medium disk.old).faults (D.as_medium disk.new).faults }
    ensures found { IfOk result (λ c. WalkGives (D.as_medium disk.old) c) }
{
    let mut walked = Walked::begin(alloc);
    while walked.gate < MAX_JOURNAL {
        match at_gate(alloc, disk, piece, len, walked.form, walked.gate)? {
            Gate::Closed => return Ok(whole(walked, len)),
            Gate::Broken => return Ok(Contents::Damaged(walked.gate, walked.found)),
            Gate::Mark => walked.pass_mark(),
            Gate::Open(r, next) => walked.add(r, next)?,
        }
    }
    Ok(Contents::Damaged(MAX_JOURNAL, walked.found))
}

/// A file whose records end at a closed gate. That gate may lie too late for the mark, or the file may be too long.
#[tactic(auto, using(crate::proofs::Reading::fit_of))]
fn whole(walked: Walked, len: u64) -> Contents
    requires counts { Counts walked }
    requires early { walked.gate < max_journal }
    ensures place { HasPlace result }
    ensures told { (bytes : Sequence ℕ) → len ≡ length bytes → HasCome bytes walked → slice_index bytes walked.gate ≢ 1 → Are bytes result }
{
    if walked.gate > last_gate(walked.form) {
        return Contents::Damaged(walked.gate, walked.found);
    }
    if len > MAX_JOURNAL {
        return Contents::Damaged(MAX_JOURNAL, walked.found);
    }
    Contents::Journal(walked)
}

/// Reads what stands at a gate, of which this form follows.
fn at_gate<D: Disk>(
    alloc: Global,
    disk: &mut D,
    piece: &mut Piece,
    len: u64,
    form: Form,
    place: u64,
) -> Result<Gate, DiskErr>
    requires within { place < len }
    requires told { IsTrue (D.as_medium disk.old).tells → len ≡ length (D.as_medium disk.old).reads }
    requires shows { Shows (D.as_medium disk.old) piece.old }
    ensures stands { Stands (D.as_medium disk.old) (D.as_medium disk.new) }
    ensures failed { IsErrOf result DiskErr.Failed → Rises (D.as_medium disk.old).faults (D.as_medium disk.new).faults }
    ensures shows { OnOk result (Shows (D.as_medium disk.new) piece.new) }
    ensures lies { IfOk result (LiesWithin place len form) }
    ensures gate { IfOk result (λ gate. IsTrue (D.as_medium disk.old).tells → StandsAt (D.as_medium disk.old).reads place form gate) }
{
    piece.cover(disk, len, place, 1)?;
    if piece.slice(place, 1)[0] != OPEN {
        return Ok(Gate::Closed);
    }
    behind_gate(alloc, disk, piece, len, form, place)
}

/// Reads what stands behind a gate that is open.
fn behind_gate<D: Disk>(
    alloc: Global,
    disk: &mut D,
    piece: &mut Piece,
    len: u64,
    form: Form,
    place: u64,
) -> Result<Gate, DiskErr>
    requires within { place < len }
    requires told { IsTrue (D.as_medium disk.old).tells → len ≡ length (D.as_medium disk.old).reads }
    requires shows { Shows (D.as_medium disk.old) piece.old }
    requires opened { IsTrue (D.as_medium disk.old).tells → slice_index (D.as_medium disk.old).reads place ≡ 1 }
    ensures stands { Stands (D.as_medium disk.old) (D.as_medium disk.new) }
    ensures failed { IsErrOf result DiskErr.Failed → Rises (D.as_medium disk.old).faults (D.as_medium disk.new).faults }
    ensures shows { OnOk result (Shows (D.as_medium disk.new) piece.new) }
    ensures lies { IfOk result (LiesWithin place len form) }
    ensures gate { IfOk result (λ gate. IsTrue (D.as_medium disk.old).tells → StandsAt (D.as_medium disk.old).reads place form gate) }
{
    let head = head(form);
    if len - place <= head {
        return Ok(Gate::Broken);
    }
    piece.cover(disk, len, place + 1, head - 1)?;
    let size = number(form, piece.slice(place + 1, head - 1));
    if size > most_bytes(form) {
        return Ok(Gate::Broken);
    }
    if len - place - head <= size {
        return Ok(Gate::Broken);
    }
    let from = place + head;
    piece.cover(disk, len, from, size)?;
    read(alloc, form, piece.slice(from, size), from + size)
}

/// What a payload is, behind which the next gate lies at this place.
fn read(alloc: Global, form: Form, payload: &[u8], next: u64) -> Result<Gate, DiskErr>
    requires { length payload.now ≤ most_bytes form }
    ensures why { IfErr result (λ e. e ≡ DiskErr.NoMemory) }
    ensures read { IfOk result (IsRead form payload.now next) }
{
    if matches!(form, Form::Short) && payload == MARK.as_slice() {
        return Ok(Gate::Mark);
    }
    match decode(alloc, form, payload) {
        Ok(r) => Ok(Gate::Open(r, next)),
        Err(DecodeErr::Bad) => Ok(Gate::Broken),
        Err(DecodeErr::NoMemory) => Err(DiskErr::NoMemory),
    }
}
