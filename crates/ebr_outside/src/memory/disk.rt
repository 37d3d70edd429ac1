//! A disk in memory.

ghost use Rattle.std.specs.Prelude.{◌≡◌, [], ◌∷◌, ◌++◌, ◌+◌, ◌≤◌, length, take, drop, true, false, if◌then◌else◌, IsTrue, IsErr, IsErrOf, ◌↔◌, Ok, Err, IfOk, OnOk, OnErr};
ghost use Rattle.ebr_outside.specs.Disk.{LeavesNow};

use crate::disk::{Disk, DiskErr};
use crate::memory::crash::image_for;
use crate::memory::disk_call::DiskCall;
use crate::memory::fail::{Calls, Fail};
use ebr_base::{Bytes, List, NoMemory};
use std::alloc::Global;
use std::marker::Model;

/// A file in memory as a disk that tells it. It keeps a record of its calls, from which it tells what a crash at each moment
/// leaves.
#[derive(Drop)]
pub struct MemDisk {
    alloc: Global,
    first: Bytes,
    past: Vec<DiskCall>,
    bytes: Vec<u8>,
    calls: Calls,
}

impl Model for MemDisk {
    ghost use Rattle.std.specs.Prelude.{◌≡◌};
    ghost use Rattle.ebr_outside.specs.MemDisk.{DiskState, replayed, begun};

    ghost Value = { DiskState };

    ghost view = { λ d. record { first = d.first; past = d.past.items; calls = d.calls } };

    ghost invariant = { λ d. d.bytes.items ≡ (replayed d.past.items (begun d.first)).reads };
}

impl MemDisk {
    ghost use Rattle.ebr_outside.specs.Calls.{none_made};
    ghost use Rattle.ebr_outside.specs.MemDisk.{as_medium, now, reads};

    /// A disk of these bytes, which a crash leaves. The calls that `failing` names fail.
    pub fn new(alloc: Global, bytes: Bytes, failing: List<Fail>) -> Result<MemDisk, NoMemory>
        ensures { IfOk result (λ d. d ≡ record { first = bytes; past = []; calls = none_made failing }) }
    {
        let copy = Vec::from_slice(alloc, bytes.as_slice())?;
        Ok(MemDisk {
            alloc,
            first: bytes,
            past: Vec::new(alloc),
            bytes: copy,
            calls: Calls::new(failing),
        })
    }

    /// A disk of an image that a crash now may leave, which never fails: for pick 0 what the last sync that succeeded left, or the
    /// making; for pick 1 what a read gives; for any other pick a mix, in which each call since that sync is left out, whole or in
    /// part.
    pub fn after_crash(&self, pick: u64) -> Result<MemDisk, NoMemory>
        ensures fresh { IfOk result (λ d. d ≡ record { first = d.first; past = []; calls = none_made [] }) }
        ensures image { IfOk result (λ d. LeavesNow (as_medium self.now) d.first) }
        ensures least { IfOk result (λ d. pick ≡ 0 → d.first ≡ (now self.now).synced) }
        ensures most { IfOk result (λ d. pick ≡ 1 → d.first ≡ reads self.now) }
    {
        let image = image_for(
            self.alloc,
            self.first.as_slice(),
            self.past.as_slice(),
            pick,
        )?;
        MemDisk::new(self.alloc, image, List::new(self.alloc))
    }

    /// What a read gives.
    pub fn bytes(&self) -> &[u8]
        ensures { result.now ≡ reads self.now }
    {
        self.bytes.as_slice()
    }

    /// The calls so far that changed the disk, or may have.
    pub fn past(&self) -> &[DiskCall]
        ensures { result.now ≡ self.now.past }
    {
        self.past.as_slice()
    }

    /// Does a call to what a read gives, and keeps it.
    fn make(&mut self, call: DiskCall) -> Result<(), NoMemory>
        ensures ok { OnOk result (self.new ≡ record self.old { past = self.old.past ++ call ∷ [] }) }
        ensures err { OnErr result (self.new ≡ self.old) }
    {
        self.past.reserve(1)?;
        call.apply(&mut self.bytes)?;
        self.past.push_reserved(call);
        Ok(())
    }
}

impl Disk for MemDisk {
    ghost use Rattle.ebr_outside.specs.Calls.{fails_next, after_call, after_fault};
    ghost use Rattle.ebr_outside.specs.declared.memory.disk_call.DiskCall.TheVariants as made;
    ghost use Rattle.ebr_outside.specs.MemDisk.{as_medium, reads, IsAsBefore};
    ghost use Rattle.ebr_outside.specs.inside.LeftByCrash.{read_is_left, leaves_less};

    ghost as_medium = { as_medium };

    ghost read_is_left = { read_is_left };

    ghost leaves_less = { leaves_less };

    fn len(&mut self) -> Result<u64, DiskErr>
        ensures fails { IsErrOf result DiskErr.Failed ↔ IsTrue (fails_next self.old.calls) }
        ensures length { IfOk result (λ n. n ≡ length (reads self.old)) }
        ensures ok { OnOk result (self.new ≡ record self.old { calls = after_call self.old.calls }) }
        ensures failed { IsErrOf result DiskErr.Failed → self.new ≡ record self.old { calls = after_fault self.old.calls } }
        ensures no_memory { IsErrOf result DiskErr.NoMemory → IsAsBefore self.old self.new }
    {
        if self.calls.begin().is_err() {
            return Err(DiskErr::Failed);
        }
        Ok(self.bytes.len() as u64)
    }

    fn read(&mut self, at: u64, into: &mut [u8]) -> Result<(), DiskErr>
        requires { at + length into.old ≤ length (reads self.old) }
        ensures fails { IsErrOf result DiskErr.Failed ↔ IsTrue (fails_next self.old.calls) }
        ensures bytes { OnOk result (into.new ≡ take (length into.old) (drop at (reads self.old))) }
        ensures ok { OnOk result (self.new ≡ record self.old { calls = after_call self.old.calls }) }
        ensures failed { IsErrOf result DiskErr.Failed → self.new ≡ record self.old { calls = after_fault self.old.calls } }
        ensures no_memory { IsErrOf result DiskErr.NoMemory → IsAsBefore self.old self.new }
    {
        if self.calls.begin().is_err() {
            return Err(DiskErr::Failed);
        }
        copy_range(self.bytes.as_slice(), at, into);
        Ok(())
    }

    /// A write that fails leaves what a read gives as it was, and a crash any bytes in its range.
    fn write_at(&mut self, at: u64, piece: &[u8]) -> Result<(), DiskErr>
        requires { at ≤ length (reads self.old) }
        ensures named { IsTrue (fails_next self.old.calls) → IsErr result }
        ensures fails { IsErrOf result DiskErr.Failed → IsTrue (fails_next self.old.calls) }
        ensures ok { OnOk result (self.new ≡ record self.old { past = self.old.past ++ made.Write at piece.now true ∷ []; calls = after_call self.old.calls }) }
        ensures failed { IsErrOf result DiskErr.Failed
            → self.new ≡ record self.old { past = self.old.past ++ made.Write at piece.now false ∷ []; calls = after_fault self.old.calls } }
        ensures no_memory { IsErrOf result DiskErr.NoMemory → IsAsBefore self.old self.new }
    {
        let fails = self.calls.begin().is_err();
        let piece = Bytes::from_slice(self.alloc, piece)?;
        let done = !fails;
        self.make(DiskCall::Write { at, piece, done })?;
        answer(fails)
    }

    /// A cut that fails leaves what a read gives as it was, and a crash any length between.
    fn cut(&mut self, len: u64) -> Result<(), DiskErr>
        requires { len ≤ length (reads self.old) }
        ensures named { IsTrue (fails_next self.old.calls) → IsErr result }
        ensures fails { IsErrOf result DiskErr.Failed → IsTrue (fails_next self.old.calls) }
        ensures ok { OnOk result (self.new ≡ record self.old { past = self.old.past ++ made.Cut len true ∷ []; calls = after_call self.old.calls }) }
        ensures failed { IsErrOf result DiskErr.Failed
            → self.new ≡ record self.old { past = self.old.past ++ made.Cut len false ∷ []; calls = after_fault self.old.calls } }
        ensures no_memory { IsErrOf result DiskErr.NoMemory → IsAsBefore self.old self.new }
    {
        let fails = self.calls.begin().is_err();
        let done = !fails;
        self.make(DiskCall::Cut { len, done })?;
        answer(fails)
    }

    /// A sync that fails changes nothing.
    fn sync(&mut self) -> Result<(), DiskErr>
        ensures fails { IsErrOf result DiskErr.Failed ↔ IsTrue (fails_next self.old.calls) }
        ensures ok { OnOk result (self.new ≡ record self.old { past = self.old.past ++ made.Sync ∷ []; calls = after_call self.old.calls }) }
        ensures failed { IsErrOf result DiskErr.Failed → self.new ≡ record self.old { calls = after_fault self.old.calls } }
        ensures no_memory { IsErrOf result DiskErr.NoMemory → IsAsBefore self.old self.new }
    {
        if self.calls.begin().is_err() {
            return Err(DiskErr::Failed);
        }
        self.make(DiskCall::Sync)?;
        Ok(())
    }
}

/// The answer of a call that found memory.
fn answer(fails: bool) -> Result<(), DiskErr>
    ensures { result ≡ (if fails then Err DiskErr.Failed else Ok tt) }
{
    if fails { Err(DiskErr::Failed) } else { Ok(()) }
}

/// Copies the bytes of a range.
fn copy_range(bytes: &[u8], at: u64, into: &mut [u8])
    requires { at + length into.old ≤ length bytes.now }
    ensures { into.new ≡ take (length into.old) (drop at bytes.now) }
{
    let at = at as usize;
    let end = at + into.len();
    into.copy_from_slice(&bytes[at..end]);
}
