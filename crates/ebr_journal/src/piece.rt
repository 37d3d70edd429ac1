//! A file that is read in pieces.

ghost use Rattle.std.specs.Prelude.{ℕ, List, ◌≡◌, ◌+◌, ◌≤◌, length, take, drop, IsTrue, OnOk, IsErrOf};
ghost use Rattle.ebr_faults.specs.Faults.{Rises};
ghost use Rattle.ebr_outside.specs.Disk.{Stands};
ghost use Rattle.ebr_journal.specs.Pieces.{Covers, IsPartOf, Shows};

use ebr_outside::{Disk, DiskErr};
use std::alloc::Global;

/// How many bytes are read at once, where there are so many.
const PIECE: u64 = 65_536;

/// What was read last: the bytes from a place on. Their memory is used again for the next ones.
#[derive(Drop)]
pub struct Piece {
    from: u64,
    bytes: Vec<u8>,
}

impl Piece {
    /// No bytes, which takes no memory.
    pub fn new(alloc: Global) -> Piece
        ensures { (bytes : List ℕ) → IsPartOf bytes result }
    {
        Piece {
            from: 0,
            bytes: Vec::new(alloc),
        }
    }

    /// Reads a range of a file of this length, where it isn't there yet.
    pub fn cover<D: Disk>(
        &mut self,
        disk: &mut D,
        len: u64,
        at: u64,
        size: u64,
    ) -> Result<(), DiskErr>
        requires within { at + size ≤ len }
        requires told { IsTrue (D.as_medium disk.old).tells → len ≡ length (D.as_medium disk.old).reads }
        requires shows { Shows (D.as_medium disk.old) self.old }
        ensures stands { Stands (D.as_medium disk.old) (D.as_medium disk.new) }
        ensures failed { IsErrOf result DiskErr.Failed → Rises (D.as_medium disk.old).faults (D.as_medium disk.new).faults }
        ensures covers { OnOk result (Covers self.new at size) }
        ensures shows { OnOk result (Shows (D.as_medium disk.new) self.new) }
    {
        if self.has(at, size) {
            return Ok(());
        }
        let next = size.max(PIECE.min(len - at));
        if self.bytes.resize(next as usize, 0).is_err() {
            return Err(DiskErr::NoMemory);
        }
        self.from = at;
        disk.read(at, self.bytes.as_mut_slice())
    }

    /// Whether a range is there.
    fn has(&self, at: u64, size: u64) -> bool
        requires { at + size ≤ 18446744073709551615 }
        ensures { IsTrue result → Covers self.now at size }
    {
        self.from <= at && at - self.from + size <= self.bytes.len() as u64
    }

    /// The bytes of a range that is there.
    pub fn slice(&self, at: u64, size: u64) -> &[u8]
        requires { Covers self.now at size }
        ensures long { length result.now ≡ size }
        ensures part { (bytes : List ℕ) → IsPartOf bytes self.now → result.now ≡ take size (drop at bytes) }
    {
        let start = (at - self.from) as usize;
        &self.bytes.as_slice()[start..start + size as usize]
    }
}
