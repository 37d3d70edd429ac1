//! A file that is kept over a crash.

ghost use Rattle.std.specs.Prelude.{◌≡◌, OnOk, OnErr};

use crate::disk::{Disk, DiskErr};
use ebr_faults::one_more;
use std::fs::File;
use std::io;
use std::io::ErrorKind;
use std::marker::Model;
use std::os::unix::fs::FileExt;

/// A file of the system as a disk. It tells no bytes: what the file holds, and what a crash leaves of it, is not claimed.
///
/// Each error of the system is a fault, and so are a read of bytes that aren't there, a write that begins behind the end and a cut
/// that would make the file longer.
#[derive(Drop)]
pub struct FileDisk {
    file: File,
    faults: u64,
}

impl Model for FileDisk {
    ghost use Rattle.ebr_outside.specs.Files.{FileState};

    ghost Value = { FileState };

    ghost view = { λ d. record { faults = d.faults } };
}

impl FileDisk {
    ghost use Rattle.std.specs.Prelude.{Ok, IfErr, MatchResult};
    ghost use Rattle.ebr_outside.specs.Files.{no_faults, one_fault_more};

    /// A file that can be read and written. A lock on it is held until the disk is dropped.
    pub fn new(file: File) -> FileDisk
        ensures { result ≡ no_faults }
    {
        FileDisk { file, faults: 0 }
    }

    /// The answer of a call of the system, which counts a fault where it failed.
    fn counted<T: Drop>(&mut self, done: io::Result<T>) -> Result<T, DiskErr>
        ensures ok { OnOk result (self.new ≡ self.old) }
        ensures err { OnErr result (self.new ≡ one_fault_more self.old) }
        ensures error { IfErr result (λ e. e ≡ DiskErr.Failed) }
    {
        match done {
            Ok(value) => Ok(value),
            Err(_) => {
                self.faults = one_more(self.faults);
                Err(DiskErr::Failed)
            }
        }
    }
}

impl Disk for FileDisk {
    ghost use Rattle.ebr_outside.specs.Files.{as_medium, one_fault_more};

    ghost as_medium = { as_medium };

    ghost read_is_left = { λ disk told. tt };

    ghost leaves_less = { λ disk t u image le left. tt };

    fn len(&mut self) -> Result<u64, DiskErr>
        ensures ok { OnOk result (self.new ≡ self.old) }
        ensures err { OnErr result (self.new ≡ one_fault_more self.old) }
    {
        let done = length(&self.file);
        self.counted(done)
    }

    fn read(&mut self, at: u64, into: &mut [u8]) -> Result<(), DiskErr>
        ensures ok { OnOk result (self.new ≡ self.old) }
        ensures err { OnErr result (self.new ≡ one_fault_more self.old) }
    {
        let done = self.file.read_exact_at(into, at);
        self.counted(done)
    }

    fn write_at(&mut self, at: u64, piece: &[u8]) -> Result<(), DiskErr>
        ensures ok { OnOk result (self.new ≡ self.old) }
        ensures err { OnErr result (self.new ≡ one_fault_more self.old) }
    {
        let done = write_within(&self.file, at, piece);
        self.counted(done)
    }

    fn cut(&mut self, len: u64) -> Result<(), DiskErr>
        ensures ok { OnOk result (self.new ≡ self.old) }
        ensures err { OnErr result (self.new ≡ one_fault_more self.old) }
    {
        let done = cut_within(&self.file, len);
        self.counted(done)
    }

    /// Brings the bytes and the length to the device; the file's times may stay behind.
    fn sync(&mut self) -> Result<(), DiskErr>
        ensures ok { OnOk result (self.new ≡ self.old) }
        ensures err { OnErr result (self.new ≡ one_fault_more self.old) }
    {
        let done = self.file.sync_data();
        self.counted(done)
    }
}

/// How many bytes a file has.
fn length(file: &File) -> io::Result<u64> {
    Ok(file.metadata()?.len())
}

/// Fails where a place lies behind a file's end.
fn test_place(file: &File, place: u64) -> io::Result<()> {
    if place > length(file)? {
        return Err(ErrorKind::InvalidInput.into());
    }
    Ok(())
}

/// Writes a piece at a place of a file.
fn write_within(file: &File, at: u64, piece: &[u8]) -> io::Result<()> {
    test_place(file, at)?;
    file.write_all_at(piece, at)
}

/// Cuts a file to a length.
fn cut_within(file: &File, len: u64) -> io::Result<()> {
    test_place(file, len)?;
    file.set_len(len)
}
