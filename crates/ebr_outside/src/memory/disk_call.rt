//! The calls that a disk in memory keeps.

ghost use Rattle.std.specs.Prelude.{◌≡◌, take, if◌then◌else◌, OnOk, OnErr};
ghost use Rattle.ebr_outside.specs.Disk.{written};
ghost use Rattle.ebr_outside.specs.MemDisk.{reads_after};

use ebr_base::{Bytes, NoMemory};

/// A call that changed a disk, or may have.
#[derive(Debug, Drop)]
pub enum DiskCall {
    /// A piece was written, or the call failed.
    Write { at: u64, piece: Bytes, done: bool },
    /// The file was cut to a length, or the call failed.
    Cut { len: u64, done: bool },
    /// A sync succeeded.
    Sync,
}

impl DiskCall {
    /// Does the call to what a read gives. Without memory that stays as it is.
    pub fn apply(&self, bytes: &mut Vec<u8>) -> Result<(), NoMemory>
        ensures ok { OnOk result (bytes.new.items ≡ reads_after self.now bytes.old.items) }
        ensures err { OnErr result (bytes.new.items ≡ bytes.old.items) }
    {
        match self {
            DiskCall::Write { at, piece, done } => write_whole(bytes, *at, piece.as_slice(), *done),
            DiskCall::Cut { len, done } => {
                cut_whole(bytes, *len, *done);
                Ok(())
            }
            DiskCall::Sync => Ok(()),
        }
    }
}

/// Writes a piece, where that was done.
pub fn write_whole(bytes: &mut Vec<u8>, at: u64, piece: &[u8], done: bool) -> Result<(), NoMemory>
    ensures ok { OnOk result (bytes.new.items ≡ (if done then written bytes.old.items at piece.now else bytes.old.items)) }
    ensures err { OnErr result (bytes.new.items ≡ bytes.old.items) }
{
    if done {
        write_over(bytes, at, piece)
    } else {
        Ok(())
    }
}

/// Cuts to a length, where that was done.
pub fn cut_whole(bytes: &mut Vec<u8>, len: u64, done: bool)
    ensures { bytes.new.items ≡ (if done then take len bytes.old.items else bytes.old.items) }
{
    if done && len < bytes.len() as u64 {
        bytes.truncate(len as usize);
    }
}

/// Writes a piece over the bytes at a place, and behind their end. Without memory they stay as they are.
pub fn write_over(bytes: &mut Vec<u8>, at: u64, piece: &[u8]) -> Result<(), NoMemory>
    ensures ok { OnOk result (bytes.new.items ≡ written bytes.old.items at piece.now) }
    ensures err { OnErr result (bytes.new.items ≡ bytes.old.items) }
{
    let from = at.min(bytes.len() as u64) as usize;
    let over = piece.len().min(bytes.len() - from);
    bytes.extend_from_slice(&piece[over..])?;
    bytes[from..from + over].copy_from_slice(&piece[..over]);
    Ok(())
}
