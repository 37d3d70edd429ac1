//! What keeps bytes over a crash.

ghost use Rattle.std.specs.Prelude.{◌≡◌, ℕ, ◌+◌, ◌≤◌, List, length, take, drop, IsTrue, IfOk, IsErrOf};
ghost use Rattle.ebr_faults.specs.Faults.{Rises};
ghost use Rattle.ebr_outside.specs.declared.disk.DiskErr.TheVariants.{NoMemory as WantOfMemory};
ghost use Rattle.ebr_outside.specs.Disk.{Medium, LeavesLess, LeavesNow, IsWithin, Stands, Writes, Shortens, Syncs};

use ebr_base::NoMemory;
use thiserror::Error;

/// Why a disk didn't do what it was asked to.
#[derive(Clone, Copy, Debug, PartialEq, Eq, Error)]
pub enum DiskErr {
    /// The disk failed, and counted it.
    #[error("the disk failed")]
    Failed,
    /// The allocator had no memory.
    #[error("out of memory")]
    NoMemory,
}

impl From<NoMemory> for DiskErr {
    ghost from_gives = { λ _ e. e ≡ WantOfMemory };

    fn from(_: NoMemory) -> DiskErr {
        DiskErr::NoMemory
    }
}

/// A file of bytes, and what a crash may leave of it.
///
/// `Failed` comes only where the count of faults rose in the call, or stands at its end. What is said of bytes and images holds
/// of a disk that tells them.
pub trait Disk: Drop {
    /// What it tells, and how often it has failed.
    ghost as_medium: { Self → Medium };

    /// Since a later moment a crash leaves no image that it doesn't leave since an earlier one.
    ghost leaves_less: { (disk : Self) → LeavesLess (as_medium disk) };

    /// How many bytes there are.
    fn len(&mut self) -> Result<u64, DiskErr>
        ensures length { IfOk result (λ n. IsTrue (as_medium self.old).tells → n ≡ length (as_medium self.old).reads) }
        ensures stands { Stands (as_medium self.old) (as_medium self.new) }
        ensures failed { IsErrOf result DiskErr.Failed → Rises (as_medium self.old).faults (as_medium self.new).faults };

    /// Reads the bytes of a range, which lies within the file, into a slice.
    fn read(&mut self, at: u64, into: &mut [u8]) -> Result<(), DiskErr>
        requires { IsWithin (as_medium self.old) (at + length into.old) }
        ensures bytes { IfOk result (λ _. IsTrue (as_medium self.old).tells
            → into.new ≡ take (length into.old) (drop at (as_medium self.old).reads)) }
        ensures stands { Stands (as_medium self.old) (as_medium self.new) }
        ensures failed { IsErrOf result DiskErr.Failed → Rises (as_medium self.old).faults (as_medium self.new).faults };

    /// Writes a piece over what is there, and past the end. Until the next sync that succeeds a crash may leave any bytes there.
    fn write_at(&mut self, at: u64, piece: &[u8]) -> Result<(), DiskErr>
        requires { IsWithin (as_medium self.old) at }
        ensures writes { Writes (as_medium self.old) at piece.now result (as_medium self.new) }
        ensures failed { IsErrOf result DiskErr.Failed → Rises (as_medium self.old).faults (as_medium self.new).faults };

    /// Cuts the file to a length.
    fn cut(&mut self, len: u64) -> Result<(), DiskErr>
        requires { IsWithin (as_medium self.old) len }
        ensures shortens { Shortens (as_medium self.old) len result (as_medium self.new) }
        ensures failed { IsErrOf result DiskErr.Failed → Rises (as_medium self.old).faults (as_medium self.new).faults };

    /// Brings the file to where a crash leaves it. Once it has succeeded a crash leaves what a read gives.
    fn sync(&mut self) -> Result<(), DiskErr>
        ensures syncs { Syncs (as_medium self.old) result (as_medium self.new) }
        ensures failed { IsErrOf result DiskErr.Failed → Rises (as_medium self.old).faults (as_medium self.new).faults };

    /// What a read gives is one of the images that a crash now may leave.
    ghost read_is_left: { (disk : Self) → IsTrue (as_medium disk).tells → LeavesNow (as_medium disk) (as_medium disk).reads };
}
