//! How a journal begins.

ghost use Rattle.std.specs.Prelude.{◌≡◌, IfErr, IfOk, IsTrue, IsErrOf};
ghost use Rattle.ebr_faults.specs.Faults.{Rises};
ghost use Rattle.ebr_outside.specs.Disk.{Goes, Stands};
ghost use Rattle.ebr_journal.specs.Found.{AreFit};
ghost use Rattle.ebr_journal.specs.Start.{BeforeDamage, IsFresh, Makes, Opened, Scans};

use crate::found::Found;
use crate::read::{Contents, Walked, found};
use ebr_outside::{Disk, DiskErr};
use std::alloc::Global;

/// Why a journal can't begin.
#[derive(Drop)]
pub enum StartWhy {
    /// The disk failed, and counted it.
    DiskFault,
    /// The file is damaged. This is the smallest place, and these are the records whose gates stand before it.
    Damaged { at: u64, before: Found },
    /// There was no memory.
    NoMemory,
}

impl From<DiskErr> for StartWhy {
    ghost use Rattle.ebr_journal.specs.Start.{why_of};

    ghost from_gives = { λ e why. why ≡ why_of e };

    fn from(error: DiskErr) -> StartWhy {
        match error {
            DiskErr::Failed => StartWhy::DiskFault,
            DiskErr::NoMemory => StartWhy::NoMemory,
        }
    }
}

/// Reads the records of a file, and writes nothing.
///
/// `Damaged` comes exactly where the file is damaged, and `DiskFault` only where the disk counted a fault in this call.
#[tactic(auto, using(crate::proofs::Reading::fit_of, crate::proofs::Reading::begun_fit))]
pub fn scan<D: Disk>(alloc: Global, disk: &mut D) -> Result<Found, StartWhy>
    ensures stands { Stands (D.as_medium disk.old) (D.as_medium disk.new) }
    ensures failed { IsErrOf result StartWhy.DiskFault → Rises (D.as_medium disk.old).faults (D.as_medium disk.new).faults }
    ensures scans { IsTrue (D.as_medium disk.old).tells → Scans (D.as_medium disk.old).reads result }
    ensures fit { IfOk result AreFit }
    ensures damaged { IfErr result (BeforeDamage AreFit) }
{
    match found(alloc, disk)? {
        Contents::Blank => Ok(Walked::begin(alloc).found),
        Contents::Journal(walked) => Ok(walked.found),
        Contents::Damaged(at, before) => Err(StartWhy::Damaged { at, before }),
    }
}

/// A start that failed hands the disk back.
#[derive(Drop)]
pub struct StartFault<D: Disk> {
    pub disk: D,
    pub why: StartWhy,
}

/// Brings the disk to rest, reads it, and makes a journal of a blank file.
pub fn open<D: Disk>(alloc: Global, disk: &mut D) -> Result<Walked, StartWhy>
    ensures goes { Goes (D.as_medium disk.old) (D.as_medium disk.new) }
    ensures failed { IsErrOf result StartWhy.DiskFault → Rises (D.as_medium disk.old).faults (D.as_medium disk.new).faults }
    ensures opened { Opened (D.as_medium disk.old) result (D.as_medium disk.new) }
{
    disk.sync()?;
    match found(alloc, disk)? {
        Contents::Blank => {
            make(disk)?;
            Ok(Walked::begin(alloc))
        }
        Contents::Journal(walked) => Ok(walked),
        Contents::Damaged(at, before) => Err(StartWhy::Damaged { at, before }),
    }
}

/// Makes a journal of a blank file. At each moment a crash leaves a blank file, or a journal with no records.
fn make<D: Disk>(disk: &mut D) -> Result<(), DiskErr>
    ensures goes { Goes (D.as_medium disk.old) (D.as_medium disk.new) }
    ensures failed { IsErrOf result DiskErr.Failed → Rises (D.as_medium disk.old).faults (D.as_medium disk.new).faults }
    ensures makes { IsTrue (D.as_medium disk.old).tells → IsFresh (D.as_medium disk.old) → Makes (D.as_medium disk.old) result (D.as_medium disk.new) }
{
    disk.cut(0)?;
    disk.sync()?;
    disk.write_at(0, &[0])?;
    disk.sync()?;
    disk.write_at(1, &[0])?;
    disk.sync()?;
    disk.write_at(0, &[1])?;
    disk.sync()
}
