//! The records of a disk.

ghost use Rattle.std.specs.Prelude.{All, IfOk, IsTrue, IsErrOf};
ghost use Rattle.ebr_faults.specs.Faults.{Rises};
ghost use Rattle.ebr_outside.specs.Disk.{Stands};
ghost use Rattle.ebr_record.specs.Payload.{HasPayload};
ghost use Rattle.ebr_journal.specs.Found.{AreFit};
ghost use Rattle.ebr_allowed.specs.Allowed.{AreAllowed};
ghost use Rattle.ebr_startup.specs.Read.{Reads};
ghost use Rattle.ebr_startup.specs.inside.Walk.{Damages, IsTested};

use crate::walk::recovered;
use crate::why::OpenWhy;
use ebr_base::List;
use ebr_journal::{Found, StartWhy, scan};
use ebr_outside::Disk;
use ebr_record::Record;
use std::alloc::Global;

/// Reads the records of a disk, each of which is allowed behind those before it, and writes nothing.
///
/// `Damaged` comes exactly where the file is damaged, and `DiskFault` only where the disk counted a fault in this call.
pub fn read<D: Disk>(alloc: Global, disk: &mut D) -> Result<List<Record>, OpenWhy>
    ensures stands { Stands (D.as_medium disk.old) (D.as_medium disk.new) }
    ensures failed { IsErrOf result OpenWhy.DiskFault → Rises (D.as_medium disk.old).faults (D.as_medium disk.new).faults }
    ensures reads { IsTrue (D.as_medium disk.old).tells → Reads (D.as_medium disk.old).reads result }
    ensures allowed { IfOk result AreAllowed }
    ensures payloads { IfOk result (λ records. All HasPayload records) }
{
    match scan(alloc, disk) {
        Ok(found) => tested(alloc, found),
        Err(StartWhy::DiskFault) => Err(OpenWhy::DiskFault),
        Err(StartWhy::Damaged { at, before }) => Err(damage(alloc, at, &before)),
        Err(StartWhy::NoMemory) => Err(OpenWhy::NoMemory),
    }
}

/// The records that were found, where each is allowed behind those before it.
fn tested(alloc: Global, found: Found) -> Result<List<Record>, OpenWhy>
    requires { AreFit found }
    ensures { IsTested found result }
{
    match recovered(alloc, &found, 0) {
        Ok(_) => {
            let Found { records, .. } = found;
            Ok(records)
        }
        Err(why) => Err(why),
    }
}

/// Why a file isn't opened that is damaged at a place: for that, or for a record before it that isn't allowed.
pub fn damage(alloc: Global, at: u64, before: &Found) -> OpenWhy
    requires { AreFit before.now }
    ensures { Damages before.now at result }
{
    match recovered(alloc, before, 0) {
        Ok(_) => OpenWhy::Damaged { at },
        Err(why) => why,
    }
}
