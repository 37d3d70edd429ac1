//! Goes through the records of a file, once.

ghost use Rattle.ebr_journal.specs.Found.{AreFit};
ghost use Rattle.ebr_startup.specs.inside.Walk.{IsWithin, Places, WalkedTo};

use crate::gate::gate_behind;
use crate::held::value_if_done;
use crate::why::OpenWhy;
use ebr_journal::Found;
use ebr_recovery::{ListFault, Recovery};
use std::alloc::Global;

/// The catalogue and the data of the records that were found, each of which is tested and carried out behind those before it.
pub fn recovered(alloc: Global, found: &Found, sessions: u32) -> Result<Recovery, OpenWhy>
    requires { AreFit found.now }
    ensures { WalkedTo sessions found.now result }
{
    let mut recovery = Recovery::new(alloc, sessions)?;
    let walked = recovery.extend(alloc, found.records.as_slice());
    let done = placed(found, walked);
    value_if_done(recovery, done)
}

/// What came of it, with the place of the record that isn't allowed.
fn placed(found: &Found, walked: Result<(), ListFault>) -> Result<(), OpenWhy>
    requires fit { AreFit found.now }
    requires within { IsWithin found.now.records walked }
    ensures { Places found.now walked result }
{
    match walked {
        Ok(()) => Ok(()),
        Err(ListFault::NotAllowed(count)) => Err(OpenWhy::Damaged {
            at: gate_behind(found, count),
        }),
        Err(ListFault::NoMemory) => Err(OpenWhy::NoMemory),
    }
}
