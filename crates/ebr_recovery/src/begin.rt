//! An engine over records.

ghost use Rattle.std.specs.Prelude.{[], ℕ, All, Ok};
ghost use Rattle.ebr_core.specs.Recovered.{IsReady};
ghost use Rattle.ebr_recovery.specs.Recovery.{Begins, HasRoom, IsRecovery, RecoversAll, StandsAt};

use crate::fault::ListFault;
use crate::held::value_if_done;
use crate::recovery::Recovery;
use ebr_base::{List, NoMemory};
use ebr_core::Engine;
use ebr_record::{Keep, Record};
use std::alloc::Global;

/// What is left of an engine that didn't begin: its keeper, and why.
#[derive(Drop)]
pub struct Unbegun<K> {
    pub keeper: K,
    pub why: ListFault,
}

/// An engine over the database of these records, with so many live sessions in its default edition, where each record is allowed
/// behind those before it. The keeper has kept them, and keeps what comes behind them.
pub fn begin_with<K: Keep>(
    alloc: Global,
    keeper: K,
    records: List<Record>,
    sessions: u32,
) -> Result<Engine<K>, Unbegun<K>>
    requires room { All HasRoom records }
    requires ready { IsReady records (K.as_keeper keeper) }
    ensures { Begins keeper records sessions result }
{
    match recovered(alloc, records.as_slice(), sessions) {
        Ok(recovery) => begin_over(alloc, keeper, records, recovery, sessions),
        Err(why) => Err(Unbegun { keeper, why }),
    }
}

/// An engine over what was recovered.
fn begin_over<K: Keep>(
    alloc: Global,
    keeper: K,
    records: List<Record>,
    recovery: Recovery,
    sessions: u32,
) -> Result<Engine<K>, Unbegun<K>>
    requires recovers { RecoversAll sessions records (Ok recovery) }
    requires ready { IsReady records (K.as_keeper keeper) }
    ensures { Begins keeper records sessions result }
{
    let Recovery {
        catalogue,
        transactions,
    } = recovery;
    match Engine::over(alloc, keeper, records, catalogue, transactions, sessions) {
        Ok(engine) => Ok(engine),
        Err(keeper) => Err(Unbegun {
            keeper,
            why: ListFault::NoMemory,
        }),
    }
}

/// The recovery of records.
fn recovered(alloc: Global, records: &[Record], sessions: u32) -> Result<Recovery, ListFault>
    requires { All HasRoom records.now }
    ensures { RecoversAll sessions records.now result }
{
    match Recovery::new(alloc, sessions) {
        Ok(recovery) => extended(alloc, recovery, records),
        Err(NoMemory) => Err(ListFault::NoMemory),
    }
}

/// A recovery of no record, extended by these.
fn extended(alloc: Global, recovery: Recovery, records: &[Record]) -> Result<Recovery, ListFault>
    requires first { IsRecovery recovery }
    requires room { All HasRoom records.now }
    ensures { (sessions : ℕ) → StandsAt sessions [] recovery → RecoversAll sessions records.now result }
{
    let mut recovery = recovery;
    let done = recovery.extend(alloc, records);
    value_if_done(recovery, done)
}
