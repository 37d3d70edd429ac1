//! An engine is opened over a disk.

ghost use Rattle.std.specs.Prelude.{◌≡◌, [], IfErr, IfOk, OnOk};
ghost use Rattle.ebr_journal.specs.Keeper.{as_keeper};
ghost use Rattle.ebr_journal.specs.Start.{BeforeDamage};
ghost use Rattle.ebr_core.specs.Recovered.{IsReady};
ghost use Rattle.ebr_recovery.specs.Recovery.{StandsAt};
ghost use Rattle.ebr_allowed.specs.Allowed.{AreAllowed};
ghost use Rattle.ebr_journal.specs.Found.{AreFit};
ghost use Rattle.ebr_core.specs.Engine.{no_books};
ghost use Rattle.ebr_startup.specs.declared.why.OpenWhy.TheVariants.{NoMemory as wants};
ghost use Rattle.ebr_startup.specs.Engines.{Opened};
ghost use Rattle.ebr_startup.specs.Opened.{Unopened};
ghost use Rattle.ebr_startup.specs.inside.Steps.{ComesBack, HasBegun, IsDamage, IsNoDamage, OverMark};
ghost use Rattle.ebr_startup.specs.inside.Unstarted.{IsUnstarted};

use crate::records::damage;
use crate::walk::recovered;
use crate::why::{OpenWhy, why_of};
use ebr_base::List;
use ebr_core::Engine;
use ebr_journal::{Found, Journal, StartFault, StartWhy, Upgraded};
use ebr_outside::Disk;
use ebr_record::Record;
use ebr_recovery::Recovery;
use std::alloc::Global;

/// A disk over which no engine was opened, and why.
#[derive(Drop)]
pub struct OpenFault<D: Disk> {
    pub disk: D,
    pub why: OpenWhy,
}

/// Opens an engine over a disk, with so many live sessions in the default edition of its records.
///
/// The disk is brought to rest, and where it is blank, a journal is made of it. Its records are gone through once: each is tested
/// behind those before it, and carried out. Then the mark of the long form is written, where it isn't there. From the end of the
/// first sync on a crash leaves the records that were there. A damaged file stays as it is.
///
/// `Damaged` comes exactly where the file is damaged, and `DiskFault` only where the disk counted a fault in this call.
pub fn open<D: Disk>(
    alloc: Global,
    disk: D,
    sessions: u32,
) -> Result<Engine<Upgraded<D>>, OpenFault<D>>
    ensures opened { IfOk result (λ e. Opened D.as_medium disk sessions e) }
    ensures unopened { IfErr result (λ fault. Unopened (D.as_medium disk) fault.why (D.as_medium fault.disk)) }
{
    match Journal::start(alloc, disk) {
        Ok((journal, found)) => over_journal(alloc, journal, found, sessions),
        Err(fault) => Err(unstarted(alloc, fault)),
    }
}

/// A disk whose journal wasn't started.
fn unstarted<D: Disk>(alloc: Global, fault: StartFault<D>) -> OpenFault<D>
    requires { BeforeDamage AreFit fault.why }
    ensures disk { result.disk ≡ fault.disk }
    ensures why { IsUnstarted fault.why result.why }
{
    let StartFault { disk, why } = fault;
    let why = cause(alloc, why);
    OpenFault { disk, why }
}

/// Why no engine is opened over a journal that wasn't started.
fn cause(alloc: Global, why: StartWhy) -> OpenWhy
    requires { BeforeDamage AreFit why }
    ensures { IsUnstarted why result }
{
    match why {
        StartWhy::DiskFault => OpenWhy::DiskFault,
        StartWhy::Damaged { at, before } => damage(alloc, at, &before),
        StartWhy::NoMemory => OpenWhy::NoMemory,
    }
}

/// An engine over a journal that was started with these records.
fn over_journal<D: Disk>(
    alloc: Global,
    journal: Journal<D>,
    found: Found,
    sessions: u32,
) -> Result<Engine<Upgraded<D>>, OpenFault<D>>
    requires fit { AreFit found }
    requires begun { HasBegun (as_keeper D.as_medium journal) found.records }
    ensures allowed { OnOk result (AreAllowed found.records) }
    ensures over { IfOk result (λ e. OverMark D.as_medium journal found.records sessions e) }
    ensures back { IfErr result (λ fault. ComesBack D.as_medium journal fault.why fault.disk) }
    ensures damage { IfErr result (λ fault. IsDamage journal found fault.why fault.disk) }
{
    match recovered(alloc, &found, sessions) {
        Ok(recovery) => {
            let Found { records, .. } = found;
            upgraded(alloc, journal, records, recovery, sessions)
        }
        Err(why) => Err(OpenFault {
            disk: journal.into_disk(),
            why,
        }),
    }
}

/// An engine over a journal that gets its mark.
fn upgraded<D: Disk>(
    alloc: Global,
    journal: Journal<D>,
    records: List<Record>,
    recovery: Recovery,
    sessions: u32,
) -> Result<Engine<Upgraded<D>>, OpenFault<D>>
    requires stands { StandsAt sessions records recovery }
    requires begun { HasBegun (as_keeper D.as_medium journal) records }
    ensures over { IfOk result (λ e. OverMark D.as_medium journal records sessions e) }
    ensures back { IfErr result (λ fault. ComesBack D.as_medium journal fault.why fault.disk) }
    ensures damage { IfErr result (λ fault. IsNoDamage fault.why) }
{
    let mut journal = journal;
    match journal.upgrade() {
        Ok(()) => engine(alloc, Upgraded::new(journal), records, recovery, sessions),
        Err(fault) => Err(OpenFault {
            disk: journal.into_disk(),
            why: why_of(fault),
        }),
    }
}

/// An engine over a journal with its mark.
fn engine<D: Disk>(
    alloc: Global,
    keeper: Upgraded<D>,
    records: List<Record>,
    recovery: Recovery,
    sessions: u32,
) -> Result<Engine<Upgraded<D>>, OpenFault<D>>
    requires stands { StandsAt sessions records recovery }
    requires ready { IsReady records (as_keeper D.as_medium keeper) }
    ensures engine { IfOk result (λ e. e ≡ record { history = []; recovered = records; books = no_books sessions; keeper = keeper }) }
    ensures disk { IfErr result (λ fault. fault.disk ≡ keeper.disk) }
    ensures why { IfErr result (λ fault. fault.why ≡ wants) }
{
    let Recovery {
        catalogue,
        transactions,
    } = recovery;
    match Engine::over(alloc, keeper, records, catalogue, transactions, sessions) {
        Ok(engine) => Ok(engine),
        Err(keeper) => Err(OpenFault {
            disk: keeper.into_journal().into_disk(),
            why: OpenWhy::NoMemory,
        }),
    }
}
