//! An engine over the journal's disk, and what sessions over it came to.

ghost use Rattle.std.specs.Prelude.{◌≡◌, ◌≤◌, ℕ, List, Option, Some, IfErr, IfOk};
ghost use Rattle.ebr_startup.specs.Engines.{Opened};
ghost use Rattle.ebr_startup.specs.Opened.{Unopened};
ghost use Rattle.ebr_server.specs.Disks.{IsEntry};
ghost use Rattle.ebr_server.specs.inside.Opened.{StopsOver};

use crate::codes::code_of_open;
use crate::opened::Fruitless;
use ebr_asks::Entry;
use ebr_base::List;
use ebr_core::Engine;
use ebr_journal::Upgraded;
use ebr_outside::{Disk, Sink};
use ebr_record::Record;
use ebr_report::SessionEnd;
use ebr_startup::open;
use ebr_worker::{Rehearsed, keeper_of};
use std::alloc::Global;

/// What sessions over a journal came to.
#[derive(Drop)]
pub struct Ended<S, D> {
    pub ends: List<SessionEnd<S>>,
    /// The records with which the history began.
    pub recovered: List<Record>,
    pub history: List<Entry>,
    pub disk: D,
}

/// Opens an engine over the disk, for so many sessions.
pub fn open_engine<D: Disk>(
    alloc: Global,
    disk: D,
    sessions: u32,
) -> Result<Engine<Upgraded<D>>, Fruitless<D>>
    ensures opened { IfOk result (λ e. Opened D.as_medium disk sessions e) }
    ensures stops { IfErr result (λ stop. (told : Option (List ℕ)) → IsEntry D.as_medium told disk → StopsOver Unopened D.as_medium told stop.code (Some stop.disk)) }
{
    match open(alloc, disk, sessions) {
        Ok(engine) => Ok(engine),
        Err(fault) => Err(Fruitless {
            code: code_of_open(fault.why),
            disk: fault.disk,
        }),
    }
}

/// The disk of an engine that nobody asked.
pub fn disk_of<D: Disk>(engine: Engine<Upgraded<D>>) -> D
    ensures { result ≡ engine.keeper.disk }
{
    keeper_of(engine).into_journal().into_disk()
}

/// What sessions that have run came to, with the disk in place of its keeper.
pub fn ended_over<S: Sink, D: Disk>(ran: Rehearsed<Upgraded<D>, S>) -> Ended<S, D>
    ensures { result ≡ record { ends = ran.ends; recovered = ran.recovered; history = ran.history; disk = ran.keeper.disk } }
{
    let Rehearsed {
        ends,
        recovered,
        history,
        keeper,
    } = ran;
    Ended {
        ends,
        recovered,
        history,
        disk: keeper.into_journal().into_disk(),
    }
}
