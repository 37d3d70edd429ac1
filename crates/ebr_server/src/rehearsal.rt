//! A rehearsal: its order and its scripts are read, its sinks made, its journal opened and its sessions run.

ghost use Rattle.std.specs.Prelude.{◌≡◌, ◌-◌, ◌<◌, ◌≤◌, ◌⊎◌, ℕ, List, [], ◌∷◌, false, None, Option, Some, length, map, All, IfErr, IfOk, IfSome, IsSome, IsSomeAnd, OnOk, is_some};
ghost use Rattle.ebr_faults.specs.Faults.{Rises};
ghost use Rattle.ebr_order.specs.Order.{Order};
ghost use Rattle.ebr_words.specs.declared.words.Command.TheVariants.{Rehearse};
ghost use Rattle.ebr_startup.specs.Opened.{Unopened};
ghost use Rattle.ebr_server.specs.Disks.{DiskStops, IsEntry, NeedsNone, RanOver};
ghost use Rattle.ebr_server.specs.Program.{CallsInOrder, IsReadFault, SessionsPaced, Stops, before_rehearsal, journal_place, order_of_work, outside, own_fault, source_at, word_at};
ghost use Rattle.ebr_server.specs.inside.Opened.{AreBack, AreTurns, IsPrepared, OrderStops, StopsOver, with_steps};
ghost use Rattle.ebr_worker.specs.Paced.{IsSession, Paced};
ghost use Rattle.ebr_worker.specs.Ends.{Job};
ghost use Rattle.ebr_worker.specs.Runs.{AreEnds, IsUnwritten};
ghost use Rattle.ebr_core.specs.History.{Legal};
ghost use Rattle.ebr_core.specs.Machine.{Build};

use crate::exit::ExitCode;
use crate::opened::{
    Halt, Stop, Unused, open_disk, read_word, with_disk, with_sinks, without_sinks, without_source,
};
use crate::over::{Ended, ended_over, open_engine};
use crate::read::MAX_SCRIPT;
use crate::scripts::begin_sessions;
use ebr_base::{Bytes, List, SessionId};
use ebr_order::{OrderErr, read_order};
use ebr_outside::{Disk, Host, Sink};
use ebr_worker::{Sessions, run_sessions};
use std::alloc::Global;

/// The place of an order's word.
const ORDER: u32 = 2;

/// The place of the first script's word.
const FIRST_SCRIPT: u32 = 3;

/// Sessions that are to run, and the turns of their order.
pub struct Prepared<S: Sink> {
    pub sessions: Sessions<S>,
    pub turns: List<SessionId>,
}

/// The sinks of sessions that don't run.
fn sinks_of<S: Sink>(prepared: Prepared<S>) -> Vec<S>
    ensures { AreBack S.word S.held S.faults (map (λ (j : Job). j.word) prepared.sessions) result.items }
{
    let Prepared {
        sessions,
        turns: _turns,
    } = prepared;
    sessions.into_sinks()
}

/// Runs the scripts by the order, over the journal.
pub fn rehearsed<H: Host>(
    alloc: Global,
    words: &[Bytes],
    host: &mut H,
) -> Result<Ended<H::Sink, H::Disk>, Stop<H::Source, H::Sink, H::Disk>>
    requires some { 3 ≤ length words.now }
    requires few { length words.now ≤ 35 }
    ensures ran { IfOk result (λ r. SessionsPaced (outside (H.bytes host.old) (H.disk_bytes host.old) H.Sink.word H.Sink.held H.Sink.faults H.Disk.as_medium) words.now r.recovered r.history r.ends r.disk) }
    ensures stops { IfErr result (λ stop. Stops (Some Rehearse) (H.bytes host.old) words.now (Rises (H.faults host.old) (H.faults host.new) ⊎ IsSomeAnd stop.halt.source (λ s. 0 < H.Source.faults s)) stop.halt.code) }
    ensures source { IfErr result (λ stop. IfSome stop.halt.source (λ s. IsReadFault stop.halt.code words.now (H.Source.word s) × (0 < H.Source.faults s))) }
    ensures disk { IfErr result (λ stop. DiskStops Unopened H.Disk.as_medium (H.disk_bytes host.old (word_at words.now journal_place)) stop.halt.code stop.disk) }
    ensures opened { OnOk result (H.calls host.new ≡ with_steps (H.calls host.old) (order_of_work (Some Rehearse) words.now)) }
    ensures unwritten { IfErr result (λ stop. All (IsUnwritten H.Sink.held H.Sink.faults) stop.sinks) }
    ensures called { IfErr result (λ stop. CallsInOrder (H.calls host.old) (H.calls host.new) (order_of_work (Some Rehearse) words.now) (own_fault stop.halt.code stop.halt.source) (map H.Sink.word stop.sinks) (is_some stop.disk)) }
    ensures reports { H.reports host.new ≡ H.reports host.old }
{
    let prepared = match prepare(alloc, words, host) {
        Ok(prepared) => prepared,
        Err(stop) => return Err(stop),
    };
    match open_disk(words, host) {
        Ok(disk) => run_over(alloc, prepared, disk),
        Err(code) => Err(with_sinks(Unused {
            code,
            sinks: sinks_of(prepared),
        })),
    }
}

/// Reads the order and the scripts, makes the sinks, and begins the sessions.
fn prepare<H: Host>(
    alloc: Global,
    words: &[Bytes],
    host: &mut H,
) -> Result<Prepared<H::Sink>, Stop<H::Source, H::Sink, H::Disk>>
    requires some { 3 ≤ length words.now }
    requires few { length words.now ≤ 35 }
    ensures prepared { IfOk result (λ p. IsPrepared (H.bytes host.old) words.now p.sessions p.turns) }
    ensures stops { IfErr result (λ stop. Stops (Some Rehearse) (H.bytes host.old) words.now (Rises (H.faults host.old) (H.faults host.new) ⊎ IsSomeAnd stop.halt.source (λ s. 0 < H.Source.faults s)) stop.halt.code) }
    ensures source { IfErr result (λ stop. IfSome stop.halt.source (λ s. IsReadFault stop.halt.code words.now (H.Source.word s) × (0 < H.Source.faults s))) }
    ensures needs_none { IfErr result (λ stop. NeedsNone stop.halt.code) }
    ensures no_disk { IfErr result (λ stop. stop.disk ≡ None) }
    ensures unwritten { IfErr result (λ stop. All (IsUnwritten H.Sink.held H.Sink.faults) stop.sinks) }
    ensures same_disks { (w : List ℕ) → H.disk_bytes host.new w ≡ H.disk_bytes host.old w }
    ensures counted { H.faults host.old ≤ H.faults host.new }
    ensures opened { OnOk result (H.calls host.new ≡ with_steps (H.calls host.old) (before_rehearsal words.now)) }
    ensures called { IfErr result (λ stop. CallsInOrder (H.calls host.old) (H.calls host.new) (before_rehearsal words.now) (own_fault stop.halt.code stop.halt.source) (map H.Sink.word stop.sinks) false) }
    ensures reports { H.reports host.new ≡ H.reports host.old }
{
    let turns = match read_turns(alloc, words, host) {
        Ok(turns) => turns,
        Err(halt) => return Err(without_sinks(alloc, halt)),
    };
    match begin_sessions(alloc, words, FIRST_SCRIPT, host) {
        Ok(sessions) => Ok(Prepared { sessions, turns }),
        Err(stop) => Err(stop),
    }
}

/// Opens an engine over the disk, and runs the sessions.
fn run_over<C: Drop, S: Sink, D: Disk>(
    alloc: Global,
    prepared: Prepared<S>,
    disk: D,
) -> Result<Ended<S, D>, Stop<C, S, D>>
    requires few { length prepared.sessions ≤ 32 }
    requires turns { All (IsSession (length prepared.sessions)) prepared.turns }
    ensures ends { IfOk result (λ r. AreEnds S.held S.faults S.word prepared.sessions r.history r.ends) }
    ensures paced { IfOk result (λ r. Paced (length prepared.sessions) prepared.turns r.history) }
    ensures legal { IfOk result (λ r. Legal (Build r.recovered (length prepared.sessions)) r.history) }
    ensures disk { IfOk result (λ r. (told : Option (List ℕ)) → IsEntry D.as_medium told disk → RanOver D.as_medium told (length prepared.sessions) r.recovered r.history r.disk) }
    ensures stops { IfErr result (λ stop. (told : Option (List ℕ)) → IsEntry D.as_medium told disk → StopsOver Unopened D.as_medium told stop.halt.code stop.disk) }
    ensures source { IfErr result (λ stop. stop.halt.source ≡ None) }
    ensures back { IfErr result (λ stop. AreBack S.word S.held S.faults (map (λ (j : Job). j.word) prepared.sessions) stop.sinks) }
    ensures some_disk { IfErr result (λ stop. IsSome stop.disk) }
{
    let Prepared { sessions, turns } = prepared;
    match open_engine(alloc, disk, sessions.len() as u32) {
        Ok(engine) => Ok(ended_over(run_sessions(sessions, engine, turns.as_slice()))),
        Err(fruitless) => Err(with_disk(fruitless, sessions.into_sinks())),
    }
}

/// Reads the order.
fn read_turns<H: Host>(
    alloc: Global,
    words: &[Bytes],
    host: &mut H,
) -> Result<List<SessionId>, Halt<H::Source>>
    requires some { 3 ≤ length words.now }
    requires few { length words.now ≤ 35 }
    ensures read { IfOk result (λ turns. AreTurns (H.bytes host.old) words.now (length words.now - 3) turns) }
    ensures stops { IfErr result (λ halt. Stops (Some Rehearse) (H.bytes host.old) words.now (Rises (H.faults host.old) (H.faults host.new) ⊎ IsSomeAnd halt.source (λ s. 0 < H.Source.faults s)) halt.code) }
    ensures source { IfErr result (λ halt. IfSome halt.source (λ s. IsReadFault halt.code words.now (H.Source.word s) × (0 < H.Source.faults s))) }
    ensures no_disk { IfErr result (λ halt. NeedsNone halt.code) }
    ensures same { (w : List ℕ) → H.bytes host.new w ≡ H.bytes host.old w }
    ensures same_disks { (w : List ℕ) → H.disk_bytes host.new w ≡ H.disk_bytes host.old w }
    ensures counted { H.faults host.old ≤ H.faults host.new }
    ensures opened { OnOk result (H.calls host.new ≡ with_steps (H.calls host.old) (source_at words.now 2 ∷ [])) }
    ensures called { IfErr result (λ halt. CallsInOrder (H.calls host.old) (H.calls host.new) (source_at words.now 2 ∷ []) (own_fault halt.code halt.source) [] false) }
    ensures reports { H.reports host.new ≡ H.reports host.old }
{
    match read_word(alloc, words, ORDER, host) {
        Ok(order) => match turns_in(alloc, order.as_slice(), (words.len() - 3) as u32) {
            Ok(turns) => Ok(turns),
            Err(code) => Err(without_source(code)),
        },
        Err(halt) => Err(halt),
    }
}

/// The turns of an order.
fn turns_in(alloc: Global, order: &[u8], sessions: u32) -> Result<List<SessionId>, ExitCode>
    requires short { length order.now ≤ MAX_SCRIPT }
    ensures read { IfOk result (λ turns. Order sessions order.now turns) }
    ensures stops { IfErr result (λ code. OrderStops sessions order.now code) }
{
    match read_order(alloc, order, sessions) {
        Ok(turns) => Ok(turns),
        Err(OrderErr::Bad { at }) => Err(ExitCode::BadOrder { at }),
        Err(OrderErr::NoMemory) => Err(ExitCode::NoMemory),
    }
}
