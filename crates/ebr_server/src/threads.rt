//! A run: its scripts are read, its sinks made, its journal opened, and its sessions run in threads.

ghost use Rattle.std.specs.Prelude.{◌≡◌, ◌<◌, ◌≤◌, ◌⊎◌, ℕ, All, List, None, Option, Some, length, map, IfErr, IfOk, IfSome, IsSome, IsSomeAnd, OnOk, is_some};
ghost use Rattle.ebr_core.specs.History.{Legal};
ghost use Rattle.ebr_core.specs.Machine.{Build};
ghost use Rattle.ebr_faults.specs.Faults.{Rises};
ghost use Rattle.ebr_startup.specs.Opened.{Unopened};
ghost use Rattle.ebr_words.specs.declared.words.Command.TheVariants.{Run};
ghost use Rattle.ebr_worker.specs.Ends.{Job};
ghost use Rattle.ebr_worker.specs.Runs.{AreEnds, IsUnwritten};
ghost use Rattle.ebr_server.specs.Disks.{DiskStops, IsEntry, RanOver};
ghost use Rattle.ebr_server.specs.Program.{CallsInOrder, IsReadFault, SessionsRan, Stops, journal_place, order_of_work, outside, own_fault, word_at};
ghost use Rattle.ebr_server.specs.inside.Opened.{AreBack, StopsOver, with_steps};

use crate::exit::ExitCode;
use crate::opened::{Fruitless, Stop, Unused, open_disk, with_disk, with_sinks};
use crate::over::{Ended, disk_of, ended_over, open_engine};
use crate::scripts::begin_sessions;
use ebr_base::Bytes;
use ebr_outside::{Disk, Gate, Host, Sink};
use ebr_threads::run_threads;
use ebr_worker::Sessions;
use std::alloc::Global;
use std::sync::Wait;
use std::thread::Threads;

/// The place of the first script's word.
const FIRST_SCRIPT: u32 = 2;

/// Runs the scripts, each as a session in a thread, over the journal.
pub fn ran_in_threads<H: Host, R: Threads + Wait + Sync>(
    rt: &R,
    alloc: Global,
    words: &[Bytes],
    host: &mut H,
) -> Result<Ended<H::Sink, H::Disk>, Stop<H::Source, H::Sink, H::Disk>>
    requires some { 2 ≤ length words.now }
    requires few { length words.now ≤ 34 }
    ensures ran { IfOk result (λ r. SessionsRan (outside (H.bytes host.old) (H.disk_bytes host.old) H.Sink.word H.Sink.held H.Sink.faults H.Disk.as_medium) words.now 2 r.recovered r.history r.ends r.disk) }
    ensures stops { IfErr result (λ stop. Stops (Some Run) (H.bytes host.old) words.now (Rises (H.faults host.old) (H.faults host.new) ⊎ IsSomeAnd stop.halt.source (λ s. 0 < H.Source.faults s)) stop.halt.code) }
    ensures source { IfErr result (λ stop. IfSome stop.halt.source (λ s. IsReadFault stop.halt.code words.now (H.Source.word s) × (0 < H.Source.faults s))) }
    ensures disk { IfErr result (λ stop. DiskStops Unopened H.Disk.as_medium (H.disk_bytes host.old (word_at words.now journal_place)) stop.halt.code stop.disk) }
    ensures opened { OnOk result (H.calls host.new ≡ with_steps (H.calls host.old) (order_of_work (Some Run) words.now)) }
    ensures unwritten { IfErr result (λ stop. All (IsUnwritten H.Sink.held H.Sink.faults) stop.sinks) }
    ensures called { IfErr result (λ stop. CallsInOrder (H.calls host.old) (H.calls host.new) (order_of_work (Some Run) words.now) (own_fault stop.halt.code stop.halt.source) (map H.Sink.word stop.sinks) (is_some stop.disk)) }
    ensures reports { H.reports host.new ≡ H.reports host.old }
{
    let sessions = match begin_sessions(alloc, words, FIRST_SCRIPT, host) {
        Ok(sessions) => sessions,
        Err(stop) => return Err(stop),
    };
    match open_disk(words, host) {
        Ok(disk) => run_over(rt, alloc, sessions, disk, host.gate()),
        Err(code) => Err(with_sinks(Unused {
            code,
            sinks: sessions.into_sinks(),
        })),
    }
}

/// Opens an engine over the disk, and runs the sessions in threads.
fn run_over<C, S, D, G, R>(
    rt: &R,
    alloc: Global,
    sessions: Sessions<S>,
    disk: D,
    gate: &G,
) -> Result<Ended<S, D>, Stop<C, S, D>>
where
    C: Drop,
    S: Sink + Send,
    D: Disk + Send,
    G: Gate,
    R: Threads + Wait + Sync,
    requires few { length sessions ≤ 32 }
    ensures ends { IfOk result (λ r. AreEnds S.held S.faults S.word sessions r.history r.ends) }
    ensures legal { IfOk result (λ r. Legal (Build r.recovered (length sessions)) r.history) }
    ensures disk { IfOk result (λ r. (told : Option (List ℕ)) → IsEntry D.as_medium told disk → RanOver D.as_medium told (length sessions) r.recovered r.history r.disk) }
    ensures stops { IfErr result (λ stop. (told : Option (List ℕ)) → IsEntry D.as_medium told disk → StopsOver Unopened D.as_medium told stop.halt.code stop.disk) }
    ensures source { IfErr result (λ stop. stop.halt.source ≡ None) }
    ensures back { IfErr result (λ stop. AreBack S.word S.held S.faults (map (λ (j : Job). j.word) sessions) stop.sinks) }
    ensures some_disk { IfErr result (λ stop. IsSome stop.disk) }
{
    match open_engine(alloc, disk, sessions.len() as u32) {
        Ok(engine) => match run_threads(rt, alloc, sessions, engine, gate) {
            Ok(ran) => Ok(ended_over(ran)),
            Err(unrun) => Err(with_disk(
                Fruitless {
                    code: ExitCode::NoMemory,
                    disk: disk_of(unrun.engine),
                },
                unrun.sinks,
            )),
        },
        Err(fruitless) => Err(with_disk(fruitless, sessions.into_sinks())),
    }
}
