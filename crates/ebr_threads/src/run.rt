//! All sessions of an engine, each in a thread of its own.

ghost use Rattle.std.specs.Prelude.{◌≡◌, ◌<◌, ◌^◌, [], All, IfErr, IfOk, length, map};
ghost use Rattle.ebr_core.specs.Asked.{AreFit};
ghost use Rattle.ebr_core.specs.History.{Legal};
ghost use Rattle.ebr_core.specs.Kept.{Kept};
ghost use Rattle.ebr_core.specs.Machine.{Build};
ghost use Rattle.ebr_turn.specs.declared.view.Stage.TheVariants.{Idle};
ghost use Rattle.ebr_worker.specs.Ends.{Job};
ghost use Rattle.ebr_worker.specs.Rehearsal.{AllStand};
ghost use Rattle.ebr_worker.specs.Runs.{AreEnds, IsUnwritten};
ghost use Rattle.ebr_threads.specs.Booking.{IsOfRun, IsTold};
ghost use Rattle.ebr_threads.specs.Run.{AllTold, HasRun};
ghost use Rattle.ebr_threads.specs.Seating.{AllReady};

use crate::desk::{Desk, Naming};
use crate::seated::{Seated, seat_all, unseat_all, work};
use ebr_core::Engine;
use ebr_outside::{Gate, Sink};
use ebr_record::Keep;
use ebr_turn::{Chair, Turn, Unmade};
use ebr_worker::{Rehearsed, Sessions, Worker, results_of, sinks_of};
use std::alloc::{AllocError, Global};
use std::marker::Brand;
use std::sync::Wait;
use std::thread::Threads;

/// An engine of which no session has asked, and the sinks of the sessions, to which nothing is written.
#[derive(Drop)]
pub struct Unrun<K: Keep, S> {
    pub engine: Engine<K>,
    pub sinks: Vec<S>,
}

/// Runs sessions over an engine, each in a thread, whatever order the threads come to their turns in. What a session prints goes to its
/// sink. A session that finds no memory leaves, and its end says so. Where there is no memory to begin, no session has asked: the engine
/// comes back as it was given, and the sinks with nothing written to them.
pub fn run_threads<K, S, G, R>(
    rt: &R,
    alloc: Global,
    sessions: Sessions<S>,
    engine: Engine<K>,
    gate: &G,
) -> Result<Rehearsed<K, S>, Unrun<K, S>>
where
    K: Keep + Send,
    S: Sink + Send,
    G: Gate,
    R: Threads + Wait + Sync,
    requires first { engine.history ≡ [] }
    requires seats { length engine.books ≡ length sessions }
    requires few { length sessions < 2 ^ 31 }
    ensures legal { IfOk result (λ r. Legal (Build engine.recovered (length sessions)) r.history) }
    ensures fit { IfOk result (λ r. AreFit r.history) }
    ensures ends { IfOk result (λ r. AreEnds S.held S.faults S.word sessions r.history r.ends) }
    ensures recovered { IfOk result (λ r. r.recovered ≡ engine.recovered) }
    ensures kept { IfOk result (λ r. Kept (K.as_keeper engine.keeper) (K.as_keeper r.keeper) (Build engine.recovered (length sessions)) r.history) }
    ensures unmade { IfErr result (λ u. u.engine ≡ engine) }
    ensures words { IfErr result (λ u. map S.word u.sinks.items ≡ map (λ (j : Job). j.word) sessions) }
    ensures unwritten { IfErr result (λ u. All (IsUnwritten S.held S.faults) u.sinks.items) }
{
    let (mut workers, ends, sinks) = sessions.into_workers();
    match run_core(rt, alloc, engine, &mut workers, gate) {
        Ok(engine) => Ok(results_of(workers, ends, engine)),
        Err(unmade) => Err(Unrun {
            engine: unmade.value,
            sinks: sinks_of(workers, sinks),
        }),
    }
}

/// Runs the sessions of an engine, each in a thread. Whatever order the threads come to their turns in, the engine that comes back has one
/// legal history, and in it each session's exchanges are those of its worker. Where there is no memory to begin, no session has asked, and
/// the engine and the workers are as they were given.
pub fn run_core<K, S, G, R>(
    rt: &R,
    alloc: Global,
    engine: Engine<K>,
    workers: &mut Vec<Worker<S>>,
    gate: &G,
) -> Result<Engine<K>, Unmade<Engine<K>>>
where
    K: Keep + Send,
    S: Sink + Send,
    G: Gate,
    R: Threads + Wait + Sync,
    requires stand { AllStand workers.old.items engine }
    requires first { engine.history ≡ [] }
    requires few { length workers.old.items < 2 ^ 31 }
    ensures ran { IfOk result (λ e. HasRun K.as_keeper engine e workers.old.items workers.new.items) }
    ensures unmade { IfErr result (λ u. (u.value ≡ engine) × (workers.new.items ≡ workers.old.items)) }
{
    run_named::<K, S, G, Brand, R>(rt, alloc, engine, workers, gate)
}

/// The same for a run whose names are picked.
fn run_named<K, S, G, N, R>(
    rt: &R,
    alloc: Global,
    engine: Engine<K>,
    workers: &mut Vec<Worker<S>>,
    gate: &G,
) -> Result<Engine<K>, Unmade<Engine<K>>>
where
    K: Keep + Send,
    S: Sink + Send,
    G: Gate,
    N: Naming + Send + Sync,
    R: Threads + Wait + Sync,
    requires first { engine.history ≡ [] }
    requires few { length workers.old.items < 2 ^ 31 }
    requires ready { AllReady N.sessions workers.old.items }
    requires run { IsOfRun K.as_keeper N.recovered N.sessions N.keeper engine }
    ensures run { IfOk result (λ e. IsOfRun K.as_keeper N.recovered N.sessions N.keeper e) }
    ensures told { IfOk result (λ e. AllTold e.history workers.old.items workers.new.items) }
    ensures unmade { IfErr result (λ u. (u.value ≡ engine) × (workers.new.items ≡ workers.old.items)) }
{
    let mut seats: Vec<Seated<S, K, N>> = match Vec::with_capacity(alloc, workers.len()) {
        Ok(seats) => seats,
        Err(AllocError) => return Err(Unmade { value: engine }),
    };
    let desk: Desk<K, N> = Desk::new(engine);
    let (turn, mut first) = match Turn::new(alloc, desk, workers.len() as u32 + 1) {
        Ok(made) => made,
        Err(Unmade { value }) => {
            seats.destroy_empty();
            return Err(Unmade {
                value: value.into_engine(),
            });
        }
    };
    seat_all(&turn, &mut first, workers, &mut seats);
    work(rt, &turn, gate, &mut seats);
    unseat_all(&turn, &mut first, workers, seats);
    Ok(close(turn, first))
}

/// The engine comes back, and what each session sees of its history is the list of its chair.
fn close<K: Keep, N: Naming>(turn: Turn<Desk<K, N>>, last: Chair<Desk<K, N>>) -> Engine<K>
    requires turn { last.turn ≡ turn.id }
    requires idle { last.view.stage ≡ Idle }
    requires share { last.view.share ≡ turn.seats }
    requires first { turn.base ≡ [] }
    ensures told { IsTold result.history last.view }
    ensures run { IsOfRun K.as_keeper N.recovered N.sessions N.keeper result }
{
    turn.close(last).into_engine()
}
