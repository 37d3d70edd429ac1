//! Scripts that are run as sessions of an engine.

ghost use Rattle.std.specs.Prelude.{◌≡◌, ◌≤◌, [], All, IfOk, IfErr, IsSome, None, length, map, vec_capacity};
ghost use Rattle.ebr_core.specs.Asked.{AreFit};
ghost use Rattle.ebr_core.specs.Engine.{HasLegalHistory};
ghost use Rattle.ebr_core.specs.History.{Legal};
ghost use Rattle.ebr_core.specs.Kept.{Kept};
ghost use Rattle.ebr_core.specs.Machine.{Build};
ghost use Rattle.ebr_session.specs.Has.{most_bytes};
ghost use Rattle.ebr_worker.specs.Ends.{Job};
ghost use Rattle.ebr_worker.specs.Paced.{IsSession, Paced};
ghost use Rattle.ebr_worker.specs.Rehearsal.{AllEnded, jobs_of};
ghost use Rattle.ebr_worker.specs.Runs.{AreEnds, IsUnwritten, RanAlone};
ghost use Rattle.ebr_worker.specs.Work.{Works};
ghost use Rattle.ebr_worker.specs.inside.Rehearsal.{AreBegun, AreNew, RunsAlone, script_of};

use crate::engine::{empty_engine, turn};
use crate::rehearse::rehearse_core;
use crate::worker::Worker;
use ebr_asks::Entry;
use ebr_base::{Bytes, List, NoMemory, SessionId};
use ebr_core::Engine;
use ebr_outside::Sink;
use ebr_record::{Keep, Record};
use ebr_report::SessionEnd;
use ebr_session::Session;
use ebr_units::Book;
use std::alloc::Global;
use std::marker::Model;

/// Sessions that have just begun, one for each of these jobs, each with the sink of its word, and room for their ends and for their sinks.
#[derive(Drop)]
pub struct Sessions<S: Sink> {
    workers: Vec<Worker<S>>,
    ends: Vec<SessionEnd<S>>,
    sinks: Vec<S>,
}

impl<S: Sink> Model for Sessions<S> {
    ghost use Rattle.std.specs.Prelude.{List, vec_capacity};
    ghost use Rattle.ebr_worker.specs.Ends.{Job};
    ghost use Rattle.ebr_worker.specs.Rehearsal.{jobs_of};
    ghost use Rattle.ebr_worker.specs.inside.Rehearsal.{AreReady};

    ghost Value = { List Job };

    ghost view = { λ s. jobs_of s.workers.items };

    ghost invariant = { λ s. AreReady s.workers.items s.ends.items (vec_capacity s.ends) s.sinks.items (vec_capacity s.sinks) };
}

impl<S: Sink> Sessions<S> {
    /// How many there are.
    pub fn len(&self) -> usize
        ensures { result ≡ length self.now }
    {
        self.workers.len()
    }

    /// Their workers, and room for their ends and for their sinks.
    pub fn into_workers(self) -> (Vec<Worker<S>>, Vec<SessionEnd<S>>, Vec<S>)
        ensures begun { AreBegun self result.0.items }
        ensures empty { (result.1.items ≡ []) × (result.2.items ≡ []) }
        ensures room { length result.0.items ≤ vec_capacity result.1 }
        ensures room_for_sinks { length result.0.items ≤ vec_capacity result.2 }
    {
        let Sessions {
            workers,
            ends,
            sinks,
        } = self;
        (workers, ends, sinks)
    }

    /// Their sinks, where the sessions aren't to run. Nothing is written to them. That takes no memory.
    pub fn into_sinks(self) -> Vec<S>
        ensures words { map S.word result.items ≡ map (λ (j : Job). j.word) self }
        ensures unwritten { All (IsUnwritten S.held S.faults) result.items }
    {
        let (workers, _ends, sinks) = self.into_workers();
        sinks_of(workers, sinks)
    }
}

/// The sinks of workers whose sessions have just begun, for which there is room.
pub fn sinks_of<S: Sink>(workers: Vec<Worker<S>>, mut sinks: Vec<S>) -> Vec<S>
    requires begun { AreBegun (jobs_of workers.items) workers.items }
    requires empty { sinks.items ≡ [] }
    requires room { length workers.items ≤ vec_capacity sinks }
    ensures words { map S.word result.items ≡ map (λ (j : Job). j.word) (jobs_of workers.items) }
    ensures unwritten { All (IsUnwritten S.held S.faults) result.items }
{
    for worker in workers {
        sinks.push_reserved(worker.into_sink());
    }
    sinks
}

/// What sessions came to, in the order of their jobs; the records of the database with which they began; all asks in the order
/// in which they were answered; and the keeper.
#[derive(Drop)]
pub struct Rehearsed<K: Keep, S> {
    pub ends: List<SessionEnd<S>>,
    pub recovered: List<Record>,
    pub history: List<Entry>,
    pub keeper: K,
}

/// Begins the sessions of scripts, each with the sink of its place, and takes all memory that running them takes, but for what their asks
/// do. Where there is none, the sinks come back.
pub fn sessions_of<S: Sink>(
    alloc: Global,
    scripts: &[Bytes],
    sinks: Vec<S>,
) -> Result<Sessions<S>, Vec<S>>
    requires few { length scripts.now ≤ 32 }
    requires short { All (λ script. length script ≤ most_bytes) scripts.now }
    requires sinks { length sinks.items ≡ length scripts.now }
    requires unwritten { All (IsUnwritten S.held S.faults) sinks.items }
    ensures scripts { IfOk result (λ s. map (λ (j : Job). j.script) s ≡ scripts.now) }
    ensures words { IfOk result (λ s. map (λ (j : Job). j.word) s ≡ map S.word sinks.items) }
    ensures back { IfErr result (λ v. v ≡ sinks) }
{
    let Ok(prepared) = prepare(alloc, scripts) else {
        return Err(sinks);
    };
    let Prepared {
        sessions,
        workers,
        ends,
        room,
    } = prepared;
    Ok(Sessions {
        workers: seated(sessions, sinks, workers),
        ends,
        sinks: room,
    })
}

/// Sessions that have just begun, and room for their workers, for their ends and for their sinks.
struct Prepared<S: Sink> {
    sessions: Vec<Session<Book>>,
    workers: Vec<Worker<S>>,
    ends: Vec<SessionEnd<S>>,
    room: Vec<S>,
}

/// Begins the sessions of scripts, and makes room.
fn prepare<S: Sink>(alloc: Global, scripts: &[Bytes]) -> Result<Prepared<S>, NoMemory>
    requires few { length scripts.now ≤ 32 }
    requires short { All (λ script. length script ≤ most_bytes) scripts.now }
    ensures new { IfOk result (λ p. AreNew scripts.now p.sessions.items) }
    ensures empty { IfOk result (λ p. (p.workers.items ≡ []) × (p.ends.items ≡ []) × (p.room.items ≡ [])) }
    ensures room { IfOk result (λ p. (length scripts.now ≤ vec_capacity p.workers) × (length scripts.now ≤ vec_capacity p.ends) × (length scripts.now ≤ vec_capacity p.room)) }
{
    let ends = Vec::with_capacity(alloc, scripts.len())?;
    let room = Vec::with_capacity(alloc, scripts.len())?;
    let workers = Vec::with_capacity(alloc, scripts.len())?;
    let sessions = begin(alloc, scripts)?;
    Ok(Prepared {
        sessions,
        workers,
        ends,
        room,
    })
}

/// Runs sessions over an engine by a written order, and then each to its end, the first one first. What a session prints goes to its
/// sink. A session that finds no memory leaves, and its end says so.
pub fn run_sessions<K: Keep, S: Sink>(
    sessions: Sessions<S>,
    mut engine: Engine<K>,
    order: &[SessionId],
) -> Rehearsed<K, S>
    requires first { engine.history ≡ [] }
    requires seats { length engine.books ≡ length sessions }
    requires order { All (IsSession (length sessions)) order.now }
    ensures legal { Legal (Build engine.recovered (length sessions)) result.history }
    ensures fit { AreFit result.history }
    ensures ends { AreEnds S.held S.faults S.word sessions result.history result.ends }
    ensures paced { Paced (length sessions) order.now result.history }
    ensures recovered { result.recovered ≡ engine.recovered }
    ensures kept { Kept (K.as_keeper engine.keeper) (K.as_keeper result.keeper) (Build engine.recovered (length sessions)) result.history }
{
    let (mut workers, ends, _sinks) = sessions.into_workers();
    rehearse_core(&mut engine, workers.as_mut_slice(), order);
    results_of(workers, ends, engine)
}

/// What sessions came to that have all ended over an engine. There is room for their ends.
pub fn results_of<K: Keep, S: Sink>(
    workers: Vec<Worker<S>>,
    mut ends: Vec<SessionEnd<S>>,
    engine: Engine<K>,
) -> Rehearsed<K, S>
    requires ended { AllEnded workers.items engine }
    requires empty { ends.items ≡ [] }
    requires room { length workers.items ≤ vec_capacity ends }
    ensures ends { AreEnds S.held S.faults S.word (jobs_of workers.items) result.history result.ends }
    ensures recovered { result.recovered ≡ engine.recovered }
    ensures history { result.history ≡ engine.history }
    ensures keeper { result.keeper ≡ engine.keeper }
    ensures legal { HasLegalHistory engine }
    ensures fit { AreFit engine.history }
{
    for worker in workers {
        ends.push_reserved(worker.into_end());
    }
    let (recovered, history, keeper) = engine.into_parts();
    Rehearsed {
        ends: List::from_vec(ends),
        recovered,
        history,
        keeper,
    }
}

/// The sessions of scripts, in order.
fn begin(alloc: Global, scripts: &[Bytes]) -> Result<Vec<Session<Book>>, NoMemory>
    requires few { length scripts.now ≤ 32 }
    requires short { All (λ script. length script ≤ most_bytes) scripts.now }
    ensures { IfOk result (λ sessions. AreNew scripts.now sessions.items) }
{
    let mut sessions = Vec::new(alloc);
    for number in 0..scripts.len() {
        let script = scripts[number].as_slice();
        let session = Session::new(alloc, SessionId(number as u32 + 1), script)?;
        sessions.push(session)?;
    }
    Ok(sessions)
}

/// The workers of sessions that have just begun, each with the sink of its place. There is room for them.
fn seated<S: Sink>(
    sessions: Vec<Session<Book>>,
    sinks: Vec<S>,
    mut workers: Vec<Worker<S>>,
) -> Vec<Worker<S>>
    requires new { AreNew (map script_of sessions.items) sessions.items }
    requires sinks { length sinks.items ≡ length sessions.items }
    requires unwritten { All (IsUnwritten S.held S.faults) sinks.items }
    requires empty { workers.items ≡ [] }
    requires room { length sessions.items ≤ vec_capacity workers }
    ensures begun { AreBegun (jobs_of result.items) result.items }
    ensures scripts { map (λ (j : Job). j.script) (jobs_of result.items) ≡ map script_of sessions.items }
    ensures words { map (λ (j : Job). j.word) (jobs_of result.items) ≡ map S.word sinks.items }
{
    let mut rest = sessions.into_iter();
    for sink in sinks {
        let Some(session) = rest.next() else {
            return workers;
        };
        workers.push_reserved(Worker::new(session, sink));
    }
    workers
}

/// Runs a script as the one session of an empty database. Where there is no memory before it has begun, the sink comes back.
pub fn run_alone<S: Sink>(
    alloc: Global,
    script: &[u8],
    sink: S,
) -> Result<(SessionEnd<S>, List<Entry>), S>
    requires short { length script.now ≤ most_bytes }
    requires unwritten { IsUnwritten S.held S.faults sink }
    ensures ran { IfOk result (λ r. RanAlone S.held S.faults S.word (record { script = script.now; word = S.word sink }) r.1 r.0) }
    ensures back { IfErr result (λ s. s ≡ sink) }
{
    let Ok(session) = Session::new(alloc, SessionId(1), script) else {
        return Err(sink);
    };
    let Ok(mut engine) = empty_engine(alloc, 1) else {
        return Err(sink);
    };
    let mut worker = Worker::new(session, sink);
    run_out(&mut engine, &mut worker);
    let (_, history, _) = engine.into_parts();
    Ok((worker.into_end(), history))
}

/// Runs the one session to its end.
fn run_out<K: Keep, S: Sink>(engine: &mut Engine<K>, worker: &mut Worker<S>)
    requires works { Works worker.old engine.old }
    requires runs { worker.old.end ≡ None }
    requires first { engine.old.history ≡ [] }
    ensures alone { RunsAlone K.as_keeper worker.old worker.new engine.old engine.new }
    ensures ended { IsSome worker.new.end }
{
    while worker.end().is_none() {
        turn(worker, engine);
    }
}
