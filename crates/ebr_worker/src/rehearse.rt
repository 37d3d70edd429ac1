//! A rehearsal: the sessions in their turns.

ghost use Rattle.std.specs.Prelude.{◌≡◌, ◌<◌, [], All, length};
ghost use Rattle.std.specs.List.{position};
ghost use Rattle.ebr_core.specs.Engine.{first_of};
ghost use Rattle.ebr_core.specs.Kept.{Kept};
ghost use Rattle.ebr_worker.specs.Paced.{IsSession, Paced};
ghost use Rattle.ebr_worker.specs.Rehearsal.{AllEnded, AllStand, jobs_of};
ghost use Rattle.ebr_worker.specs.inside.Rehearsal.{Rehearses, TurnedAt, goes_on};

use crate::engine::turn;
use crate::worker::Worker;
use ebr_base::SessionId;
use ebr_core::Engine;
use ebr_outside::Sink;
use ebr_record::Keep;

/// Runs the sessions of an engine by a written order, in which each number is a turn of that session, and then each to its end, the first one
/// first. A turn makes one entry; that of a session that has ended is skipped. What became of the keeper goes by what was answered: it
/// grew by all records that the asks make, or the engine gave up, and each record of an ask that was answered before is kept.
pub fn rehearse_core<K: Keep, S: Sink>(
    engine: &mut Engine<K>,
    workers: &mut [Worker<S>],
    order: &[SessionId],
)
    requires stand { AllStand workers.old engine.old }
    requires first { engine.old.history ≡ [] }
    requires order { All (IsSession (length workers.old)) order.now }
    ensures paced { Paced (length workers.old) order.now engine.new.history }
    ensures ended { AllEnded workers.new engine.new }
    ensures jobs { jobs_of workers.new ≡ jobs_of workers.old }
    ensures sessions { length engine.new.books ≡ length engine.old.books }
    ensures recovered { engine.new.recovered ≡ engine.old.recovered }
    ensures kept { Kept (K.as_keeper engine.old.keeper) (K.as_keeper engine.new.keeper) (first_of engine.new) engine.new.history }
{
    take_turns(engine, workers, order);
    while let Some(at) = first_working(workers) {
        turn_at(engine, workers, at);
    }
}

/// Takes the turns of an order.
fn take_turns<K: Keep, S: Sink>(
    engine: &mut Engine<K>,
    workers: &mut [Worker<S>],
    order: &[SessionId],
)
    requires stand { AllStand workers.old engine.old }
    requires first { engine.old.history ≡ [] }
    requires order { All (IsSession (length workers.old)) order.now }
    ensures { Rehearses K.as_keeper order.now [] workers.old workers.new engine.old engine.new }
{
    for session in order {
        turn_at(engine, workers, session.0 as usize - 1);
    }
}

/// A turn of the session at a place.
fn turn_at<K: Keep, S: Sink>(engine: &mut Engine<K>, workers: &mut [Worker<S>], at: usize)
    requires stand { AllStand workers.old engine.old }
    requires within { at < length workers.old }
    ensures { TurnedAt K.as_keeper at workers.old workers.new engine.old engine.new }
{
    turn(&mut workers[at], engine);
}

/// The place of the first session that hasn't ended.
fn first_working<S: Sink>(workers: &[Worker<S>]) -> Option<usize>
    ensures { result ≡ position goes_on workers.now }
{
    workers.iter().position(|worker| worker.end().is_none())
}
