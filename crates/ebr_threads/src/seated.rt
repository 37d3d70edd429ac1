//! Workers at their chairs.

ghost use Rattle.std.specs.Prelude.{◌≡◌, ◌+◌, ◌^◌, ◌<◌, ◌≤◌, [], ◌∷◌, ◌++◌, All, IsSome, None, length, map, vec_len, vec_capacity};
ghost use Rattle.ebr_turn.specs.Chairs.{opener};
ghost use Rattle.ebr_turn.specs.declared.view.Stage.TheVariants.{Idle};
ghost use Rattle.ebr_threads.specs.Seating.{AllReady, AllWent, HasEnded, HasSat, IsReady, Sits, WentOn, list_by, workers_of};

use crate::at_turn::AtTurn;
use crate::desk::{Desk, Naming};
use ebr_outside::{Gate, Sink};
use ebr_record::Keep;
use ebr_turn::{Booked, Chair, Turn};
use ebr_worker::Worker;
use std::sync::Wait;
use std::thread;
use std::thread::Threads;

/// A worker at its chair.
pub struct Seated<S: Sink, K: Keep, N: Naming>
where
    Desk<K, N>: Booked,
{
    worker: Worker<S>,
    chair: Chair<Desk<K, N>>,
}

/// One turn of a worker that sits at its chair.
fn turn_at<S: Sink, K: Keep, N: Naming, G: Gate, R: Wait>(
    rt: &R,
    turn: &Turn<Desk<K, N>>,
    gate: &G,
    worker: &mut Worker<S>,
    chair: &mut Chair<Desk<K, N>>,
)
    requires sits { Sits turn.now.id N.sessions worker.old chair.old }
    requires runs { worker.old.end ≡ None }
    ensures sits { Sits turn.now.id N.sessions worker.new chair.new }
    ensures went { WentOn worker.old worker.new }
    ensures more { length worker.new.session.transcript ≡ length worker.old.session.transcript + 1 }
{
    worker.turn(&mut AtTurn {
        rt,
        turn,
        gate,
        chair,
    });
}

/// The worker runs its session to its end, at its chair. The chair's list is the session's transcript.
fn sit<S: Sink, K: Keep, N: Naming, G: Gate, R: Wait>(
    rt: &R,
    turn: &Turn<Desk<K, N>>,
    gate: &G,
    worker: &mut Worker<S>,
    chair: &mut Chair<Desk<K, N>>,
)
    requires { IsReady turn.now.id N.sessions worker.old chair.old }
    ensures went { WentOn worker.old worker.new }
    ensures sat { HasSat turn.now.id N.sessions worker.new chair.new }
{
    while worker.end().is_none() {
        turn_at(rt, turn, gate, worker, chair);
    }
}

/// All workers run, each in a thread of its own.
pub fn work<S, K, N, G, R>(
    rt: &R,
    turn: &Turn<Desk<K, N>>,
    gate: &G,
    seats: &mut Vec<Seated<S, K, N>>,
)
where
    S: Sink + Send,
    K: Keep + Send,
    N: Naming + Send + Sync,
    G: Gate,
    R: Threads + Wait + Sync,
    requires { All (λ x. IsReady turn.now.id N.sessions x.worker x.chair) seats.old.items }
    ensures len { length seats.new.items ≡ length seats.old.items }
    ensures went { AllWent (λ x. x.worker) seats.old.items seats.new.items }
    ensures sat { All (λ x. HasSat turn.now.id N.sessions x.worker x.chair) seats.new.items }
{
    let threads = seats.len().max(1);
    each(rt, turn, gate, seats.as_mut_slice(), threads);
}

fn each<S, K, N, G, R>(
    rt: &R,
    turn: &Turn<Desk<K, N>>,
    gate: &G,
    seats: &mut [Seated<S, K, N>],
    threads: usize,
)
where
    S: Sink + Send,
    K: Keep + Send,
    N: Naming + Send + Sync,
    G: Gate,
    R: Threads + Wait + Sync,
    requires threads { 0 < threads }
    requires ready { All (λ x. IsReady turn.now.id N.sessions x.worker x.chair) seats.old }
    ensures went { AllWent (λ x. x.worker) seats.old seats.new }
    ensures sat { All (λ x. HasSat turn.now.id N.sessions x.worker x.chair) seats.new }
{
    thread::for_each_mut(
        rt,
        seats,
        threads,
        &|_place: usize, seat: &mut Seated<S, K, N>|
            requires { IsReady turn.now.id N.sessions seat.now.worker seat.now.chair }
            ensures { (WentOn seat.entry.now.worker seat.exit.now.worker) × HasSat turn.entry.now.id N.sessions seat.exit.now.worker seat.exit.now.chair }
        { sit(rt, turn, gate, &mut seat.worker, &mut seat.chair) },
    );
}

/// Each worker gets a chair with its session's number, from the last one on.
pub fn seat_all<S: Sink, K: Keep, N: Naming>(
    turn: &Turn<Desk<K, N>>,
    first: &mut Chair<Desk<K, N>>,
    workers: &mut Vec<Worker<S>>,
    seats: &mut Vec<Seated<S, K, N>>,
)
    requires turn { first.old.turn ≡ turn.now.id }
    requires first { first.old.view ≡ opener [] (length workers.old.items + 1) }
    requires few { length workers.old.items < 2 ^ 31 }
    requires ready { AllReady N.sessions workers.old.items }
    requires empty { seats.old.items ≡ [] }
    requires room { length workers.old.items ≤ vec_capacity seats.old }
    ensures turn { first.new.turn ≡ first.old.turn }
    ensures first { (first.new.view.stage ≡ Idle) × (first.new.view.share ≡ 1) × (first.new.view.number ≡ None) × (first.new.view.kept ≡ []) }
    ensures workers { (workers.new.items ≡ []) × (length workers.old.items ≤ vec_capacity workers.new) }
    ensures count { length seats.new.items ≡ length workers.old.items }
    ensures seats { workers_of (λ x. x.worker) seats.new.items ≡ workers.old.items }
    ensures ready { All (λ x. IsReady turn.now.id N.sessions x.worker x.chair) seats.new.items }
{
    while let Some(worker) = workers.pop() {
        let chair = turn.split(first, worker.id().0);
        seats.push_reserved(Seated { worker, chair });
    }
}

/// Each worker goes back to its place, and its chair into the first one, which keeps its list.
pub fn unseat_all<S: Sink, K: Keep, N: Naming>(
    turn: &Turn<Desk<K, N>>,
    first: &mut Chair<Desk<K, N>>,
    workers: &mut Vec<Worker<S>>,
    mut seats: Vec<Seated<S, K, N>>,
)
    requires turn { first.old.turn ≡ turn.now.id }
    requires first { (first.old.view.stage ≡ Idle) × (first.old.view.number ≡ None) × (first.old.view.kept ≡ []) }
    requires sat { All (λ x. HasSat turn.now.id N.sessions x.worker x.chair) seats.items }
    requires empty { workers.old.items ≡ [] }
    requires room { length seats.items ≤ vec_capacity workers.old }
    ensures turn { first.new.turn ≡ first.old.turn }
    ensures first { (first.new.view.stage ≡ Idle) × (first.new.view.number ≡ None) × (first.new.view.share ≡ first.old.view.share + length seats.items) }
    ensures workers { workers.new.items ≡ workers_of (λ x. x.worker) seats.items }
    ensures ended { All HasEnded workers.new.items }
    ensures kept { first.new.view.kept ≡ map list_by workers.new.items }
{
    while let Some(seat) = seats.pop() {
        let Seated { worker, chair } = seat;
        workers.push_reserved(worker);
        turn.join(first, chair);
    }
    seats.destroy_empty();
}
