//! Asks that are answered at a turn.

ghost use Rattle.std.specs.Prelude.{◌≡◌, ◌<◌, true, length};
ghost use Rattle.ebr_asks.specs.declared.ask.Ask.TheVariants.{Leave as leaves};
ghost use Rattle.ebr_units.specs.Served.{served};
ghost use Rattle.ebr_session.specs.Has.{IsFit, Suits, is_short};
ghost use Rattle.ebr_worker.specs.Ends.{AnswersLeave};
ghost use Rattle.ebr_threads.specs.Booking.{IsAtChair, asked};

use crate::desk::{Desk, Naming};
use ebr_asks::{Answer, Ask, Exchange};
use ebr_base::{SessionId, Shared};
use ebr_outside::Gate;
use ebr_record::Keep;
use ebr_turn::{Booked, Chair, Turn};
use ebr_units::Book;
use ebr_worker::{Asked, MAX_ASKS};
use std::sync::Wait;

/// The turn of a run and a session's chair, which takes it behind the gate. From its taking until the answer is one event of the engine.
#[derive(Drop)]
pub struct AtTurn<'a, K: Keep, N: Naming, G: Gate, R: Wait>
where
    Desk<K, N>: Booked,
{
    pub rt: &'a R,
    pub turn: &'a Turn<Desk<K, N>>,
    pub gate: &'a G,
    pub chair: &'a mut Chair<Desk<K, N>>,
}

impl<K: Keep, N: Naming, G: Gate, R: Wait> Asked for AtTurn<'_, K, N, G, R> {
    ghost may_ask = { λ x s before. (x.chair.now.turn ≡ x.turn.now.id) × IsAtChair N.sessions s before x.chair.now.view };

    ghost replied = { λ x y s q a. (y.turn ≡ x.turn) × (y.chair.ghost_name ≡ x.chair.ghost_name) × (y.chair.now.turn ≡ x.chair.now.turn) × (y.chair.now.view ≡ asked x.chair.now.view q a) };

    fn reply(
        &mut self,
        session: SessionId,
        before: &[Exchange],
        ask: Ask,
    ) -> (Answer, Option<Shared<Book>>) {
        self.gate.pass(session, before.len() as u64 + 1);
        take_turn(self.rt, self.turn, self.chair, session, before, ask)
    }
}

/// Has one ask answered, when the chair's turn comes. The session is live, since its own list says so.
fn take_turn<K: Keep, N: Naming, R: Wait>(
    rt: &R,
    turn: &Turn<Desk<K, N>>,
    chair: &mut Chair<Desk<K, N>>,
    session: SessionId,
    before: &[Exchange],
    ask: Ask,
) -> (Answer, Option<Shared<Book>>)
    requires turn { chair.old.turn ≡ turn.now.id }
    requires may { IsAtChair N.sessions session before.now chair.old.view }
    requires few { length before.now < MAX_ASKS }
    requires fit { IsFit ask }
    requires short { is_short before.now ≡ true → ask ≡ leaves }
    ensures turn { chair.new.turn ≡ chair.old.turn }
    ensures suits { Suits (λ v e. served v) result.0 result.1 }
    ensures leave { ask ≡ leaves → AnswersLeave result.0 }
    ensures asked { chair.new.view ≡ asked chair.old.view ask result.0 }
{
    let _ = before;
    let mut desk = turn.enter(rt, chair);
    let (answer, book) = desk.answer(session, ask);
    turn.leave(chair, desk);
    (answer, book)
}
