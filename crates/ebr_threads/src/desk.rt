//! What the turn holds.

ghost use Rattle.std.specs.Prelude.{◌≡◌, true, length};
ghost use Rattle.ebr_asks.specs.declared.ask.Ask.TheVariants.{Leave as leaves};
ghost use Rattle.ebr_session.specs.Has.{IsFit};
ghost use Rattle.ebr_core.specs.Engine.{database_of};
ghost use Rattle.ebr_core.specs.History.{IsLive, is_short};
ghost use Rattle.ebr_worker.specs.Paced.{IsSession};
ghost use Rattle.ebr_worker.specs.Replies.{Replies};
ghost use Rattle.ebr_threads.specs.Booking.{IsOfRun};

use ebr_asks::{Answer, Ask, Exchange};
use ebr_base::{SessionId, Shared};
use ebr_core::Engine;
use ebr_record::Keep;
use ebr_turn::Booked;
use ebr_units::Book;
use ebr_worker::answer;
use std::marker::{Brand, Model, PhantomData};

/// What a run names: the records that were recovered, the number of sessions, and the keeper with which the sessions began. Each run
/// picks its own.
pub trait Naming {
    ghost use Rattle.std.specs.Prelude.{ℕ, List};
    ghost use Rattle.ebr_record.specs.declared.record.Record.{Record};
    ghost use Rattle.ebr_record.specs.Keeper.{Keeper};

    ghost recovered: { List Record };

    ghost sessions: { ℕ };

    ghost keeper: { Keeper };
}

impl Naming for Brand {
    ghost use Rattle.std.specs.Prelude.{[], None, false};

    ghost recovered = { [] };

    ghost sessions = { 0 };

    ghost keeper = { record { records = None; used = 0; faults = 0; stopped = false; moment = 0; tells = false; may_leave = λ t l. Unit {0} } };
}

/// The engine of a run. It keeps that the history is legal, which sessions live, and what the keeper has kept since the run began.
#[derive(Drop)]
pub struct Desk<K: Keep, N: Naming> {
    engine: Engine<K>,
    of: PhantomData<N>,
}

impl<K: Keep, N: Naming> Model for Desk<K, N> {
    ghost use Rattle.std.specs.Coded.{codes};
    ghost use Rattle.ebr_asks.specs.contracts.ask.Ask as a;
    ghost use Rattle.ebr_asks.specs.contracts.entry.Entry as x;
    ghost use Rattle.ebr_ast.specs.contracts.view.EditionView as v;
    ghost use Rattle.ebr_record.specs.contracts.record.Record as r;
    ghost use Rattle.ebr_core.specs.Engine.{EngineState};
    ghost use Rattle.ebr_threads.specs.Booking.{IsOfRun};

    ghost Value = { EngineState K };

    ghost coded = { Prim.hlevel (codes, a.the_row.coded, x.the_row.coded, r.the_row.coded, v.the_row.coded, K.code) };

    ghost view = { λ d. d.engine };

    ghost invariant = { λ d. IsOfRun K.as_keeper N.recovered N.sessions N.keeper d.engine };
}

/// It stands for its history: each session's number with its exchange.
impl<K: Keep, N: Naming> Booked for Desk<K, N> {
    ghost use Rattle.ebr_threads.specs.Booking.{book};

    type Item = Exchange;

    ghost booked = { λ d. book d.history };
}

impl<K: Keep, N: Naming> Desk<K, N> {
    /// The engine goes into the turn.
    pub fn new(engine: Engine<K>) -> Desk<K, N>
        requires { IsOfRun K.as_keeper N.recovered N.sessions N.keeper engine }
        ensures { result ≡ engine }
    {
        Desk {
            engine,
            of: PhantomData,
        }
    }

    /// Answers an ask of a live session in one step of the machine. With a view comes the book of it.
    pub fn answer(&mut self, session: SessionId, ask: Ask) -> (Answer, Option<Shared<Book>>)
        requires seat { IsOfRun K.as_keeper N.recovered N.sessions N.keeper self.old → IsSession (length self.old.books) session }
        requires live { IsOfRun K.as_keeper N.recovered N.sessions N.keeper self.old → IsLive (database_of self.old) session }
        requires fit { IsFit ask }
        requires short { is_short self.old.history session ≡ true → ask ≡ leaves }
        ensures { Replies K.as_keeper self.old self.new session ask result.0 result.1 }
    {
        answer(&mut self.engine, session, ask)
    }

    /// The engine comes out of the turn.
    pub fn into_engine(self) -> Engine<K>
        ensures same { result ≡ self }
        ensures run { IsOfRun K.as_keeper N.recovered N.sessions N.keeper result }
    {
        let Desk { engine, .. } = self;
        engine
    }
}
