//! Whoever answers the asks of sessions.

ghost use Rattle.std.specs.Prelude.{◌≡◌, ◌<◌, ◌∷◌, ◌++◌, [], true, false, length};
ghost use Rattle.ebr_asks.specs.declared.ask.Ask.TheVariants.{Leave as leaves};
ghost use Rattle.ebr_units.specs.Served.{served};
ghost use Rattle.ebr_session.specs.Has.{IsFit, Suits, is_short};
ghost use Rattle.ebr_session.specs.Transcripts.{ends, exchange};
ghost use Rattle.ebr_core.specs.Engine.{entry_of};
ghost use Rattle.ebr_worker.specs.Ends.{AnswersLeave};
ghost use Rattle.ebr_worker.specs.Work.{Adds, MayAsk};

use crate::engine::answer;
use crate::limits::MAX_ASKS;
use ebr_asks::{Answer, Ask, Exchange};
use ebr_base::{SessionId, Shared};
use ebr_core::Engine;
use ebr_record::Keep;
use ebr_units::Book;

/// Answers the asks of sessions.
pub trait Asked {
    ghost use Rattle.std.specs.Prelude.{List};
    ghost use Rattle.ebr_base.specs.declared.numbers.SessionId.{SessionId as Number};
    ghost use Rattle.ebr_asks.specs.declared.ask.Ask.{Ask as Question};
    ghost use Rattle.ebr_asks.specs.declared.answer.Answer.{Answer as Given};
    ghost use Rattle.ebr_asks.specs.declared.entry.Exchange.{Exchange as Had};

    /// A session that has had these exchanges may make its next ask.
    ghost may_ask: { Self → Number → List Had → Type 0 };

    /// An ask of a session was answered so.
    ghost replied: { Self → Self → Number → Question → Given → Type 0 };

    /// Answers the next ask of a session, which has had these exchanges before. With a view comes the book of it.
    fn reply(
        &mut self,
        session: SessionId,
        before: &[Exchange],
        ask: Ask,
    ) -> (Answer, Option<Shared<Book>>)
        requires may { may_ask self.old session before.now }
        requires few { length before.now < MAX_ASKS }
        requires fit { IsFit ask }
        requires short { is_short before.now ≡ true → ask ≡ leaves }
        ensures suits { Suits (λ v e. served v) result.0 result.1 }
        ensures leave { ask ≡ leaves → AnswersLeave result.0 }
        ensures again { ends ask result.0 ≡ false → may_ask self.new session (before.now ++ exchange ask result.0 ∷ []) }
        ensures replied { replied self.old self.new session ask result.0 };
}

/// An engine that is asked by one thread.
impl<K: Keep> Asked for Engine<K> {
    ghost may_ask = { λ e s before. MayAsk e s before };

    ghost replied = { λ e f s q a. Adds K.as_keeper s (entry_of s q a) e f };

    fn reply(
        &mut self,
        session: SessionId,
        _before: &[Exchange],
        ask: Ask,
    ) -> (Answer, Option<Shared<Book>>) {
        answer(self, session, ask)
    }
}
