//! The reply to a Leave.

ghost use Rattle.ebr_asks.specs.declared.answer.Answer.TheVariants.{Done};
ghost use Rattle.ebr_asks.specs.declared.ask.Ask.TheVariants as asks;
ghost use Rattle.ebr_core.specs.Machine as spec;
ghost use Rattle.ebr_core.specs.inside.Held.{ForSession, IsHeld, IsReplied};

use crate::current::Current;
use ebr_asks::{Answer, Ask};
use ebr_base::SessionId;
use ebr_record::Keep;
use ebr_seats::{count_ask, leave};

/// A live session leaves, which is counted too. It takes no memory.
pub fn counted_leave<K: Keep>(current: &mut Current<K>, s: SessionId)
    requires { IsHeld K.as_keeper current.old s }
    ensures { ForSession K.as_keeper current.old s (λ db e x. IsReplied K.as_keeper current.old current.new Done (spec.Reply db s asks.Leave)) }
{
    leave(&mut current.world.tx, &mut current.seats, s);
    count_ask(&mut current.seats, s, &Ask::Leave, &Answer::Done);
}
