//! The transactions of its own that a call has open.

ghost use Rattle.std.specs.Prelude.{◌≡◌, IfOk};
ghost use Rattle.ebr_asks.specs.declared.ask.Ask as asked;
ghost use Rattle.ebr_calls.specs.Steps.{open_after};
ghost use Rattle.ebr_calls.specs.Levels.{OpensBy, OpensAt};

use ebr_asks::{Answer, Ask};
use ebr_base::NoMemory;
use ebr_machine::Next;

/// How many are open now, and behind the ask that is out, by its answer.
#[derive(Clone, Copy)]
pub struct Levels {
    pub now: u32,
    if_done: u32,
    otherwise: u32,
}

impl Levels {
    /// That so many are open, and no ask is out.
    pub fn of(now: u32) -> Levels
        ensures { result ≡ record { now = now; if_done = now; otherwise = now } }
    {
        Levels {
            now,
            if_done: now,
            otherwise: now,
        }
    }

    /// What the next ask may open or close. That 4,294,967,295 are open is want of memory.
    pub fn before(self, next: &Next) -> Result<Levels, NoMemory>
        ensures now { IfOk result (λ l. l.now ≡ self.now) }
        ensures moves { IfOk result (λ l. OpensAt next.now l) }
    {
        match next {
            Next::Ask(ask) => self.before_ask(ask),
            Next::Done(_) => Ok(self),
        }
    }

    fn before_ask(self, ask: &Ask) -> Result<Levels, NoMemory>
        ensures now { IfOk result (λ l. l.now ≡ self.now) }
        ensures moves { IfOk result (λ l. OpensBy ask.now l) }
    {
        let now = self.now;
        match ask {
            Ask::PushAuto => match now.checked_add(1) {
                Some(more) => Ok(Levels {
                    now,
                    if_done: more,
                    otherwise: now,
                }),
                None => Err(NoMemory),
            },
            Ask::PopAuto { .. } => {
                let fewer = now.saturating_sub(1);
                Ok(Levels {
                    now,
                    if_done: fewer,
                    otherwise: fewer,
                })
            }
            _ => Ok(Levels::of(now)),
        }
    }

    /// How many are open behind the ask that is out, with its answer.
    pub fn behind(self, answer: &Answer) -> u32
        ensures { (q : asked.Ask) → OpensBy q self → result ≡ open_after q answer.now self.now }
    {
        match answer {
            Answer::Done => self.if_done,
            _ => self.otherwise,
        }
    }
}
