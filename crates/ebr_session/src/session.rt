//! The session of a script.

ghost use Rattle.std.specs.Prelude.{◌≡◌, ◌≤◌, ℕ, [], ◌∷◌, ◌++◌, length, IfOk, IfSome, IsSome, OnErr, OnOk};
ghost use Rattle.std.specs.Prelude.{List as Sequence};
ghost use Rattle.std.specs.Option.{option_copied};
ghost use Rattle.ebr_asks.specs.declared.ask.Ask as asked;
ghost use Rattle.ebr_calls.specs.Continuation.{Continues};
ghost use Rattle.ebr_calls.specs.Courses.{Course, GoesOn, place, with_answer};
ghost use Rattle.ebr_session.specs.Has.{Advances, Follows, Suits, answered, begun, most_bytes, quitting};
ghost use Rattle.ebr_session.specs.inside.Holds as inside;
ghost use Rattle.ebr_session.specs.inside.Kept.{HasRoom, last_of};
ghost use Rattle.ebr_session.specs.inside.Requests.{rest_of};
ghost use Rattle.ebr_session.specs.inside.Stages.{Awaits, IsReady, here};
ghost use Rattle.ebr_session.specs.Transcripts as transcripts;

use crate::held::{put, twice, value_if_done};
use crate::next::NextAsk;
use crate::script::Script;
use crate::transcript::Transcript;
use crate::work::Work;
use ebr_asks::{Answer, Ask, Exchange};
use ebr_base::{Bytes, CloneIn, NoMemory, SessionId, Shared};
use ebr_code::CodeBook;
use std::alloc::Global;
use std::marker::Model;
use std::mem;

/// How many bytes a script may have.
pub const MOST_BYTES: usize = 1_048_576;

/// How a session stands.
#[derive(Clone, Copy)]
pub enum Phase {
    /// It runs its script.
    Working,
    /// It found no memory.
    Failed,
    /// It was answered that there is no memory, and Leave is its next ask.
    Leaving,
    /// It has quit, and Leave is its next ask.
    Quitting,
    /// It has ended.
    Over,
}

/// A session: a script at work. Its asks are made one by one, each by `advance`, and their answers are handed in by `take`.
/// Contracts see where it stands.
#[derive(Drop)]
pub struct Session<B: CodeBook + Drop> {
    alloc: Global,
    id: SessionId,
    script: Script,
    transcript: Transcript,
    printed: Bytes,
    /// After how many answers it quit.
    quit: Option<usize>,
    /// The ask that is out.
    out: Option<Ask>,
    phase: Phase,
    work: Work<B>,
    /// What came with the last answer.
    book: Option<Shared<B>>,
}

impl<B: CodeBook + Drop> Model for Session<B> {
    ghost use Rattle.std.specs.Coded.{codes};
    ghost use Rattle.ebr_asks.specs.contracts.ask.Ask as a;
    ghost use Rattle.ebr_asks.specs.contracts.entry.Exchange as x;
    ghost use Rattle.ebr_session.specs.Has.{Progress};
    ghost use Rattle.ebr_session.specs.inside.Holds.{Holds, out_of, is_over};

    ghost Value = { Progress };

    ghost coded = { Prim.hlevel (codes, a.the_row.coded, x.the_row.coded) };

    ghost view = { λ s. record { session = s.id; script = s.script.script; transcript = s.transcript.exchanges; printed = s.printed; quit = s.quit; out = out_of s.phase s.out; ended = is_over s.phase } };

    ghost invariant = { λ s. Holds B.answers s.phase s.out (record { session = s.id; script = s.script; transcript = s.transcript; printed = s.printed; quit = s.quit; work = s.work; book = s.book }) };
}

impl<B: CodeBook + Drop> Session<B> {
    /// A session that runs a script.
    pub fn new(alloc: Global, id: SessionId, script: &[u8]) -> Result<Session<B>, NoMemory>
        requires small { length script.now ≤ most_bytes }
        ensures begins { IfOk result (λ s. s ≡ begun id script.now) }
        ensures follows { IfOk result (λ s. Follows s) }
    {
        let transcript = Transcript::new(alloc)?;
        Ok(Session {
            alloc,
            id,
            script: Script::new(alloc, script)?,
            transcript,
            printed: Bytes::new(alloc),
            quit: None,
            out: None,
            phase: Phase::Working,
            work: Work::new(alloc),
            book: None,
        })
    }

    /// Goes on to the next ask, and says it, with room for its answer. Where an ask is out it says that one again. A session
    /// that has quit, or was answered that there is no memory, asks Leave, and that takes no memory; one that has ended says so. Want
    /// of memory leaves it where it stood.
    pub fn advance(&mut self) -> Result<NextAsk, NoMemory>
        ensures advances { Advances result self.old self.new }
        ensures follows { Follows self.new }
    {
        match self.phase {
            Phase::Working => match &self.out {
                Some(ask) => Ok(NextAsk::Ask(ask.clone_in(self.alloc)?)),
                None => {
                    self.phase = Phase::Failed;
                    let book = mem::replace(&mut self.book, None);
                    let (ask, copy) = ask_next(
                        self.alloc,
                        &mut self.transcript,
                        &mut self.printed,
                        &mut self.script,
                        &mut self.work,
                        book,
                    )?;
                    self.phase = Phase::Working;
                    put(&mut self.out, Some(copy));
                    Ok(NextAsk::Ask(ask))
                }
            },
            Phase::Failed => Err(NoMemory),
            Phase::Leaving | Phase::Quitting => {
                put(&mut self.out, Some(Ask::Leave));
                Ok(NextAsk::Ask(Ask::Leave))
            }
            Phase::Over => Ok(NextAsk::Done),
        }
    }

    /// Takes the answer to the ask that is out; with a view, the book that answers the code of what it sees. What was printed
    /// stays as it is until the session goes on.
    pub fn take(&mut self, a: Answer, book: Option<Shared<B>>)
        requires out { IsSome self.old.out }
        requires suits { Suits B.answers a book }
        ensures taken { self.new ≡ answered self.old.out a self.old }
        ensures follows { Follows self.new }
    {
        let ask = mem::replace(&mut self.out, None).unwrap();
        self.phase = phase_behind(ends(&ask, &a), &a, self.phase);
        put(&mut self.book, book);
        self.transcript.push(Exchange { ask, answer: a });
    }

    /// Drops the ask that is out, and makes Leave the next one, unless the session has ended.
    pub fn quit(&mut self)
        ensures quits { self.new ≡ quitting self.old.ended self.old }
        ensures follows { Follows self.new }
    {
        match self.phase {
            Phase::Over => {}
            _ => {
                self.quit = Some(self.transcript.len());
                put(&mut self.out, None);
                self.phase = Phase::Quitting;
            }
        }
    }

    /// Its number.
    pub fn id(&self) -> SessionId
        ensures { result ≡ self.now.session }
    {
        self.id
    }

    /// What it has printed.
    pub fn printed(&self) -> &[u8]
        ensures { result.now ≡ self.now.printed }
    {
        self.printed.as_slice()
    }

    /// Its asks, with the answers that it took.
    pub fn transcript(&self) -> &[Exchange]
        ensures { result.now ≡ self.now.transcript }
    {
        self.transcript.as_slice()
    }

    /// The ask that is out.
    pub fn out(&self) -> Option<&Ask>
        ensures { option_copied result ≡ self.now.out }
    {
        match self.phase {
            Phase::Working | Phase::Leaving | Phase::Quitting => self.out.as_ref(),
            _ => None,
        }
    }

    /// Whether it has ended. Then it asks nothing more, and unless it has quit, all that its run prints is there.
    pub fn has_ended(&self) -> bool
        ensures ended { result ≡ self.now.ended }
        ensures follows { Follows self.now }
    {
        is_over(self.phase)
    }
}

fn is_over(phase: Phase) -> bool
    ensures { result ≡ inside.is_over phase }
{
    match phase {
        Phase::Over => true,
        _ => false,
    }
}

/// How a session stands behind an answer, that ended it or not.
fn phase_behind(ended: bool, answer: &Answer, phase: Phase) -> Phase
    ensures { result ≡ inside.phase_behind ended answer.now phase }
{
    if ended {
        return Phase::Over;
    }
    phase_by(answer, phase)
}

/// How a session stands behind an answer that doesn't end it.
fn phase_by(answer: &Answer, phase: Phase) -> Phase
    ensures { result ≡ inside.phase_by answer.now phase }
{
    match answer {
        Answer::NoMemory => Phase::Leaving,
        _ => phase,
    }
}

/// Goes on with the last answer to the next ask: that ask and a copy, with room for its answer. What is printed is added only
/// where all is done.
fn ask_next<B: CodeBook + Drop>(
    alloc: Global,
    transcript: &mut Transcript,
    printed: &mut Bytes,
    script: &mut Script,
    work: &mut Work<B>,
    book: Option<Shared<B>>,
) -> Result<(Ask, Ask), NoMemory>
    requires ready { IsReady work.old.stage }
    requires suits { IfSome (last_of transcript.old.exchanges) (λ e. Suits B.answers e.answer book) }
    ensures same { transcript.new.exchanges ≡ transcript.old.exchanges }
    ensures kept { HasRoom 1 transcript.old → HasRoom 1 transcript.new }
    ensures room { OnOk result (HasRoom 2 transcript.new) }
    ensures script { script.new.script ≡ script.old.script }
    ensures unprinted { OnErr result (printed.new ≡ printed.old) }
    ensures grown { OnOk result (printed.new ≡ printed.old ++ work.new.fresh) }
    ensures copy { IfOk result (λ pair. pair.0 ≡ pair.1) }
    ensures first { transcript.old.exchanges ≡ [] → IfOk result (λ pair. (f : Course) (bytes : Sequence ℕ)
        → GoesOn f (rest_of script.old) (place [] bytes work.old.packages work.old.room)
        → Awaits B.answers work.new.stage pair.0 f (rest_of script.new) (here [] bytes work.new)) }
    ensures goes { IfSome (last_of transcript.old.exchanges) (λ e. Continues e.answer → IfOk result (λ pair. (f : Course) (made : Sequence asked.Ask) (bytes : Sequence ℕ)
        → Awaits B.answers work.old.stage e.ask f (rest_of script.old) (place made bytes work.old.packages work.old.room)
        → Awaits B.answers work.new.stage pair.0 (with_answer e.answer f) (rest_of script.new) (here (made ++ e.ask ∷ []) bytes work.new))) }
{
    transcript.reserve()?;
    work.fresh.clear();
    let ask = work.next(alloc, transcript.as_slice(), book, script)?;
    let both = twice(alloc, ask)?;
    value_if_done(both, printed.extend(work.fresh.as_slice()))
}

/// Whether a session ends with this answer to its ask.
fn ends(ask: &Ask, answer: &Answer) -> bool
    ensures { result ≡ transcripts.ends ask.now answer.now }
{
    match ask {
        Ask::Leave => true,
        _ => stops(answer),
    }
}

/// Whether a session goes on with nothing after this answer.
fn stops(answer: &Answer) -> bool
    ensures { result ≡ transcripts.stops answer.now }
{
    matches!(answer, Answer::DiskFault | Answer::Stopped)
}
