//! A session at work: what it asks is asked of the engine, and what it prints is written to its sink.

ghost use Rattle.std.specs.Prelude.{◌≡◌, ◌≤◌, [], false, true, None, Some, IfSome, IsSome, cond, length};
ghost use Rattle.std.specs.List.{count_by};
ghost use Rattle.ebr_units.specs.Served.{served};
ghost use Rattle.ebr_session.specs.Has.{Suits, is_leaving, quitting};
ghost use Rattle.ebr_worker.specs.Ends.{is_refused};
ghost use Rattle.ebr_worker.specs.Turn.{MayTurn, TakesTurn};
ghost use Rattle.ebr_worker.specs.Work.{IsEndOf, Runs};
ghost use Rattle.ebr_worker.specs.inside.Worker.{Advanced, Flushed, HasGoneOn, LeavesNow, Quits, Settles, end_by, end_of, if_ended, why_by};

use crate::asked::Asked;
use crate::limits::MAX_ASKS;
use ebr_asks::{Answer, Ask, Exchange};
use ebr_base::{NoMemory, SessionId, Shared};
use ebr_outside::Sink;
use ebr_report::{EndKind, SessionEnd, offer};
use ebr_session::{NextAsk, Session};
use ebr_units::Book;
use std::marker::Model;

/// A session, its sink, how much of what it printed is written, why it leaves, and how it has ended.
#[derive(Drop)]
pub struct Worker<S: Sink> {
    session: Session<Book>,
    sink: S,
    written: usize,
    /// Why the session leaves before its script has ended.
    why: Option<EndKind>,
    end: Option<EndKind>,
}

impl<S: Sink> Model for Worker<S> {
    ghost use Rattle.std.specs.Prelude.{◌≡◌, ◌≤◌, length, take, IfSome};
    ghost use Rattle.std.specs.Coded.{codes};
    ghost use Rattle.ebr_asks.specs.contracts.ask.Ask as a;
    ghost use Rattle.ebr_asks.specs.contracts.entry.Exchange as x;
    ghost use Rattle.ebr_worker.specs.Work.{Work};

    ghost Value = { Work };

    ghost coded = { Prim.hlevel (codes, a.the_row.coded, x.the_row.coded) };

    ghost view = { λ w. record { session = w.session; written = take w.written w.session.printed; word = S.word w.sink; held = S.held w.sink; faults = S.faults w.sink; why = w.why; end = w.end } };

    ghost invariant = { λ w. (w.written ≤ length w.session.printed) × IfSome (S.held w.sink) (λ bytes. bytes ≡ take w.written w.session.printed) };
}

impl<S: Sink> Worker<S> {
    /// A session that has printed nothing, with its sink.
    pub fn new(session: Session<Book>, sink: S) -> Worker<S>
        requires empty { IfSome (S.held sink) (λ bytes. bytes ≡ []) }
        ensures { result ≡ record { session = session; written = []; word = S.word sink; held = S.held sink; faults = S.faults sink; why = None; end = None } }
    {
        Worker {
            session,
            sink,
            written: 0,
            why: None,
            end: None,
        }
    }

    /// How the session has ended, if it has.
    pub fn end(&self) -> Option<EndKind>
        ensures { result ≡ self.now.end }
    {
        self.end
    }

    /// One turn: the session goes on to its next ask, what it newly printed is written, and the ask is answered. Where it finds no
    /// memory, or its sink fails, it quits, and the turn makes its Leave. Behind an answer that there is no memory the next turn makes
    /// its Leave. That of a session that has ended does nothing.
    pub fn turn<A: Asked>(&mut self, at: &mut A)
        requires { MayTurn A.may_ask self.old at.old }
        ensures { TakesTurn A.may_ask A.replied self.old self.new at.old at.new }
    {
        if self.end.is_some() {
            return;
        }
        let ask = self.go_on();
        let (answer, book) = at.reply(self.id(), self.transcript(), ask);
        self.settle(answer, book);
    }

    /// The session goes on to its next ask, and what it newly printed is written. Where that can't be, it quits, and the ask is Leave.
    fn go_on(&mut self) -> Ask
        requires runs { Runs self.old }
        requires no_end { self.old.end ≡ None }
        ensures { HasGoneOn result self.old self.new }
    {
        if self.why.is_some() {
            return self.leave();
        }
        if self.session.transcript().len() >= MAX_ASKS - 1 {
            return self.quit(EndKind::NoMemory);
        }
        match self.advance() {
            Ok(NextAsk::Ask(ask)) => {
                if self.flush() {
                    return ask;
                }
                self.quit(EndKind::SinkFault)
            }
            Ok(NextAsk::Done) => self.quit(EndKind::NoMemory),
            Err(NoMemory) => self.quit(EndKind::NoMemory),
        }
    }

    /// The session goes on to its next ask.
    fn advance(&mut self) -> Result<NextAsk, NoMemory>
        ensures { Advanced result self.old self.new }
    {
        self.session.advance()
    }

    /// Writes what was printed and isn't written yet, and says whether all of it was taken.
    fn flush(&mut self) -> bool
        ensures { Flushed result self.old self.new }
    {
        let printed = self.session.printed();
        self.written = offer(&mut self.sink, printed, self.written);
        if self.written < printed.len() {
            return false;
        }
        true
    }

    /// The session quits: it leaves in place of its next ask.
    fn quit(&mut self, why: EndKind) -> Ask
        requires { self.old.session.ended ≡ false }
        ensures { Quits why result self.old self.new }
    {
        self.drop_ask(why);
        self.leave()
    }

    /// The session drops its ask, for this cause.
    fn drop_ask(&mut self, why: EndKind)
        ensures { self.new ≡ record self.old { session = quitting self.old.session.ended self.old.session; why = Some why } }
    {
        self.why = Some(why);
        self.session.quit();
    }

    /// Leave, the next ask of a session that is to leave.
    fn leave(&mut self) -> Ask
        requires goes_on { self.old.session.ended ≡ false }
        requires leaves { is_leaving self.old.session ≡ true }
        ensures { LeavesNow result self.old self.new }
    {
        match self.advance() {
            Ok(NextAsk::Ask(ask)) => ask,
            // Neither comes here.
            Ok(NextAsk::Done) => Ask::Leave,
            Err(NoMemory) => Ask::Leave,
        }
    }

    /// The session takes the answer to the ask that is out.
    fn settle(&mut self, answer: Answer, book: Option<Shared<Book>>)
        requires out { IsSome self.old.session.out }
        requires suits { Suits (λ v e. served v) answer book }
        ensures { Settles answer self.old self.new }
    {
        let end = end_by(self.why, &answer);
        self.why = why_by(self.why, &answer);
        self.session.take(answer, book);
        self.end = if_ended(self.session.has_ended(), end);
    }

    /// The number of the session.
    pub fn id(&self) -> SessionId
        ensures { result ≡ self.now.session.session }
    {
        self.session.id()
    }

    /// The session's exchanges.
    fn transcript(&self) -> &[Exchange]
        ensures { result.now ≡ self.now.session.transcript }
    {
        self.session.transcript()
    }

    /// The sink of a session that doesn't run. It holds what was written.
    pub fn into_sink(self) -> S
        ensures word { S.word result ≡ self.word }
        ensures holds { IfSome (S.held result) (λ bytes. bytes ≡ self.written) }
        ensures counted { S.faults result ≡ self.faults }
    {
        let Worker { sink, .. } = self;
        sink
    }

    /// What a session that has ended came to, with its sink.
    pub fn into_end(self) -> SessionEnd<S>
        requires ended { IsSome self.end }
        requires few { length self.session.transcript ≤ MAX_ASKS }
        ensures end { IsEndOf S.held S.faults S.word self result }
        ensures sink { IsSome result.sink }
    {
        let Worker {
            session,
            sink,
            end,
            ..
        } = self;
        let transcript = session.transcript();
        SessionEnd {
            session: session.id(),
            requests: transcript.len() as u32,
            refused: refused_count(transcript) as u32,
            end: end.unwrap_or(EndKind::NoMemory),
            sink: Some(sink),
        }
    }
}

/// How many asks were refused.
fn refused_count(transcript: &[Exchange]) -> usize
    ensures value { result ≡ count_by is_refused transcript.now }
    ensures within { result ≤ length transcript.now }
{
    let mut count = 0usize;
    for exchange in transcript {
        count += refusals(exchange);
    }
    count
}

/// One for an ask that was refused.
fn refusals(exchange: &Exchange) -> usize
    ensures value { result ≡ cond (is_refused exchange.now) 1 0 }
    ensures within { result ≤ 1 }
{
    match exchange.answer {
        Answer::Refused { .. } => 1,
        _ => 0,
    }
}

/// How a session ends with an answer that ends it, which leaves for this cause, if it has one.
fn end_by(why: Option<EndKind>, answer: &Answer) -> EndKind
    ensures { result ≡ end_by why answer.now }
{
    match why {
        Some(why) => why,
        None => end_of(answer),
    }
}

/// How a session ends that an answer ends, and that leaves for no other cause.
fn end_of(answer: &Answer) -> EndKind
    ensures { result ≡ end_of answer.now }
{
    match answer {
        Answer::DiskFault | Answer::Stopped => EndKind::Stopped,
        Answer::NoMemory => EndKind::NoMemory,
        _ => EndKind::Ended,
    }
}

/// Why a session leaves behind an answer.
fn why_by(why: Option<EndKind>, answer: &Answer) -> Option<EndKind>
    ensures { result ≡ why_by why answer.now }
{
    match why {
        Some(why) => Some(why),
        None => why_of(answer),
    }
}

fn why_of(answer: &Answer) -> Option<EndKind>
    ensures { result ≡ why_by None answer.now }
{
    match answer {
        Answer::NoMemory => Some(EndKind::NoMemory),
        _ => None,
    }
}

fn if_ended(ended: bool, end: EndKind) -> Option<EndKind>
    ensures { result ≡ if_ended ended end }
{
    if ended {
        return Some(end);
    }
    None
}
