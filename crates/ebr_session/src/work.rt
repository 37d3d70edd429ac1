//! What a session does with its answers, up to the next ask.

ghost use Rattle.std.specs.Prelude.{◌≡◌, ℕ, [], ◌∷◌, ◌++◌, None, true, Ok, IfOk, IfSome, IsOk, OnOk};
ghost use Rattle.std.specs.Prelude.{List as Sequence};
ghost use Rattle.ebr_asks.specs.declared.ask.Ask as asked;
ghost use Rattle.ebr_ast.specs.declared.unit.UnitTree.TheVariants.{Block as block_tree};
ghost use Rattle.ebr_ast.specs.Views.{IsInOrder};
ghost use Rattle.ebr_validity.specs.Verdict.{is_valid};
ghost use Rattle.ebr_laws.specs.Served.{HasCodeOf};
ghost use Rattle.ebr_machine.specs.Has.{IsOut};
ghost use Rattle.ebr_calls.specs.Steps.{Step, run_seen, run_valid, then_run};
ghost use Rattle.ebr_calls.specs.Continuation.{Continues};
ghost use Rattle.ebr_calls.specs.Courses.{Course, GoesOn, IsIn, with_answer};
ghost use Rattle.ebr_session.specs.Has.{Suits};
ghost use Rattle.ebr_session.specs.inside.Kept.{last_of};
ghost use Rattle.ebr_session.specs.inside.Requests.{behind, rest_of};
ghost use Rattle.ebr_session.specs.inside.Stages.{Awaits, Goes, IsReady, here};

use crate::after::{After, Request, Said, close, end, finish};
use crate::checks::block_passes;
use crate::held::put;
use crate::printing::{print_edition, print_said};
use crate::script::{Script, Turn};
use ebr_asks::{Answer, Ask, Exchange};
use ebr_ast::{Block, EditionView};
use ebr_base::{Bytes, CloneIn, Code, NoMemory, Shared};
use ebr_calls::{Call, print_code};
use ebr_code::CodeBook;
use ebr_machine::{Next, Packages};
use std::alloc::Global;
use std::mem;

/// How many bytes of lines a session may print.
const MOST_ROOM: usize = 16_777_216;

/// Where a session stands in its script, and what it does with the answer to the ask that is out.
#[derive(Drop)]
pub enum Stage<B> {
    /// Nothing was asked yet.
    Start,
    Plain(After),
    /// A block runs, which takes the answer.
    Run(Box<Call<B>>),
    /// The script has ended.
    Leaving,
}

/// What a session keeps from one ask to the next.
#[derive(Drop)]
pub struct Work<B> {
    packages: Packages,
    /// The bytes of lines for which there is room.
    room: usize,
    /// What it printed since the last ask.
    pub fresh: Bytes,
    stage: Stage<B>,
}

impl<B: CodeBook + Drop> Work<B> {
    pub fn new(alloc: Global) -> Work<B>
        ensures { result ≡ record { packages = []; room = MOST_ROOM; fresh = []; stage = Stage.Start } }
    {
        Work {
            packages: Packages::new(alloc),
            room: MOST_ROOM,
            fresh: Bytes::new(alloc),
            stage: Stage::Start,
        }
    }

    /// Goes on with the last answer to the next ask.
    pub fn next(
        &mut self,
        alloc: Global,
        mine: &[Exchange],
        book: Option<Shared<B>>,
        script: &mut Script,
    ) -> Result<Ask, NoMemory>
        requires ready { IsReady self.old.stage }
        requires suits { IfSome (last_of mine.now) (λ e. Suits B.answers e.answer book) }
        ensures first { mine.now ≡ [] → IfOk result (λ q. (f : Course) (printed : Sequence ℕ)
            → GoesOn f (rest_of script.old) (here [] printed self.old) → Awaits B.answers self.new.stage q f (rest_of script.new) (here [] printed self.new)) }
        ensures goes { IfSome (last_of mine.now) (λ e. Continues e.answer → IfOk result (λ q. (f : Course) (made : Sequence asked.Ask) (printed : Sequence ℕ)
            → Awaits B.answers self.old.stage e.ask f (rest_of script.old) (here made printed self.old)
            → Awaits B.answers self.new.stage q (with_answer e.answer f) (rest_of script.new) (here (made ++ e.ask ∷ []) printed self.new))) }
        ensures script { script.new.script ≡ script.old.script }
    {
        match self.resume(alloc, mine, book)? {
            Some(ask) => Ok(ask),
            None => self.read(alloc, script),
        }
    }

    /// Does what the last answer asks for, if there is one. It says the next ask, if one comes of it.
    fn resume(
        &mut self,
        alloc: Global,
        mine: &[Exchange],
        book: Option<Shared<B>>,
    ) -> Result<Option<Ask>, NoMemory>
        requires ready { IsReady self.old.stage }
        requires suits { IfSome (last_of mine.now) (λ e. Suits B.answers e.answer book) }
        ensures first { mine.now ≡ [] → (self.new ≡ self.old) × (result ≡ Ok None) }
        ensures goes { IfSome (last_of mine.now) (λ e. Continues e.answer → IfOk result (λ r. (f : Course) (rest : Step) (made : Sequence asked.Ask) (printed : Sequence ℕ)
            → Awaits B.answers self.old.stage e.ask f rest (here made printed self.old)
            → Goes B.answers r self.new.stage (with_answer e.answer f) rest (here (made ++ e.ask ∷ []) printed self.new))) }
    {
        match mine.last() {
            Some(last) => self.answer(alloc, &last.answer, book),
            None => Ok(None),
        }
    }

    /// Does what an answer asks for.
    fn answer(
        &mut self,
        alloc: Global,
        answer: &Answer,
        book: Option<Shared<B>>,
    ) -> Result<Option<Ask>, NoMemory>
        requires ready { IsReady self.old.stage }
        requires suits { Suits B.answers answer.now book }
        ensures goes { Continues answer.now → IfOk result (λ r. (f : Course) (q : asked.Ask) (rest : Step) (made : Sequence asked.Ask) (printed : Sequence ℕ)
            → Awaits B.answers self.old.stage q f rest (here made printed self.old)
            → Goes B.answers r self.new.stage (with_answer answer.now f) rest (here (made ++ q ∷ []) printed self.new)) }
    {
        match mem::replace(&mut self.stage, Stage::Start) {
            Stage::Plain(after) => self.behind(alloc, after, answer, book),
            Stage::Run(call) => self.run(alloc, call, answer),
            // No answer comes here.
            Stage::Start => Err(NoMemory),
            Stage::Leaving => Err(NoMemory),
        }
    }

    /// Does what is done with an answer that no block takes.
    fn behind(
        &mut self,
        alloc: Global,
        after: After,
        answer: &Answer,
        book: Option<Shared<B>>,
    ) -> Result<Option<Ask>, NoMemory>
        requires suits { Suits B.answers answer.now book }
        ensures goes { IfOk result (λ r. (f : Course) (rest : Step) (made : Sequence asked.Ask) (printed : Sequence ℕ)
            → GoesOn f (λ σ. then_run (behind after answer.now σ) rest) (here made printed self.old)
            → Goes B.answers r self.new.stage f rest (here made printed self.new)) }
    {
        match after {
            After::Print(said) => no_ask(print_said(alloc, &mut self.fresh, answer, said)),
            After::SetEdition => no_ask(print_edition(
                alloc,
                &mut self.packages,
                &mut self.fresh,
                answer,
            )),
            After::Begin(block) => self.begin(alloc, block, answer, book),
            After::Close(levels, code) => Ok(Some(self.ask(close(levels, code)))),
        }
    }

    /// Begins the run of a block by what its session's edition sees, or prints why it doesn't begin.
    fn begin(
        &mut self,
        alloc: Global,
        block: Shared<Block>,
        answer: &Answer,
        book: Option<Shared<B>>,
    ) -> Result<Option<Ask>, NoMemory>
        requires suits { Suits B.answers answer.now book }
        ensures goes { IfOk result (λ r. (f : Course) (rest : Step) (made : Sequence asked.Ask) (printed : Sequence ℕ)
            → GoesOn f (λ σ. then_run (behind (After.Begin block) answer.now σ) rest) (here made printed self.old)
            → Goes B.answers r self.new.stage f rest (here made printed self.new)) }
    {
        match answer {
            Answer::View(view) => self.begin_in(alloc, view.get(), block, book),
            _ => no_ask(print_said(alloc, &mut self.fresh, answer, Said::Nothing)),
        }
    }

    /// Begins the run of a block. There is a book wherever there is a view.
    fn begin_in(
        &mut self,
        alloc: Global,
        view: &EditionView,
        block: Shared<Block>,
        book: Option<Shared<B>>,
    ) -> Result<Option<Ask>, NoMemory>
        requires suits { Suits B.answers (Answer.View view.now) book }
        ensures goes { IfOk result (λ r. (f : Course) (rest : Step) (made : Sequence asked.Ask) (printed : Sequence ℕ)
            → GoesOn f (λ σ. then_run (run_seen view.now block σ) rest) (here made printed self.old)
            → Goes B.answers r self.new.stage f rest (here made printed self.new)) }
    {
        let Some(book) = book else {
            return Err(NoMemory);
        };
        if block_passes(alloc, view, block.clone_in(alloc)?)? {
            self.call(alloc, view, block, book)
        } else {
            Ok(Some(self.ask(end(true, Said::Code(Code::Ora(6550))))))
        }
    }

    /// Begins the run of a valid block.
    fn call(
        &mut self,
        alloc: Global,
        view: &EditionView,
        block: Shared<Block>,
        book: Shared<B>,
    ) -> Result<Option<Ask>, NoMemory>
        requires order { IsInOrder view.now }
        requires valid { is_valid view.now (block_tree block) ≡ true }
        ensures goes { HasCodeOf view.now (B.answers book view.now.edition) → IfOk result (λ r. (f : Course) (rest : Step) (made : Sequence asked.Ask) (printed : Sequence ℕ)
            → GoesOn f (λ σ. then_run (run_valid view.now block σ) rest) (here made printed self.old)
            → Goes B.answers r self.new.stage f rest (here made printed self.new)) }
    {
        let Ok(room) = u32::try_from(self.room) else {
            return Err(NoMemory);
        };
        let call = Call::new(alloc, view, block, book, room)?;
        let call = Box::new(alloc, call)?;
        self.go_on(alloc, call)
    }

    /// Goes on with a block's run, which takes this answer.
    fn run(
        &mut self,
        alloc: Global,
        call: Box<Call<B>>,
        answer: &Answer,
    ) -> Result<Option<Ask>, NoMemory>
        requires out { IsOut call.value.machine }
        ensures goes { Continues answer.now → IfOk result (λ r. (f : Course) (q : asked.Ask) (rest : Step) (made : Sequence asked.Ask) (printed : Sequence ℕ)
            → Awaits B.answers (Stage.Run call) q f rest (here made printed self.old)
            → Goes B.answers r self.new.stage (with_answer answer.now f) rest (here (made ++ q ∷ []) printed self.new)) }
    {
        let mut call = call;
        call.take(answer.clone_in(alloc)?);
        self.go_on(alloc, call)
    }

    /// Goes on with a block's run, up to its next ask or to what is asked at its end.
    fn go_on(&mut self, alloc: Global, call: Box<Call<B>>) -> Result<Option<Ask>, NoMemory>
        ensures goes { IfOk result (λ r. (f : Course) (rest : Step) (made : Sequence asked.Ask) (printed : Sequence ℕ)
            → IsIn (B.answers call.value.book call.value.machine.edition) f call.value.machine call.value.shown call.value.levels.now rest (here made printed self.old)
            → Goes B.answers r self.new.stage f rest (here made printed self.new)) }
    {
        let mut call = call;
        match call.advance(alloc, &mut self.packages, &mut self.fresh)? {
            Next::Ask(ask) => {
                self.room = call.room();
                put(&mut self.stage, Stage::Run(call));
                Ok(Some(ask))
            }
            Next::Done(how) => {
                self.room = call.room();
                Ok(Some(self.ask(finish(how, call.levels()))))
            }
        }
    }

    /// Makes a request.
    fn ask(&mut self, request: Request) -> Ask
        ensures ask { result ≡ request.ask }
        ensures stage { self.new ≡ record self.old { stage = Stage.Plain request.after } }
    {
        let Request { ask, after } = request;
        put(&mut self.stage, Stage::Plain(after));
        ask
    }

    /// Runs pieces up to one that asks, or to the end of the script.
    fn read(&mut self, alloc: Global, script: &mut Script) -> Result<Ask, NoMemory>
        ensures goes { IfOk result (λ q. (f : Course) (made : Sequence asked.Ask) (printed : Sequence ℕ)
            → GoesOn f (rest_of script.old) (here made printed self.old)
            → Awaits B.answers self.new.stage q f (rest_of script.new) (here made printed self.new)) }
        ensures script { script.new.script ≡ script.old.script }
    {
        loop {
            match script.next(alloc)? {
                Turn::Asks(request) => return Ok(self.ask(request)),
                Turn::Prints(code) => print_code(&mut self.fresh, code)?,
                Turn::Ends => {
                    put(&mut self.stage, Stage::Leaving);
                    return Ok(Ask::Leave);
                }
            }
        }
    }
}

/// Nothing is asked, where something was printed.
fn no_ask(printed: Result<(), NoMemory>) -> Result<Option<Ask>, NoMemory>
    ensures none { IfOk result (λ ask. ask ≡ None) }
    ensures done { OnOk result (IsOk printed) }
{
    printed?;
    Ok(None)
}
