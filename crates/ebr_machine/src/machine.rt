//! The machine.

ghost use Rattle.std.specs.Prelude.{◌≡◌, ℕ, [], ◌∷◌, ◌++◌, OnOk, IfOk, slice_get};
ghost use Rattle.std.specs.Prelude.{List as Sequence};
ghost use Rattle.std.specs.Option.{option_copied};
ghost use Rattle.ebr_asks.specs.declared.ask.Ask as asked;
ghost use Rattle.ebr_asks.specs.declared.answer.Answer as answered;
ghost use Rattle.ebr_run.specs.Packages.{PackageState};
ghost use Rattle.ebr_run.specs.Run.{Seen};
ghost use Rattle.ebr_code.specs.Books.{Book};
ghost use Rattle.ebr_code.specs.Runs.{RunCode};
ghost use Rattle.ebr_running.specs.Rest as rest;
ghost use Rattle.ebr_machine.specs.Has.{Has, IsAsk, IsDone, IsOut, Prints, SaysAsk, Shows, asks_of, frame_of, new_row_of};

use crate::go::go;
use crate::next::Next;
use crate::opening::{first_flow, push_first};
use ebr_asks::{Answer, Ask};
use ebr_base::{Bytes, CloneIn, Code, EditionNo, List, NoMemory, Shared, Value};
use ebr_code::{CodeBook, Fault, Lookup, Subprogram, Unit};
use ebr_memory::{Levels, Packages, Stack, Stacks};
use ebr_running::{BodyFrame, Flow, Pending, Running, Task};
use std::alloc::Global;
use std::mem;

/// The frames that the run itself leaves of 1,000.
pub const MOST_CALLS: u32 = 999;

/// What a run begins with.
#[derive(Drop)]
pub struct Frame {
    pub edition: EditionNo,
    /// Of a trigger's body.
    pub body: Option<BodyFrame>,
    /// How many bytes of lines there may be.
    pub room: u32,
}

/// A run that waits for its answers.
#[derive(Drop)]
pub struct Machine {
    edition: EditionNo,
    inner: Running,
    arrived: Option<Answer>,
    /// Whether it was told how many steps it may take, and how many objects are visible.
    begun: bool,
}

impl Machine {
    /// Begins a run of a unit.
    pub fn new(
        alloc: Global,
        main: Shared<Unit>,
        arguments: List<Value>,
        frame: Frame,
    ) -> Result<Machine, NoMemory>
        ensures has { IfOk result (λ m. (codes : Book) (packages : Sequence PackageState) (left : ℕ)
            → Has codes m packages left (RunCode codes main arguments packages (frame_of frame) left) [] []) }
        ensures lines { IfOk result (λ m. m.inner.lines ≡ []) }
        ensures edition { IfOk result (λ m. m.edition ≡ frame.edition) }
    {
        let (flow, tasks) = beginning(alloc, main.get())?;
        Ok(Machine {
            edition: frame.edition,
            inner: Running {
                variables: Levels::of(alloc, arguments),
                cursors: Levels::new(alloc),
                faults: Levels::new(alloc),
                operands: Stacks::new(alloc),
                packages: Packages::new(alloc),
                row: frame.body,
                affected: None,
                lines: List::new(alloc),
                room: frame.room as usize,
                steps: 0,
                left: 0,
                makings_left: 0,
                frames_left: MOST_CALLS,
                tasks,
                flow,
                fault: Fault::Code(Code::Ebr(0)),
                ask: Ask::PushAuto,
                pending: Pending::Done,
                lookup: Shared::new(alloc, Lookup::Count)?,
            },
            arrived: None,
            begun: false,
        })
    }

    /// Runs up to the next ask or the end, and says which. The book answers as `codes` does.
    pub fn advance<B: CodeBook>(
        &mut self,
        alloc: Global,
        book: &B,
        packages: &mut Packages,
        left: u32,
    ) -> Result<Next, NoMemory>
        ensures has { OnOk result ((codes : Book) (run : Sequence answered.Answer → Seen) (asks : Sequence asked.Ask) (answers : Sequence answered.Answer)
            → B.answers book.now self.old.edition ≡ codes → Has codes self.old packages.old left run asks answers → Has codes self.new packages.new left run asks answers) }
        ensures shows { IfOk result (λ n. (codes : Book) (run : Sequence answered.Answer → Seen) (asks : Sequence asked.Ask) (answers : Sequence answered.Answer)
            → B.answers book.now self.old.edition ≡ codes → Has codes self.old packages.old left run asks answers → Shows (run answers) self.new packages.new (asks ++ asks_of n) n) }
        ensures over { IfOk result (λ n. IsDone n → (codes : Book) (run : Sequence answered.Answer → Seen) (asks : Sequence asked.Ask) (answers more : Sequence answered.Answer)
            → B.answers book.now self.old.edition ≡ codes → Has codes self.old packages.old left run asks answers → Shows (run (answers ++ more)) self.new packages.new asks n) }
        ensures out { IfOk result (λ n. IsAsk n → IsOut self.new) }
        ensures says { IfOk result (λ n. SaysAsk n self.new.inner.ask) }
        ensures prints { IfOk result (λ n. (codes : Book) (run : Sequence answered.Answer → Seen) (asks : Sequence asked.Ask) (answers : Sequence answered.Answer)
            → B.answers book.now self.old.edition ≡ codes → Has codes self.old packages.old left run asks answers → Prints self.old self.new) }
        ensures edition { self.new.edition ≡ self.old.edition }
    {
        if !self.begun {
            self.inner.left = left;
            self.inner.makings_left = book.objects(self.edition);
            self.begun = true;
        }
        let arrived = mem::replace(&mut self.arrived, None);
        mem::swap(&mut self.inner.packages, packages);
        let ran = go(&mut self.inner, alloc, book, self.edition, arrived);
        mem::swap(&mut self.inner.packages, packages);
        Ok(ran?)
    }

    /// Takes the answer to the ask that is out.
    pub fn take(&mut self, a: Answer)
        requires { IsOut self.old }
        ensures lines { self.new.inner.lines ≡ self.old.inner.lines }
        ensures edition { self.new.edition ≡ self.old.edition }
        ensures takes { (codes : Book) (packages : Sequence PackageState) (left : ℕ) (run : Sequence answered.Answer → Seen) (asks : Sequence asked.Ask) (answers : Sequence answered.Answer)
            → Has codes self.old packages left run asks answers → Has codes self.new packages left run (asks ++ self.old.inner.ask ∷ []) (answers ++ a ∷ []) }
    {
        self.arrived = Some(a);
    }

    /// The lines that were printed.
    pub fn lines(&self) -> &List<Shared<Bytes>>
        ensures { result.now ≡ self.now.inner.lines }
    {
        &self.inner.lines
    }

    /// The steps that were taken.
    pub fn steps(&self) -> u32
        ensures { result ≡ self.now.inner.steps }
    {
        self.inner.steps
    }

    /// How many bytes of lines there may still be.
    pub fn room(&self) -> usize
        ensures { result ≡ self.now.inner.room }
    {
        self.inner.room
    }

    /// The values of `:NEW`, of a trigger's body.
    pub fn new_row(&self) -> Option<&List<Value>>
        ensures { option_copied result ≡ new_row_of self.now }
    {
        match &self.inner.row {
            Some(row) => Some(&row.new),
            None => None,
        }
    }
}

/// Where a run of a unit begins, and what it has to do.
fn beginning(alloc: Global, main: &Unit) -> Result<(Flow, Stack<Task>), NoMemory>
    ensures { IfOk result (λ begun. begun ≡ rest.beginning (slice_get main.now.subprograms 0)) }
{
    match main.subprograms.get(0) {
        Some(subprogram) => Ok((
            first_flow(subprogram.autonomous),
            first_tasks(alloc, subprogram)?,
        )),
        None => Ok((Flow::Stopped(Code::Ebr(0)), Stack::new(alloc))),
    }
}

fn first_tasks(alloc: Global, main: &Subprogram) -> Result<Stack<Task>, NoMemory>
    ensures { IfOk result (λ tasks. tasks ≡ rest.first_tasks main.now.autonomous main.now.function main.now.code []) }
{
    let mut tasks = Stack::new(alloc);
    push_first(alloc, &mut tasks, main)?;
    Ok(tasks)
}
