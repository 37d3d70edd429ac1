//! The run of a block in a session.

ghost use Rattle.std.specs.Prelude.{◌≡◌, ℕ, [], ◌∷◌, ◌++◌, ◌<◌, ◌≤◌, length, drop, true, Ok, OnOk, IfOk};
ghost use Rattle.std.specs.Prelude.{List as Sequence};
ghost use Rattle.ebr_asks.specs.declared.ask.Ask as asked;
ghost use Rattle.ebr_ast.specs.declared.unit.UnitTree.TheVariants.{Block as block_tree};
ghost use Rattle.ebr_ast.specs.Views.{IsInOrder};
ghost use Rattle.ebr_validity.specs.Verdict.{is_valid};
ghost use Rattle.ebr_run.specs.Packages.{PackageState};
ghost use Rattle.ebr_code.specs.Books.{Book};
ghost use Rattle.ebr_laws.specs.Served.{HasCodeOf};
ghost use Rattle.ebr_code.specs.Units.{Codes};
ghost use Rattle.ebr_machine.specs.Has.{IsAsk, IsOut, SaysAsk};
ghost use Rattle.ebr_calls.specs.Steps.{Step, lines_of, run_valid, then_run};
ghost use Rattle.ebr_calls.specs.Continuation.{Continues};
ghost use Rattle.ebr_calls.specs.Courses.{Comes, Course, GoesOn, IsIn, Place, place, with_answer};
ghost use Rattle.ebr_calls.specs.Levels.{OpensBy};

use crate::levels::Levels;
use crate::lines::print_lines;
use ebr_asks::Answer;
use ebr_ast::{Block, EditionView, UnitTree};
use ebr_base::{Bytes, List, NoMemory, Shared, rest_from};
use ebr_code::{CodeBook, Unit};
use ebr_compile::{Steps, compile};
use ebr_machine::{Frame, Machine, Next, Packages};
use std::alloc::Global;
use std::marker::Brand;
use std::sync::ledger::{Blank, Ledger};

/// How many steps a call may take.
pub const MOST_STEPS: u32 = 1_000_000;

/// A block that runs, with the book that it was handed when it began.
#[derive(Drop)]
pub struct Call<B> {
    book: Shared<B>,
    machine: Machine,
    /// How many of its lines are printed.
    shown: usize,
    levels: Levels,
}

impl<B: CodeBook + Drop> Call<B> {
    /// Begins a block that is valid, with so much room for its lines. The book answers the code of what its edition sees.
    pub fn new(
        alloc: Global,
        view: &EditionView,
        block: Shared<Block>,
        book: Shared<B>,
        room: u32,
    ) -> Result<Call<B>, NoMemory>
        requires order { IsInOrder view.now }
        requires valid { is_valid view.now (block_tree block) ≡ true }
        ensures begins { IfOk result (λ c. (codes : Book) (f : Course) (rest : Step) (p : Place)
            → B.answers book view.now.edition ≡ codes → HasCodeOf view.now codes → p.room ≡ room
            → GoesOn f (λ σ. then_run (run_valid view.now block σ) rest) p → IsIn codes f c.machine c.shown c.levels.now rest p) }
        ensures book { IfOk result (λ c. c.book ≡ book) }
        ensures edition { IfOk result (λ c. c.machine.edition ≡ view.now.edition) }
    {
        let main = compiled::<Brand>(alloc, view, UnitTree::Block(block), Blank::new(1))?;
        let frame = Frame {
            edition: view.edition,
            body: None,
            room,
        };
        let machine = Machine::new(alloc, main, List::new(alloc), frame)?;
        Ok(Call {
            book,
            machine,
            shown: 0,
            levels: Levels::of(0),
        })
    }

    /// Runs up to the next ask or the end, prints its new lines behind what was printed earlier, and says what comes next.
    pub fn advance(
        &mut self,
        alloc: Global,
        packages: &mut Packages,
        printed: &mut Bytes,
    ) -> Result<Next, NoMemory>
        ensures comes { IfOk result (λ n. (codes : Book) (f : Course) (rest : Step) (made : Sequence asked.Ask) (earlier : Sequence ℕ) (room : ℕ)
            → B.answers self.old.book self.old.machine.edition ≡ codes
            → IsIn codes f self.old.machine self.old.shown self.old.levels.now rest (place made (earlier ++ printed.old) packages.old room)
            → Comes n codes f self.new.machine self.new.shown self.new.levels.now rest (place made (earlier ++ printed.new) packages.new self.new.machine.inner.room)) }
        ensures out { IfOk result (λ n. IsAsk n → IsOut self.new.machine) }
        ensures says { IfOk result (λ n. SaysAsk n self.new.machine.inner.ask) }
        ensures opens { IfOk result (λ n. IsAsk n → OpensBy self.new.machine.inner.ask self.new.levels) }
        ensures book { self.new.book ≡ self.old.book }
        ensures edition { self.new.machine.edition ≡ self.old.machine.edition }
    {
        let next = self
            .machine
            .advance(alloc, self.book.get(), packages, MOST_STEPS)?;
        let levels = self.levels.before(&next);
        match self.show(printed, levels) {
            Ok(()) => Ok(next),
            Err(why) => Err(why),
        }
    }

    /// Prints the lines that aren't printed yet.
    fn show(
        &mut self,
        printed: &mut Bytes,
        levels: Result<Levels, NoMemory>,
    ) -> Result<(), NoMemory>
        ensures levels { OnOk result (levels ≡ Ok self.new.levels) }
        ensures printed { self.old.shown ≤ length self.old.machine.inner.lines → OnOk result (printed.new ≡ printed.old ++ lines_of (drop self.old.shown self.old.machine.inner.lines)) }
        ensures shown { OnOk result (self.new.shown ≡ length self.old.machine.inner.lines) }
        ensures machine { self.new.machine ≡ self.old.machine }
        ensures book { self.new.book ≡ self.old.book }
    {
        self.levels = levels?;
        let lines = self.machine.lines().as_slice();
        print_lines(printed, behind(lines, self.shown))?;
        self.shown = lines.len();
        Ok(())
    }

    /// Takes the answer to the ask that is out, behind which the session goes on.
    pub fn take(&mut self, a: Answer)
        requires { IsOut self.old.machine }
        ensures takes { (codes : Book) (f : Course) (rest : Step) (made : Sequence asked.Ask) (printed : Sequence ℕ) (packages : Sequence PackageState) (room : ℕ)
            → IsIn codes f self.old.machine self.old.shown self.old.levels.now rest (place made printed packages room)
            → OpensBy self.old.machine.inner.ask self.old.levels → Continues a
            → IsIn codes (with_answer a f) self.new.machine self.new.shown self.new.levels.now rest (place (made ++ self.old.machine.inner.ask ∷ []) printed packages room) }
        ensures book { self.new.book ≡ self.old.book }
        ensures edition { self.new.machine.edition ≡ self.old.machine.edition }
    {
        self.levels.now = self.levels.behind(&a);
        self.machine.take(a);
    }

    /// How many transactions of its own are open.
    pub fn levels(&self) -> u32
        ensures { result ≡ self.now.levels.now }
    {
        self.levels.now
    }

    /// How many bytes of lines there may still be.
    pub fn room(&self) -> usize
        ensures { result ≡ self.now.machine.inner.room }
    {
        self.machine.room()
    }
}

/// The elements from a place on.
fn behind(items: &[Shared<Bytes>], at: usize) -> &[Shared<Bytes>]
    ensures { at ≤ length items.now → result.now ≡ drop at items.now }
{
    if at <= items.len() {
        rest_from(items, at)
    } else {
        items
    }
}

/// The code of a block.
fn compiled<L: Ledger>(
    alloc: Global,
    view: &EditionView,
    tree: UnitTree,
    blank: Blank,
) -> Result<Shared<Unit>, NoMemory>
    requires order { IsInOrder view.now }
    requires valid { is_valid view.now tree ≡ true }
    requires name { blank.name ≡ L.name }
    requires parts { blank.parts ≡ L.parts }
    requires some { 0 < blank.parts }
    ensures { IfOk result (λ code. Codes view.now tree code) }
{
    let (book, share) = blank.open::<L>();
    let mut steps = Steps::new(book, share);
    Ok(Shared::new(alloc, compile(alloc, view, &tree, &mut steps)?)?)
}
