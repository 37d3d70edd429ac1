//! What is done with answers.

ghost use Rattle.std.specs.Prelude.{◌≡◌, ℕ, ◌+◌, ◌-◌, ◌++◌, length, OnOk, Some, option_map};
ghost use Rattle.std.specs.Prelude.{List as Sequence};
ghost use Rattle.ebr_run.specs.Faults as faults;
ghost use Rattle.ebr_asks.specs.declared.answer.Answer.TheVariants as answer;
ghost use Rattle.ebr_run.specs.State as run;
ghost use Rattle.ebr_running.specs.Rest as rest;
ghost use Rattle.ebr_running.specs.Rest.{Moves, row_of};

use crate::running::{BodyFrame, Flow, Left, Pending, Running};
use ebr_asks::Answer;
use ebr_base::{Bytes, Code, List, NoMemory, Shared};
use ebr_code::{Fault, Lookup};
use std::alloc::Global;

impl Running {
    /// What an answer does.
    pub fn absorb(&mut self, alloc: Global, answer: Answer) -> Result<(), NoMemory>
        ensures { OnOk result (Moves self.old self.new (rest.absorbed answer self.old)) }
    {
        match answer {
            Answer::Count { n, steps, lines } => {
                self.spend(steps, lines)?;
                if self.left < self.steps {
                    self.stop(Code::Ebr(7));
                    return Ok(());
                }
                self.take_count(n);
                Ok(())
            }
            Answer::Refused { code, steps, lines } => {
                self.spend(steps, lines)?;
                if self.left < self.steps {
                    self.stop(Code::Ebr(7));
                    return Ok(());
                }
                self.take_refusal(code);
                Ok(())
            }
            Answer::Done => {
                self.take_done();
                Ok(())
            }
            Answer::Rows(rows) => {
                self.take_rows(alloc, rows)?;
                Ok(())
            }
            Answer::View(_) => {
                self.end_broken();
                Ok(())
            }
            Answer::Invalid => {
                self.end_broken();
                Ok(())
            }
            Answer::DiskFault => {
                self.end_broken();
                Ok(())
            }
            Answer::NoMemory => {
                self.end_broken();
                Ok(())
            }
            Answer::Stopped => {
                self.end_broken();
                Ok(())
            }
        }
    }

    /// Counts the steps and lines of an answer.
    fn spend(&mut self, steps: u32, lines: List<Shared<Bytes>>) -> Result<(), NoMemory>
        ensures { OnOk result (self.new ≡ record self.old { lines = self.old.lines ++ lines; room = run.room_behind (option_map row_of self.old.row) lines self.old.room; steps = self.old.steps + steps }) }
    {
        let Some(steps) = self.steps.checked_add(steps) else {
            return Err(NoMemory);
        };
        self.steps = steps;
        self.room = room_behind(&self.row, &lines, self.room);
        append(&mut self.lines, lines)?;
        Ok(())
    }

    fn take_refusal(&mut self, code: Code)
        ensures { Moves self.old self.new (run.refused code) }
    {
        if is_uncatchable(code) {
            self.stop(code);
        } else {
            self.raise(Fault::Code(code));
        }
    }

    fn take_done(&mut self)
        ensures { Moves self.old self.new (rest.after self.old.pending self.old.lookup self.old.fault answer.Done) }
    {
        match self.pending {
            Pending::Lookup => self.end_broken(),
            Pending::Done => {
                self.operands.clear();
                self.flow = Flow::Normal;
            }
            Pending::Close(left) => self.end_as(left),
        }
    }

    /// Goes on as the unit ended in whose transaction it was.
    fn end_as(&mut self, left: Left)
        ensures { Moves self.old self.new (run.ended (rest.left_with left self.old.fault)) }
    {
        match left {
            Left::Normal => self.flow = Flow::Normal,
            Left::Exit => self.flow = Flow::Exit,
            Left::Continue => self.flow = Flow::Continue,
            Left::Returned => self.flow = Flow::Returned,
            Left::Raised => self.flow = Flow::Raised,
        }
    }

    /// A count, whichever steps and lines came with it.
    fn take_count(&mut self, n: u64)
        ensures { (steps : ℕ) (lines : Sequence (Sequence ℕ)) → Moves self.old self.new (rest.after self.old.pending self.old.lookup self.old.fault (answer.Count n steps lines)) }
    {
        match self.pending {
            Pending::Lookup => match self.lookup.get() {
                Lookup::Count => {
                    self.affected = Some(n);
                    self.operands.clear();
                    self.flow = Flow::Normal;
                }
                Lookup::Row(_) => self.end_broken(),
                Lookup::Open(_) => self.end_broken(),
            },
            Pending::Done => self.end_broken(),
            Pending::Close(_) => self.end_broken(),
        }
    }
}

fn is_uncatchable(code: Code) -> bool
    ensures { result ≡ faults.is_uncatchable code }
{
    match code {
        Code::Ora(_) => false,
        Code::Ebr(n) => n == 7 || n == 10 || n == 11,
    }
}

/// The room that the lines of triggers leave.
fn room_behind(row: &Option<BodyFrame>, lines: &List<Shared<Bytes>>, room: usize) -> usize
    ensures { result ≡ run.room_behind (option_map row_of row.now) lines.now room }
{
    match row {
        None => room,
        Some(_) => room_left(lines.as_slice(), room),
    }
}

fn room_left(lines: &[Shared<Bytes>], room: usize) -> usize
    ensures { (row : run.Row) → result ≡ run.room_behind (Some row) lines.now room }
{
    let mut left = room;
    for line in lines {
        left = room_after(left, line.get());
    }
    left
}

/// The room that a line of a trigger leaves.
fn room_after(room: usize, line: &Bytes) -> usize
    ensures { result ≡ room - (16 + length line.now) }
{
    room.saturating_sub(line.len()).saturating_sub(16)
}

/// Moves lines to the end of others.
fn append(to: &mut List<Shared<Bytes>>, lines: List<Shared<Bytes>>) -> Result<(), NoMemory>
    ensures { OnOk result (to.new ≡ to.old ++ lines) }
{
    for line in lines.into_vec() {
        to.push(line)?;
    }
    Ok(())
}
