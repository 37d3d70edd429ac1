//! The least that instructions do: raising, stopping, pushing, and a line.

ghost use Rattle.std.specs.Prelude.{◌≡◌, suc, OnOk, IfOk, option_map};
ghost use Rattle.ebr_run.specs.State as spec;
ghost use Rattle.ebr_code.specs.Instructions.{push, operate};
ghost use Rattle.ebr_code.specs.declared.instruction.Operation.TheVariants as does;
ghost use Rattle.ebr_running.specs.Rest.{Computes, Does, Moves, row_of};

use crate::running::{BodyFrame, Flow, Running};
use ebr_base::{Bytes, Code, NoMemory, Shared, Value};
use ebr_code::Fault;
use ebr_value::text_of;
use std::alloc::Global;

impl Running {
    /// Raises.
    pub fn raise(&mut self, fault: Fault)
        ensures moves { Moves self.old self.new (spec.raises fault) }
        ensures does { Does self.old self.new (spec.raises fault) }
    {
        self.operands.clear();
        self.fault = fault;
        self.flow = Flow::Raised;
    }

    /// Ends the run with what no handler catches.
    pub fn stop(&mut self, code: Code)
        ensures { Moves self.old self.new (spec.stops code) }
    {
        self.operands.clear();
        self.flow = Flow::Stopped(code);
    }

    /// Ends the run: what has no meaning.
    pub fn end_broken(&mut self)
        ensures moves { Moves self.old self.new spec.broken }
        ensures does { Does self.old self.new spec.broken }
    {
        self.operands.clear();
        self.flow = Flow::Stopped(Code::Ebr(0));
    }

    /// Pushes a value.
    pub fn push(&mut self, value: Value) -> Result<(), NoMemory>
        requires { self.old.flow ≡ Flow.Normal }
        ensures { OnOk result (Moves self.old self.new (push value)) }
    {
        self.operands.push(value)?;
        Ok(())
    }

    /// A statement begins.
    pub fn step(&mut self) -> Result<(), NoMemory>
        requires { self.old.flow ≡ Flow.Normal }
        ensures { OnOk result (Computes self.old self.new (operate does.Step)) }
    {
        let is_last = self.steps >= self.left;
        self.steps = following(self.steps)?;
        self.operands.clear();
        if is_last {
            self.flow = Flow::Stopped(Code::Ebr(7));
        }
        Ok(())
    }

    /// PUT_LINE of the topmost operand.
    pub fn put_line(&mut self, alloc: Global) -> Result<(), NoMemory>
        requires { self.old.flow ≡ Flow.Normal }
        ensures { OnOk result (Computes self.old self.new (operate does.PutLine)) }
    {
        match self.operands.pop() {
            Some(value) => {
                self.line(alloc, text_of(alloc, &value)?)?;
                Ok(())
            }
            None => {
                self.end_broken();
                Ok(())
            }
        }
    }

    /// Adds a line, where there is room for it.
    fn line(&mut self, alloc: Global, line: Bytes) -> Result<(), NoMemory>
        requires { self.old.flow ≡ Flow.Normal }
        ensures { OnOk result (Moves self.old self.new (spec.line line)) }
    {
        let takes = room_of(&self.row, &line)?;
        if self.room < takes {
            self.no_room();
            return Ok(());
        }
        self.lines.push(Shared::new(alloc, line)?)?;
        self.room -= takes;
        self.operands.clear();
        Ok(())
    }

    fn no_room(&mut self)
        requires { self.old.flow ≡ Flow.Normal }
        ensures { Moves self.old self.new (λ σ. spec.no_room σ.row σ) }
    {
        match self.row {
            None => self.raise(Fault::Code(Code::Ebr(9))),
            Some(_) => self.stop(Code::Ebr(11)),
        }
    }
}

/// The number behind a number.
pub fn following(n: u32) -> Result<u32, NoMemory>
    ensures { IfOk result (λ next. next ≡ suc n) }
{
    match n.checked_add(1) {
        Some(next) => Ok(next),
        None => Err(NoMemory),
    }
}

/// How much room a line takes.
fn room_of(row: &Option<BodyFrame>, line: &Bytes) -> Result<usize, NoMemory>
    ensures { IfOk result (λ room. room ≡ spec.room_of (option_map row_of row.now) line.now) }
{
    let more = match row {
        None => 1,
        Some(_) => 16,
    };
    match line.len().checked_add(more) {
        Some(room) => Ok(room),
        None => Err(NoMemory),
    }
}
