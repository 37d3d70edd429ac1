//! Loops over numbers.

ghost use Rattle.std.specs.Prelude.{◌≡◌, ◌-ℤ◌, false, int_lt, unsigned_abs, ◌∷◌, map, OnOk};
ghost use Rattle.ebr_run.specs.Statements as spec;
ghost use Rattle.ebr_run.specs.Statements.{between, number_of_turn};
ghost use Rattle.ebr_code.specs.Books.{Book};
ghost use Rattle.ebr_code.specs.Instructions as code;
ghost use Rattle.ebr_code.specs.Instructions.{act, meaning_of};
ghost use Rattle.ebr_code.specs.declared.instruction.Instruction.TheOpen as form;
ghost use Rattle.ebr_running.specs.declared.running.Task.TheVariants as task;
ghost use Rattle.ebr_running.specs.Rest.{Acts, DoesIn, Follows, IsRunning, calls};
ghost use Rattle.ebr_running.specs.inside.Ranges.{others_of};

use crate::moves::following;
use crate::running::{Flow, Running, Task};
use ebr_base::{CloneIn, Code as Refusal, NoMemory, Value};
use ebr_code::{Code, Fault};
use ebr_memory::put_variable;
use std::alloc::Global;

impl Running {
    /// A loop over the numbers from the lower operand to the topmost one.
    pub fn numbers(
        &mut self,
        alloc: Global,
        place: usize,
        reversed: bool,
        body: &Code,
    ) -> Result<(), NoMemory>
        requires { self.old.flow ≡ Flow.Normal }
        ensures { OnOk result (Acts self.old self.new (act (form.Numbers place reversed (map meaning_of body.now)))) }
    {
        let Some(high) = self.operands.pop() else {
            self.end_broken();
            return Ok(());
        };
        let Some(low) = self.operands.pop() else {
            self.end_broken();
            return Ok(());
        };
        match (&low, &high) {
            (Value::Num(low), Value::Num(high)) => {
                self.operands.clear();
                self.next_number(alloc, place, reversed, *low, *high, body.clone_in(alloc)?)?;
                Ok(())
            }
            _ => {
                self.raise(Fault::Code(Refusal::Ora(wrong_bounds(&low, &high))));
                Ok(())
            }
        }
    }

    /// What is behind a turn.
    pub fn end_number(
        &mut self,
        alloc: Global,
        place: usize,
        reversed: bool,
        low: i64,
        high: i64,
        body: Code,
    ) -> Result<(), NoMemory>
        requires { IsRunning self.old.flow }
        ensures { OnOk result (Follows self.old self.new (task.Numbers place reversed low high body ∷ self.old.tasks)) }
    {
        match self.flow {
            Flow::Normal | Flow::Continue => {
                self.flow = Flow::Normal;
                self.next_number(alloc, place, reversed, low, high, body)?;
                Ok(())
            }
            Flow::Exit => {
                self.leave_loop();
                Ok(())
            }
            _ => Ok(()),
        }
    }

    /// The turns for the numbers between two.
    fn next_number(
        &mut self,
        alloc: Global,
        place: usize,
        reversed: bool,
        low: i64,
        high: i64,
        body: Code,
    ) -> Result<(), NoMemory>
        requires { self.old.flow ≡ Flow.Normal }
        ensures { OnOk result ((book : Book) → DoesIn book self.old self.new (between place reversed low high (code.run body (calls book self.old)))) }
    {
        self.operands.clear();
        if high < low {
            return Ok(());
        }
        let is_last = self.steps >= self.left;
        self.steps = following(self.steps)?;
        if is_last {
            self.flow = Flow::Stopped(Refusal::Ebr(7));
            return Ok(());
        }
        put_variable(
            &mut self.variables,
            place,
            Value::Num(first(reversed, low, high)),
        )?;
        let turn = body.clone_in(alloc)?;
        let (low, high) = others(reversed, low, high);
        self.tasks
            .push(Task::Numbers(place, reversed, low, high, body))?;
        self.tasks.push(Task::Rest(turn, 0))?;
        Ok(())
    }
}

fn is_number_or_null(value: &Value) -> bool
    ensures { result ≡ spec.is_number_or_null value.now }
{
    match value {
        Value::Num(_) | Value::Null => true,
        Value::Text(_) | Value::Bool(_) => false,
    }
}

/// What bounds raise that aren't two numbers: one of another type goes before one that is NULL.
fn wrong_bounds(low: &Value, high: &Value) -> u32
    ensures { result ≡ spec.wrong_bounds low.now high.now }
{
    if is_number_or_null(low) && is_number_or_null(high) {
        6502
    } else {
        932
    }
}

/// The number of the first turn.
fn first(reversed: bool, low: i64, high: i64) -> i64
    requires { int_lt high low ≡ false }
    ensures { result ≡ number_of_turn reversed low high (unsigned_abs (high -ℤ low)) }
{
    if reversed { high } else { low }
}

/// The ends of the turns behind the first one; without any, ends between which there is no number.
fn others(reversed: bool, low: i64, high: i64) -> (i64, i64)
    ensures { result ≡ others_of reversed low high }
{
    if low < high {
        if reversed {
            (low, high - 1)
        } else {
            (low + 1, high)
        }
    } else {
        (1, 0)
    }
}
