//! Instructions that leave loops and subprograms, and transactions of their own.

ghost use Rattle.std.specs.Prelude.{◌≡◌, ◌∷◌, OnOk};
ghost use Rattle.ebr_run.specs.State as run;
ghost use Rattle.ebr_code.specs.Instructions.{operate};
ghost use Rattle.ebr_code.specs.declared.instruction.Operation.TheVariants as does;
ghost use Rattle.ebr_running.specs.Rest as rest;
ghost use Rattle.ebr_running.specs.Rest.{Computes, Does, Follows, IsRunning};
ghost use Rattle.ebr_running.specs.declared.running.Task.TheVariants as task;
ghost use Rattle.ebr_asks.specs.declared.ask.Ask.TheVariants as asks;

use crate::running::{Flow, Left, Pending, Running, Task};
use ebr_asks::Ask;
use ebr_base::NoMemory;
use ebr_code::{Code, Fault, VariableType};
use ebr_memory::unfit;

impl Running {
    /// RETURN.
    pub fn end_return(&mut self)
        requires { self.old.flow ≡ Flow.Normal }
        ensures { Computes self.old self.new (operate does.Return) }
    {
        self.operands.clear();
        self.flow = Flow::Returned;
    }

    /// EXIT.
    pub fn end_exit(&mut self)
        requires { self.old.flow ≡ Flow.Normal }
        ensures { Computes self.old self.new (operate does.Exit) }
    {
        self.operands.clear();
        self.flow = Flow::Exit;
    }

    /// CONTINUE.
    pub fn end_continue(&mut self)
        requires { self.old.flow ≡ Flow.Normal }
        ensures { Computes self.old self.new (operate does.Continue) }
    {
        self.operands.clear();
        self.flow = Flow::Continue;
    }

    /// RETURN of the topmost operand.
    pub fn give_back(&mut self, ty: &Option<VariableType>) -> Result<(), NoMemory>
        requires { self.old.flow ≡ Flow.Normal }
        ensures { OnOk result (Computes self.old self.new (operate (does.Give ty.now))) }
    {
        let Some(value) = self.operands.pop() else {
            self.end_broken();
            return Ok(());
        };
        match unfit(ty, &value) {
            None => {
                self.operands.clear();
                self.operands.push(value)?;
                self.flow = Flow::Returned;
                Ok(())
            }
            Some(code) => {
                self.raise(Fault::Code(code));
                Ok(())
            }
        }
    }

    /// Begins a unit whose transaction has begun.
    pub fn begin_autonomous(&mut self, function: bool, code: Code) -> Result<(), NoMemory>
        requires { self.old.flow ≡ Flow.Normal }
        ensures { OnOk result (Follows self.old self.new (task.Autonomous function code ∷ self.old.tasks)) }
    {
        self.operands.clear();
        self.tasks.push(Task::Close)?;
        if function {
            self.tasks.push(Task::Function)?;
            self.tasks.push(Task::Rest(code, 0))?;
            return Ok(());
        }
        self.tasks.push(Task::Rest(code, 0))?;
        Ok(())
    }

    /// Asks for the end of a unit's transaction.
    pub fn close(&mut self)
        requires { IsRunning self.old.flow }
        ensures { Follows self.old self.new (task.Close ∷ self.old.tasks) }
    {
        match self.flow {
            Flow::Stopped(_) | Flow::Waiting => {}
            Flow::Raised => self.close_as(true, Left::Raised),
            Flow::Returned => self.close_as(false, Left::Returned),
            Flow::Exit => self.close_as(false, Left::Exit),
            Flow::Continue => self.close_as(false, Left::Continue),
            Flow::Normal => self.close_as(false, Left::Normal),
        }
    }

    fn close_as(&mut self, failed: bool, left: Left)
        ensures { Does self.old self.new (λ σ. run.asked (asks.PopAuto failed) σ (λ a. run.when_done a (run.ended (rest.left_with left self.old.fault)))) }
    {
        self.ask = Ask::PopAuto { failed };
        self.pending = Pending::Close(left);
        self.flow = Flow::Waiting;
    }
}
