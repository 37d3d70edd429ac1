//! What tasks do when what is above them has ended.

ghost use Rattle.std.specs.Prelude.{◌≡◌, ◌∷◌, OnOk};
ghost use Rattle.ebr_run.specs.State as run;
ghost use Rattle.ebr_code.specs.Books.{Book};
ghost use Rattle.ebr_code.specs.Instructions as code;
ghost use Rattle.ebr_running.specs.Rest as rest;
ghost use Rattle.ebr_running.specs.Rest.{Does, DoesIn, Follows, IsRunning, calls};
ghost use Rattle.ebr_running.specs.declared.running.Task.TheVariants as task;

use crate::moves::following;
use crate::running::{Flow, Running, Task};
use ebr_base::{CloneIn, Code as Refusal, NoMemory};
use ebr_code::{Code, Fault};
use std::alloc::Global;

impl Running {
    /// The step and the body of a turn.
    pub fn turn_body(&mut self, alloc: Global, head: Code, body: Code) -> Result<(), NoMemory>
        requires { self.old.flow ≡ Flow.Normal }
        ensures { OnOk result ((book : Book) → DoesIn book self.old self.new (rest.rest_of_turn (code.run head (calls book self.old)) (code.run body (calls book self.old)))) }
    {
        let is_last = self.steps >= self.left;
        self.steps = following(self.steps)?;
        self.operands.clear();
        if is_last {
            self.flow = Flow::Stopped(Refusal::Ebr(7));
            return Ok(());
        }
        let turn = body.clone_in(alloc)?;
        self.tasks.push(Task::Loop(head, body))?;
        self.tasks.push(Task::Rest(turn, 0))?;
        Ok(())
    }

    /// What is behind a loop's turn.
    pub fn end_turn(&mut self, alloc: Global, head: Code, body: Code) -> Result<(), NoMemory>
        requires { IsRunning self.old.flow }
        ensures { OnOk result (Follows self.old self.new (task.Loop head body ∷ self.old.tasks)) }
    {
        match self.flow {
            Flow::Normal | Flow::Continue => {
                self.flow = Flow::Normal;
                self.repeat(alloc, head, body)?;
                Ok(())
            }
            Flow::Exit => {
                self.leave_loop();
                Ok(())
            }
            _ => Ok(()),
        }
    }

    /// What is behind a turn's head.
    pub fn end_head(&mut self, alloc: Global, head: Code, body: Code) -> Result<(), NoMemory>
        requires { IsRunning self.old.flow }
        ensures { OnOk result (Follows self.old self.new (task.Head head body ∷ self.old.tasks)) }
    {
        match self.flow {
            Flow::Normal | Flow::Continue => {
                self.flow = Flow::Normal;
                self.turn_body(alloc, head, body)?;
                Ok(())
            }
            Flow::Exit => {
                self.leave_loop();
                Ok(())
            }
            _ => Ok(()),
        }
    }

    /// Goes on behind a loop.
    pub fn leave_loop(&mut self)
        ensures { Does self.old self.new run.done }
    {
        self.operands.clear();
        self.flow = Flow::Normal;
    }

    /// The end of a function, which ends by RETURN.
    pub fn end_function(&mut self)
        requires { IsRunning self.old.flow }
        ensures { Follows self.old self.new (task.Function ∷ self.old.tasks) }
    {
        match self.flow {
            Flow::Normal => self.raise(Fault::Code(Refusal::Ora(6503))),
            _ => {}
        }
    }
}
