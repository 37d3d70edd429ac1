//! Handlers.

ghost use Rattle.std.specs.Prelude.{◌≡◌, ◌∷◌, map, OnOk};
ghost use Rattle.ebr_code.specs.Instructions as code;
ghost use Rattle.ebr_code.specs.Instructions.{handling_of};
ghost use Rattle.ebr_code.specs.Books.{Book};
ghost use Rattle.ebr_running.specs.Rest.{DoesIn, Follows, IsRunning, calls};
ghost use Rattle.ebr_running.specs.declared.running.Task.TheVariants as task;

use crate::running::{Flow, Running, Task};
use ebr_base::{CloneIn, List, NoMemory, Shared};
use ebr_code::Handler;
use ebr_memory::{catcher, put_fault};
use std::alloc::Global;

impl Running {
    /// What is behind guarded statements: the first handler that catches what was raised.
    pub fn end_guard(
        &mut self,
        alloc: Global,
        place: usize,
        handlers: &Shared<List<Handler>>,
    ) -> Result<(), NoMemory>
        requires { IsRunning self.old.flow }
        ensures { OnOk result (Follows self.old self.new (task.Guard place handlers.now ∷ self.old.tasks)) }
    {
        match self.flow {
            Flow::Raised => {
                self.handle(alloc, place, handlers.get())?;
                Ok(())
            }
            _ => Ok(()),
        }
    }

    fn handle(
        &mut self,
        alloc: Global,
        place: usize,
        handlers: &List<Handler>,
    ) -> Result<(), NoMemory>
        requires { self.old.flow ≡ Flow.Raised }
        ensures { OnOk result ((book : Book) → DoesIn book self.old self.new (code.handled place (map handling_of handlers.now) (calls book self.old) self.old.fault)) }
    {
        match catcher(handlers.as_slice(), &self.fault) {
            Some(handler) => {
                put_fault(alloc, &mut self.faults, place, &self.fault)?;
                self.operands.clear();
                self.tasks
                    .push(Task::Rest(handler.body.clone_in(alloc)?, 0))?;
                self.flow = Flow::Normal;
                Ok(())
            }
            None => {
                self.operands.clear();
                Ok(())
            }
        }
    }
}
