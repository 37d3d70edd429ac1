//! Instructions that hold code.

ghost use Rattle.std.specs.Prelude.{◌≡◌, map, OnOk};
ghost use Rattle.ebr_code.specs.declared.instruction.Instruction.TheOpen as code;
ghost use Rattle.ebr_code.specs.Instructions.{act, decide, handling_of, meaning_of, run_all};
ghost use Rattle.ebr_expr.specs.Operators as spec;
ghost use Rattle.ebr_code.specs.Books.{Book};
ghost use Rattle.ebr_running.specs.Rest.{Acts, DoesIn, calls};

use crate::running::{Flow, Running, Task};
use ebr_base::{CloneIn, List, NoMemory, Shared, Value};
use ebr_code::{Code, Handler, Location};
use ebr_expr::decided;
use ebr_memory::is_true;
use ebr_value::BinOp;
use std::alloc::Global;

impl Running {
    /// IF.
    pub fn choose(&mut self, alloc: Global, then: &Code, otherwise: &Code) -> Result<(), NoMemory>
        requires { self.old.flow ≡ Flow.Normal }
        ensures { OnOk result (Acts self.old self.new (act (code.If (map meaning_of then.now) (map meaning_of otherwise.now)))) }
    {
        match self.operands.pop() {
            Some(value) => {
                let body = if is_true(&value) { then } else { otherwise };
                self.tasks.push(Task::Rest(body.clone_in(alloc)?, 0))?;
                Ok(())
            }
            None => {
                self.end_broken();
                Ok(())
            }
        }
    }

    /// AND and OR behind their left operand.
    pub fn decide(&mut self, alloc: Global, op: BinOp, rest: &Code) -> Result<(), NoMemory>
        requires { self.old.flow ≡ Flow.Normal }
        ensures { OnOk result (Acts self.old self.new (act (code.Decide op (map meaning_of rest.now)))) }
    {
        match self.operands.pop() {
            Some(left) => {
                self.go_behind(alloc, op, left, rest)?;
                Ok(())
            }
            None => {
                self.end_broken();
                Ok(())
            }
        }
    }

    fn go_behind(
        &mut self,
        alloc: Global,
        op: BinOp,
        left: Value,
        rest: &Code,
    ) -> Result<(), NoMemory>
        requires { self.old.flow ≡ Flow.Normal }
        ensures { OnOk result ((book : Book) → DoesIn book self.old self.new (decide (spec.decided op left) left (run_all (map meaning_of rest.now)) (calls book self.old))) }
    {
        match decided(op, &left) {
            Some(value) => {
                self.operands.push(value)?;
                Ok(())
            }
            None => {
                self.operands.push(left)?;
                self.tasks.push(Task::Rest(rest.clone_in(alloc)?, 0))?;
                Ok(())
            }
        }
    }

    /// A loop, or its next turn: the head, and then the rest of the turn.
    pub fn repeat(&mut self, alloc: Global, head: Code, body: Code) -> Result<(), NoMemory>
        requires { self.old.flow ≡ Flow.Normal }
        ensures { OnOk result (Acts self.old self.new (act (code.Loop (map meaning_of head) (map meaning_of body)))) }
    {
        let first = head.clone_in(alloc)?;
        self.operands.clear();
        self.tasks.push(Task::Head(head, body))?;
        self.tasks.push(Task::Rest(first, 0))?;
        Ok(())
    }

    /// Statements with handlers.
    pub fn guard(
        &mut self,
        alloc: Global,
        body: &Code,
        place: usize,
        handlers: &Shared<List<Handler>>,
    ) -> Result<(), NoMemory>
        requires { self.old.flow ≡ Flow.Normal }
        ensures { OnOk result (Acts self.old self.new (act (code.Guard (map meaning_of body.now) place (map handling_of handlers.now)))) }
    {
        self.tasks
            .push(Task::Guard(place, handlers.clone_in(alloc)?))?;
        self.tasks.push(Task::Rest(body.clone_in(alloc)?, 0))?;
        Ok(())
    }

    /// Code behind which a cursor is closed.
    pub fn closing(&mut self, alloc: Global, cursor: &Location, body: &Code) -> Result<(), NoMemory>
        requires { self.old.flow ≡ Flow.Normal }
        ensures { OnOk result (Acts self.old self.new (act (code.Closing cursor.now (map meaning_of body.now)))) }
    {
        self.tasks.push(Task::Closing(cursor.clone_in(alloc)?))?;
        self.tasks.push(Task::Rest(body.clone_in(alloc)?, 0))?;
        Ok(())
    }
}
