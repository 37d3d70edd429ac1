//! Instructions that compute values.

ghost use Rattle.std.specs.Prelude.{◌≡◌, OnOk};
ghost use Rattle.ebr_base.specs.Answers.{Answers};
ghost use Rattle.ebr_value.specs.Outcomes.{Outcome as Computed};
ghost use Rattle.ebr_run.specs.Values.{on_value};
ghost use Rattle.ebr_run.specs.declared.place.Location.TheVariants.{Own, Member};
ghost use Rattle.ebr_code.specs.declared.instruction.Operation.TheVariants as does;
ghost use Rattle.ebr_code.specs.Instructions.{operate, push};
ghost use Rattle.ebr_running.specs.Rest.{Computes, Moves};

use crate::running::{Flow, Running};
use ebr_ast::Op;
use ebr_base::{CloneIn, Name, NoMemory, Stop, Value};
use ebr_code::{Fault, Location, VariableType};
use ebr_memory::{put_variable, same_op, sqlcode, unfit, variable};
use ebr_value::{BinOp, Place, binary};
use std::alloc::Global;

impl Running {
    /// Pushes what was computed, or raises.
    pub fn give(&mut self, value: Result<Value, Stop>) -> Result<(), NoMemory>
        requires { self.old.flow ≡ Flow.Normal }
        ensures { OnOk result ((outcome : Computed) → Answers value outcome → Moves self.old self.new (on_value outcome push)) }
    {
        match value {
            Ok(value) => {
                self.push(value)?;
                Ok(())
            }
            Err(Stop::Raised(code)) => {
                self.raise(Fault::Code(code));
                Ok(())
            }
            Err(Stop::NoMemory) => Err(NoMemory),
        }
    }

    /// An operator of the two topmost operands.
    pub fn binary(&mut self, alloc: Global, op: BinOp) -> Result<(), NoMemory>
        requires { self.old.flow ≡ Flow.Normal }
        ensures { OnOk result (Computes self.old self.new (operate (does.Binary op))) }
    {
        let Some(right) = self.operands.pop() else {
            self.end_broken();
            return Ok(());
        };
        let Some(left) = self.operands.pop() else {
            self.end_broken();
            return Ok(());
        };
        self.give(binary(alloc, op, &left, &right, Place::Code))?;
        Ok(())
    }

    /// Pushes the value of a variable.
    pub fn load(&mut self, alloc: Global, from: &Location) -> Result<(), NoMemory>
        requires { self.old.flow ≡ Flow.Normal }
        ensures { OnOk result (Computes self.old self.new (operate (does.Load from.now))) }
    {
        match from {
            Location::Own(place) => self.load_own(alloc, *place),
            Location::Member(name, place) => self.load_member(alloc, name, *place),
        }
    }

    /// Assigns the topmost operand to a variable.
    pub fn assign(&mut self, to: &Location, ty: &Option<VariableType>) -> Result<(), NoMemory>
        requires { self.old.flow ≡ Flow.Normal }
        ensures { OnOk result (Computes self.old self.new (operate (does.Assign to.now ty.now))) }
    {
        match to {
            Location::Own(place) => self.assign_own(*place, ty),
            Location::Member(name, place) => self.assign_member(name, *place, ty),
        }
    }

    /// Pushes the value of a variable of the running subprogram.
    pub fn load_own(&mut self, alloc: Global, place: usize) -> Result<(), NoMemory>
        requires { self.old.flow ≡ Flow.Normal }
        ensures { OnOk result (Computes self.old self.new (operate (does.Load (Own place)))) }
    {
        let value = variable(alloc, &self.variables, place)?;
        self.push(value)?;
        Ok(())
    }

    /// Assigns the topmost operand to a variable of the running subprogram.
    pub fn assign_own(&mut self, place: usize, ty: &Option<VariableType>) -> Result<(), NoMemory>
        requires { self.old.flow ≡ Flow.Normal }
        ensures { OnOk result (Computes self.old self.new (operate (does.Assign (Own place) ty.now))) }
    {
        let Some(value) = self.operands.pop() else {
            self.end_broken();
            return Ok(());
        };
        match unfit(ty, &value) {
            None => {
                put_variable(&mut self.variables, place, value)?;
                Ok(())
            }
            Some(code) => {
                self.raise(Fault::Code(code));
                Ok(())
            }
        }
    }

    /// Pushes the value of a package's variable.
    fn load_member(&mut self, alloc: Global, name: &Name, place: usize) -> Result<(), NoMemory>
        requires { self.old.flow ≡ Flow.Normal }
        ensures { OnOk result (Computes self.old self.new (operate (does.Load (Member name.now place)))) }
    {
        match self.packages.member(alloc, name, place)? {
            Some(value) => {
                self.push(value)?;
                Ok(())
            }
            None => {
                self.end_broken();
                Ok(())
            }
        }
    }

    /// Assigns the topmost operand to a package's variable.
    fn assign_member(
        &mut self,
        name: &Name,
        place: usize,
        ty: &Option<VariableType>,
    ) -> Result<(), NoMemory>
        requires { self.old.flow ≡ Flow.Normal }
        ensures { OnOk result (Computes self.old self.new (operate (does.Assign (Member name.now place) ty.now))) }
    {
        let Some(value) = self.operands.pop() else {
            self.end_broken();
            return Ok(());
        };
        match unfit(ty, &value) {
            None => {
                self.packages.put_member(name, place, value)?;
                Ok(())
            }
            Some(code) => {
                self.raise(Fault::Code(code));
                Ok(())
            }
        }
    }

    /// Pushes the topmost operand once more.
    pub fn copy(&mut self, alloc: Global) -> Result<(), NoMemory>
        requires { self.old.flow ≡ Flow.Normal }
        ensures { OnOk result (Computes self.old self.new (operate does.Copy)) }
    {
        let Some(value) = self.operands.pop() else {
            self.end_broken();
            return Ok(());
        };
        let copy = value.clone_in(alloc)?;
        self.operands.push(value)?;
        self.operands.push(copy)?;
        Ok(())
    }

    /// Pushes the operand beneath the topmost one once more.
    pub fn over(&mut self, alloc: Global) -> Result<(), NoMemory>
        requires { self.old.flow ≡ Flow.Normal }
        ensures { OnOk result (Computes self.old self.new (operate does.Over)) }
    {
        let Some(top) = self.operands.pop() else {
            self.end_broken();
            return Ok(());
        };
        let Some(beneath) = self.operands.pop() else {
            self.end_broken();
            return Ok(());
        };
        let copy = beneath.clone_in(alloc)?;
        self.operands.push(beneath)?;
        self.operands.push(top)?;
        self.operands.push(copy)?;
        Ok(())
    }

    /// Takes the operand beneath the topmost one away.
    pub fn nip(&mut self) -> Result<(), NoMemory>
        requires { self.old.flow ≡ Flow.Normal }
        ensures { OnOk result (Computes self.old self.new (operate does.Nip)) }
    {
        let Some(top) = self.operands.pop() else {
            self.end_broken();
            return Ok(());
        };
        let Some(_) = self.operands.pop() else {
            self.end_broken();
            return Ok(());
        };
        self.operands.push(top)?;
        Ok(())
    }

    /// Takes the topmost operand away.
    pub fn take_away(&mut self)
        requires { self.old.flow ≡ Flow.Normal }
        ensures { Computes self.old self.new (operate does.Drop) }
    {
        if self.operands.pop().is_none() {
            self.end_broken();
        }
    }

    /// INSERTING, UPDATING and DELETING.
    pub fn firing(&mut self, op: Op) -> Result<(), NoMemory>
        requires { self.old.flow ≡ Flow.Normal }
        ensures { OnOk result (Computes self.old self.new (operate (does.Firing op))) }
    {
        match &self.row {
            Some(row) => {
                let fires = same_op(op, row.op);
                self.push(Value::Bool(fires))?;
                Ok(())
            }
            None => {
                self.end_broken();
                Ok(())
            }
        }
    }

    /// SQLCODE of what the handler at a place handles.
    pub fn sqlcode(&mut self, place: usize) -> Result<(), NoMemory>
        requires { self.old.flow ≡ Flow.Normal }
        ensures { OnOk result (Computes self.old self.new (operate (does.SqlCode place))) }
    {
        match self.faults.get(place) {
            Some(fault) => {
                let code = sqlcode(fault);
                self.push(Value::Num(code))?;
                Ok(())
            }
            None => {
                self.end_broken();
                Ok(())
            }
        }
    }

    /// Raises what the handler at a place handles.
    pub fn reraise(&mut self, alloc: Global, place: usize) -> Result<(), NoMemory>
        requires { self.old.flow ≡ Flow.Normal }
        ensures { OnOk result (Computes self.old self.new (operate (does.Reraise place))) }
    {
        match self.faults.get(place) {
            Some(fault) => {
                let fault = fault.clone_in(alloc)?;
                self.raise(fault);
                Ok(())
            }
            None => {
                self.end_broken();
                Ok(())
            }
        }
    }
}
