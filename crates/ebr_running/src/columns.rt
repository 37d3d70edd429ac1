//! The row of a trigger's body, `SQL%`, and functions.

ghost use Rattle.std.specs.Prelude.{◌≡◌, OnOk};
ghost use Rattle.ebr_run.specs.Values as spec;
ghost use Rattle.ebr_code.specs.Instructions.{operate};
ghost use Rattle.ebr_code.specs.declared.instruction.Operation.TheVariants as does;
ghost use Rattle.ebr_running.specs.Rest.{Computes, Moves};

use crate::running::{Flow, Running};
use ebr_ast::{Attribute, RowImage};
use ebr_base::{NoMemory, Value};
use ebr_code::{Fault, VariableType};
use ebr_expr::unsigned;
use ebr_memory::{affected_attribute, column, set_column, unfit};
use ebr_value::{Builtin, Place, function};
use std::alloc::Global;

impl Running {
    /// A function of so many operands.
    pub fn function(
        &mut self,
        alloc: Global,
        builtin: Builtin,
        count: usize,
    ) -> Result<(), NoMemory>
        requires { self.old.flow ≡ Flow.Normal }
        ensures { OnOk result (Computes self.old self.new (operate (does.Function builtin count))) }
    {
        let value = function(alloc, builtin, self.operands.last(count), Place::Code);
        self.operands.shorten(count);
        self.give(value)?;
        Ok(())
    }

    /// `+a`.
    pub fn unsigned(&mut self) -> Result<(), NoMemory>
        requires { self.old.flow ≡ Flow.Normal }
        ensures { OnOk result (Computes self.old self.new (operate does.Unsigned)) }
    {
        let Some(value) = self.operands.pop() else {
            self.end_broken();
            return Ok(());
        };
        self.give(unsigned(value))?;
        Ok(())
    }

    /// The column of `:NEW` or of `:OLD` at a place.
    pub fn load_column(
        &mut self,
        alloc: Global,
        image: RowImage,
        place: usize,
    ) -> Result<(), NoMemory>
        requires { self.old.flow ≡ Flow.Normal }
        ensures { OnOk result (Computes self.old self.new (operate (does.LoadColumn image place))) }
    {
        match &self.row {
            Some(row) => {
                let value = match image {
                    RowImage::New => column(alloc, &row.new, place)?,
                    RowImage::Old => column(alloc, &row.old, place)?,
                };
                self.push(value)?;
                Ok(())
            }
            None => {
                self.end_broken();
                Ok(())
            }
        }
    }

    /// Assigns the topmost operand to the column of `:NEW` at a place.
    pub fn assign_new(
        &mut self,
        alloc: Global,
        place: usize,
        ty: VariableType,
    ) -> Result<(), NoMemory>
        requires { self.old.flow ≡ Flow.Normal }
        ensures { OnOk result (Computes self.old self.new (operate (does.AssignNew place ty))) }
    {
        let Some(value) = self.operands.pop() else {
            self.end_broken();
            return Ok(());
        };
        match unfit(&Some(ty), &value) {
            None => {
                self.set_new(alloc, place, value);
                Ok(())
            }
            Some(code) => {
                self.raise(Fault::Code(code));
                Ok(())
            }
        }
    }

    fn set_new(&mut self, alloc: Global, place: usize, value: Value)
        requires { self.old.flow ≡ Flow.Normal }
        ensures { Moves self.old self.new (spec.set_new place value) }
    {
        match &mut self.row {
            Some(row) => set_column(alloc, &mut row.new, place, value),
            None => self.end_broken(),
        }
    }

    /// Keeps a count for `SQL%ROWCOUNT`.
    pub fn affect(&mut self, count: usize)
        requires { self.old.flow ≡ Flow.Normal }
        ensures { Computes self.old self.new (operate (does.Affect count)) }
    {
        self.affected = Some(count as u64);
        self.operands.clear();
    }

    /// `SQL%FOUND` and the like.
    pub fn affected(&mut self, attribute: Attribute) -> Result<(), NoMemory>
        requires { self.old.flow ≡ Flow.Normal }
        ensures { OnOk result (Computes self.old self.new (operate (does.Affected attribute))) }
    {
        let value = affected_attribute(attribute, self.affected)?;
        self.push(value)?;
        Ok(())
    }
}
