//! Attributes of cursors, and fetches.

ghost use Rattle.std.specs.Prelude.{◌≡◌, OnOk};
ghost use Rattle.ebr_memory.specs.Rows.{fetched_of};
ghost use Rattle.ebr_run.specs.Faults.{ora};
ghost use Rattle.ebr_run.specs.Values.{on_some};
ghost use Rattle.ebr_run.specs.declared.place.Location.TheVariants.{Own, Member};
ghost use Rattle.ebr_code.specs.Instructions.{operate, push, row_fetched};
ghost use Rattle.ebr_code.specs.declared.instruction.Operation.TheVariants as does;
ghost use Rattle.ebr_running.specs.Rest.{Computes, Moves};

use crate::running::{Flow, Running};
use ebr_ast::Attribute;
use ebr_base::{Code, List, Name, NoMemory, Value};
use ebr_code::{Fault, Location};
use ebr_memory::{Fetched, cursor_attribute, fetch};
use ebr_sqlcheck::ValueType;
use std::alloc::Global;

impl Running {
    /// Pushes an attribute of a cursor.
    pub fn attribute(&mut self, cursor: &Location, attribute: Attribute) -> Result<(), NoMemory>
        requires { self.old.flow ≡ Flow.Normal }
        ensures { OnOk result (Computes self.old self.new (operate (does.Attribute cursor.now attribute))) }
    {
        match cursor {
            Location::Own(place) => self.attribute_own(*place, attribute),
            Location::Member(name, place) => self.attribute_member(name, *place, attribute),
        }
    }

    /// FETCH: pushes the values of a row of these types, the first topmost, and above them TRUE; without a row FALSE alone.
    pub fn fetch(
        &mut self,
        alloc: Global,
        cursor: &Location,
        types: &List<Option<ValueType>>,
    ) -> Result<(), NoMemory>
        requires { self.old.flow ≡ Flow.Normal }
        ensures { OnOk result (Computes self.old self.new (operate (does.Fetch cursor.now types.now))) }
    {
        match cursor {
            Location::Own(place) => self.fetch_own(alloc, *place, types),
            Location::Member(name, place) => self.fetch_member(alloc, name, *place, types),
        }
    }

    /// Pushes an attribute of a cursor of the running subprogram.
    fn attribute_own(&mut self, place: usize, attribute: Attribute) -> Result<(), NoMemory>
        requires { self.old.flow ≡ Flow.Normal }
        ensures { OnOk result (Computes self.old self.new (operate (does.Attribute (Own place) attribute))) }
    {
        let value = cursor_attribute(&self.cursors, place, attribute)?;
        self.give_attribute(value)?;
        Ok(())
    }

    /// Pushes an attribute of a package's cursor.
    fn attribute_member(
        &mut self,
        name: &Name,
        place: usize,
        attribute: Attribute,
    ) -> Result<(), NoMemory>
        requires { self.old.flow ≡ Flow.Normal }
        ensures { OnOk result (Computes self.old self.new (operate (does.Attribute (Member name.now place) attribute))) }
    {
        let value = self.packages.attribute(name, place, attribute)?;
        self.give_attribute(value)?;
        Ok(())
    }

    /// Pushes an attribute; ORA-01001 where the cursor has to be open for it.
    fn give_attribute(&mut self, value: Option<Value>) -> Result<(), NoMemory>
        requires { self.old.flow ≡ Flow.Normal }
        ensures { OnOk result (Moves self.old self.new (on_some value (ora 1001) push)) }
    {
        match value {
            Some(value) => {
                self.push(value)?;
                Ok(())
            }
            None => {
                self.raise(Fault::Code(Code::Ora(1001)));
                Ok(())
            }
        }
    }

    /// FETCH from a cursor of the running subprogram.
    fn fetch_own(
        &mut self,
        alloc: Global,
        place: usize,
        types: &List<Option<ValueType>>,
    ) -> Result<(), NoMemory>
        requires { self.old.flow ≡ Flow.Normal }
        ensures { OnOk result (Computes self.old self.new (operate (does.Fetch (Own place) types.now))) }
    {
        let fetched = fetch(alloc, &mut self.cursors, place, types.as_slice())?;
        self.take_fetched(alloc, fetched)?;
        Ok(())
    }

    /// FETCH from a package's cursor.
    fn fetch_member(
        &mut self,
        alloc: Global,
        name: &Name,
        place: usize,
        types: &List<Option<ValueType>>,
    ) -> Result<(), NoMemory>
        requires { self.old.flow ≡ Flow.Normal }
        ensures { OnOk result (Computes self.old self.new (operate (does.Fetch (Member name.now place) types.now))) }
    {
        let fetched = self.packages.fetch(alloc, name, place, types.as_slice())?;
        self.take_fetched(alloc, fetched)?;
        Ok(())
    }

    /// Pushes what was fetched, or raises.
    fn take_fetched(&mut self, alloc: Global, fetched: Fetched) -> Result<(), NoMemory>
        requires { self.old.flow ≡ Flow.Normal }
        ensures { OnOk result (Moves self.old self.new (row_fetched (fetched_of fetched))) }
    {
        match fetched {
            Fetched::Unopened => {
                self.raise(Fault::Code(Code::Ora(1001)));
                Ok(())
            }
            Fetched::NoRow => {
                self.operands.clear();
                self.operands.push(Value::Bool(false))?;
                Ok(())
            }
            Fetched::Unfit => {
                self.raise(Fault::Code(Code::Ora(932)));
                Ok(())
            }
            Fetched::Row(row) => {
                self.operands.clear();
                self.operands.push_copies(alloc, row.values())?;
                self.operands.push(Value::Bool(true))?;
                Ok(())
            }
        }
    }
}
