//! Instructions on cursors.

ghost use Rattle.std.specs.Prelude.{◌≡◌, ◌∷◌, OnOk};
ghost use Rattle.ebr_code.specs.Instructions.{operate};
ghost use Rattle.ebr_code.specs.declared.instruction.Operation.TheVariants as does;
ghost use Rattle.ebr_run.specs.declared.place.Location.TheVariants.{Own, Member};
ghost use Rattle.ebr_running.specs.Rest.{Computes, Follows, IsRunning};
ghost use Rattle.ebr_running.specs.declared.running.Task.TheVariants as task;

use crate::running::{Flow, Running};
use ebr_base::{Code, Name, NoMemory};
use ebr_code::{Fault, Location};
use ebr_memory::{Cursor, is_open, put_cursor};

impl Running {
    /// Raises ORA-06511 where a cursor is open.
    pub fn test_closed(&mut self, cursor: &Location)
        requires { self.old.flow ≡ Flow.Normal }
        ensures { Computes self.old self.new (operate (does.Open cursor.now)) }
    {
        match cursor {
            Location::Own(place) => self.test_own(*place),
            Location::Member(name, place) => self.test_member(name, *place),
        }
    }

    /// Closes a cursor, open or not.
    pub fn reset(&mut self, cursor: &Location) -> Result<(), NoMemory>
        requires { self.old.flow ≡ Flow.Normal }
        ensures { OnOk result (Computes self.old self.new (operate (does.Reset cursor.now))) }
    {
        match cursor {
            Location::Own(place) => self.reset_own(*place),
            Location::Member(name, place) => self.reset_member(name, *place),
        }
    }

    /// CLOSE.
    pub fn close_cursor(&mut self, cursor: &Location) -> Result<(), NoMemory>
        requires { self.old.flow ≡ Flow.Normal }
        ensures { OnOk result (Computes self.old self.new (operate (does.Close cursor.now))) }
    {
        match cursor {
            Location::Own(place) => self.close_own(*place),
            Location::Member(name, place) => self.close_member(name, *place),
        }
    }

    /// Closes a cursor when its loop has ended.
    pub fn end_closing(&mut self, cursor: &Location) -> Result<(), NoMemory>
        requires { IsRunning self.old.flow }
        ensures { OnOk result (Follows self.old self.new (task.Closing cursor.now ∷ self.old.tasks)) }
    {
        match cursor {
            Location::Own(place) => self.end_closing_own(*place),
            Location::Member(name, place) => self.end_closing_member(name, *place),
        }
    }

    /// Raises ORA-06511 where a cursor of the running subprogram is open.
    fn test_own(&mut self, place: usize)
        requires { self.old.flow ≡ Flow.Normal }
        ensures { Computes self.old self.new (operate (does.Open (Own place))) }
    {
        if is_open(&self.cursors, place) {
            self.raise(Fault::Code(Code::Ora(6511)));
        }
    }

    /// Closes a cursor of the running subprogram, open or not.
    fn reset_own(&mut self, place: usize) -> Result<(), NoMemory>
        requires { self.old.flow ≡ Flow.Normal }
        ensures { OnOk result (Computes self.old self.new (operate (does.Reset (Own place)))) }
    {
        put_cursor(&mut self.cursors, place, Cursor::closed())?;
        self.operands.clear();
        Ok(())
    }

    /// CLOSE of a cursor of the running subprogram.
    fn close_own(&mut self, place: usize) -> Result<(), NoMemory>
        requires { self.old.flow ≡ Flow.Normal }
        ensures { OnOk result (Computes self.old self.new (operate (does.Close (Own place)))) }
    {
        if is_open(&self.cursors, place) {
            put_cursor(&mut self.cursors, place, Cursor::closed())?;
            self.operands.clear();
            return Ok(());
        }
        self.raise(Fault::Code(Code::Ora(1001)));
        Ok(())
    }

    /// Closes a cursor of the running subprogram when its loop has ended.
    fn end_closing_own(&mut self, place: usize) -> Result<(), NoMemory>
        requires { IsRunning self.old.flow }
        ensures { OnOk result (Follows self.old self.new (task.Closing (Own place) ∷ self.old.tasks)) }
    {
        put_cursor(&mut self.cursors, place, Cursor::closed())?;
        Ok(())
    }

    /// Raises ORA-06511 where a package's cursor is open.
    fn test_member(&mut self, name: &Name, place: usize)
        requires { self.old.flow ≡ Flow.Normal }
        ensures { Computes self.old self.new (operate (does.Open (Member name.now place))) }
    {
        if self.packages.is_open(name, place) {
            self.raise(Fault::Code(Code::Ora(6511)));
        }
    }

    /// Closes a package's cursor, open or not.
    fn reset_member(&mut self, name: &Name, place: usize) -> Result<(), NoMemory>
        requires { self.old.flow ≡ Flow.Normal }
        ensures { OnOk result (Computes self.old self.new (operate (does.Reset (Member name.now place)))) }
    {
        self.packages.put_cursor(name, place, Cursor::closed())?;
        self.operands.clear();
        Ok(())
    }

    /// CLOSE of a package's cursor.
    fn close_member(&mut self, name: &Name, place: usize) -> Result<(), NoMemory>
        requires { self.old.flow ≡ Flow.Normal }
        ensures { OnOk result (Computes self.old self.new (operate (does.Close (Member name.now place)))) }
    {
        if self.packages.is_open(name, place) {
            self.packages.put_cursor(name, place, Cursor::closed())?;
            self.operands.clear();
            return Ok(());
        }
        self.raise(Fault::Code(Code::Ora(1001)));
        Ok(())
    }

    /// Closes a package's cursor when its loop has ended.
    fn end_closing_member(&mut self, name: &Name, place: usize) -> Result<(), NoMemory>
        requires { IsRunning self.old.flow }
        ensures { OnOk result (Follows self.old self.new (task.Closing (Member name.now place) ∷ self.old.tasks)) }
    {
        self.packages.put_cursor(name, place, Cursor::closed())?;
        Ok(())
    }
}
