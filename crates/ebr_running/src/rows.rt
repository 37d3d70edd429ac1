//! Rows.

ghost use Rattle.std.specs.Prelude.{◌≡◌, OnOk};
ghost use Rattle.std.specs.Prelude.{List as Sequence};
ghost use Rattle.ebr_sqlcheck.specs.Types.{Known};
ghost use Rattle.ebr_asks.specs.declared.answer.Answer.TheVariants as answer;
ghost use Rattle.ebr_memory.specs.Rows as fit;
ghost use Rattle.ebr_run.specs.Statements.{only_row};
ghost use Rattle.ebr_code.specs.Instructions.{holding};
ghost use Rattle.ebr_running.specs.Rest as rest;
ghost use Rattle.ebr_running.specs.Rest.{Moves};

use crate::running::{Flow, Pending, Running};
use ebr_base::{Code, List, NoMemory, Shared, Value};
use ebr_code::{Fault, Location, Lookup};
use ebr_memory::{Cursor, first_fits, put_cursor};
use std::alloc::Global;

impl Running {
    /// Takes the rows of a query.
    pub fn take_rows(
        &mut self,
        alloc: Global,
        rows: Shared<List<List<Value>>>,
    ) -> Result<(), NoMemory>
        ensures { OnOk result (Moves self.old self.new (rest.after self.old.pending self.old.lookup self.old.fault (answer.Rows rows))) }
    {
        match self.pending {
            Pending::Lookup => match self.lookup.get() {
                Lookup::Row(types) => {
                    let fits = first_fits(types, rows.get());
                    self.take_row(alloc, rows.get().as_slice(), fits)?;
                    Ok(())
                }
                Lookup::Open(Location::Own(place)) => {
                    put_cursor(&mut self.cursors, *place, Cursor::opened(rows))?;
                    self.operands.clear();
                    self.flow = Flow::Normal;
                    Ok(())
                }
                Lookup::Open(Location::Member(name, place)) => {
                    self.packages
                        .put_cursor(name, *place, Cursor::opened(rows))?;
                    self.operands.clear();
                    self.flow = Flow::Normal;
                    Ok(())
                }
                Lookup::Count => {
                    self.end_broken();
                    Ok(())
                }
            },
            Pending::Done => {
                self.end_broken();
                Ok(())
            }
            Pending::Close(_) => {
                self.end_broken();
                Ok(())
            }
        }
    }

    /// Takes the one row of a query, where there is just one, and it fits.
    fn take_row(&mut self, alloc: Global, rows: &[List<Value>], fits: bool) -> Result<(), NoMemory>
        ensures { OnOk result ((types : Sequence Known) → fits ≡ fit.first_fits types rows.now → Moves self.old self.new (only_row types rows.now holding)) }
    {
        let Some((row, others)) = rows.split_first() else {
            self.raise(Fault::Code(Code::Ora(1403)));
            return Ok(());
        };
        if others.len() > 0 {
            self.raise(Fault::Code(Code::Ora(1422)));
            return Ok(());
        }
        if fits {
            self.hold(alloc, row.as_slice())?;
            return Ok(());
        }
        self.raise(Fault::Code(Code::Ora(932)));
        Ok(())
    }

    /// Pushes copies of the values of a row, the first topmost.
    fn hold(&mut self, alloc: Global, row: &[Value]) -> Result<(), NoMemory>
        ensures { OnOk result (Moves self.old self.new (holding row.now)) }
    {
        self.operands.clear();
        self.operands.push_copies(alloc, row)?;
        self.flow = Flow::Normal;
        Ok(())
    }
}
