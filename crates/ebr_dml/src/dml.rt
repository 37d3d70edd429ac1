//! A statement that changes rows, step by step.

ghost use Rattle.std.specs.Prelude.{◌≡◌, true, is_some, unwrap_or, [], Ok, IfOk, OnOk, OnErr};
ghost use Rattle.ebr_base.specs.Answers.{Answers};
ghost use Rattle.ebr_ast.specs.Views.{IsInOrder};
ghost use Rattle.ebr_tx.specs.Calls.{IsKnown};
ghost use Rattle.ebr_tx.specs.Data.{IsLive, own};
ghost use Rattle.ebr_sqlcheck.specs.Checked.{on};
ghost use Rattle.ebr_dml.specs.declared.step.DmlStep.TheVariants.{Before};
ghost use Rattle.ebr_dml.specs.Images as images;
ghost use Rattle.ebr_dml.specs.Steps as spec;
ghost use Rattle.ebr_dml.specs.Steps.{IsSeen};
ghost use Rattle.ebr_dml.specs.Tests as tests;
ghost use Rattle.ebr_dml.specs.inside.Writes.{Changes};

use crate::image::{after_values, new_values, old_values};
use crate::plan::Plan;
use crate::planning::plan_of;
use crate::rows::{Found, rows_of};
use crate::step::DmlStep;
use crate::taken::Taken;
use crate::value::copies;
use crate::write::write;
use ebr_ast::{EditionView, SqlTree};
use ebr_base::{List, Shared, Stop, TxId, Value};
use ebr_tx::Transactions;
use std::alloc::Global;
use std::marker::Model;

/// An INSERT, UPDATE, DELETE or APPLY TRIGGER at work, which contracts see as where it stands.
#[derive(Drop)]
pub struct Dml {
    alloc: Global,
    t: TxId,
    plan: Shared<Plan>,
    binds: List<Value>,
    /// All rows of the statement.
    found: Found,
    /// How many of them are done.
    at: usize,
    /// Whether the next one has been given to its BEFORE triggers.
    begun: bool,
}

impl Model for Dml {
    ghost use Rattle.std.specs.Coded.{codes};
    ghost use Rattle.ebr_exprtree.specs.contracts.expression.Expr as e;
    ghost use Rattle.ebr_dml.specs.Steps.{DmlState};
    ghost use Rattle.ebr_dml.specs.inside.Apart.{FoundApart, found_from};

    ghost Value = { DmlState };

    ghost coded = { Prim.hlevel (codes, e.the_row.coded) };

    ghost view = { λ s. record { plan = s.plan; tx = s.t; binds = s.binds; rest = found_from s.at s.found; begun = s.begun; count = s.at } };

    ghost invariant = { λ s. FoundApart s.found };
}

/// A row for its BEFORE triggers.
fn before(alloc: Global, plan: &Plan, binds: &[Value], row: &Taken) -> Result<DmlStep, Stop>
    ensures { Answers result (on (λ new. Ok (Before (images.old_values plan.now row.now) new)) (images.new_values plan.now binds.now row.now)) }
{
    let old = old_values(alloc, plan, row)?;
    let new = new_values(alloc, plan, binds, row)?;
    Ok(DmlStep::Before { old, new })
}

/// A row for its AFTER triggers, with the values that its BEFORE triggers left.
fn after(
    alloc: Global,
    tx: &mut Transactions,
    t: TxId,
    plan: &Plan,
    row: &Taken,
    new: List<Value>,
) -> Result<DmlStep, Stop>
    requires live { IsLive tx.old.contents t }
    requires begun { is_some (own tx.old.contents t).begun ≡ true }
    requires known { IsKnown tx.old.contents plan.now.table }
    requires seen { IsSeen tx.old.contents t plan.now.table.id row.now.row }
    ensures changed { Changes result (images.old_values plan.now row.now) (images.after_values plan.now new) tx.new.contents (tests.written tx.old.contents t plan.now row.now new) }
    ensures unchanged { OnErr result (tx.new.contents ≡ tx.old.contents) }
    ensures stays { spec.Stays tx.old.contents t tx.new.contents }
{
    let old = old_values(alloc, plan, row)?;
    let shown = after_values(alloc, plan, &new)?;
    let new = Shared::new(alloc, new)?;
    write(tx, t, plan, row.row, new)?;
    Ok(DmlStep::After { old, new: shown })
}

/// The values that BEFORE triggers left.
fn left(alloc: Global, after: Option<List<Value>>) -> List<Value>
    ensures { result ≡ unwrap_or after [] }
{
    match after {
        Some(values) => values,
        None => List::new(alloc),
    }
}

impl Dml {
    /// Starts a statement in a transaction that has begun, against what an edition sees, with these binds. It takes the rows that
    /// WHERE takes, as the transaction sees them now, and changes nothing.
    ///
    /// Refused: EBR-0013 where an UPDATE or a DELETE would look at more than 100,000,000 rows. What WHERE raises for any row, the
    /// first step tells. A statement that has passed its checks, and an APPLY TRIGGER of a trigger that is there on a table that is
    /// there, is refused with no other code; a query is ORA-00900.
    ///
    /// Oracle Database SQL Language Reference 19c, INSERT, UPDATE and DELETE. APPLY TRIGGER, and that rows come by row number, is own.
    pub fn start(
        alloc: Global,
        tx: &Transactions,
        t: TxId,
        v: &EditionView,
        s: &SqlTree,
        binds: &[Value],
    ) -> Result<Dml, Stop>
        requires order { IsInOrder v.now }
        requires live { IsLive tx.now.contents t }
        requires begun { is_some (own tx.now.contents t).begun ≡ true }
        requires known { spec.AreKnown tx.now.contents v.now.tables }
        ensures started { Answers result (spec.started tx.now.contents t v.now s.now binds.now) }
        ensures ready { IfOk result (spec.CanStep tx.now.contents) }
    {
        let plan = plan_of(alloc, v, s)?;
        let found = rows_of(alloc, tx, t, s, plan.get(), binds)?;
        let binds = copies(alloc, binds)?;
        Ok(Dml {
            alloc,
            t,
            plan,
            binds,
            found,
            at: 0,
            begun: false,
        })
    }

    /// The next step: a row before its BEFORE triggers; that row, changed, before its AFTER triggers; or the end, with the number of
    /// rows. `after` is what the BEFORE triggers left, where the last step was `Before`; elsewhere nobody looks at it.
    ///
    /// Refused: with the code that WHERE raised, at the first step; before a `Before`, with the code that an expression raises;
    /// before an `After`, in this order: but in an INSERT, ORA-00054 where another transaction holds the row, and ORA-08177 where it
    /// was changed since the beginning; but in a DELETE, column by column, ORA-01400 in an INSERT and else ORA-01407 for NULL, and
    /// ORA-12899 or ORA-01438 for its size, and then by the test of keys ORA-00054, ORA-00001, ORA-08177; EBR-0040. An `Err` changes
    /// nothing in the transactions: the rows before stay changed, until who asked goes back to a mark.
    pub fn step(
        &mut self,
        tx: &mut Transactions,
        after: Option<List<Value>>,
    ) -> Result<DmlStep, Stop>
        requires { spec.CanStep tx.old.contents self.old }
        ensures stepped { spec.Gives result self.new tx.new.contents (spec.stepped self.old tx.old.contents after) }
        ensures unchanged { OnErr result (tx.new.contents ≡ tx.old.contents) }
        ensures ready { OnOk result (spec.CanStep tx.new.contents self.new) }
        ensures same { self.new.tx ≡ self.old.tx }
        ensures stays { spec.Stays tx.old.contents self.old.tx tx.new.contents }
    {
        let new = left(self.alloc, after);
        let rows = match &self.found {
            Ok(rows) => rows,
            Err(code) => return Err(Stop::Raised(*code)),
        };
        let Some(row) = rows.get(self.at) else {
            return Ok(DmlStep::Finished(self.at as u64));
        };
        // With the length comes that the next place can be counted.
        let _ = rows.len();
        if self.begun {
            let step = self::after(self.alloc, tx, self.t, self.plan.get(), row, new)?;
            self.at += 1;
            self.begun = false;
            Ok(step)
        } else {
            let step = before(self.alloc, self.plan.get(), self.binds.as_slice(), row)?;
            self.begun = true;
            Ok(step)
        }
    }
}
