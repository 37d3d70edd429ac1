//! The start of a change.

ghost use Rattle.std.specs.Prelude.{◌≡◌, true, false, is_some, IfOk};
ghost use Rattle.std.specs.Prelude.{List as Sequence};
ghost use Rattle.std.specs.List.{list_any};
ghost use Rattle.ebr_ast.specs.Views.{IsInOrder};
ghost use Rattle.ebr_ast.specs.declared.kinds.Timing.TheVariants as timing;
ghost use Rattle.ebr_cross.specs.Catalogue.{View};
ghost use Rattle.ebr_tx.specs.Data.{IsLive, own};
ghost use Rattle.ebr_dml.specs.Steps.{AreKnown, CanStep};
ghost use Rattle.ebr_exec.specs.Narrow.{AreNarrow, IsNarrow};
ghost use Rattle.ebr_exec.specs.Places.{Under as Changing, is_table, names_of};
ghost use Rattle.ebr_units.specs.Living.{AreCurrent, ForBooks};
ghost use Rattle.ebr_bodies.specs.Ready as ready;
ghost use Rattle.ebr_bodies.specs.Statements as spec;
ghost use Rattle.ebr_statements.specs.inside.Held.{ServesAt, Starts, started_with};
ghost use Rattle.ebr_statements.specs.inside.Fits.{HaveTables};
ghost use Rattle.ebr_statements.specs.Fits.{ForViews, IsCurrent};
ghost use Rattle.ebr_statements.specs.inside.Views.{place_at};

use crate::ready::{Ready, is_appliable, operation, ready_at};
use ebr_ast::{EditionView, Op, Origin, SqlTree, Timing};
use ebr_base::{Code, List, Stop, TxId, Value};
use ebr_cross::Catalogue;
use ebr_dml::Dml;
use ebr_tx::Transactions;
use ebr_units::Units;
use std::alloc::Global;

/// The bodies that run before and after each row of a statement, and what it does to them.
#[derive(Drop)]
pub struct Work {
    pub operation: Op,
    pub before: List<Ready>,
    pub after: List<Ready>,
}

/// A change that begins: its rows, and its triggers.
#[derive(Drop)]
pub struct Start {
    pub rows: Dml,
    pub work: Work,
}

/// A change in a transaction that has begun. Refused, in this order: ORA-04043 for APPLY TRIGGER; EBR-0013; ORA-04098 where a
/// trigger of either timing is invalid.
pub fn started(
    alloc: Global,
    c: &Catalogue,
    units: &mut Units,
    tx: &Transactions,
    v: &EditionView,
    origin: Origin,
    t: TxId,
    s: &SqlTree,
    binds: &[Value],
) -> Result<Start, Stop>
    requires order { IsInOrder v.now }
    requires kept { IsCurrent c.now units.old }
    requires live { IsLive tx.now.contents t }
    requires begun { is_some (own tx.now.contents t).begun ≡ true }
    requires known { AreKnown tx.now.contents v.now.tables }
    ensures started { ForViews c.now units.old v.now (λ lists. (changing : Sequence Changing)
        → Starts (View lists) (ready.operation s.now) result (started_with (names_of lists) (place_at v.now.edition origin t changing) s.now binds.now tx.now.contents)) }
    ensures current { ForBooks c.now units.old (λ lists. AreCurrent lists units.new) }
    ensures before { IfOk result (λ it. HaveTables c.now it.work.before) }
    ensures after { IfOk result (λ it. HaveTables c.now it.work.after) }
    ensures can { IfOk result (λ it. CanStep tx.now.contents it.rows) }
    ensures tx { IfOk result (λ it. it.rows.tx ≡ t) }
    ensures between { IfOk result (λ it. it.rows.begun ≡ false) }
    ensures count { IfOk result (λ it. it.rows.count ≡ 0) }
    ensures narrow { AreNarrow v.now.tables → IfOk result (λ it. IsNarrow it.rows.plan.table) }
    ensures table { IfOk result (λ it. list_any (is_table it.rows.plan.table.id) (spec.tables_of v.now s.now) ≡ true) }
{
    if !is_appliable(v, s) {
        return Err(Stop::Raised(Code::Ora(4043)));
    }
    let rows = Dml::start(alloc, tx, t, v, s, binds)?;
    let work = work_of(alloc, c, units, v, origin, s)?;
    Ok(Start { rows, work })
}

fn work_of(
    alloc: Global,
    c: &Catalogue,
    units: &mut Units,
    v: &EditionView,
    origin: Origin,
    s: &SqlTree,
) -> Result<Work, Stop>
    requires order { IsInOrder v.now }
    requires kept { IsCurrent c.now units.old }
    ensures ready { ForViews c.now units.old v.now (λ lists. (t : TxId) (changing : Sequence Changing)
        → ServesAt (View lists) (ready.operation s.now) result (ready.ready_at (names_of lists) (place_at v.now.edition origin t changing) timing.Before s.now)
        (ready.ready_at (names_of lists) (place_at v.now.edition origin t changing) timing.After s.now)) }
    ensures before { IfOk result (λ work. HaveTables c.now work.before) }
    ensures after { IfOk result (λ work. HaveTables c.now work.after) }
    ensures current { ForBooks c.now units.old (λ lists. AreCurrent lists units.new) }
{
    let before = ready_at(alloc, c, units, v, origin, Timing::Before, s)?;
    let after = ready_at(alloc, c, units, v, origin, Timing::After, s)?;
    Ok(Work {
        operation: operation(s),
        before,
        after,
    })
}
