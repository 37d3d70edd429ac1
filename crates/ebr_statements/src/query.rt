//! Queries.

ghost use Rattle.std.specs.Prelude.{◌≡◌, true, is_some};
ghost use Rattle.ebr_ast.specs.Views.{IsInOrder};
ghost use Rattle.ebr_sqlcheck.specs.Checked.{right};
ghost use Rattle.ebr_sqlcheck.specs.Names.{binds_alone};
ghost use Rattle.ebr_sqlcheck.specs.Statements.{query_check};
ghost use Rattle.ebr_tx.specs.Calls.{after_begin};
ghost use Rattle.ebr_tx.specs.Data.{IsLive, own};
ghost use Rattle.ebr_query.specs.Queries as queries;
ghost use Rattle.ebr_database.specs.Storable.{AllStorable};
ghost use Rattle.ebr_exec.specs.Places.{Place};
ghost use Rattle.ebr_exec.specs.Shows.{Runs};
ghost use Rattle.ebr_exec.specs.Statements.{carries, query_ran};
ghost use Rattle.ebr_levels.specs.Keeps.{UnderChange};
ghost use Rattle.ebr_levels.specs.Levels.{Leaves};
ghost use Rattle.ebr_statements.specs.inside.Given.{GivesRows};

use crate::site::Under;
use ebr_asks::Answer;
use ebr_ast::{EditionView, Query};
use ebr_base::{Code, List, Shared, Stop, TxId, Value};
use ebr_exec::has_room;
use ebr_query::run;
use ebr_tx::Transactions;
use std::alloc::Global;

/// A query, which has passed its checks. That of a session is EBR-0011 where there is no room for its rows; those of a body's aren't
/// carried. Where it is refused or finds no memory, all is as before.
pub fn run_query(
    alloc: Global,
    tx: &mut Transactions,
    t: TxId,
    v: &EditionView,
    q: &Query,
    binds: &[Value],
    changing: &[Under],
    room: u32,
) -> Result<Answer, Stop>
    requires order { IsInOrder v.now }
    requires live { IsLive tx.old.contents t }
    requires checked { query_check v.now (binds_alone binds.now) q.now ≡ right }
    requires storable { AllStorable tx.old.contents }
    ensures storable { AllStorable tx.new.contents }
    ensures leaves { (under : UnderChange) → Leaves tx.old.contents t under tx.new.contents }
    ensures answer { (p : Place) → p.changing ≡ changing.now → Runs result tx.old.contents tx.new.contents (query_ran p room (queries.Query q.now (after_begin tx.old.contents t) t v.now binds.now)) }
{
    let mark = tx.mark(t)?;
    tx.begin(t);
    match rows_of_query(alloc, tx, t, v, q, binds, changing, room) {
        Ok(rows) => Ok(Answer::Rows(rows)),
        Err(stop) => {
            tx.back_to_mark(t, mark);
            Err(stop)
        }
    }
}

/// The rows of a query in a transaction that has begun.
fn rows_of_query(
    alloc: Global,
    tx: &mut Transactions,
    t: TxId,
    v: &EditionView,
    q: &Query,
    binds: &[Value],
    changing: &[Under],
    room: u32,
) -> Result<Shared<List<List<Value>>>, Stop>
    requires order { IsInOrder v.now }
    requires live { IsLive tx.old.contents t }
    requires begun { is_some (own tx.old.contents t).begun ≡ true }
    requires checked { query_check v.now (binds_alone binds.now) q.now ≡ right }
    ensures answer { GivesRows changing.now room (queries.Query q.now tx.old.contents t v.now binds.now) tx.new.contents result }
    ensures locks { queries.AddsLocks tx.old.contents t tx.new.contents }
{
    let rows = run(alloc, tx, t, v, q, binds)?;
    if !is_carried(rows.as_slice(), changing, room) {
        return Err(Stop::Raised(Code::Ebr(11)));
    }
    Ok(Shared::new(alloc, rows)?)
}

/// Whether there is room for the values of rows. Those of a body's query take none.
fn is_carried(rows: &[List<Value>], changing: &[Under], room: u32) -> bool
    ensures { result ≡ carries changing.now room rows.now }
{
    !changing.is_empty() || has_room(rows, room)
}
