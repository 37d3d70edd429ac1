//! What a transaction sees.

ghost use Rattle.std.specs.Prelude.{◌≡◌, ◌++◌, ◌<◌, nat_lt, filter, option_map, is_some, IfSome};
ghost use Rattle.std.specs.Option.{option_copied};
ghost use Rattle.ebr_versions.specs.Data.{changes_in, row_numbers, least, lesser, row_no};
ghost use Rattle.ebr_tx.specs.Reads.{committed, seen_by, next_by};
ghost use Rattle.ebr_tx.specs.Conflicts.{is_late};

use crate::transaction::Live;
use ebr_base::{List, RowId, RowNo, Shared, TableId, Value};
use ebr_versions::Versions;

/// The values of a row as a transaction sees it.
pub fn seen<'a>(versions: &'a Versions, x: &'a Live, row: RowId) -> Option<&'a Shared<List<Value>>>
    ensures { option_copied result ≡ seen_by versions.now.commits x.now.transaction row }
{
    match x.changes().last(row) {
        Some(change) => change.values.as_ref(),
        None => committed(versions, x.begun(), row),
    }
}

/// The values that were committed at a beginning, or by now where there was none.
fn committed(versions: &Versions, begun: Option<u32>, row: RowId) -> Option<&Shared<List<Value>>>
    ensures { option_copied result ≡ committed versions.now.commits begun row }
{
    match begun {
        Some(n) => versions.at(n, row),
        None => versions.latest(row),
    }
}

/// Whether a commit after a beginning changes the row.
pub fn is_late(versions: &Versions, begun: Option<u32>, row: RowId) -> bool
    ensures { result ≡ is_late versions.now.commits begun row }
{
    match begun {
        Some(n) => versions.changed_since(row, n).is_some(),
        None => false,
    }
}

/// The next row of a table that a transaction sees: the least number above `after`. It goes from one row of the table to
/// the next.
pub fn next_seen(versions: &Versions, x: &Live, table: TableId, after: RowNo) -> Option<RowNo>
    ensures { result ≡ next_by versions.now.commits x.now.transaction table after }
{
    let mut last = after;
    while let Some(next) = next_row(versions, x, table, last) {
        let row = RowId { table, row: next };
        if is_there(versions, x, row) {
            return Some(next);
        }
        last = next;
    }
    None
}

fn is_there(versions: &Versions, x: &Live, row: RowId) -> bool
    ensures { result ≡ is_some (seen_by versions.now.commits x.now.transaction row) }
{
    match seen(versions, x, row) {
        Some(_) => true,
        None => false,
    }
}

/// The next row of a table, seen or not.
fn next_row(versions: &Versions, x: &Live, table: TableId, after: RowNo) -> Option<RowNo>
    ensures next { result ≡ option_map row_no (least (filter (nat_lt after.0) (row_numbers table (changes_in versions.now.commits ++ x.now.transaction.changes)))) }
    ensures above { IfSome result (λ n. after.0 < n.0) }
{
    match next_number(versions, x, table, after) {
        Some(n) => Some(RowNo(n)),
        None => None,
    }
}

fn next_number(versions: &Versions, x: &Live, table: TableId, after: RowNo) -> Option<u64>
    ensures { result ≡ least (filter (nat_lt after.0) (row_numbers table (changes_in versions.now.commits ++ x.now.transaction.changes))) }
{
    let own = x.changes().next_number(table, after.0);
    match versions.next_row(table, after) {
        Some(committed) => lesser(Some(committed.0), own),
        None => own,
    }
}

/// The lesser of two numbers, where both are there.
fn lesser(a: Option<u64>, b: Option<u64>) -> Option<u64>
    ensures { result ≡ lesser a b }
{
    match (a, b) {
        (Some(a), Some(b)) => Some(a.min(b)),
        (Some(a), None) => Some(a),
        (None, b) => b,
    }
}
