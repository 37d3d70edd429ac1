//! The row that has a key, found by the index.

ghost use Rattle.std.specs.Prelude.{◌≡◌, ◌≢◌, ◌<◌, ◌≤◌, length, take, Some, IfSome, IfNone, IsTrue, ◌↔◌};
ghost use Rattle.ebr_base.specs.declared.numbers.RowNo.{RowNo};
ghost use Rattle.ebr_base.specs.declared.numbers.TheConstants.{MAX_COUNT};
ghost use Rattle.ebr_base.specs.declared.row.Change.{Change};
ghost use Rattle.ebr_spots.specs.Filed.{found};
ghost use Rattle.ebr_versions.specs.Keys.{value_at, key_of, key_at, row_in};
ghost use Rattle.ebr_versions.specs.inside.Index.{IsRowIndex};
ghost use Rattle.ebr_versions.specs.inside.Keys.{IsKeyIndex, Gives, IsGiver, IsNoGiver, StandsLast, KeysDifferThen};
ghost use Rattle.ebr_versions.specs.inside.Judged.{Judged};

use crate::index::spot;
use crate::print::key_print;
use crate::rows::{at, change_at};
use ebr_base::{Change, List, RowId, RowNo, TableId, Text, Value};
use ebr_spots::{Spot, Spots};

/// The row of a table that had this key after the first `n` commits. The table's key has these places.
///
/// It goes back over the changes that gave a key of this number. Where one of them was the last one of its row in its
/// commit, the row had the key after that commit, and no earlier row can have it now.
pub fn find_key(
    commits: &[List<Change>],
    rows: &Spots,
    keys: &Spots,
    places: &[u16],
    t: TableId,
    key: &[Value],
    n: u32,
) -> Option<RowNo>
    requires row_index { IsRowIndex rows.now commits.now }
    requires key_index { IsKeyIndex places.now t keys.now commits.now }
    requires differ { KeysDifferThen places.now t commits.now }
    requires few { length commits.now ≤ MAX_COUNT }
    requires within { n ≤ length commits.now }
    requires some { 0 < length key.now }
    requires as_many { length places.now ≡ length key.now }
    ensures found { IfSome result (λ r. key_at (take n commits.now) places.now (row_in t r) ≡ Some key.now) }
    ensures none { IfNone result ((r : RowNo) → key_at (take n commits.now) places.now (row_in t r) ≢ Some key.now) }
{
    keys.fit();
    let print = key_print(key);
    let mut end = spot(t.0, print, n, 0);
    while let Some(last) = keys.last_before(end) {
        match judge(commits, rows, n, last, places, key) {
            Judgement::Holder(row) => return Some(row),
            Judgement::Nobody => return None,
            Judgement::Further => end = last,
        }
    }
    None
}

/// What the change at a spot says of who has a key.
#[derive(Clone, Copy, Debug, PartialEq, Eq)]
pub enum Judgement {
    /// Its row has it.
    Holder(RowNo),
    /// Its row had it after that commit, and hasn't any more, so no row with an earlier change has it.
    Nobody,
    /// Nothing of the rows with an earlier change.
    Further,
}

/// Judges the change at a spot of the first `n` commits.
fn judge(
    commits: &[List<Change>],
    rows: &Spots,
    n: u32,
    last: Spot,
    places: &[u16],
    key: &[Value],
) -> Judgement
    requires row_index { IsRowIndex rows.now commits.now }
    requires few { length commits.now ≤ MAX_COUNT }
    requires within { n ≤ length commits.now }
    requires under { last.list < n }
    requires as_many { length places.now ≡ length key.now }
    ensures { Judged rows.now commits.now n last places.now key.now result }
{
    let Some(row) = giver(commits, last, places, key) else {
        return Judgement::Further;
    };
    if had_key(commits, rows, n, row, places, key) {
        return Judgement::Holder(row.row);
    }
    if stands_last(rows, row, last) {
        return Judgement::Nobody;
    }
    Judgement::Further
}

/// The row to which the change at a spot gives this key.
fn giver(commits: &[List<Change>], spot: Spot, places: &[u16], key: &[Value]) -> Option<RowId>
    requires { length places.now ≡ length key.now }
    ensures some { IfSome result (IsGiver commits.now spot places.now key.now) }
    ensures none { IfNone result (IsNoGiver commits.now spot places.now key.now) }
{
    match change_at(commits, spot) {
        Some(change) => {
            if gives_key(change, places, key) {
                return Some(change.row);
            }
            None
        }
        None => None,
    }
}

/// Whether the change at a spot, which is of this row, is the last one of the row in its commit.
fn stands_last(rows: &Spots, row: RowId, last: Spot) -> bool
    requires { last.list < MAX_COUNT }
    ensures { IsTrue result → StandsLast rows.now row last }
{
    match rows.last_before(spot(row.table.0, row.row.0, last.list + 1, 0)) {
        Some(found) => found.list == last.list && found.place == last.place,
        None => false,
    }
}

/// Whether a row had this key after the first `n` commits.
fn had_key(
    commits: &[List<Change>],
    rows: &Spots,
    n: u32,
    row: RowId,
    places: &[u16],
    key: &[Value],
) -> bool
    requires row_index { IsRowIndex rows.now commits.now }
    requires few { length commits.now ≤ MAX_COUNT }
    requires as_many { length places.now ≡ length key.now }
    ensures { IsTrue result ↔ (key_at (take n commits.now) places.now row ≡ Some key.now) }
{
    match at(commits, rows, n, row) {
        Some(values) => is_key_of(values.get().as_slice(), places, key),
        None => false,
    }
}

/// Whether a change gives its row this key.
pub fn gives_key(change: &Change, places: &[u16], key: &[Value]) -> bool
    requires { length places.now ≡ length key.now }
    ensures { IsTrue result ↔ Gives places.now key.now change.now }
{
    match &change.values {
        Some(values) => is_key_of(values.get().as_slice(), places, key),
        None => false,
    }
}

/// Whether the values at these places are the key.
pub fn is_key_of(values: &[Value], places: &[u16], key: &[Value]) -> bool
    requires { length places.now ≡ length key.now }
    ensures { IsTrue result ↔ (key_of places.now values.now ≡ key.now) }
{
    for (i, place) in places.iter().enumerate() {
        if !is_value_at(values, *place, &key[i]) {
            return false;
        }
    }
    true
}

/// Whether this is the value at a place. A row with fewer values reads NULL there.
fn is_value_at(values: &[Value], place: u16, value: &Value) -> bool
    ensures { IsTrue result ↔ (value_at values.now place ≡ value.now) }
{
    match values.get(place as usize) {
        Some(other) => is_same(other, value),
        None => is_same(&Value::Null, value),
    }
}

/// Whether two values are equal as data.
pub fn is_same(a: &Value, b: &Value) -> bool
    ensures { IsTrue result ↔ (a.now ≡ b.now) }
{
    match (a, b) {
        (Value::Null, Value::Null) => true,
        (Value::Num(m), Value::Num(n)) => *m == *n,
        (Value::Text(s), Value::Text(t)) => is_same_text(s, t),
        (Value::Bool(p), Value::Bool(q)) => *p == *q,
        _ => false,
    }
}

fn is_same_text(a: &Text, b: &Text) -> bool
    ensures { IsTrue result ↔ (a.now ≡ b.now) }
{
    a.as_slice() == b.as_slice()
}
