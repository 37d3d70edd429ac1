//! The test of keys.

ghost use Rattle.std.specs.Prelude.{◌≡◌, ◌<◌, ◌++◌, length, IfOk, IfSome, IfNone, Some, All};
ghost use Rattle.std.specs.List.{list_any};
ghost use Rattle.std.specs.Option.{option_copied};
ghost use Rattle.ebr_versions.specs.Data.{last_change, changes_in, row_numbers, values_by, Latest, At};
ghost use Rattle.ebr_versions.specs.Keys.{key_of, key_places, value_at};
ghost use Rattle.ebr_versions.specs.inside.Print.{key_number};
ghost use Rattle.ebr_tx.specs.Data.{some_other};
ghost use Rattle.ebr_tx.specs.Conflicts.{has_key, gives_key, gives_key_by, another_has, is_another};
ghost use Rattle.ebr_tx.specs.Reads.{over, committed, seen_by, numbers_by};
ghost use Rattle.ebr_tx.specs.inside.Keys.{own_has, gives_at_last, committed_has};
ghost use Rattle.ebr_tx.specs.inside.Filed.{transactions_of, passes_at, FindsKey, FindsKeyBy, TakesFree, IsLastGiver, NoneGives};

use crate::transaction::Live;
use ebr_base::{Change, CloneIn, List, NoMemory, RowId, RowNo, Shared, TableId, TxId, Value};
use ebr_changes::Changes;
use ebr_versions::{Versions, is_key_of, key_print};
use std::alloc::Global;

/// The values at the places of a key.
pub fn key_of(alloc: Global, places: &[u16], values: &[Value]) -> Result<List<Value>, NoMemory>
    ensures key { IfOk result (λ key. key ≡ key_of places.now values.now) }
    ensures as_many { IfOk result (λ key. length key ≡ length places.now) }
{
    let mut key = List::new(alloc);
    for place in places {
        key.push(value_at(alloc, values, *place)?)?;
    }
    Ok(key)
}

/// The value at a place; a row with fewer values has NULL there.
fn value_at(alloc: Global, values: &[Value], place: u16) -> Result<Value, NoMemory>
    ensures { IfOk result (λ value. value ≡ value_at values.now place) }
{
    match values.get(place as usize) {
        Some(value) => value.clone_in(alloc),
        None => Ok(Value::Null),
    }
}

/// Whether the row is there and has the key at these places.
pub fn has_key(values: Option<&Shared<List<Value>>>, places: &[u16], key: &[Value]) -> bool
    requires { length places.now ≡ length key.now }
    ensures { result ≡ has_key places.now key.now (option_copied values.entry) }
{
    match values {
        Some(values) => is_same_key(values.get().as_slice(), places, key),
        None => false,
    }
}

fn is_same_key(values: &[Value], places: &[u16], key: &[Value]) -> bool
    requires { length places.now ≡ length key.now }
    ensures { result ≡ has_key places.now key.now (Some values.now) }
{
    is_key_of(values, places, key)
}

/// Whether a change gives a row of the table the key.
fn gives_key(c: &Change, table: TableId, places: &[u16], key: &[Value]) -> bool
    requires { length places.now ≡ length key.now }
    ensures { result ≡ gives_key table places.now key.now c.now }
{
    c.row.table == table && has_key(c.values.as_ref(), places, key)
}

/// Whether the change at a place gives a row of the table the key.
fn gives_key_at(own: &Changes, place: usize, table: TableId, places: &[u16], key: &[Value]) -> bool
    requires { length places.now ≡ length key.now }
    ensures { result ≡ passes_at (gives_key table places.now key.now) own.now.changes place }
{
    match own.change(place) {
        Some(c) => gives_key(c, table, places, key),
        None => false,
    }
}

/// The place of the last change that gives a row of the table the key. It goes through those that are filed under the
/// key's number, from the last one on.
fn last_giver(
    own: &Changes,
    table: TableId,
    places: &[u16],
    key: &[Value],
    print: u64,
) -> Option<usize>
    requires as_many { length places.now ≡ length key.now }
    requires print { print ≡ key_number key.now }
    requires filed { FindsKey table places.now key.now own.now.changes own.now.entries }
    ensures some { IfSome result (IsLastGiver table places.now key.now own.now.changes) }
    ensures none { IfNone result (NoneGives table places.now key.now own.now.changes) }
{
    let mut end = own.len();
    while let Some(place) = own.last_filed(table, print, end) {
        if gives_key_at(own, place, table, places, key) {
            return Some(place);
        }
        end = place;
    }
    None
}

/// Whether one of the changes gives a row of the table the key.
fn some_gives_key(own: &Changes, table: TableId, places: &[u16], key: &[Value], print: u64) -> bool
    requires as_many { length places.now ≡ length key.now }
    requires print { print ≡ key_number key.now }
    requires filed { FindsKey table places.now key.now own.now.changes own.now.entries }
    ensures { result ≡ list_any (gives_key table places.now key.now) own.now.changes }
{
    last_giver(own, table, places, key, print).is_some()
}

/// Whether a change of another transaction gives a row of the table the key.
pub fn is_in_use(live: &[Live], t: TxId, table: TableId, places: &[u16], key: &[Value]) -> bool
    requires as_many { length places.now ≡ length key.now }
    requires filed { All (FindsKeyBy table places.now key.now) live.now }
    ensures { result ≡ some_other t (gives_key_by table places.now key.now) (transactions_of live.now) }
{
    let print = key_print(key);
    for x in live {
        if x.id() != t && some_gives_key(x.changes(), table, places, key, print) {
            return true;
        }
    }
    false
}

/// Whether a row of this number is another one than this. A new row is none of those that are there.
fn is_another(this: Option<RowNo>, row: RowNo) -> bool
    ensures { result ≡ is_another this row.0 }
{
    match this {
        Some(this) => row != this,
        None => true,
    }
}

/// Whether another row of the table than this one has the key by the last of these changes of it. The last change that
/// gives the key decides: when it was made the key was free, and a row that had got it later would have a later change.
fn own_has(
    own: &Changes,
    table: TableId,
    this: Option<RowNo>,
    places: &[u16],
    key: &[Value],
) -> bool
    requires as_many { length places.now ≡ length key.now }
    requires filed { FindsKey table places.now key.now own.now.changes own.now.entries }
    requires free { TakesFree table places.now key.now own.now.changes }
    ensures { result ≡ own_has own.now.changes table this places.now key.now }
{
    match last_giver(own, table, places, key, key_print(key)) {
        Some(place) => has_now_at(own, place, table, this, places, key),
        None => false,
    }
}

/// The same of changes that may have taken keys which weren't free. It goes through all those that are filed under the key's
/// number.
pub fn another_gets(
    own: &Changes,
    table: TableId,
    this: Option<RowNo>,
    places: &[u16],
    key: &[Value],
) -> bool
    requires as_many { length places.now ≡ length key.now }
    requires filed { FindsKey table places.now key.now own.now.changes own.now.entries }
    ensures { result ≡ own_has own.now.changes table this places.now key.now }
{
    let print = key_print(key);
    let mut end = own.len();
    while let Some(place) = own.last_filed(table, print, end) {
        if has_now_at(own, place, table, this, places, key) {
            return true;
        }
        end = place;
    }
    false
}

/// Whether the change at a place is of another row than this one, and the last change of that row gives it the key.
fn has_now_at(
    own: &Changes,
    place: usize,
    table: TableId,
    this: Option<RowNo>,
    places: &[u16],
    key: &[Value],
) -> bool
    requires { length places.now ≡ length key.now }
    ensures { result ≡ passes_at (gives_at_last own.now.changes table this places.now key.now) own.now.changes place }
{
    match own.change(place) {
        Some(c) => {
            is_another(this, c.row.row)
                && gives_key(c, table, places, key)
                && has_now(own, c.row, places, key)
        }
        None => false,
    }
}

/// Whether the last of these changes of a row gives it the key.
fn has_now(own: &Changes, row: RowId, places: &[u16], key: &[Value]) -> bool
    requires { length places.now ≡ length key.now }
    ensures { result ≡ has_key places.now key.now (values_by (last_change row own.now.changes)) }
{
    match own.last(row) {
        Some(c) => has_key(c.values.as_ref(), places, key),
        None => false,
    }
}

/// Whether another row than this one, which these changes leave alone, has the key by its last committed values.
pub fn last_has(
    versions: &Versions,
    own: &Changes,
    table: TableId,
    this: Option<RowNo>,
    places: &[u16],
    key: &[Value],
) -> bool
    requires some { 0 < length key.now }
    requires as_many { length places.now ≡ length key.now }
    requires places { key_places versions.now.tables table ≡ places.now }
    ensures { result ≡ committed_has versions.now.commits own.now.changes table this places.now key.now (Latest versions.now.commits) }
{
    match versions.find_key(table, key) {
        Some(row) => is_another(this, row) && !own.changes_row(RowId { table, row }),
        None => false,
    }
}

/// Whether another row than this one, which these changes leave alone, had the key after the first `n` commits.
fn had_at(
    versions: &Versions,
    n: u32,
    own: &Changes,
    table: TableId,
    this: Option<RowNo>,
    places: &[u16],
    key: &[Value],
) -> bool
    requires some { 0 < length key.now }
    requires as_many { length places.now ≡ length key.now }
    requires places { key_places versions.now.tables table ≡ places.now }
    ensures { result ≡ committed_has versions.now.commits own.now.changes table this places.now key.now (At versions.now.commits n) }
{
    match versions.find_key_at(n, table, key) {
        Some(row) => is_another(this, row) && !own.changes_row(RowId { table, row }),
        None => false,
    }
}

/// Whether another row than this one has the key: each row by the last of these changes of it, or else by its last
/// committed values.
pub fn is_taken(
    versions: &Versions,
    own: &Changes,
    table: TableId,
    this: Option<RowNo>,
    places: &[u16],
    key: &[Value],
) -> bool
    requires some { 0 < length key.now }
    requires as_many { length places.now ≡ length key.now }
    requires places { key_places versions.now.tables table ≡ places.now }
    requires filed { FindsKey table places.now key.now own.now.changes own.now.entries }
    requires free { TakesFree table places.now key.now own.now.changes }
    ensures { result ≡ another_has table this places.now key.now (λ r. over (last_change r own.now.changes) (Latest versions.now.commits r)) (row_numbers table (changes_in versions.now.commits ++ own.now.changes)) }
{
    own_has(own, table, this, places, key) || last_has(versions, own, table, this, places, key)
}

/// Whether the transaction sees another row than this one with the key.
pub fn is_seen(
    versions: &Versions,
    x: &Live,
    table: TableId,
    this: Option<RowNo>,
    places: &[u16],
    key: &[Value],
) -> bool
    requires some { 0 < length key.now }
    requires as_many { length places.now ≡ length key.now }
    requires places { key_places versions.now.tables table ≡ places.now }
    requires filed { FindsKey table places.now key.now x.now.transaction.changes x.now.entries }
    requires free { TakesFree table places.now key.now x.now.transaction.changes }
    ensures { result ≡ another_has table this places.now key.now (seen_by versions.now.commits x.now.transaction) (numbers_by versions.now.commits x.now.transaction table) }
{
    own_has(x.changes(), table, this, places, key)
        || began_with(versions, x, table, this, places, key)
}

/// Whether another row than this one, which the transaction left alone, had the key at its beginning, or has it by now
/// where it hasn't begun.
fn began_with(
    versions: &Versions,
    x: &Live,
    table: TableId,
    this: Option<RowNo>,
    places: &[u16],
    key: &[Value],
) -> bool
    requires some { 0 < length key.now }
    requires as_many { length places.now ≡ length key.now }
    requires places { key_places versions.now.tables table ≡ places.now }
    ensures { result ≡ committed_has versions.now.commits x.now.transaction.changes table this places.now key.now (committed versions.now.commits x.now.transaction.begun) }
{
    match x.begun() {
        Some(n) => had_at(versions, n, x.changes(), table, this, places, key),
        None => last_has(versions, x.changes(), table, this, places, key),
    }
}
