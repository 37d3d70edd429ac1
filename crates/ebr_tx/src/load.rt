//! Whether a recovered commit is allowed behind those before it.

ghost use Rattle.std.specs.Prelude.{◌≡◌, ◌<◌, ◌&&◌, ◌||◌, ◌++◌, ◌∷◌, [], true, not, nat_le, nat_lt, is_some, length, map, Some, IfOk, OnOk, IsTrue, ◌↔◌};
ghost use Rattle.std.specs.Option.{option_copied};
ghost use Rattle.std.specs.List.{list_any};
ghost use Rattle.ebr_versions.specs.Data.{changes_in, row_numbers};
ghost use Rattle.ebr_versions.specs.Keys.{key_places};
ghost use Rattle.ebr_versions.specs.inside.Index.{entry_of};
ghost use Rattle.ebr_tx.specs.Commits.{IsAllowedOf, IsNumbered, row_behind};
ghost use Rattle.ebr_tx.specs.Conflicts.{another_has};
ghost use Rattle.ebr_tx.specs.Limits.{max_changes, max_row};
ghost use Rattle.ebr_tx.specs.inside.Loading.{may_follow, all_follow, shares, shares_key, AreRowsOf, AreGathered};

use crate::keys::{another_gets, key_of, last_has};
use crate::limits::{MAX_CHANGES, MAX_ROW};
use ebr_base::{Change, CloneIn, List, NoMemory, RowId, Shared, Value};
use ebr_changes::Changes;
use ebr_versions::Versions;
use std::alloc::Global;

/// Why a recovered commit wasn't loaded.
#[derive(Clone, Copy, Debug, PartialEq, Eq)]
pub enum LoadFault {
    /// It isn't allowed behind the commits before it.
    NotAllowed,
    /// There was no memory.
    NoMemory,
}

impl From<NoMemory> for LoadFault {
    ghost use Rattle.ebr_tx.specs.declared.load.LoadFault.TheVariants.{NoMemory};

    ghost from_gives = { λ _ fault. fault ≡ NoMemory };

    fn from(_: NoMemory) -> LoadFault {
        LoadFault::NoMemory
    }
}

/// Whether a commit of these changes is allowed behind the commits.
pub fn is_allowed(alloc: Global, versions: &Versions, changes: &[Change]) -> Result<bool, NoMemory>
    ensures { IfOk result (λ allowed. IsTrue allowed ↔ IsAllowedOf IsNumbered versions.now.tables versions.now.commits changes.now) }
{
    // With the count comes that no two rows of a table share a key.
    let _ = versions.count();
    if !is_counted(changes.len()) {
        return Ok(false);
    }
    let mut own = Changes::new(alloc);
    let mut rows = List::new(alloc);
    let follow = gather(alloc, versions, changes, &mut own, &mut rows)?;
    if !follow {
        return Ok(false);
    }
    keys_differ(alloc, versions, &own, rows.as_slice())
}

/// Whether a commit may have so many changes.
fn is_counted(n: usize) -> bool
    ensures { result ≡ (nat_lt 0 n && nat_le n max_changes) }
{
    0 < n && n <= MAX_CHANGES
}

/// Gathers the changes, with the rows that they are of, where each may follow those before it.
fn gather(
    alloc: Global,
    versions: &Versions,
    changes: &[Change],
    own: &mut Changes,
    rows: &mut List<RowId>,
) -> Result<bool, NoMemory>
    requires none { own.old ≡ record { changes = []; entries = [] } }
    requires no_row { rows.old ≡ [] }
    ensures follow { IfOk result (λ follow. follow ≡ all_follow versions.now.commits [] changes.now) }
    ensures gathered { IfOk result (λ follow. follow ≡ true → AreGathered versions.now.tables changes.now own.new rows.new) }
{
    for c in changes {
        if !may_follow(versions, own, c) {
            return Ok(false);
        }
        add(alloc, versions, own, rows, c)?;
    }
    Ok(true)
}

/// Adds a change to those before it, and its row to theirs.
fn add(
    alloc: Global,
    versions: &Versions,
    own: &mut Changes,
    rows: &mut List<RowId>,
    c: &Change,
) -> Result<(), NoMemory>
    ensures changes { OnOk result (own.new.changes ≡ own.old.changes ++ c.now ∷ []) }
    ensures entries { OnOk result (own.new.entries ≡ own.old.entries ++ entry_of versions.now.tables c.now ∷ []) }
    ensures rows { OnOk result (AreRowsOf own.old.changes rows.old → AreRowsOf (own.old.changes ++ c.now ∷ []) rows.new) }
{
    add_row(own, rows, c)?;
    let entry = versions.entry(c);
    own.push(c.clone_in(alloc)?, entry.print)?;
    Ok(())
}

/// Adds the row of a change to those that the changes before it are of, each of which stands once.
fn add_row(own: &Changes, rows: &mut List<RowId>, c: &Change) -> Result<(), NoMemory>
    ensures { OnOk result (AreRowsOf own.now.changes rows.old → AreRowsOf (own.now.changes ++ c.now ∷ []) rows.new) }
{
    if own.changes_row(c.row) {
        return Ok(());
    }
    rows.push(c.row)
}

/// Whether a change may follow these: its row has a number that rows may have, and is there where the change removes it.
fn may_follow(versions: &Versions, own: &Changes, c: &Change) -> bool
    ensures { result ≡ may_follow versions.now.commits own.now.changes c.now }
{
    is_numbered(c.row) && is_there(versions, own, c)
}

fn is_numbered(row: RowId) -> bool
    ensures { result ≡ (nat_le 1 row.row.0 && nat_le row.row.0 max_row) }
{
    1 <= row.row.0 && row.row.0 <= MAX_ROW
}

fn is_there(versions: &Versions, own: &Changes, c: &Change) -> bool
    ensures { result ≡ (is_some c.now.values || is_some (row_behind versions.now.commits own.now.changes c.now.row)) }
{
    match &c.values {
        Some(_) => true,
        None => is_behind(versions, own, c.row),
    }
}

fn is_behind(versions: &Versions, own: &Changes, row: RowId) -> bool
    ensures { result ≡ is_some (row_behind versions.now.commits own.now.changes row) }
{
    match behind(versions, own, row) {
        Some(_) => true,
        None => false,
    }
}

/// The values of a row behind some changes that were made after the commits.
fn behind<'a>(
    versions: &'a Versions,
    own: &'a Changes,
    row: RowId,
) -> Option<&'a Shared<List<Value>>>
    ensures { option_copied result ≡ row_behind versions.now.commits own.now.changes row }
{
    match own.last(row) {
        Some(c) => c.values.as_ref(),
        None => versions.latest(row),
    }
}

/// Whether none of these rows shares its key, behind the changes.
fn keys_differ(
    alloc: Global,
    versions: &Versions,
    own: &Changes,
    rows: &[RowId],
) -> Result<bool, NoMemory>
    requires { own.now.entries ≡ map (entry_of versions.now.tables) own.now.changes }
    ensures { IfOk result (λ differ. differ ≡ not (list_any (shares_key versions.now.commits versions.now.tables own.now.changes) rows.now)) }
{
    for row in rows {
        if shares_key(alloc, versions, own, *row)? {
            return Ok(false);
        }
    }
    Ok(true)
}

/// Whether another row of the table has the row's key, behind the changes.
fn shares_key(
    alloc: Global,
    versions: &Versions,
    own: &Changes,
    row: RowId,
) -> Result<bool, NoMemory>
    requires { own.now.entries ≡ map (entry_of versions.now.tables) own.now.changes }
    ensures { IfOk result (λ found. found ≡ shares_key versions.now.commits versions.now.tables own.now.changes row) }
{
    match behind(versions, own, row) {
        Some(values) => shares(alloc, versions, own, row, values.get().as_slice()),
        None => Ok(false),
    }
}

/// Whether another row of the table has the key that these values give the row.
fn shares(
    alloc: Global,
    versions: &Versions,
    own: &Changes,
    row: RowId,
    values: &[Value],
) -> Result<bool, NoMemory>
    requires { own.now.entries ≡ map (entry_of versions.now.tables) own.now.changes }
    ensures { IfOk result (λ found. found ≡ shares versions.now.commits own.now.changes row (key_places versions.now.tables row.table) (Some values.now)) }
{
    let places = versions.key_places(row.table);
    if places.len() == 0 {
        return Ok(false);
    }
    let key = key_of(alloc, places, values)?;
    Ok(is_shared(versions, own, row, places, key.as_slice()))
}

/// Whether another row of the table has this key.
fn is_shared(versions: &Versions, own: &Changes, row: RowId, places: &[u16], key: &[Value]) -> bool
    requires filed { own.now.entries ≡ map (entry_of versions.now.tables) own.now.changes }
    requires places { key_places versions.now.tables row.table ≡ places.now }
    requires some { 0 < length key.now }
    requires as_many { length places.now ≡ length key.now }
    ensures { result ≡ another_has row.table (Some row.row) places.now key.now (λ r. row_behind versions.now.commits own.now.changes r) (row_numbers row.table (changes_in versions.now.commits ++ own.now.changes)) }
{
    another_gets(own, row.table, Some(row.row), places, key)
        || last_has(versions, own, row.table, Some(row.row), places, key)
}
