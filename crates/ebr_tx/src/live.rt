//! The live transactions of all sessions.

ghost use Rattle.std.specs.Prelude.{◌≡◌, ◌<◌, ◌≤◌, ◌&&◌, true, nat_lt, reverse, None, [], ◌∷◌, ◌++◌, List as Sequence, length, find, filter, not, unwrap_or, OnOk, OnErr, IfOk};
ghost use Rattle.std.specs.List.{position_or_len, list_any, flat_map, last_or};
ghost use Rattle.std.specs.Option.{option_copied};
ghost use Rattle.ebr_versions.specs.declared.table.Table.{Table};
ghost use Rattle.ebr_versions.specs.Data.{changes_row, is_in, greatest_number_in};
ghost use Rattle.ebr_versions.specs.Keys.{is_added};
ghost use Rattle.ebr_versions.specs.inside.Index.{entry_of};
ghost use Rattle.ebr_tx.specs.Data.{is_named, names_of, IsIn, not_begun, changed, is_of_session, stack_of, top_of, some_other, changes_by};
ghost use Rattle.ebr_tx.specs.Conflicts.{changes_row_by, changes_in_table};
ghost use Rattle.ebr_tx.specs.Limits.{max_record, record_length};
ghost use Rattle.ebr_tx.specs.Calls.{first_transactions, begun_at, with_change, with_savepoint, kept_to, marked, ended};
ghost use Rattle.ebr_tx.specs.inside.Filed.{transactions_of, is_live, IsFiledBy, AreFiledBy};

use crate::savepoints::{Savepoint, TxMark};
use crate::transaction::Live;
use ebr_base::{Change, CloneIn, List, Name, NoMemory, RowId, SessionId, TableId, TxId};
use std::alloc::Global;

/// One transaction for each session, numbered from 1.
pub fn first(alloc: Global, sessions: u32) -> Result<Vec<Live>, NoMemory>
    ensures first { IfOk result (λ live. transactions_of live.items ≡ first_transactions sessions) }
    ensures filed { IfOk result (λ live. (tables : Sequence Table) → AreFiledBy tables live.items) }
{
    let mut live = Vec::new(alloc);
    for i in 0..sessions {
        let id = TxId {
            session: SessionId(i + 1),
            depth: 0,
        };
        live.push(Live::new(alloc, id))?;
    }
    Ok(live)
}

/// Adds a transaction that has done nothing. An `Err` changes nothing.
pub fn open(live: &mut Vec<Live>, alloc: Global, id: TxId) -> Result<(), NoMemory>
    ensures ok { OnOk result (live.new.items ≡ live.old.items ++ record { transaction = not_begun id; entries = [] } ∷ []) }
    ensures err { OnErr result (live.new.items ≡ live.old.items) }
{
    live.push(Live::new(alloc, id))?;
    Ok(())
}

/// Copies of changes.
pub fn copies(alloc: Global, changes: &[Change]) -> Result<List<Change>, NoMemory>
    ensures { IfOk result (λ copies. copies ≡ changes.now) }
{
    let mut copies = List::new(alloc);
    for c in changes {
        copies.push(c.clone_in(alloc)?)?;
    }
    Ok(copies)
}

/// The transaction of a name.
fn find(live: &[Live], t: TxId) -> Option<&Live>
    ensures { option_copied result ≡ find (is_live t) live.now }
{
    live.iter().find(|x| x.id() == t)
}

/// The transaction of a name, which is there.
pub fn own(live: &[Live], t: TxId) -> &Live
    requires { IsIn (names_of (transactions_of live.now)) t }
    ensures transaction { result.now.transaction ≡ unwrap_or (find (is_named t) (transactions_of live.now)) (not_begun t) }
    ensures filed { (tables : Sequence Table) → AreFiledBy tables live.now → IsFiledBy tables result.now }
{
    match find(live, t) {
        Some(x) => x,
        None => unreachable!(),
    }
}

/// The place of the transaction of a name, which is there.
fn place_of(live: &[Live], t: TxId) -> usize
    requires { IsIn (names_of (transactions_of live.now)) t }
    ensures place { result ≡ position_or_len (is_live t) live.now }
    ensures within { result < length live.now }
{
    count_before(live, t)
}

fn count_before(live: &[Live], t: TxId) -> usize
    ensures { result ≡ position_or_len (is_live t) live.now }
{
    live.iter().take_while(|x| x.id() != t).count()
}

/// Begins a transaction at so many commits, where it hasn't begun.
pub fn begin(live: &mut Vec<Live>, t: TxId, count: u32)
    requires { IsIn (names_of (transactions_of live.old.items)) t }
    ensures changed { transactions_of live.new.items ≡ changed t (begun_at count) (transactions_of live.old.items) }
    ensures filed { (tables : Sequence Table) → AreFiledBy tables live.old.items → AreFiledBy tables live.new.items }
{
    let at = place_of(live.as_slice(), t);
    live[at].begin(count);
}

/// Adds a change, which gives a key of this number, to a transaction. An `Err` changes nothing.
pub fn push(live: &mut Vec<Live>, t: TxId, c: Change, print: Option<u64>) -> Result<(), NoMemory>
    requires live { IsIn (names_of (transactions_of live.old.items)) t }
    requires short { record_length ((unwrap_or (find (is_named t) (transactions_of live.old.items)) (not_begun t)).changes ++ c ∷ []) ≤ max_record }
    ensures ok { OnOk result (transactions_of live.new.items ≡ changed t (with_change c) (transactions_of live.old.items)) }
    ensures err { OnErr result (live.new.items ≡ live.old.items) }
    ensures filed { (tables : Sequence Table) → print ≡ (entry_of tables c).print → is_added tables c.row.table ≡ true → AreFiledBy tables live.old.items → AreFiledBy tables live.new.items }
{
    let at = place_of(live.as_slice(), t);
    live[at].push(c, print)?;
    Ok(())
}

/// Ends a transaction, and gives its changes. It takes no memory.
pub fn end(live: &mut Vec<Live>, t: TxId, alloc: Global) -> List<Change>
    requires { IsIn (names_of (transactions_of live.old.items)) t }
    ensures changes { result ≡ (unwrap_or (find (is_named t) (transactions_of live.old.items)) (not_begun t)).changes }
    ensures ended { transactions_of live.new.items ≡ changed t ended (transactions_of live.old.items) }
    ensures filed { (tables : Sequence Table) → AreFiledBy tables live.old.items → AreFiledBy tables live.new.items }
{
    let at = place_of(live.as_slice(), t);
    live[at].end(alloc)
}

/// Adds a savepoint to a transaction. An `Err` changes nothing.
pub fn put_savepoint(live: &mut Vec<Live>, t: TxId, savepoint: Savepoint) -> Result<(), NoMemory>
    requires { IsIn (names_of (transactions_of live.old.items)) t }
    ensures ok { OnOk result (transactions_of live.new.items ≡ changed t (with_savepoint savepoint) (transactions_of live.old.items)) }
    ensures err { OnErr result (live.new.items ≡ live.old.items) }
    ensures filed { (tables : Sequence Table) → AreFiledBy tables live.old.items → AreFiledBy tables live.new.items }
{
    let at = place_of(live.as_slice(), t);
    live[at].put_savepoint(savepoint)?;
    Ok(())
}

/// Goes back to the savepoint of a name, at which the transaction had so many changes. It takes no memory.
pub fn back_to(live: &mut Vec<Live>, t: TxId, name: &Name, changes: u32)
    requires { IsIn (names_of (transactions_of live.old.items)) t }
    ensures changed { transactions_of live.new.items ≡ changed t (kept_to name.now changes) (transactions_of live.old.items) }
    ensures filed { (tables : Sequence Table) → AreFiledBy tables live.old.items → AreFiledBy tables live.new.items }
{
    let at = place_of(live.as_slice(), t);
    live[at].back_to(name, changes);
}

/// Goes back to a mark. It takes no memory.
pub fn back_to_mark(live: &mut Vec<Live>, t: TxId, mark: TxMark)
    requires { IsIn (names_of (transactions_of live.old.items)) t }
    ensures changed { transactions_of live.new.items ≡ changed t (marked mark) (transactions_of live.old.items) }
    ensures filed { (tables : Sequence Table) → AreFiledBy tables live.old.items → AreFiledBy tables live.new.items }
{
    let at = place_of(live.as_slice(), t);
    live[at].back_to_mark(mark);
}

/// Whether another transaction changes a row.
pub fn others_change(live: &[Live], t: TxId, row: RowId) -> bool
    ensures { result ≡ some_other t (changes_row_by row) (transactions_of live.now) }
{
    some_changes(live, t, row)
}

fn some_changes(live: &[Live], t: TxId, row: RowId) -> bool
    ensures { result ≡ list_any (λ x. not (is_live t x) && changes_row row x.transaction.changes) live.now }
{
    live.iter()
        .any(|x| x.id() != t && x.changes().changes_row(row))
}

/// Whether another transaction has a change in a table.
pub fn others_change_in(live: &[Live], t: TxId, table: TableId) -> bool
    ensures { result ≡ some_other t (changes_in_table table) (transactions_of live.now) }
{
    some_changes_in(live, t, table)
}

fn some_changes_in(live: &[Live], t: TxId, table: TableId) -> bool
    ensures { result ≡ list_any (λ x. not (is_live t x) && list_any (is_in table) x.transaction.changes) live.now }
{
    live.iter()
        .any(|x| x.id() != t && x.changes().changes_table(table))
}

/// How many transactions a session's stack has.
pub fn height(live: &[Live], s: SessionId) -> usize
    ensures { result ≡ length (stack_of (names_of (transactions_of live.now)) s) }
{
    count_of(live, s)
}

fn count_of(live: &[Live], s: SessionId) -> usize
    ensures { result ≡ length (filter (λ x. is_of_session s x.transaction.id) live.now) }
{
    live.iter().filter(|x| x.id().session == s).count()
}

/// The greatest number among a table's rows that some transaction changes; 0 where there is none.
pub fn greatest_row(live: &[Live], table: TableId) -> u64
    ensures { result ≡ greatest_number_in (flat_map changes_by (transactions_of live.now)) table }
{
    let mut greatest = 0;
    for x in live {
        greatest = x.changes().greatest_number(table).max(greatest);
    }
    greatest
}

/// Whether the transaction of a name is there and has changes.
pub fn has_changes(live: &[Live], t: TxId) -> bool
    ensures { result ≡ nat_lt 0 (length (unwrap_or (find (is_named t) (transactions_of live.now)) (not_begun t)).changes) }
{
    match find(live, t) {
        Some(x) => x.changes().len() > 0,
        None => false,
    }
}

/// Takes out the transaction of a name.
pub fn remove(live: &mut Vec<Live>, t: TxId)
    ensures { live.new.items ≡ filter (λ x. not (is_live t x)) live.old.items }
{
    live.retain(|x| x.id() != t);
}

/// The name of the transaction on top of a session's stack.
pub fn top(live: &[Live], s: SessionId) -> TxId
    ensures { result ≡ top_of (names_of (transactions_of live.now)) s }
{
    match last(live, s) {
        Some(x) => x.id(),
        None => TxId {
            session: s,
            depth: 0,
        },
    }
}

fn last(live: &[Live], s: SessionId) -> Option<&Live>
    ensures { option_copied result ≡ last_or None (filter (λ x. is_of_session s x.transaction.id) live.now) }
{
    last_found(live, s)
}

fn last_found(live: &[Live], s: SessionId) -> Option<&Live>
    ensures { option_copied result ≡ find (λ x. is_of_session s x.transaction.id) (reverse live.now) }
{
    live.iter().rev().find(|x| x.id().session == s)
}
