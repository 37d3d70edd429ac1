//! All transactions over the committed data.

ghost use Rattle.std.specs.Prelude.{◌≡◌, ◌<◌, ◌≤◌, ◌+◌, ◌||◌, ◌==◌, nat_lt, if◌then◌else◌, [], ◌∷◌, ◌++◌, length, filter, not, true, false, is_some, IfOk, OnOk, OnErr, None};
ghost use Rattle.std.specs.Option.{option_copied};
ghost use Rattle.ebr_base.specs.Answers.{Answers};
ghost use Rattle.ebr_versions.specs.Keys.{is_added, key_places, KeysDiffer};
ghost use Rattle.ebr_versions.specs.Store.{OfAdded, HasRoom};
ghost use Rattle.ebr_locks.specs.Locks.{same_tx};
ghost use Rattle.ebr_tx.specs.Data.{IsLive, own, names_of, stack_of, named_at};
ghost use Rattle.ebr_tx.specs.Reads.{Sees, next_seen};
ghost use Rattle.ebr_tx.specs.Conflicts.{touch_refusal, is_other, HeldBy, TableHeld, KeyInUse, KeyTaken, KeySeen, KeyTest};
ghost use Rattle.ebr_tx.specs.Limits.{is_full, limit_refusal, max_row};
ghost use Rattle.ebr_tx.specs.Calls.{unless_refused, first_data, after_begin, after_change, change_refusal, key_refusal, new_key_refusal, changed_key_refusal, IsKnown, new_number, insertion, insert_refusal, insert_answer, after_lock, mark_of, IsMarkOf, after_mark, savepoint_at, after_savepoint, back_to_answer, after_back_to, IsPrepared, MayCommit, after_settle, after_rollback, HasSession, HasLevel, push_refusal, after_push, pop_refusal, top, after_pop, after_add_table, HasNotBegun, AnswersLoad, after_load, with_commit};
ghost use Rattle.ebr_tx.specs.inside.Sound.{MayAdd};

use crate::keys::{has_key, is_in_use, is_seen, is_taken, key_of};
use crate::limits::{MAX_ROW, limit_refusal};
use crate::live;
use crate::load::{LoadFault, is_allowed};
use crate::reads::{is_late, next_seen, seen};
use crate::savepoints::{Savepoint, TxMark};
use crate::transaction::Live;
use ebr_base::{
    Change, Code, List, Name, NoMemory, RowId, RowNo, SessionId, Shared, Stop, TableDef, TableId,
    TxId, Value,
};
use ebr_locks::Locks;
use ebr_versions::Versions;
use std::alloc::Global;
use std::marker::Model;

/// The most autonomous levels of a session that are open at one time.
const MAX_LEVELS: usize = 50;

/// The committed data, the row locks, and the live transactions of all sessions. Each session has a stack of them: its
/// own at the bottom, and one for each open autonomous level.
#[derive(Drop)]
pub struct Transactions {
    alloc: Global,
    versions: Versions,
    locks: Locks,
    live: Vec<Live>,
}

impl Model for Transactions {
    ghost use Rattle.ebr_tx.specs.Calls.{State, data_of};
    ghost use Rattle.ebr_tx.specs.inside.Filed.{IsKept, transactions_of};

    ghost Value = { State };

    ghost view = { λ t. record { contents = data_of t.versions (transactions_of t.live.items) t.locks.taken; room = t.versions.room } };

    ghost invariant = { λ t. IsKept t.versions.commits t.versions.tables t.live.items };
}

impl Transactions {
    /// One transaction for each session, numbered from 1, none of which has begun.
    pub fn new(alloc: Global, sessions: u32) -> Result<Transactions, NoMemory>
        ensures contents { IfOk result (λ t. t.contents ≡ first_data sessions) }
        ensures begun { IfOk result (λ t. HasNotBegun t.contents) }
        ensures sessions { IfOk result (λ t. (s : SessionId) → 1 ≤ s.0 → s.0 ≤ sessions → HasSession t.contents s) }
    {
        Ok(Transactions {
            alloc,
            versions: Versions::new(alloc)?,
            locks: Locks::new(alloc)?,
            live: live::first(alloc, sessions)?,
        })
    }

    /// The values of a row as the transaction sees it.
    pub fn see(&self, t: TxId, row: RowId) -> Option<&Shared<List<Value>>>
        requires { IsLive self.now.contents t }
        ensures { option_copied result ≡ Sees self.now.contents t row }
    {
        seen(&self.versions, live::own(self.live.as_slice(), t), row)
    }

    /// The next row of the table that the transaction sees: the least number above `after`.
    pub fn next_row(&self, t: TxId, table: TableId, after: RowNo) -> Option<RowNo>
        requires { IsLive self.now.contents t }
        ensures { result ≡ next_seen self.now.contents t table after }
    {
        next_seen(
            &self.versions,
            live::own(self.live.as_slice(), t),
            table,
            after,
        )
    }

    /// Whether the transaction has begun.
    pub fn begun(&self, t: TxId) -> bool
        requires { IsLive self.now.contents t }
        ensures { result ≡ is_some (own self.now.contents t).begun }
    {
        live::own(self.live.as_slice(), t).begun().is_some()
    }

    /// Begins the transaction at the commits that there are, where it hasn't begun. The room of a commit that was prepared and
    /// not settled is given back, so that no statement steps over its changes. It takes no memory.
    pub fn begin(&mut self, t: TxId)
        requires { IsLive self.old.contents t }
        ensures contents { self.new.contents ≡ after_begin self.old.contents t }
        ensures stacks { names_of self.new.contents.live ≡ names_of self.old.contents.live }
        ensures begun { is_some (own self.new.contents t).begun ≡ true }
    {
        let count = self.versions.count();
        self.versions.give_back();
        live::begin(&mut self.live, t, count);
    }

    /// Whether the transaction may touch a row: ORA-00054 where another live transaction holds it, and else ORA-08177 where
    /// a commit after the beginning changed it.
    pub fn test(&self, t: TxId, row: RowId) -> Option<Code>
        requires { IsLive self.now.contents t }
        ensures { result ≡ touch_refusal self.now.contents t row }
    {
        if self.is_held(t, row) {
            return Some(Code::Ora(54));
        }
        if is_late(
            &self.versions,
            live::own(self.live.as_slice(), t).begun(),
            row,
        ) {
            return Some(Code::Ora(8177));
        }
        None
    }

    /// Whether another live transaction holds a row.
    fn is_held(&self, t: TxId, row: RowId) -> bool
        ensures { result ≡ HeldBy self.now.contents row t }
    {
        is_other(self.locks.holder(row), t) || live::others_change(self.live.as_slice(), t, row)
    }

    /// Whether another live transaction has changes or locks in the table.
    pub fn holds_in(&self, table: TableId, but: TxId) -> bool
        requires { IsLive self.now.contents but }
        ensures { result ≡ TableHeld self.now.contents table but }
    {
        self.locks.holds_in(table, but) || live::others_change_in(self.live.as_slice(), but, table)
    }

    /// Changes a row that the transaction sees. It has begun.
    ///
    /// Refused, in this order: ORA-00054 where another live transaction holds the row; ORA-08177 where a commit after the
    /// beginning changed it; where its key changes, by the test of keys ORA-00054, ORA-00001, ORA-08177; EBR-0040 where the
    /// transaction has 200,000 changes or the record of its commit would be too long. An `Err` changes nothing.
    pub fn change(&mut self, t: TxId, c: Change, def: &TableDef) -> Result<(), Stop>
        requires live { IsLive self.old.contents t }
        requires begun { is_some (own self.old.contents t).begun ≡ true }
        requires known { IsKnown self.old.contents def.now }
        requires table { c.row.table ≡ def.now.id }
        requires seen { is_some (Sees self.old.contents t c.row) ≡ true }
        ensures answer { Answers result (unless_refused (change_refusal self.old.contents t c) tt) }
        ensures changed { OnOk result (self.new.contents ≡ after_change self.old.contents t c) }
        ensures unchanged { OnErr result (self.new.contents ≡ self.old.contents) }
        ensures stacks { names_of self.new.contents.live ≡ names_of self.old.contents.live }
        ensures begun { (own self.new.contents t).begun ≡ (own self.old.contents t).begun }
    {
        if let Some(code) = self.may_change(t, &c, def)? {
            return Err(Stop::Raised(code));
        }
        self.add(t, c)?;
        Ok(())
    }

    /// What refuses a change; where nothing does, the transaction may make it.
    fn may_change(&self, t: TxId, c: &Change, def: &TableDef) -> Result<Option<Code>, NoMemory>
        requires live { IsLive self.now.contents t }
        requires begun { is_some (own self.now.contents t).begun ≡ true }
        requires known { IsKnown self.now.contents def.now }
        requires table { c.now.row.table ≡ def.now.id }
        ensures refusal { IfOk result (λ refusal. refusal ≡ change_refusal self.now.contents t c.now) }
        ensures may { IfOk result (λ refusal. refusal ≡ None → MayAdd self.now.contents.commits self.now.contents.tables self.now.contents.live t (own self.now.contents t) c.now) }
    {
        // With the count comes that no two rows of a table share a key.
        let _ = self.versions.count();
        self.change_refusal(t, c, def)
    }

    /// What refuses a change.
    fn change_refusal(&self, t: TxId, c: &Change, def: &TableDef) -> Result<Option<Code>, NoMemory>
        requires live { IsLive self.now.contents t }
        requires known { IsKnown self.now.contents def.now }
        requires table { c.now.row.table ≡ def.now.id }
        ensures { IfOk result (λ refusal. refusal ≡ change_refusal self.now.contents t c.now) }
    {
        if let Some(code) = self.test(t, c.row) {
            return Ok(Some(code));
        }
        if let Some(code) = self.key_refusal(t, c, def)? {
            return Ok(Some(code));
        }
        Ok(limit_refusal(live::own(self.live.as_slice(), t).is_full(c)))
    }

    /// The test of keys for a change.
    fn key_refusal(&self, t: TxId, c: &Change, def: &TableDef) -> Result<Option<Code>, NoMemory>
        requires live { IsLive self.now.contents t }
        requires known { IsKnown self.now.contents def.now }
        requires table { c.now.row.table ≡ def.now.id }
        ensures { IfOk result (λ refusal. refusal ≡ key_refusal self.now.contents t c.now.row c.now.values) }
    {
        match &c.values {
            Some(values) => self.changed_key_refusal(t, c.row, values.get().as_slice(), def),
            None => Ok(None),
        }
    }

    /// The test of keys for new values of a row: it runs where its key values change.
    fn changed_key_refusal(
        &self,
        t: TxId,
        row: RowId,
        values: &[Value],
        def: &TableDef,
    ) -> Result<Option<Code>, NoMemory>
        requires live { IsLive self.now.contents t }
        requires known { IsKnown self.now.contents def.now }
        requires table { row.table ≡ def.now.id }
        ensures { IfOk result (λ refusal. refusal ≡ changed_key_refusal self.now.contents t row values.now) }
    {
        let key = key_of(self.alloc, def.key.as_slice(), values)?;
        if has_key(self.see(t, row), def.key.as_slice(), key.as_slice()) {
            return Ok(None);
        }
        Ok(self.key_code(t, def, Some(row.row), key.as_slice()))
    }

    /// The test of keys for the values of a row whose key is new to it, or of a new row.
    fn new_key_refusal(
        &self,
        t: TxId,
        this: Option<RowNo>,
        values: &[Value],
        def: &TableDef,
    ) -> Result<Option<Code>, NoMemory>
        requires live { IsLive self.now.contents t }
        requires known { IsKnown self.now.contents def.now }
        ensures { IfOk result (λ refusal. refusal ≡ new_key_refusal self.now.contents t def.now.id this values.now) }
    {
        let key = key_of(self.alloc, def.key.as_slice(), values)?;
        Ok(self.key_code(t, def, this, key.as_slice()))
    }

    /// What the test of keys says of this key for a row, or for a new one; nothing where the table has no key.
    fn key_code(&self, t: TxId, def: &TableDef, this: Option<RowNo>, key: &[Value]) -> Option<Code>
        requires live { IsLive self.now.contents t }
        requires known { IsKnown self.now.contents def.now }
        requires as_many { length def.now.key ≡ length key.now }
        ensures { result ≡ (if length def.now.key == 0 then None else KeyTest self.now.contents t def.now.id this key.now) }
    {
        let places = def.key.as_slice();
        if places.len() == 0 {
            return None;
        }
        self.key_test(t, def.id, this, places, key)
    }

    /// The test of keys, whose cases come in this order: ORA-00054, ORA-00001, ORA-08177.
    fn key_test(
        &self,
        t: TxId,
        table: TableId,
        this: Option<RowNo>,
        places: &[u16],
        key: &[Value],
    ) -> Option<Code>
        requires live { IsLive self.now.contents t }
        requires some { 0 < length key.now }
        requires as_many { length places.now ≡ length key.now }
        requires places { key_places self.now.contents.tables table ≡ places.now }
        ensures { result ≡ KeyTest self.now.contents t table this key.now }
    {
        if self.key_is_in_use(t, table, places, key) {
            return Some(Code::Ora(54));
        }
        if self.key_is_taken(t, table, this, places, key) {
            return Some(Code::Ora(1));
        }
        if self.key_is_seen(t, table, this, places, key) {
            return Some(Code::Ora(8177));
        }
        None
    }

    /// Whether a change of another live transaction gives a row of the table that key.
    fn key_is_in_use(&self, t: TxId, table: TableId, places: &[u16], key: &[Value]) -> bool
        requires some { 0 < length key.now }
        requires as_many { length places.now ≡ length key.now }
        requires places { key_places self.now.contents.tables table ≡ places.now }
        ensures { result ≡ KeyInUse self.now.contents t table key.now }
    {
        is_in_use(self.live.as_slice(), t, table, places, key)
    }

    /// Whether another row than this one has that key.
    fn key_is_taken(
        &self,
        t: TxId,
        table: TableId,
        this: Option<RowNo>,
        places: &[u16],
        key: &[Value],
    ) -> bool
        requires live { IsLive self.now.contents t }
        requires some { 0 < length key.now }
        requires as_many { length places.now ≡ length key.now }
        requires places { key_places self.now.contents.tables table ≡ places.now }
        ensures { result ≡ KeyTaken self.now.contents t table this key.now }
    {
        let own = live::own(self.live.as_slice(), t).changes();
        is_taken(&self.versions, own, table, this, places, key)
    }

    /// Whether the transaction sees another row than this one with that key.
    fn key_is_seen(
        &self,
        t: TxId,
        table: TableId,
        this: Option<RowNo>,
        places: &[u16],
        key: &[Value],
    ) -> bool
        requires live { IsLive self.now.contents t }
        requires some { 0 < length key.now }
        requires as_many { length places.now ≡ length key.now }
        requires places { key_places self.now.contents.tables table ≡ places.now }
        ensures { result ≡ KeySeen self.now.contents t table this key.now }
    {
        let x = live::own(self.live.as_slice(), t);
        is_seen(&self.versions, x, table, this, places, key)
    }

    /// Adds a change to the transaction, which may make it. An `Err` changes nothing.
    fn add(&mut self, t: TxId, c: Change) -> Result<(), NoMemory>
        requires live { IsLive self.old.contents t }
        requires may { MayAdd self.old.contents.commits self.old.contents.tables self.old.contents.live t (own self.old.contents t) c }
        ensures ok { OnOk result (self.new.contents ≡ after_change self.old.contents t c) }
        ensures err { OnErr result (self.new.contents ≡ self.old.contents) }
        ensures stacks { names_of self.new.contents.live ≡ names_of self.old.contents.live }
        ensures begun { (own self.new.contents t).begun ≡ (own self.old.contents t).begun }
    {
        let entry = self.versions.entry(&c);
        live::push(&mut self.live, t, c, entry.print)?;
        Ok(())
    }

    /// Adds a row to the table, and gives its number: one more than the greatest of the table in any commit or any live
    /// transaction's changes. The transaction has begun.
    ///
    /// Refused, in this order: by the test of keys ORA-00054, ORA-00001, ORA-08177; EBR-0040 where that number would pass
    /// 9,223,372,036,854,775,807, where the transaction has 200,000 changes, or where the record of its commit would be too
    /// long. An `Err` changes nothing.
    pub fn insert(
        &mut self,
        t: TxId,
        values: Shared<List<Value>>,
        def: &TableDef,
    ) -> Result<RowNo, Stop>
        requires live { IsLive self.old.contents t }
        requires begun { is_some (own self.old.contents t).begun ≡ true }
        requires known { IsKnown self.old.contents def.now }
        ensures answer { Answers result (insert_answer self.old.contents t def.now.id values) }
        ensures inserted { OnOk result (self.new.contents ≡ after_change self.old.contents t (insertion self.old.contents def.now.id values)) }
        ensures unchanged { OnErr result (self.new.contents ≡ self.old.contents) }
        ensures stacks { names_of self.new.contents.live ≡ names_of self.old.contents.live }
        ensures begun { (own self.new.contents t).begun ≡ (own self.old.contents t).begun }
    {
        let c = self.may_insert(t, values, def)?;
        let row = c.row.row;
        self.add(t, c)?;
        Ok(row)
    }

    /// The change that adds a row, which the transaction may make, or what refuses it.
    fn may_insert(
        &self,
        t: TxId,
        values: Shared<List<Value>>,
        def: &TableDef,
    ) -> Result<Change, Stop>
        requires live { IsLive self.now.contents t }
        requires begun { is_some (own self.now.contents t).begun ≡ true }
        requires known { IsKnown self.now.contents def.now }
        ensures answer { Answers result (unless_refused (insert_refusal self.now.contents t def.now.id values) (insertion self.now.contents def.now.id values)) }
        ensures may { IfOk result (λ c. MayAdd self.now.contents.commits self.now.contents.tables self.now.contents.live t (own self.now.contents t) c) }
    {
        // With the count comes that no two rows of a table share a key.
        let _ = self.versions.count();
        self.insertion(t, values, def)
    }

    /// The change that adds a row, or what refuses it.
    fn insertion(
        &self,
        t: TxId,
        values: Shared<List<Value>>,
        def: &TableDef,
    ) -> Result<Change, Stop>
        requires live { IsLive self.now.contents t }
        requires known { IsKnown self.now.contents def.now }
        ensures { Answers result (unless_refused (insert_refusal self.now.contents t def.now.id values) (insertion self.now.contents def.now.id values)) }
    {
        if let Some(code) = self.new_key_refusal(t, None, values.get().as_slice(), def)? {
            return Err(Stop::Raised(code));
        }
        self.numbered(t, def.id, values)
    }

    /// The change that adds a row, with its number, or EBR-0040.
    fn numbered(&self, t: TxId, table: TableId, values: Shared<List<Value>>) -> Result<Change, Stop>
        requires { IsLive self.now.contents t }
        ensures { Answers result (unless_refused (limit_refusal (nat_lt max_row (new_number self.now.contents table) || is_full (own self.now.contents t).changes (insertion self.now.contents table values))) (insertion self.now.contents table values)) }
    {
        let last = self.greatest_row(table);
        if last >= MAX_ROW {
            return Err(Stop::Raised(Code::Ebr(40)));
        }
        let row = RowId {
            table,
            row: RowNo(last + 1),
        };
        let c = Change {
            row,
            values: Some(values),
        };
        if live::own(self.live.as_slice(), t).is_full(&c) {
            return Err(Stop::Raised(Code::Ebr(40)));
        }
        Ok(c)
    }

    /// The greatest row number of the table in any commit or any live transaction's changes; 0 where there is none.
    fn greatest_row(&self, table: TableId) -> u64
        ensures { result + 1 ≡ new_number self.now.contents table }
    {
        let committed = self.versions.greatest_row(table).0;
        committed.max(live::greatest_row(self.live.as_slice(), table))
    }

    /// Locks a row for the transaction, which has begun. A row that it has changed needs no lock.
    ///
    /// Refused as `test` says. An `Err` changes nothing.
    pub fn lock(&mut self, t: TxId, row: RowId) -> Result<(), Stop>
        requires live { IsLive self.old.contents t }
        requires begun { is_some (own self.old.contents t).begun ≡ true }
        ensures answer { Answers result (unless_refused (touch_refusal self.old.contents t row) tt) }
        ensures locked { OnOk result (self.new.contents ≡ after_lock self.old.contents t row) }
        ensures unchanged { OnErr result (self.new.contents ≡ self.old.contents) }
        ensures stacks { names_of self.new.contents.live ≡ names_of self.old.contents.live }
        ensures begun { (own self.new.contents t).begun ≡ (own self.old.contents t).begun }
    {
        if let Some(code) = self.test(t, row) {
            return Err(Stop::Raised(code));
        }
        if live::own(self.live.as_slice(), t)
            .changes()
            .changes_row(row)
        {
            return Ok(());
        }
        self.locks.reserve(row, t)?;
        let _ = self.locks.take(row, t);
        Ok(())
    }

    /// What the transaction is by now.
    pub fn mark(&self, t: TxId) -> Result<TxMark, NoMemory>
        requires { IsLive self.now.contents t }
        ensures mark { IfOk result (λ mark. mark ≡ mark_of self.now.contents t) }
        ensures later { IfOk result (λ mark. IsMarkOf self.now.contents t mark) }
    {
        let x = live::own(self.live.as_slice(), t);
        Ok(TxMark {
            begun: x.begun(),
            changes: x.changes().len() as u32,
            locks: self.locks.held(t),
            savepoints: x.savepoints().clone_in(self.alloc)?,
        })
    }

    /// Goes back to a mark of the transaction, which hasn't ended or gone back past the mark since. It takes no memory.
    pub fn back_to_mark(&mut self, t: TxId, m: TxMark)
        requires live { IsLive self.old.contents t }
        requires mark { IsMarkOf self.old.contents t m }
        ensures contents { self.new.contents ≡ after_mark self.old.contents t m }
        ensures stacks { names_of self.new.contents.live ≡ names_of self.old.contents.live }
    {
        let locks = m.locks;
        live::back_to_mark(&mut self.live, t, m);
        self.locks.release_to(t, locks);
    }

    /// Makes a savepoint; one of that name that is there moves. An `Err` changes nothing.
    pub fn savepoint(&mut self, t: TxId, n: Name) -> Result<(), NoMemory>
        requires { IsLive self.old.contents t }
        ensures ok { OnOk result (self.new.contents ≡ after_savepoint self.old.contents t n) }
        ensures err { OnErr result (self.new.contents ≡ self.old.contents) }
        ensures stacks { names_of self.new.contents.live ≡ names_of self.old.contents.live }
        ensures begun { (own self.new.contents t).begun ≡ (own self.old.contents t).begun }
    {
        let savepoint = self.savepoint_at(t, n);
        live::put_savepoint(&mut self.live, t, savepoint)?;
        Ok(())
    }

    /// A savepoint with the numbers of changes and of locks that there are.
    fn savepoint_at(&self, t: TxId, n: Name) -> Savepoint
        requires { IsLive self.now.contents t }
        ensures { result ≡ savepoint_at self.now.contents t n }
    {
        Savepoint {
            name: n,
            changes: live::own(self.live.as_slice(), t).changes().len() as u32,
            locks: self.locks.held(t),
        }
    }

    /// Goes back to a savepoint: changes and locks made after it are undone, later savepoints are gone, and it stays.
    /// ORA-01086 where there is none of that name, and then nothing changes. It takes no memory.
    pub fn back_to(&mut self, t: TxId, n: &Name) -> Result<(), Code>
        requires { IsLive self.old.contents t }
        ensures answer { result ≡ back_to_answer self.old.contents t n.now }
        ensures contents { self.new.contents ≡ after_back_to self.old.contents t n.now }
        ensures stacks { names_of self.new.contents.live ≡ names_of self.old.contents.live }
        ensures begun { (own self.new.contents t).begun ≡ (own self.old.contents t).begun }
    {
        match live::own(self.live.as_slice(), t)
            .savepoints()
            .lengths_at(n)
        {
            Some((changes, locks)) => {
                live::back_to(&mut self.live, t, n, changes);
                self.locks.release_to(t, locks);
                Ok(())
            }
            None => Err(Code::Ora(1086)),
        }
    }

    /// The changes of the transaction, and the room for settling it. An `Err` changes nothing but room.
    #[tactic(auto, unfolding(crate::specs::Calls::IsPrepared))]
    pub fn prepare(&mut self, t: TxId) -> Result<List<Change>, NoMemory>
        requires { IsLive self.old.contents t }
        ensures changes { IfOk result (λ changes. changes ≡ (own self.old.contents t).changes) }
        ensures may { IfOk result (λ changes. MayCommit self.old.contents changes) }
        ensures prepared { OnOk result (IsPrepared self.new t) }
        ensures contents { self.new.contents ≡ self.old.contents }
    {
        // With the count comes that no two rows of a table share a key.
        let _ = self.versions.count();
        let own = live::own(self.live.as_slice(), t).changes();
        let changes = live::copies(self.alloc, own.as_slice())?;
        self.versions.reserve(&changes)?;
        Ok(changes)
    }

    /// Commits the transaction's changes, if it has any, and ends it. It was prepared, and no call that changes something
    /// came since. It takes no memory.
    #[tactic(auto, unfolding(crate::specs::Calls::IsPrepared))]
    pub fn settle(&mut self, t: TxId)
        requires live { IsLive self.old.contents t }
        requires prepared { IsPrepared self.old t }
        ensures contents { self.new.contents ≡ after_settle self.old.contents t }
        ensures stacks { names_of self.new.contents.live ≡ names_of self.old.contents.live }
    {
        // With the count comes that no two rows of a table share a key.
        let _ = self.versions.count();
        let changes = live::end(&mut self.live, t, self.alloc);
        commit(&mut self.versions, changes);
        self.locks.release_to(t, 0);
    }

    /// Undoes all that the transaction has done, and ends it. It takes no memory.
    pub fn rollback(&mut self, t: TxId)
        requires { IsLive self.old.contents t }
        ensures contents { self.new.contents ≡ after_rollback self.old.contents t }
        ensures stacks { names_of self.new.contents.live ≡ names_of self.old.contents.live }
    {
        live::end(&mut self.live, t, self.alloc);
        self.locks.release_to(t, 0);
    }

    /// Opens an autonomous level of the session: a transaction that has done nothing is on top of its stack. EBR-0014 where
    /// 50 levels are open. An `Err` changes nothing.
    pub fn push_autonomous(&mut self, s: SessionId) -> Result<(), Stop>
        requires { HasSession self.old.contents s }
        ensures answer { Answers result (unless_refused (push_refusal self.old.contents s) tt) }
        ensures pushed { OnOk result (self.new.contents ≡ after_push self.old.contents s) }
        ensures unchanged { OnErr result (self.new.contents ≡ self.old.contents) }
        ensures stacks { OnOk result (names_of self.new.contents.live ≡ names_of self.old.contents.live ++ named_at s (length (stack_of (names_of self.old.contents.live) s)) ∷ []) }
    {
        let height = live::height(self.live.as_slice(), s);
        if height > MAX_LEVELS {
            return Err(Stop::Raised(Code::Ebr(14)));
        }
        let id = TxId {
            session: s,
            depth: height as u32,
        };
        live::open(&mut self.live, self.alloc, id)?;
        Ok(())
    }

    /// Closes the session's top autonomous level, of which there is one, and undoes what is left of its changes and locks.
    /// ORA-06519 where it hasn't failed and something was left. It takes no memory.
    pub fn pop_autonomous(&mut self, s: SessionId, failed: bool) -> Result<(), Code>
        requires { HasLevel self.old.contents s }
        ensures answer { result ≡ unless_refused (pop_refusal self.old.contents s failed) tt }
        ensures contents { self.new.contents ≡ after_pop self.old.contents s }
        ensures stacks { names_of self.new.contents.live ≡ filter (λ n. not (same_tx n (top self.old.contents s))) (names_of self.old.contents.live) }
    {
        let t = live::top(self.live.as_slice(), s);
        let left = live::has_changes(self.live.as_slice(), t) || self.locks.held(t) > 0;
        live::remove(&mut self.live, t);
        self.locks.release_to(t, 0);
        if left && !failed {
            return Err(Code::Ora(6519));
        }
        Ok(())
    }

    /// Adds a table that wasn't added before, with the places of its key's columns; no place is no key. An `Err` changes
    /// nothing.
    pub fn add_table(&mut self, t: TableId, key: List<u16>) -> Result<(), NoMemory>
        requires { is_added self.old.contents.tables t ≡ false }
        ensures ok { OnOk result (self.new.contents ≡ after_add_table self.old.contents t key) }
        ensures err { OnErr result (self.new.contents ≡ self.old.contents) }
    {
        self.versions.add_table(t, key)?;
        Ok(())
    }

    /// Adds a recovered commit, where its rows and keys are allowed behind the commits before it: it has from one to 200,000
    /// changes; the number of each row is from 1 to 9,223,372,036,854,775,807; a row that a change removes is there, behind the
    /// changes before it; and afterwards no two rows of a table share a key. Of its values it tests nothing else, nor that the
    /// tables live. No transaction has begun. An `Err` changes nothing but room.
    pub fn load(&mut self, changes: List<Change>) -> Result<(), LoadFault>
        requires begun { HasNotBegun self.old.contents }
        requires added { OfAdded self.old.contents.tables changes }
        ensures answer { AnswersLoad result self.old.contents changes }
        ensures ok { OnOk result (self.new.contents ≡ after_load self.old.contents changes) }
        ensures err { OnErr result (self.new.contents ≡ self.old.contents) }
    {
        let allowed = is_allowed(self.alloc, &self.versions, changes.as_slice())?;
        if !allowed {
            return Err(LoadFault::NotAllowed);
        }
        self.versions.reserve(&changes)?;
        self.versions.commit(changes);
        Ok(())
    }
}

/// Whether a transaction is there that is not this one.
fn is_other(by: Option<TxId>, t: TxId) -> bool
    ensures { result ≡ is_other t by }
{
    match by {
        Some(by) => by != t,
        None => false,
    }
}

/// Commits changes, if there are any, in the room that was made for them.
fn commit(versions: &mut Versions, changes: List<Change>)
    requires room { HasRoom versions.old changes }
    requires added { OfAdded versions.old.tables changes }
    requires keys { KeysDiffer (versions.old.commits ++ changes ∷ []) versions.old.tables }
    ensures commits { versions.new.commits ≡ with_commit versions.old.commits changes }
    ensures tables { versions.new.tables ≡ versions.old.tables }
{
    if !changes.is_empty() {
        versions.commit(changes);
    }
}
