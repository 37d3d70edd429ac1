//! The asks for transactions.

ghost use Rattle.std.specs.Prelude.{◌≡◌, ◌++◌, ◌∷◌, [], not, length, filter, Ok, OnOk, OnErr};
ghost use Rattle.ebr_tx.specs.Data.{IsLive, names_of, stack_of, named_at};
ghost use Rattle.ebr_locks.specs.Locks.{same_tx};
ghost use Rattle.ebr_tx.specs.Calls.{HasSession, HasLevel, top};
ghost use Rattle.ebr_record.specs.declared.record.Record.TheVariants as made;
ghost use Rattle.ebr_record.specs.Payload.{HasPayload};
ghost use Rattle.ebr_database.specs.inside.Failed.{failed};
ghost use Rattle.ebr_database.specs.Storable.{AllStorable};
ghost use Rattle.ebr_database.specs.Transact as spec;
ghost use Rattle.ebr_database.specs.Shows.{Shows, Leaves, LeavesOr, base_of};

use crate::failure::{Failure, Halt};
use ebr_base::{Change, Code, List, Name, NoMemory, SessionId, Stop, TxId};
use ebr_record::{JournalFault, Keep, Record, commits_are_as_long_as_counted};
use ebr_tx::Transactions;

/// Undoes what the transaction has done, and ends it. It takes no memory.
pub fn roll_back(tx: &mut Transactions, t: TxId)
    requires live { IsLive tx.old.contents t }
    requires storable { AllStorable tx.old.contents }
    ensures exact { Leaves (spec.roll_back t) tx.old.contents tx.new.contents (Ok tt) }
    ensures storable { AllStorable tx.new.contents }
    ensures stacks { names_of tx.new.contents.live ≡ names_of tx.old.contents.live }
{
    tx.rollback(t);
}

/// Makes a savepoint in the transaction. Want of memory changes nothing.
pub fn savepoint(tx: &mut Transactions, t: TxId, name: Name) -> Result<(), NoMemory>
    requires live { IsLive tx.old.contents t }
    requires storable { AllStorable tx.old.contents }
    ensures exact { OnOk result (Leaves (spec.savepoint t name) tx.old.contents tx.new.contents (Ok tt)) }
    ensures unchanged { OnErr result (tx.new.contents ≡ tx.old.contents) }
    ensures storable { AllStorable tx.new.contents }
    ensures stacks { names_of tx.new.contents.live ≡ names_of tx.old.contents.live }
{
    tx.savepoint(t, name)
}

/// Goes back to a savepoint of the transaction: ORA-01086 where it has none of that name. It takes no memory.
pub fn back_to(tx: &mut Transactions, t: TxId, name: &Name) -> Result<(), Code>
    requires live { IsLive tx.old.contents t }
    requires storable { AllStorable tx.old.contents }
    ensures exact { Leaves (spec.back_to t name.now) tx.old.contents tx.new.contents result }
    ensures storable { AllStorable tx.new.contents }
    ensures stacks { names_of tx.new.contents.live ≡ names_of tx.old.contents.live }
{
    tx.back_to(t, name)
}

/// Opens an autonomous transaction on top of the session's stack: EBR-0014 where 50 are open. An `Err` changes nothing.
pub fn push_autonomous(tx: &mut Transactions, s: SessionId) -> Result<(), Stop>
    requires live { HasSession tx.old.contents s }
    requires storable { AllStorable tx.old.contents }
    ensures exact { LeavesOr (spec.push s) tx.old.contents tx.new.contents result }
    ensures storable { AllStorable tx.new.contents }
    ensures unchanged { OnErr result (tx.new.contents ≡ tx.old.contents) }
    ensures stacks { OnOk result (names_of tx.new.contents.live ≡ names_of tx.old.contents.live ++ named_at s (length (stack_of (names_of tx.old.contents.live) s)) ∷ []) }
{
    tx.push_autonomous(s)
}

/// Closes the autonomous transaction on top of the session's stack and undoes what it left: ORA-06519 where it hasn't
/// failed and left changes or locks. It takes no memory.
pub fn pop_autonomous(tx: &mut Transactions, s: SessionId, failed: bool) -> Result<(), Code>
    requires level { HasLevel tx.old.contents s }
    requires storable { AllStorable tx.old.contents }
    ensures exact { Leaves (spec.pop s failed) tx.old.contents tx.new.contents result }
    ensures storable { AllStorable tx.new.contents }
    ensures stacks { names_of tx.new.contents.live ≡ filter (λ n. not (same_tx n (top tx.old.contents s))) (names_of tx.old.contents.live) }
{
    tx.pop_autonomous(s, failed)
}

/// Commits the transaction and ends it. Where it has changes the keeper has kept their record; EBR-0042 where the journal has
/// no room for it, and then the transaction stays. Where the keeper gives up, the transaction stays too.
pub fn commit<K: Keep>(tx: &mut Transactions, keeper: &mut K, t: TxId) -> Result<(), Failure>
    requires live { IsLive tx.old.contents t }
    requires storable { AllStorable tx.old.contents }
    ensures exact { Shows (spec.commit t (base_of tx.old.contents (K.as_keeper keeper.old))) (base_of tx.new.contents (K.as_keeper keeper.new)) (K.as_keeper keeper.old) (K.as_keeper keeper.new) result }
    ensures storable { AllStorable tx.new.contents }
    ensures unchanged { OnErr result (tx.new.contents ≡ tx.old.contents) }
    ensures stacks { names_of tx.new.contents.live ≡ names_of tx.old.contents.live }
{
    let changes = tx.prepare(t)?;
    commits_are_as_long_as_counted();
    keep_changes(keeper, changes)?;
    tx.settle(t);
    Ok(())
}

/// Has the record of a commit with these changes kept; of none there is no record.
fn keep_changes<K: Keep>(keeper: &mut K, changes: List<Change>) -> Result<(), Failure>
    requires { HasPayload (made.Commit changes) }
    ensures { Shows (spec.keep_changes changes (K.as_keeper keeper.old).used) (K.as_keeper keeper.new).used (K.as_keeper keeper.old) (K.as_keeper keeper.new) result }
{
    if changes.is_empty() {
        return Ok(());
    }
    let r = Record::Commit(changes);
    keep_record(keeper, &r)
}

/// Has a record kept: EBR-0042 where the journal has no room for it.
pub fn keep_record<K: Keep>(keeper: &mut K, r: &Record) -> Result<(), Failure>
    requires { HasPayload r.now }
    ensures { Shows (spec.keep_record r.now (K.as_keeper keeper.old).used) (K.as_keeper keeper.new).used (K.as_keeper keeper.old) (K.as_keeper keeper.new) result }
{
    failed(keeper.keep(r))
}

/// The answer of a keeper as that of a commit or a definition.
fn failed(answer: Result<(), JournalFault>) -> Result<(), Failure>
    ensures { result ≡ failed answer }
{
    match answer {
        Ok(()) => Ok(()),
        Err(JournalFault::Full { .. }) => Err(Failure::Refused(Code::Ebr(42))),
        Err(JournalFault::DiskFault) => Err(Failure::Halted(Halt::DiskFault)),
        Err(JournalFault::Stopped) => Err(Failure::Halted(Halt::Stopped)),
        Err(JournalFault::NoMemory) => Err(Failure::Halted(Halt::NoMemory)),
    }
}
