//! What a body asks, but statements.

ghost use Rattle.std.specs.Prelude.{◌≡◌, ◌<◌, ℕ, Ok, OnOk, OnErr};
ghost use Rattle.ebr_tx.specs.Data.{IsLive};
ghost use Rattle.ebr_database.specs.Database.{as_answer};
ghost use Rattle.ebr_database.specs.Shows.{Leaves, LeavesOr, Tells, base_of};
ghost use Rattle.ebr_database.specs.Storable.{AllStorable};
ghost use Rattle.ebr_database.specs.Transact as does;
ghost use Rattle.ebr_exec.specs.Statements as statements;
ghost use Rattle.ebr_levels.specs.Keeps.{UnderChange};
ghost use Rattle.ebr_levels.specs.Levels as levels;
ghost use Rattle.ebr_bodies.specs.Bodies as spec;
ghost use Rattle.ebr_bodies.specs.Ready as triggers;
ghost use Rattle.ebr_statements.specs.inside.Asks as inside;
ghost use Rattle.ebr_statements.specs.inside.Opened.{IsOpened, Stays};

use crate::levels::above;
use ebr_asks::{Answer, Ask};
use ebr_base::{CloneIn, Code, List, Name, NoMemory, Stop, TxId};
use ebr_database::{
    Failure, Halt, back_to, commit, pop_autonomous, push_autonomous, roll_back, savepoint,
};
use ebr_record::Keep;
use ebr_tx::Transactions;
use std::alloc::Global;

/// A refusal before any body of a trigger ran.
pub fn refused(alloc: Global, code: Code) -> Answer
    ensures { result ≡ statements.refused code }
{
    Answer::Refused {
        code,
        steps: 0,
        lines: List::new(alloc),
    }
}

/// Done, or refused.
fn answered(alloc: Global, done: Result<(), Code>) -> Answer
    ensures { result ≡ as_answer done }
{
    match done {
        Ok(()) => Answer::Done,
        Err(code) => refused(alloc, code),
    }
}

/// Done, or refused, or that the engine gives up.
fn done_or_refused(alloc: Global, done: Result<(), Failure>) -> Result<Answer, Halt>
    ensures { result ≡ inside.as_told done }
{
    match done {
        Ok(()) => Ok(Answer::Done),
        Err(Failure::Refused(code)) => Ok(refused(alloc, code)),
        Err(Failure::Halted(why)) => Err(why),
    }
}

/// The refusal of an ask outside an autonomous transaction.
fn own_refusal(ask: &Ask) -> Code
    ensures { result ≡ inside.own_refusal ask.now }
{
    match ask {
        Ask::Commit => Code::Ora(4092),
        Ask::Rollback => Code::Ora(4092),
        Ask::Savepoint(_) => Code::Ora(4092),
        Ask::BackTo(_) => Code::Ora(4092),
        _ => Code::Ebr(15),
    }
}

/// Answers what a body of a statement in this transaction asks, above which so many autonomous transactions are open.
pub fn transact<K: Keep>(
    alloc: Global,
    tx: &mut Transactions,
    keeper: &mut K,
    t: TxId,
    opened: &mut u32,
    ask: &Ask,
) -> Result<Answer, Halt>
    requires opened { IsOpened t opened.old tx.old.contents }
    requires storable { AllStorable tx.old.contents }
    requires other { inside.IsNoStatement ask.now }
    ensures exact { (w : spec.Site) (r : triggers.Ready) (room : ℕ) → w.tx ≡ t
        → Tells (spec.serve w r room ask.now (base_of tx.old.contents (K.as_keeper keeper.old))) (base_of tx.new.contents (K.as_keeper keeper.new)) (K.as_keeper keeper.old) (K.as_keeper keeper.new) result }
    ensures opened { (under : UnderChange) → Stays under t opened.old tx.old.contents opened.new tx.new.contents }
    ensures storable { AllStorable tx.new.contents }
{
    match ask {
        Ask::PushAuto => match push(tx, t, opened) {
            Ok(()) => Ok(Answer::Done),
            Err(Stop::Raised(code)) => Ok(refused(alloc, code)),
            Err(Stop::NoMemory) => Err(Halt::NoMemory),
        },
        _ => unless_own(alloc, tx, keeper, t, opened, ask),
    }
}

/// Answers an ask that belongs inside an autonomous transaction.
fn unless_own<K: Keep>(
    alloc: Global,
    tx: &mut Transactions,
    keeper: &mut K,
    t: TxId,
    opened: &mut u32,
    ask: &Ask,
) -> Result<Answer, Halt>
    requires opened { IsOpened t opened.old tx.old.contents }
    requires storable { AllStorable tx.old.contents }
    requires statement { inside.IsNoStatement ask.now }
    requires push { inside.IsNoPush ask.now }
    ensures exact { (w : spec.Site) (r : triggers.Ready) (room : ℕ) → w.tx ≡ t
        → Tells (spec.serve w r room ask.now (base_of tx.old.contents (K.as_keeper keeper.old))) (base_of tx.new.contents (K.as_keeper keeper.new)) (K.as_keeper keeper.old) (K.as_keeper keeper.new) result }
    ensures opened { (under : UnderChange) → Stays under t opened.old tx.old.contents opened.new tx.new.contents }
    ensures storable { AllStorable tx.new.contents }
{
    if *opened == 0 {
        return Ok(refused(alloc, own_refusal(ask)));
    }
    let top = above(t, *opened)?;
    within(alloc, tx, keeper, t, top, opened, ask)
}

/// Answers an ask for the autonomous transaction on top.
fn within<K: Keep>(
    alloc: Global,
    tx: &mut Transactions,
    keeper: &mut K,
    t: TxId,
    top: TxId,
    opened: &mut u32,
    ask: &Ask,
) -> Result<Answer, Halt>
    requires some { 0 < opened.old }
    requires top { top ≡ levels.above t opened.old }
    requires opened { IsOpened t opened.old tx.old.contents }
    requires storable { AllStorable tx.old.contents }
    ensures exact { Tells (inside.within top ask.now (base_of tx.old.contents (K.as_keeper keeper.old))) (base_of tx.new.contents (K.as_keeper keeper.new)) (K.as_keeper keeper.old) (K.as_keeper keeper.new) result }
    ensures opened { (under : UnderChange) → Stays under t opened.old tx.old.contents opened.new tx.new.contents }
    ensures storable { AllStorable tx.new.contents }
{
    match ask {
        Ask::Commit => done_or_refused(alloc, commit(tx, keeper, top)),
        Ask::Rollback => {
            roll_back(tx, top);
            Ok(Answer::Done)
        }
        Ask::Savepoint(name) => match set_savepoint(alloc, tx, top, name) {
            Ok(()) => Ok(Answer::Done),
            Err(NoMemory) => Err(Halt::NoMemory),
        },
        Ask::BackTo(name) => Ok(answered(alloc, back_to(tx, top, name))),
        Ask::PopAuto { failed } => Ok(answered(alloc, pop(tx, t, opened, *failed))),
        _ => Ok(refused(alloc, Code::Ebr(15))),
    }
}

fn set_savepoint(alloc: Global, tx: &mut Transactions, t: TxId, name: &Name) -> Result<(), NoMemory>
    requires live { IsLive tx.old.contents t }
    requires storable { AllStorable tx.old.contents }
    ensures left { OnOk result (Leaves (does.savepoint t name.now) tx.old.contents tx.new.contents (Ok tt)) }
    ensures unchanged { OnErr result (tx.new.contents ≡ tx.old.contents) }
    ensures storable { AllStorable tx.new.contents }
{
    savepoint(tx, t, name.clone_in(alloc)?)
}

/// Opens an autonomous transaction.
fn push(tx: &mut Transactions, t: TxId, opened: &mut u32) -> Result<(), Stop>
    requires opened { IsOpened t opened.old tx.old.contents }
    requires storable { AllStorable tx.old.contents }
    ensures left { LeavesOr (does.push t.session) tx.old.contents tx.new.contents result }
    ensures unchanged { OnErr result (tx.new.contents ≡ tx.old.contents) }
    ensures opened { (under : UnderChange) → Stays under t opened.old tx.old.contents opened.new tx.new.contents }
    ensures storable { AllStorable tx.new.contents }
{
    let Some(more) = opened.checked_add(1) else {
        return Err(Stop::NoMemory);
    };
    match push_autonomous(tx, t.session) {
        Ok(()) => {
            *opened = more;
            Ok(())
        }
        Err(stop) => Err(stop),
    }
}

/// Closes the autonomous transaction on top.
fn pop(tx: &mut Transactions, t: TxId, opened: &mut u32, failed: bool) -> Result<(), Code>
    requires some { 0 < opened.old }
    requires opened { IsOpened t opened.old tx.old.contents }
    requires storable { AllStorable tx.old.contents }
    ensures left { Leaves (does.pop t.session failed) tx.old.contents tx.new.contents result }
    ensures opened { (under : UnderChange) → Stays under t opened.old tx.old.contents opened.new tx.new.contents }
    ensures storable { AllStorable tx.new.contents }
{
    *opened -= 1;
    pop_autonomous(tx, t.session, failed)
}
