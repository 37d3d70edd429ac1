//! Definitions.

ghost use Rattle.std.specs.Prelude.{◌≡◌, IfOk, OnOk, Ok, option_map};
ghost use Rattle.std.specs.Option.{option_copied};
ghost use Rattle.ebr_ast.specs.Views.{IsInOrder};
ghost use Rattle.ebr_validity.specs.Verdict.{is_valid};
ghost use Rattle.ebr_cross.specs.Catalogue.{ForLists, HaveOwnKeys, Lists, View, as_catalogue};
ghost use Rattle.ebr_cross.specs.Definitions.{outcome};
ghost use Rattle.ebr_cross.specs.Following.{MayFollow};
ghost use Rattle.ebr_cross.specs.Records.{with_record};
ghost use Rattle.ebr_database.specs.Database.{data_of};
ghost use Rattle.ebr_record.specs.Keeper.{used_by};
ghost use Rattle.ebr_units.specs.Living.{AreCurrent};
ghost use Rattle.ebr_core.specs.inside.Defined.{Defines, IsNew};
ghost use Rattle.ebr_core.specs.inside.Defining.{Applied, Carries, ForHeld, ForLists as ForKept, HoldsSome, KeepsPlanned, AnswersIn, Noticed};
ghost use Rattle.ebr_core.specs.inside.Stored.{IsSmall};
ghost use Rattle.ebr_core.specs.inside.Tables.{with_table_of};
ghost use Rattle.ebr_exec.specs.Places.{id_of};
ghost use Rattle.ebr_tx.specs.Data.{IsLive, named_at};
ghost use Rattle.ebr_seats.specs.Ends.{own_of};
ghost use Rattle.ebr_core.specs.Machine as spec;
ghost use Rattle.ebr_core.specs.Asked.{IsTextOf};
ghost use Rattle.ebr_core.specs.inside.Held.{ForSession, IsHeld, Replies};

use crate::asks::commit;
use crate::current::{Current, refusal};
use crate::kept::record_of;
use ebr_asks::Answer;
use ebr_ast::{Definition, EditionView, UnitTree};
use ebr_base::{
    Bytes, CloneIn, Code, EditionNo, NoMemory, SessionId, Shared, Stop, TableDef, TableId,
};
use ebr_check::check;
use ebr_cross::{Catalogue, CatalogueRecord};
use ebr_database::{Failure, Halt, keep_record};
use ebr_record::Keep;
use ebr_seats::{editions_in_use, own_of};
use ebr_tx::Transactions;
use std::alloc::Global;

/// A definition commits the session's transaction first, and that stays where the definition is refused.
pub fn ddl<K: Keep>(
    alloc: Global,
    current: &mut Current<K>,
    s: SessionId,
    e: EditionNo,
    what: &Definition,
    text: &Shared<Bytes>,
) -> Result<Answer, Halt>
    requires held { IsHeld K.as_keeper current.old s }
    requires text { IsTextOf what.now text.now }
    ensures { ForSession K.as_keeper current.old s (λ db d x. d ≡ e → Replies K.as_keeper current.old current.new result (spec.reply_ddl d db s x what.now text.now)) }
{
    match commit(alloc, current, s) {
        Ok(()) => defined(alloc, current, s, e, what, text),
        Err(Failure::Refused(code)) => Ok(refusal(alloc, code)),
        Err(Failure::Halted(why)) => Err(why),
    }
}

/// Carries out a definition, and answers it.
fn defined<K: Keep>(
    alloc: Global,
    current: &mut Current<K>,
    s: SessionId,
    e: EditionNo,
    what: &Definition,
    text: &Shared<Bytes>,
) -> Result<Answer, Halt>
    requires held { IsHeld K.as_keeper current.old s }
    requires text { IsTextOf what.now text.now }
    ensures { ForSession K.as_keeper current.old s (λ db d x. d ≡ e → Replies K.as_keeper current.old current.new result (spec.reply_define d s what.now text.now db)) }
{
    match define(alloc, current, s, e, what, text) {
        Ok(()) => answer_to(alloc, current, e, what),
        Err(Failure::Refused(code)) => Ok(refusal(alloc, code)),
        Err(Failure::Halted(why)) => Err(why),
    }
}

/// Carries out a definition, unless another transaction holds the table that it alters or drops.
fn define<K: Keep>(
    alloc: Global,
    current: &mut Current<K>,
    s: SessionId,
    e: EditionNo,
    what: &Definition,
    text: &Shared<Bytes>,
) -> Result<(), Failure>
    requires held { IsHeld K.as_keeper current.old s }
    requires text { IsTextOf what.now text.now }
    ensures held { OnOk result (HoldsSome K.as_keeper current.new) }
    ensures carries { ForSession K.as_keeper current.old s (λ db d x. d ≡ e → Carries K.as_keeper current.old current.new result db (spec.recorded (spec.defined (spec.lists_of db) (data_of db) s d (spec.editions_in_use db) what.now text.now) (used_by db.records))) }
{
    if is_held(&current.world.catalogue, &current.world.tx, s, what) {
        return Err(Failure::Refused(Code::Ora(54)));
    }
    let sessions = editions_in_use(alloc, current.seats.as_slice())?;
    carry_out(alloc, current, s, e, sessions.as_slice(), what, text)
}

/// Carries out a definition: it is planned, its record is kept, and then the catalogue is as the record says.
fn carry_out<K: Keep>(
    alloc: Global,
    current: &mut Current<K>,
    s: SessionId,
    e: EditionNo,
    sessions: &[EditionNo],
    what: &Definition,
    text: &Shared<Bytes>,
) -> Result<(), Failure>
    requires held { IsHeld K.as_keeper current.old s }
    requires text { IsTextOf what.now text.now }
    ensures { ForSession K.as_keeper current.old s (λ db d x. Carries K.as_keeper current.old current.new result db (spec.recorded (outcome (spec.lists_of db) e sessions.now what.now text.now) (used_by db.records))) }
{
    match current.world.catalogue.plan(alloc, e, sessions, what, text) {
        Ok(planned) => keep_and_apply(alloc, current, &planned),
        Err(Stop::Raised(code)) => Err(Failure::Refused(code)),
        Err(Stop::NoMemory) => Err(Failure::Halted(Halt::NoMemory)),
    }
}

/// Whether another live transaction has changes or locks in the table that a definition alters or drops.
fn is_held(c: &Catalogue, tx: &Transactions, s: SessionId, what: &Definition) -> bool
    requires { IsLive tx.now.contents (named_at s 0) }
    ensures { ForLists c.now (λ lists. result ≡ spec.is_held tx.now.contents (own_of s) (spec.table_changed lists what.now)) }
{
    match table_changed(c, what) {
        Some(table) => tx.holds_in(table, own_of(s)),
        None => false,
    }
}

/// The table that a definition alters or drops.
fn table_changed(c: &Catalogue, what: &Definition) -> Option<TableId>
    ensures { ForLists c.now (λ lists. result ≡ option_map id_of (spec.table_changed lists what.now)) }
{
    match what {
        Definition::AddColumn { table, .. } => id_of(c.table(table)),
        Definition::DropTable(name) => id_of(c.table(name)),
        _ => None,
    }
}

fn id_of(table: Option<&TableDef>) -> Option<TableId>
    ensures { result ≡ option_map id_of (option_copied table.entry) }
{
    match table {
        Some(table) => Some(table.id),
        None => None,
    }
}

/// Has the record of a planned definition kept, and then carries it out.
fn keep_and_apply<K: Keep>(
    alloc: Global,
    current: &mut Current<K>,
    planned: &CatalogueRecord,
) -> Result<(), Failure>
    requires small { IsSmall planned.now }
    requires follows { MayFollow current.old.world.catalogue planned.now }
    requires new { IsNew current.old.world.tx.contents planned.now }
    ensures { ForHeld K.as_keeper current.old (λ db. Defines db planned.now → Carries K.as_keeper current.old current.new result db (spec.recorded (Ok planned.now) (used_by db.records))) }
{
    keep_planned(alloc, &mut current.world.keeper, planned)?;
    apply(alloc, current, planned)?;
    Ok(())
}

/// Has the record of a planned definition kept; EBR-0042 where the journal has no room for it.
fn keep_planned<K: Keep>(
    alloc: Global,
    keeper: &mut K,
    planned: &CatalogueRecord,
) -> Result<(), Failure>
    requires { IsSmall planned.now }
    ensures { KeepsPlanned (K.as_keeper keeper.old) (K.as_keeper keeper.new) result planned.now (spec.recorded (Ok planned.now) (K.as_keeper keeper.old).used) }
{
    let r = record_of(alloc, planned)?;
    keep_record(keeper, &r)
}

/// Changes the catalogue as a record says that was kept, and all that takes notice of it.
fn apply<K: Keep>(
    alloc: Global,
    current: &mut Current<K>,
    planned: &CatalogueRecord,
) -> Result<(), NoMemory>
    requires follows { MayFollow current.old.world.catalogue planned.now }
    requires new { IsNew current.old.world.tx.contents planned.now }
    ensures applied { ForKept current.old (λ lists. OnOk result (Applied lists planned.now current.old current.new)) }
    ensures keeper { current.new.world.keeper ≡ current.old.world.keeper }
{
    current.world.catalogue.carry_out(alloc, planned)?;
    notice(alloc, current, planned)
}

/// Takes notice of a definition that was carried out.
fn notice<K: Keep>(
    alloc: Global,
    current: &mut Current<K>,
    made: &CatalogueRecord,
) -> Result<(), NoMemory>
    requires { IsNew current.old.world.tx.contents made.now }
    ensures noticed { (lists : Lists) → HaveOwnKeys lists → AreCurrent lists current.old.views → AreCurrent lists current.old.world.book
        → current.old.world.catalogue ≡ as_catalogue (with_record lists made.now) → OnOk result (Noticed lists made.now current.old current.new) }
    ensures catalogue { current.new.world.catalogue ≡ current.old.world.catalogue }
    ensures keeper { current.new.world.keeper ≡ current.old.world.keeper }
{
    let c = &current.world.catalogue;
    current.views.after(alloc, c, made);
    current.world.book.after_ddl(c, made);
    add_table(alloc, &mut current.world.tx, made)
}

/// Makes a table known to the transactions, where a definition made one.
pub fn add_table(
    alloc: Global,
    tx: &mut Transactions,
    made: &CatalogueRecord,
) -> Result<(), NoMemory>
    requires { IsNew tx.old.contents made.now }
    ensures { OnOk result (tx.new.contents ≡ with_table_of tx.old.contents made.now) }
{
    match made {
        CatalogueRecord::Table(table) => {
            let key = table.key.clone_in(alloc)?;
            tx.add_table(table.id, key)
        }
        _ => Ok(()),
    }
}

/// The answer to a definition that was carried out: the unit that it created is checked against what the session's edition sees now.
fn answer_to<K: Keep>(
    alloc: Global,
    current: &mut Current<K>,
    e: EditionNo,
    what: &Definition,
) -> Result<Answer, Halt>
    requires { HoldsSome K.as_keeper current.old }
    ensures { ForHeld K.as_keeper current.old (λ db. AnswersIn K.as_keeper current.old current.new result db (spec.answer_in (View (spec.lists_of db) e) what.now)) }
{
    match what {
        Definition::CreateObject { unit, .. } => creation_answer(alloc, current, e, unit),
        _ => Ok(Answer::Done),
    }
}

fn creation_answer<K: Keep>(
    alloc: Global,
    current: &mut Current<K>,
    e: EditionNo,
    unit: &UnitTree,
) -> Result<Answer, Halt>
    requires { HoldsSome K.as_keeper current.old }
    ensures { ForHeld K.as_keeper current.old (λ db. AnswersIn K.as_keeper current.old current.new result db (spec.creation_answer (is_valid (View (spec.lists_of db) e) unit.now))) }
{
    let view = current.views.of(alloc, &current.world.catalogue, e)?;
    if passes(alloc, view.get(), unit)? {
        return Ok(Answer::Done);
    }
    Ok(Answer::Invalid)
}

/// Whether a unit is valid against what an edition sees.
fn passes(alloc: Global, view: &EditionView, unit: &UnitTree) -> Result<bool, NoMemory>
    requires { IsInOrder view.now }
    ensures { IfOk result (λ valid. valid ≡ is_valid view.now unit.now) }
{
    let fault = check(alloc, view, unit)?;
    Ok(fault.is_none())
}
