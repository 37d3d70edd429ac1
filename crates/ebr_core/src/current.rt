//! The database as the engine holds it, and the replies to asks.

ghost use Rattle.std.specs.Prelude.{◌≡◌, ◌≢◌, [], IfOk, None};
ghost use Rattle.ebr_asks.specs.declared.answer.Answer.TheVariants.{Refused};
ghost use Rattle.ebr_asks.specs.declared.ask.Ask.TheVariants as asks;
ghost use Rattle.ebr_asks.specs.declared.ask.Ask.TheVariants.{Leave};
ghost use Rattle.ebr_seats.specs.Tests.{first_tests};
ghost use Rattle.ebr_core.specs.Machine as spec;
ghost use Rattle.ebr_core.specs.Asked.{IsFit};
ghost use Rattle.ebr_core.specs.History.{is_light, only_reads};
ghost use Rattle.ebr_core.specs.inside.Held.{ComesWith, Copies, CopiesGiven, ForSession, IsHeld, IsPlaced, IsPlain, Replies, Tries, answered, with_nothing};

use crate::asks::{begin, end, query, sql, transact};
use crate::define::ddl;
use crate::views::Views;
use ebr_asks::{Answer, Ask};
use ebr_ast::SqlTree;
use ebr_base::{CloneIn, Code, EditionNo, List, NoMemory, SessionId, Shared, Value};
use ebr_database::{Failure, Halt};
use ebr_exec::World;
use ebr_record::Keep;
use ebr_seats::{Seat, count_ask, first_tests, seat_of};
use ebr_units::{Book, Units};
use std::alloc::Global;

/// What is answered, and with a view the book of what it shows.
pub type Given = (Answer, Option<Shared<Book>>);

/// The same with a copy of the answer, for the history.
pub type Told = (Given, Answer);

/// The database as the engine holds it.
#[derive(Drop)]
pub struct Current<K> {
    pub world: World<K, Units>,
    pub views: Views,
    /// Those of the sessions, numbered from 1.
    pub seats: Vec<Seat>,
}

/// Replies to an ask of a live session that is no Leave, and counts it. A light ask that finds no memory leaves all as it was.
pub fn counted_reply<K: Keep>(
    alloc: Global,
    current: &mut Current<K>,
    s: SessionId,
    ask: &Ask,
) -> Result<Told, Halt>
    requires held { IsHeld K.as_keeper current.old s }
    requires stays { ask.now ≢ Leave }
    requires fit { IsFit ask.now }
    ensures reply { ForSession K.as_keeper current.old s (λ db e x. Tries K.as_keeper (is_light ask.now) current.old current.new db result (spec.Reply db s ask.now)) }
    ensures book { IfOk result (λ told. ComesWith ask.now told.0.0 told.0.1) }
{
    let told = tested_reply(alloc, current, s, ask)?;
    count_ask(&mut current.seats, s, ask, &told.0.0);
    Ok(told)
}

/// Replies to an ask behind the first tests.
fn tested_reply<K: Keep>(
    alloc: Global,
    current: &mut Current<K>,
    s: SessionId,
    ask: &Ask,
) -> Result<Told, Halt>
    requires held { IsHeld K.as_keeper current.old s }
    requires stays { ask.now ≢ Leave }
    requires fit { IsFit ask.now }
    ensures reply { ForSession K.as_keeper current.old s (λ db e x. Tries K.as_keeper (is_light ask.now) current.old current.new db result (spec.unless_refused (first_tests db s x ask.now) db (spec.reply_in e db s x ask.now))) }
    ensures book { IfOk result (λ told. ComesWith ask.now told.0.0 told.0.1) }
{
    match first_tests(seat_of(current.seats.as_slice(), s), ask) {
        Some(code) => with_copy(alloc, (refusal(alloc, code), None)),
        None => reply(alloc, current, s, ask),
    }
}

/// Replies to an ask in the session's edition.
fn reply<K: Keep>(
    alloc: Global,
    current: &mut Current<K>,
    s: SessionId,
    ask: &Ask,
) -> Result<Told, Halt>
    requires held { IsHeld K.as_keeper current.old s }
    requires stays { ask.now ≢ Leave }
    requires fit { IsFit ask.now }
    requires placed { IsPlaced K.as_keeper current.old s ask.now }
    ensures reply { ForSession K.as_keeper current.old s (λ db e x. Tries K.as_keeper (is_light ask.now) current.old current.new db result (spec.reply_in e db s x ask.now)) }
    ensures book { IfOk result (λ told. ComesWith ask.now told.0.0 told.0.1) }
{
    match seat_of(current.seats.as_slice(), s).edition {
        Some(e) => reply_in(alloc, current, s, e, ask),
        None => with_copy(alloc, (refusal(alloc, Code::Ebr(15)), None)),
    }
}

fn reply_in<K: Keep>(
    alloc: Global,
    current: &mut Current<K>,
    s: SessionId,
    e: EditionNo,
    ask: &Ask,
) -> Result<Told, Halt>
    requires held { IsHeld K.as_keeper current.old s }
    requires stays { ask.now ≢ Leave }
    requires fit { IsFit ask.now }
    requires placed { IsPlaced K.as_keeper current.old s ask.now }
    ensures reply { ForSession K.as_keeper current.old s (λ db d x. d ≡ e → Tries K.as_keeper (is_light ask.now) current.old current.new db result (spec.reply_in d db s x ask.now)) }
    ensures book { ForSession K.as_keeper current.old s (λ db d x. IfOk result (λ told. ComesWith ask.now told.0.0 told.0.1)) }
{
    match ask {
        Ask::Begin => begin(alloc, current, s, e),
        Ask::Sql { stmt, binds, left } => statement(
            alloc,
            current,
            s,
            e,
            stmt.get(),
            binds.get().as_slice(),
            *left,
            ask,
        ),
        _ => told(
            alloc,
            with_nothing(reply_plainly(alloc, current, s, e, ask)),
        ),
    }
}

/// Replies to a statement.
fn statement<K: Keep>(
    alloc: Global,
    current: &mut Current<K>,
    s: SessionId,
    e: EditionNo,
    stmt: &SqlTree,
    binds: &[Value],
    left: u32,
    ask: &Ask,
) -> Result<Told, Halt>
    requires held { IsHeld K.as_keeper current.old s }
    requires is { ask.now ≡ asks.Sql stmt.now binds.now left }
    ensures reply { ForSession K.as_keeper current.old s (λ db d x. d ≡ e → Tries K.as_keeper (only_reads stmt.now) current.old current.new db result (spec.reply_sql d db s x stmt.now binds.now left)) }
    ensures book { IfOk result (λ told. told.0.1 ≡ None) }
{
    if only_reads(stmt) {
        return query(alloc, current, s, e, stmt, binds, left, ask);
    }
    told(
        alloc,
        with_nothing(sql(alloc, current, s, e, stmt, binds, left, ask)),
    )
}

/// Whether a statement is a query that locks no rows.
fn only_reads(stmt: &SqlTree) -> bool
    ensures { result ≡ only_reads stmt.now }
{
    match stmt {
        SqlTree::Query(query) => !query.get().for_update,
        _ => false,
    }
}

/// Whether an ask leaves all as it was where there is no memory for it.
pub fn is_light(ask: &Ask) -> bool
    ensures { result ≡ is_light ask.now }
{
    match ask {
        Ask::Begin => true,
        Ask::Sql { stmt, .. } => only_reads(stmt.get()),
        _ => false,
    }
}

/// What was given, with a copy of the answer.
fn told(alloc: Global, given: Result<Given, Halt>) -> Result<Told, Halt>
    ensures { CopiesGiven given result }
{
    match given {
        Ok(given) => with_copy(alloc, given),
        Err(why) => Err(why),
    }
}

/// A value with what comes with it, and a copy of the value.
pub fn with_copy<T: CloneIn, B: Drop>(alloc: Global, given: (T, B)) -> Result<((T, B), T), Halt>
    ensures { Copies given result }
{
    match given.0.clone_in(alloc) {
        Ok(copy) => Ok((given, copy)),
        Err(NoMemory) => Err(Halt::NoMemory),
    }
}

/// Replies to an ask that is no statement and is answered without a view.
fn reply_plainly<K: Keep>(
    alloc: Global,
    current: &mut Current<K>,
    s: SessionId,
    e: EditionNo,
    ask: &Ask,
) -> Result<Answer, Halt>
    requires held { IsHeld K.as_keeper current.old s }
    requires plain { IsPlain ask.now }
    requires fit { IsFit ask.now }
    requires placed { IsPlaced K.as_keeper current.old s ask.now }
    ensures { ForSession K.as_keeper current.old s (λ db d x. d ≡ e → Replies K.as_keeper current.old current.new result (spec.reply_in d db s x ask.now)) }
{
    match ask {
        Ask::Ddl { what, text } => ddl(alloc, current, s, e, what.get(), text),
        Ask::EndCall { failed } => {
            end(current, s, *failed);
            Ok(Answer::Done)
        }
        Ask::Commit
        | Ask::Rollback
        | Ask::Savepoint(_)
        | Ask::BackTo(_)
        | Ask::SetEdition(_)
        | Ask::PushAuto
        | Ask::PopAuto { .. } => answered(alloc, transact(alloc, current, s, ask)),
        Ask::Begin | Ask::Sql { .. } | Ask::Leave => Ok(Answer::Done),
    }
}

/// An answer with which no book comes.
fn with_nothing(answer: Result<Answer, Halt>) -> Result<Given, Halt>
    ensures { result ≡ with_nothing answer }
{
    match answer {
        Ok(answer) => Ok((answer, None)),
        Err(why) => Err(why),
    }
}

/// The answer of what is done or refused.
pub fn answered(alloc: Global, done: Result<(), Failure>) -> Result<Answer, Halt>
    ensures { result ≡ answered done }
{
    match done {
        Ok(()) => Ok(Answer::Done),
        Err(Failure::Refused(code)) => Ok(refusal(alloc, code)),
        Err(Failure::Halted(why)) => Err(why),
    }
}

/// A refusal before any body of a trigger.
pub fn refusal(alloc: Global, code: Code) -> Answer
    ensures { result ≡ Refused code 0 [] }
{
    Answer::Refused {
        code,
        steps: 0,
        lines: List::new(alloc),
    }
}
