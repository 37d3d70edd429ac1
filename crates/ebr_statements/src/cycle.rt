//! Statements, their rows, the bodies of their triggers, and the statements of these.

ghost use Rattle.std.specs.Prelude.{◌≡◌, [], ◌∷◌, ◌++◌, true, false, is_some, length, map, unwrap_or, OnOk, OnErr, IfOk};
ghost use Rattle.std.specs.Prelude.{List as Sequence};
ghost use Rattle.std.specs.List.{list_any};
ghost use Rattle.ebr_asks.specs.declared.answer.Answer as answers;
ghost use Rattle.ebr_ast.specs.Views.{IsInOrder};
ghost use Rattle.ebr_cross.specs.Catalogue.{View};
ghost use Rattle.ebr_database.specs.Shows.{Shows, Tells, base_of};
ghost use Rattle.ebr_database.specs.Storable.{AllStorable};
ghost use Rattle.ebr_dml.specs.Steps as steps;
ghost use Rattle.ebr_dml.specs.declared.taken.Taken.{Taken};
ghost use Rattle.ebr_exec.specs.Narrow.{IsNarrow};
ghost use Rattle.ebr_exec.specs.Places.{Names, Place, Under as Changing, is_changing, names_of};
ghost use Rattle.ebr_levels.specs.Keeps.{UnderChange};
ghost use Rattle.ebr_levels.specs.Levels.{GoesBack, Leaves};
ghost use Rattle.ebr_machine.specs.Has.{new_row_of, standing_of_end};
ghost use Rattle.ebr_run.specs.Run.{Seen};
ghost use Rattle.ebr_tx.specs.Data.{own};
ghost use Rattle.ebr_sqlcheck.specs.Checked.{right};
ghost use Rattle.ebr_sqlcheck.specs.Statements.{checked_with};
ghost use Rattle.ebr_units.specs.Living.{ForBooks};
ghost use Rattle.ebr_units.specs.Served.{served};
ghost use Rattle.ebr_bodies.specs.Bodies as bodies_spec;
ghost use Rattle.ebr_bodies.specs.Rows as rows_spec;
ghost use Rattle.ebr_bodies.specs.Statements as spec;
ghost use Rattle.ebr_statements.specs.inside.Answered as said;
ghost use Rattle.ebr_statements.specs.Fits.{Fits, Remains, ForViews, IsAsBefore};
ghost use Rattle.ebr_statements.specs.inside.Fits.{Covers, FitsOpen, HasTables, HaveTables, RemainsOpen, Spares, under_by};
ghost use Rattle.ebr_statements.specs.inside.Held.{AreServed, IsServed, ready_of};
ghost use Rattle.ebr_statements.specs.inside.Sites.{Ends, HasPassed, IsBegun, IsBetween, doing_at, site_at, work_at};
ghost use Rattle.ebr_statements.specs.inside.Views.{place_at};

use crate::asks::{refused, transact};
use crate::course::{Course, begun, new_row};
use crate::held::without;
use crate::levels::{above, close};
use crate::query::run_query;
use crate::ready::Ready;
use crate::site::{Site, Under};
use crate::start::{Work, started};
use crate::tables::{is_mutating, tables_of, with_tables};
use crate::tally::{Tally, small};
use ebr_asks::{Answer, Ask};
use ebr_ast::{EditionView, Op, Origin, SqlTree};
use ebr_base::{Code, List, NoMemory, Stop, TableId, TxId, Value};
use ebr_cross::Catalogue;
use ebr_database::{Failure, Halt};
use ebr_dml::{Dml, DmlStep};
use ebr_machine::{End, Next};
use ebr_record::Keep;
use ebr_sqlcheck::check_sql;
use ebr_tx::Transactions;
use ebr_units::Units;
use std::alloc::Global;

fn failure(stop: Stop) -> Failure
    ensures { result ≡ said.as_failure stop }
{
    match stop {
        Stop::Raised(code) => Failure::Refused(code),
        Stop::NoMemory => Failure::Halted(Halt::NoMemory),
    }
}

/// The answer that refuses a statement before it begins.
fn refusal(alloc: Global, stop: Stop) -> Result<Answer, Halt>
    ensures { result ≡ said.as_refusal stop }
{
    match stop {
        Stop::Raised(code) => Ok(refused(alloc, code)),
        Stop::NoMemory => Err(Halt::NoMemory),
    }
}

/// The checks of a statement and ORA-04091, and the tables that it reads or writes.
fn name_tests(
    alloc: Global,
    v: &EditionView,
    t: TxId,
    changing: &[Under],
    s: &SqlTree,
    binds: &[Value],
) -> Result<List<TableId>, Stop>
    requires { IsInOrder v.now }
    ensures answer { (names : Names) (p : Place) → names.view p.edition ≡ v.now → p.tx ≡ t → p.changing ≡ changing.now → said.Tests result (spec.name_tests names p s.now binds.now) }
    ensures tables { IfOk result (λ tables. tables ≡ spec.tables_of v.now s.now) }
    ensures checked { OnOk result (checked_with v.now binds.now s.now ≡ right) }
    ensures free { IfOk result (λ tables. list_any (is_changing t tables) changing.now ≡ false) }
{
    check_sql(alloc, v, s, binds)?;
    let tables = tables_of(alloc, v, s)?;
    if is_mutating(t, changing, tables.as_slice()) {
        return Err(Stop::Raised(Code::Ora(4091)));
    }
    Ok(tables)
}

/// A step of the rows of a statement.
fn step(
    rows: &mut Dml,
    tx: &mut Transactions,
    after: Option<List<Value>>,
) -> Result<DmlStep, Failure>
    requires can { steps.CanStep tx.old.contents rows.old }
    requires narrow { IsNarrow rows.old.plan.table }
    requires storable { AllStorable tx.old.contents }
    requires after { rows.old.begun ≡ true → length (unwrap_or after []) ≡ length rows.old.plan.table.columns }
    ensures stepped { said.Steps result rows.new tx.new.contents (steps.stepped rows.old tx.old.contents after) }
    ensures unchanged { OnErr result (tx.new.contents ≡ tx.old.contents) }
    ensures can { OnOk result (steps.CanStep tx.new.contents rows.new) }
    ensures leaves { (under : UnderChange) → under rows.old.tx rows.old.plan.table.id ≡ false → Leaves tx.old.contents rows.old.tx under tx.new.contents }
    ensures storable { AllStorable tx.new.contents }
{
    match rows.step(tx, after) {
        Ok(step) => Ok(step),
        Err(stop) => Err(failure(stop)),
    }
}

/// What a body leaves, which has ended so.
fn ended(
    alloc: Global,
    tally: &mut Tally,
    course: &Course,
    op: Op,
    r: &Ready,
    new: List<Value>,
    end: End,
) -> Result<List<Value>, Failure>
    ensures columns { IfOk result (λ row. length row ≡ length new) }
    ensures end { said.IsEnd result (bodies_spec.ended_by (standing_of_end end) (bodies_spec.row_left op (ready_of r.now) new (new_row_of course.now.machine))) }
    ensures counts { said.Counts result course.now.machine tally.old tally.new }
{
    tally.count(alloc, &course.machine)?;
    match end {
        End::Returned => Ok(new_row(alloc, course, op, r, new)?),
        End::Raised(code) => Err(Failure::Refused(code)),
    }
}

/// What a body leaves, however its asks have ended.
fn finished(
    alloc: Global,
    tally: &mut Tally,
    course: &Course,
    op: Op,
    r: &Ready,
    new: List<Value>,
    end: Result<End, Halt>,
) -> Result<List<Value>, Failure>
    ensures columns { IfOk result (λ row. length row ≡ length new) }
    ensures finished { said.Finishes end result course.now.machine op (ready_of r.now) new tally.old tally.new }
{
    match end {
        Ok(end) => ended(alloc, tally, course, op, r, new, end),
        Err(why) => Err(Failure::Halted(why)),
    }
}

/// The answer that refuses a change, with what its bodies have done.
fn refused_change(failure: Failure, tally: Tally) -> Result<Answer, Halt>
    ensures { result ≡ said.as_refused failure tally }
{
    match failure {
        Failure::Refused(code) => Ok(Answer::Refused {
            code,
            steps: tally.steps,
            lines: tally.lines,
        }),
        Failure::Halted(why) => Err(why),
    }
}

fn site_of(
    alloc: Global,
    t: TxId,
    changing: &List<Under>,
    tables: &[TableId],
    left: u32,
    levels: u32,
) -> Result<Site, NoMemory>
    ensures { IfOk result (λ w. w ≡ record { t = t; changing = changing.now ++ map (spec.under t) tables.now; left = left; levels = levels }) }
{
    Ok(Site {
        t,
        changing: with_tables(alloc, changing.as_slice(), t, tables)?,
        left,
        levels,
    })
}

/// Answers an ask of a body, above whose statement's transaction so many autonomous ones are open.
#[cycle(statement)]
fn serve<K: Keep>(
    alloc: Global,
    c: &Catalogue,
    units: &mut Units,
    tx: &mut Transactions,
    keeper: &mut K,
    site: &Site,
    r: &Ready,
    opened: &mut u32,
    room: usize,
    ask: &Ask,
) -> Result<Answer, Halt>
    requires fit { FitsOpen c.now units.old tx.old.contents (under_by site.now.changing) site.now.t opened.old }
    requires tables { HasTables c.now r.now }
    ensures exact { ForBooks c.now units.old (λ lists. IsServed (View lists) r.now
        → Tells (bodies_spec.serve (site_at (names_of lists) site.now) (ready_of r.now) room ask.now (base_of tx.old.contents (K.as_keeper keeper.old)))
        (base_of tx.new.contents (K.as_keeper keeper.new)) (K.as_keeper keeper.old) (K.as_keeper keeper.new) result) }
    ensures remains { RemainsOpen c.now site.now.t (under_by site.now.changing) opened.old units.old tx.old.contents opened.new units.new tx.new.contents }
{
    match ask {
        Ask::Sql { stmt, binds, left } => {
            let room = small(room)?;
            let t = above(site.t, *opened)?;
            statement(
                alloc,
                c,
                units,
                tx,
                keeper,
                r.book.get().view().get(),
                r.origin,
                t,
                &site.changing,
                stmt.get(),
                binds.get().as_slice(),
                *left,
                room,
                site.levels,
            )
        }
        _ => transact(alloc, tx, keeper, site.t, opened, ask),
    }
}

/// Runs a body to its end, and answers what it asks.
#[cycle(statement)]
fn asks<K: Keep>(
    alloc: Global,
    c: &Catalogue,
    units: &mut Units,
    tx: &mut Transactions,
    keeper: &mut K,
    site: &Site,
    r: &Ready,
    course: &mut Course,
    opened: &mut u32,
) -> Result<End, Halt>
    requires fit { FitsOpen c.now units.old tx.old.contents (under_by site.now.changing) site.now.t opened.old }
    requires tables { HasTables c.now r.now }
    ensures exact { ForBooks c.now units.old (λ lists. (run : Sequence answers.Answer → Seen) → IsServed (View lists) r.now
        → IsBegun (served r.now.book) run course.old
        → Ends (bodies_spec.served bodies_spec.max_asks (site_at (names_of lists) site.now) (ready_of r.now) run [] (base_of tx.old.contents (K.as_keeper keeper.old)))
        (base_of tx.new.contents (K.as_keeper keeper.new)) (K.as_keeper keeper.old) (K.as_keeper keeper.new) course.new result) }
    ensures remains { RemainsOpen c.now site.now.t (under_by site.now.changing) opened.old units.old tx.old.contents opened.new units.new tx.new.contents }
{
    'asks: for _ask in 0..u64::MAX {
        match course
            .machine
            .advance(alloc, r.book.get(), &mut course.packages, course.left)?
        {
            Next::Ask(ask) => {
                let served = serve(
                    alloc,
                    c,
                    units,
                    tx,
                    keeper,
                    site,
                    r,
                    opened,
                    course.machine.room(),
                    &ask,
                );
                let answer = without(ask, served)?;
                course.machine.take(answer);
            }
            Next::Done(end) => return Ok(end),
        }
    }
    Err(Halt::NoMemory)
}

/// Runs a body. The autonomous transactions that it leaves open are closed.
#[cycle(statement)]
fn body<K: Keep>(
    alloc: Global,
    c: &Catalogue,
    units: &mut Units,
    tx: &mut Transactions,
    keeper: &mut K,
    site: &Site,
    tally: &mut Tally,
    op: Op,
    r: &Ready,
    old: &[Value],
    new: List<Value>,
) -> Result<List<Value>, Failure>
    requires fit { Fits c.now units.old tx.old.contents site.now.t }
    requires tables { HasTables c.now r.now }
    ensures exact { ForBooks c.now units.old (λ lists. IsServed (View lists) r.now
        → Shows (bodies_spec.body (site_at (names_of lists) site.now) op (ready_of r.now) old.now new (doing_at tx.old.contents (K.as_keeper keeper.old) tally.old))
        (doing_at tx.new.contents (K.as_keeper keeper.new) tally.new) (K.as_keeper keeper.old) (K.as_keeper keeper.new) result) }
    ensures columns { IfOk result (λ row. length row ≡ length new) }
    ensures remains { Remains c.now site.now.t (under_by site.now.changing) units.old tx.old.contents units.new tx.new.contents }
{
    let mut course = begun(alloc, site.left, tally, r, op, old, new.as_slice())?;
    let mut opened = 0;
    let end = asks(
        alloc,
        c,
        units,
        tx,
        keeper,
        site,
        r,
        &mut course,
        &mut opened,
    );
    close(tx, site.t, opened);
    let made = finished(alloc, tally, &course, op, r, new, end);
    without(course, made)
}

/// Runs bodies one after the other, each with the new row that the one before left.
#[cycle(statement)]
fn bodies<K: Keep>(
    alloc: Global,
    c: &Catalogue,
    units: &mut Units,
    tx: &mut Transactions,
    keeper: &mut K,
    site: &Site,
    tally: &mut Tally,
    op: Op,
    triggers: &[Ready],
    old: &[Value],
    new: List<Value>,
) -> Result<List<Value>, Failure>
    requires fit { Fits c.now units.old tx.old.contents site.now.t }
    requires tables { HaveTables c.now triggers.now }
    ensures exact { ForBooks c.now units.old (λ lists. AreServed (View lists) triggers.now
        → Shows (bodies_spec.bodies (site_at (names_of lists) site.now) op (map ready_of triggers.now) old.now new (doing_at tx.old.contents (K.as_keeper keeper.old) tally.old))
        (doing_at tx.new.contents (K.as_keeper keeper.new) tally.new) (K.as_keeper keeper.old) (K.as_keeper keeper.new) result) }
    ensures columns { IfOk result (λ row. length row ≡ length new) }
    ensures remains { Remains c.now site.now.t (under_by site.now.changing) units.old tx.old.contents units.new tx.new.contents }
{
    let mut new = new;
    'bodies: for r in triggers {
        new = body(alloc, c, units, tx, keeper, site, tally, op, r, old, new)?;
    }
    Ok(new)
}

/// Changes a row, with what its BEFORE triggers left, and runs its AFTER triggers.
#[cycle(statement)]
fn write_row<K: Keep>(
    alloc: Global,
    c: &Catalogue,
    units: &mut Units,
    tx: &mut Transactions,
    keeper: &mut K,
    site: &Site,
    tally: &mut Tally,
    work: &Work,
    rows: &mut Dml,
    new: List<Value>,
) -> Result<List<Value>, Failure>
    requires fit { Fits c.now units.old tx.old.contents site.now.t }
    requires tables { HaveTables c.now work.now.after }
    requires can { steps.CanStep tx.old.contents rows.old }
    requires tx { rows.old.tx ≡ site.now.t }
    requires between { rows.old.begun ≡ true }
    requires columns { length new ≡ length rows.old.plan.table.columns }
    requires narrow { IsNarrow rows.old.plan.table }
    requires covers { under_by site.now.changing site.now.t rows.old.plan.table.id ≡ true }
    ensures exact { ForBooks c.now units.old (λ lists. (r : Taken) (rest : Sequence Taken) → IsBetween rows.old r rest → AreServed (View lists) work.now.after
        → Shows (rows_spec.changed (site_at (names_of lists) site.now) (work_at rows.old work.now) r new (doing_at tx.old.contents (K.as_keeper keeper.old) tally.old))
        (doing_at tx.new.contents (K.as_keeper keeper.new) tally.new) (K.as_keeper keeper.old) (K.as_keeper keeper.new) result) }
    ensures passed { (r : Taken) (rest : Sequence Taken) → IsBetween rows.old r rest → OnOk result (HasPassed rows.old rest rows.new) }
    ensures can { OnOk result (steps.CanStep tx.new.contents rows.new) }
    ensures remains { (under : UnderChange) → Spares under site.now.t site.now.changing (rows.old.plan.table.id ∷ []) → Remains c.now site.now.t under units.old tx.old.contents units.new tx.new.contents }
{
    match step(rows, tx, Some(new))? {
        DmlStep::Before { new, .. } => Ok(new),
        DmlStep::After { old, new } => bodies(
            alloc,
            c,
            units,
            tx,
            keeper,
            site,
            tally,
            work.operation,
            work.after.as_slice(),
            old.as_slice(),
            new,
        ),
        DmlStep::Finished(_) => Ok(List::new(alloc)),
    }
}

/// Changes the rows of a statement, one after the other, and tells how many they are.
#[cycle(statement)]
fn rows<K: Keep>(
    alloc: Global,
    c: &Catalogue,
    units: &mut Units,
    tx: &mut Transactions,
    keeper: &mut K,
    site: &Site,
    tally: &mut Tally,
    work: &Work,
    left: &mut Dml,
) -> Result<u64, Failure>
    requires fit { Fits c.now units.old tx.old.contents site.now.t }
    requires before { HaveTables c.now work.now.before }
    requires after { HaveTables c.now work.now.after }
    requires can { steps.CanStep tx.old.contents left.old }
    requires tx { left.old.tx ≡ site.now.t }
    requires between { left.old.begun ≡ false }
    requires count { left.old.count ≡ 0 }
    requires narrow { IsNarrow left.old.plan.table }
    requires covers { under_by site.now.changing site.now.t left.old.plan.table.id ≡ true }
    ensures exact { ForBooks c.now units.old (λ lists. AreServed (View lists) work.now.before → AreServed (View lists) work.now.after
        → Shows (rows_spec.rows_of (site_at (names_of lists) site.now) (work_at left.old work.now) left.old.rest (doing_at tx.old.contents (K.as_keeper keeper.old) tally.old))
        (doing_at tx.new.contents (K.as_keeper keeper.new) tally.new) (K.as_keeper keeper.old) (K.as_keeper keeper.new) result) }
    ensures remains { (under : UnderChange) → Spares under site.now.t site.now.changing (left.old.plan.table.id ∷ []) → Remains c.now site.now.t under units.old tx.old.contents units.new tx.new.contents }
{
    'rows: for _row in 0..u64::MAX {
        match step(left, tx, None)? {
            DmlStep::Before { old, new } => {
                let new = bodies(
                    alloc,
                    c,
                    units,
                    tx,
                    keeper,
                    site,
                    tally,
                    work.operation,
                    work.before.as_slice(),
                    old.as_slice(),
                    new,
                )?;
                write_row(alloc, c, units, tx, keeper, site, tally, work, left, new)?;
            }
            // No row is between its triggers, so that this never comes.
            DmlStep::After {
                old: _old,
                new: _new,
            } => return Err(Failure::Halted(Halt::NoMemory)),
            DmlStep::Finished(count) => return Ok(count),
        }
    }
    Err(Failure::Halted(Halt::NoMemory))
}

/// A change in a transaction that has begun: it starts, and changes its rows.
#[cycle(statement)]
fn changed<K: Keep>(
    alloc: Global,
    c: &Catalogue,
    units: &mut Units,
    tx: &mut Transactions,
    keeper: &mut K,
    v: &EditionView,
    origin: Origin,
    site: &Site,
    s: &SqlTree,
    binds: &[Value],
    tally: &mut Tally,
) -> Result<u64, Failure>
    requires order { IsInOrder v.now }
    requires tables { v.now.tables ≡ c.now.tables.living }
    requires fit { Fits c.now units.old tx.old.contents site.now.t }
    requires begun { is_some (own tx.old.contents site.now.t).begun ≡ true }
    requires covers { Covers site.now.changing site.now.t (spec.tables_of v.now s.now) }
    ensures exact { ForViews c.now units.old v.now (λ lists. (changing : Sequence Changing) → site.now.changing ≡ changing ++ map (spec.under site.now.t) (spec.tables_of v.now s.now)
        → Shows (spec.begun_ran (spec.Stmt (names_of lists) site.now.levels) (names_of lists) (place_at v.now.edition origin site.now.t changing) s.now binds.now site.now.left (doing_at tx.old.contents (K.as_keeper keeper.old) tally.old))
        (doing_at tx.new.contents (K.as_keeper keeper.new) tally.new) (K.as_keeper keeper.old) (K.as_keeper keeper.new) result) }
    ensures remains { (under : UnderChange) → Spares under site.now.t site.now.changing (spec.tables_of v.now s.now) → Remains c.now site.now.t under units.old tx.old.contents units.new tx.new.contents }
{
    match started(alloc, c, units, tx, v, origin, site.t, s, binds) {
        Ok(begun) => {
            let mut begun = begun;
            rows(
                alloc,
                c,
                units,
                tx,
                keeper,
                site,
                tally,
                &begun.work,
                &mut begun.rows,
            )
        }
        Err(stop) => Err(failure(stop)),
    }
}

/// A change that has passed its tests of names. Where it is refused or gives up, its transaction is as before.
#[cycle(statement)]
fn change<K: Keep>(
    alloc: Global,
    c: &Catalogue,
    units: &mut Units,
    tx: &mut Transactions,
    keeper: &mut K,
    v: &EditionView,
    origin: Origin,
    site: &Site,
    s: &SqlTree,
    binds: &[Value],
    room: u32,
) -> Result<Answer, Halt>
    requires order { IsInOrder v.now }
    requires tables { v.now.tables ≡ c.now.tables.living }
    requires fit { Fits c.now units.old tx.old.contents site.now.t }
    requires covers { Covers site.now.changing site.now.t (spec.tables_of v.now s.now) }
    ensures exact { ForViews c.now units.old v.now (λ lists. (changing : Sequence Changing) → site.now.changing ≡ changing ++ map (spec.under site.now.t) (spec.tables_of v.now s.now)
        → Tells (spec.change_ran (spec.Stmt (names_of lists) site.now.levels) (names_of lists) (place_at v.now.edition origin site.now.t changing) s.now binds.now site.now.left room (base_of tx.old.contents (K.as_keeper keeper.old)))
        (base_of tx.new.contents (K.as_keeper keeper.new)) (K.as_keeper keeper.old) (K.as_keeper keeper.new) result) }
    ensures remains { (under : UnderChange) → Spares under site.now.t site.now.changing (spec.tables_of v.now s.now) → Remains c.now site.now.t under units.old tx.old.contents units.new tx.new.contents }
    ensures as_before { OnErr result (GoesBack tx.old.contents site.now.t tx.new.contents) }
{
    let mark = tx.mark(site.t)?;
    tx.begin(site.t);
    let mut tally = Tally::new(alloc, room);
    match changed(
        alloc, c, units, tx, keeper, v, origin, site, s, binds, &mut tally,
    ) {
        Ok(n) => Ok(Answer::Count {
            n,
            steps: tally.steps,
            lines: tally.lines,
        }),
        Err(failure) => {
            tx.back_to_mark(site.t, mark);
            refused_change(failure, tally)
        }
    }
}

/// A statement that has passed its tests of names, by which these are its tables.
#[cycle(statement)]
fn tested<K: Keep>(
    alloc: Global,
    c: &Catalogue,
    units: &mut Units,
    tx: &mut Transactions,
    keeper: &mut K,
    v: &EditionView,
    origin: Origin,
    t: TxId,
    changing: &List<Under>,
    tables: &[TableId],
    s: &SqlTree,
    binds: &[Value],
    left: u32,
    room: u32,
    levels: u32,
) -> Result<Answer, Halt>
    requires order { IsInOrder v.now }
    requires living { v.now.tables ≡ c.now.tables.living }
    requires fit { Fits c.now units.old tx.old.contents t }
    requires checked { checked_with v.now binds.now s.now ≡ right }
    requires tables { tables.now ≡ spec.tables_of v.now s.now }
    requires free { list_any (is_changing t tables.now) changing.now ≡ false }
    ensures exact { ForViews c.now units.old v.now (λ lists.
        Tells (spec.checked_ran (spec.Stmt (names_of lists) levels) (names_of lists) (place_at v.now.edition origin t changing.now) s.now binds.now left room (base_of tx.old.contents (K.as_keeper keeper.old)))
        (base_of tx.new.contents (K.as_keeper keeper.new)) (K.as_keeper keeper.old) (K.as_keeper keeper.new) result) }
    ensures remains { Remains c.now t (under_by changing.now) units.old tx.old.contents units.new tx.new.contents }
    ensures as_before { OnErr result (IsAsBefore s.now t tx.old.contents tx.new.contents keeper.old keeper.new) }
{
    match s {
        SqlTree::Query(query) => {
            let ran = run_query(
                alloc,
                tx,
                t,
                v,
                query.get(),
                binds,
                changing.as_slice(),
                room,
            );
            match ran {
                Ok(answer) => Ok(answer),
                Err(stop) => refusal(alloc, stop),
            }
        }
        _ => {
            let site = site_of(alloc, t, changing, tables, left, levels)?;
            change(
                alloc, c, units, tx, keeper, v, origin, &site, s, binds, room,
            )
        }
    }
}

/// Runs a statement, with so many levels left.
#[cycle(statement)]
pub fn statement<K: Keep>(
    alloc: Global,
    c: &Catalogue,
    units: &mut Units,
    tx: &mut Transactions,
    keeper: &mut K,
    v: &EditionView,
    origin: Origin,
    t: TxId,
    changing: &List<Under>,
    s: &SqlTree,
    binds: &[Value],
    left: u32,
    room: u32,
    levels: u32,
) -> Result<Answer, Halt>
    requires order { IsInOrder v.now }
    requires tables { v.now.tables ≡ c.now.tables.living }
    requires fit { Fits c.now units.old tx.old.contents t }
    ensures exact { ForViews c.now units.old v.now (λ lists.
        Tells (spec.Stmt (names_of lists) levels (place_at v.now.edition origin t changing.now) s.now binds.now left room (base_of tx.old.contents (K.as_keeper keeper.old)))
        (base_of tx.new.contents (K.as_keeper keeper.new)) (K.as_keeper keeper.old) (K.as_keeper keeper.new) result) }
    ensures remains { Remains c.now t (under_by changing.now) units.old tx.old.contents units.new tx.new.contents }
    ensures as_before { OnErr result (IsAsBefore s.now t tx.old.contents tx.new.contents keeper.old keeper.new) }
{
    if levels == 0 {
        return Ok(refused(alloc, Code::Ora(36)));
    }
    match name_tests(alloc, v, t, changing.as_slice(), s, binds) {
        Ok(tables) => tested(
            alloc,
            c,
            units,
            tx,
            keeper,
            v,
            origin,
            t,
            changing,
            tables.as_slice(),
            s,
            binds,
            left,
            room,
            levels - 1,
        ),
        Err(stop) => refusal(alloc, stop),
    }
}
