//! The triggers that a statement fires, and what their bodies run with.

ghost use Rattle.std.specs.Prelude.{◌≡◌, IfOk, Some, option_map};
ghost use Rattle.std.specs.List.{list_any};
ghost use Rattle.std.specs.Option.{option_copied};
ghost use Rattle.std.specs.Prelude.{List as Sequence};
ghost use Rattle.ebr_ast.specs.Views.{IsInOrder};
ghost use Rattle.ebr_ast.specs.Views as views;
ghost use Rattle.ebr_ast.specs.declared.unit.Direction.TheVariants as direction;
ghost use Rattle.ebr_validity.specs.Units.{row_columns as columns_behind, columns_or_none};
ghost use Rattle.ebr_ast.specs.declared.view.EditionView.{EditionView as Sees};
ghost use Rattle.ebr_base.specs.declared.numbers.EditionNo.{EditionNo as Edition};
ghost use Rattle.ebr_cross.specs.Catalogue.{Lists, View, as_catalogue};
ghost use Rattle.ebr_exprtree.specs.declared.op.Op.TheVariants as op;
ghost use Rattle.ebr_code.specs.Units.{unit_code};
ghost use Rattle.ebr_run.specs.Units.{valid_unit};
ghost use Rattle.ebr_dml.specs.Plans as plans;
ghost use Rattle.ebr_exec.specs.Places.{Under as Changing, names_of};
ghost use Rattle.ebr_fire.specs.Fires as fired;
ghost use Rattle.ebr_units.specs.Living.{AreCurrent, ForBooks};
ghost use Rattle.ebr_bodies.specs.Ready as spec;
ghost use Rattle.ebr_bodies.specs.Statements as statements;
ghost use Rattle.ebr_statements.specs.inside.Held.{GiveReady, GivesReady, IsMadeOf};
ghost use Rattle.ebr_statements.specs.inside.Fits.{HasTables, HaveTables};
ghost use Rattle.ebr_statements.specs.Fits.{ForViews, IsCurrent};
ghost use Rattle.ebr_statements.specs.inside.Views.{place_at};

use ebr_ast::{Direction, EditionView, Object, Op, Origin, SqlTree, Timing, Trigger, UnitTree};
use ebr_base::{Class, CloneIn, Code, EditionNo, List, Name, NoMemory, Shared, Stop, TxId};
use ebr_check::row_columns;
use ebr_code::{CodeBook, Unit};
use ebr_cross::{Catalogue, view_of};
use ebr_fire::{Firing, fires};
use ebr_names::{ViewColumn, object, shared_object};
use ebr_scope::Seen;
use ebr_units::{Book, Units};
use std::alloc::Global;

/// An invalid trigger.
const INVALID: Stop = Stop::Raised(Code::Ora(4098));

/// A trigger whose body can run: in which edition, with its book and its code; where its statements come from; the places in the
/// table's rows of the columns that it knows, in their order.
#[derive(Drop)]
pub struct Ready {
    pub edition: EditionNo,
    pub book: Shared<Book>,
    pub unit: Shared<Unit>,
    pub object: Shared<Object>,
    pub origin: Origin,
    pub places: List<u16>,
}

/// The book of an edition, be it living or not.
fn book_in(
    alloc: Global,
    c: &Catalogue,
    units: &mut Units,
    e: EditionNo,
) -> Result<Shared<Book>, NoMemory>
    requires { IsCurrent c.now units.old }
    ensures book { ForBooks c.now units.old (λ lists. IfOk result (λ book. book ≡ View lists e)) }
    ensures tables { IfOk result (λ book. book.tables ≡ c.now.tables.living) }
    ensures current { ForBooks c.now units.old (λ lists. AreCurrent lists units.new) }
{
    match units.book(alloc, c, e)? {
        Some(book) => Ok(book),
        None => new_book(alloc, c, units, e),
    }
}

/// The book of an edition that doesn't live.
fn new_book(
    alloc: Global,
    c: &Catalogue,
    units: &mut Units,
    e: EditionNo,
) -> Result<Shared<Book>, NoMemory>
    requires { IsCurrent c.now units.old }
    ensures book { ForBooks c.now units.old (λ lists. IfOk result (λ book. book ≡ View lists e)) }
    ensures tables { IfOk result (λ book. book.tables ≡ c.now.tables.living) }
    ensures current { ForBooks c.now units.old (λ lists. AreCurrent lists units.new) }
{
    let seen = Shared::new(alloc, view_of(c, alloc, e)?)?;
    units.book_of(alloc, &seen)
}

fn origin_of(crossedition: Option<Direction>) -> Origin
    ensures { result ≡ spec.origin_of crossedition }
{
    match crossedition {
        None => Origin::Plain,
        Some(Direction::Forward) => Origin::Forward,
        Some(Direction::Reverse) => Origin::Reverse,
    }
}

/// The places of the columns that a trigger's body knows; none where there is no such table or view.
fn places_of(alloc: Global, v: &EditionView, it: &Trigger) -> Result<List<u16>, NoMemory>
    requires { IsInOrder v.now }
    ensures { IfOk result (λ places. places ≡ plans.places_of (columns_or_none (columns_behind v.now it.now it.now.crossedition))) }
{
    match row_columns(alloc, it, &Seen::new(v)) {
        Ok(columns) => places(alloc, columns.as_slice()),
        Err(Stop::Raised(_)) => Ok(List::new(alloc)),
        Err(Stop::NoMemory) => Err(NoMemory),
    }
}

fn places(alloc: Global, columns: &[ViewColumn]) -> Result<List<u16>, NoMemory>
    ensures { IfOk result (λ places. places ≡ plans.places_of columns.now) }
{
    let mut places = List::new(alloc);
    for column in columns {
        places.push(column.place)?;
    }
    Ok(places)
}

/// The origin of a body's statements, and the places of its columns: ORA-04098 where the tree is no trigger's.
fn body_of(alloc: Global, v: &EditionView, tree: &UnitTree) -> Result<(Origin, List<u16>), Stop>
    requires { IsInOrder v.now }
    ensures { (e : Edition) → IsMadeOf v.now e tree.now result }
{
    match tree {
        UnitTree::Trigger(trigger) => Ok((
            origin_of(trigger.get().crossedition),
            places_of(alloc, v, trigger.get())?,
        )),
        _ => Err(INVALID),
    }
}

/// A trigger that fires: ORA-04098 where it is invalid in the edition in which its body would run.
fn ready_for(alloc: Global, c: &Catalogue, units: &mut Units, f: &Firing) -> Result<Ready, Stop>
    requires { IsCurrent c.now units.old }
    ensures ready { ForBooks c.now units.old (λ lists. GivesReady (View lists) result (spec.ready_for (names_of lists) f.now)) }
    ensures tables { IfOk result (λ r. HasTables c.now r) }
    ensures current { ForBooks c.now units.old (λ lists. AreCurrent lists units.new) }
{
    let book = book_in(alloc, c, units, f.edition)?;
    ready_in(alloc, book, f)
}

/// The same, in the book of that edition.
fn ready_in(alloc: Global, book: Shared<Book>, f: &Firing) -> Result<Ready, Stop>
    ensures tables { IfOk result (λ r. r.book ≡ book) }
    ensures ready { (view : Edition → Sees) → book ≡ view f.now.edition → GivesReady view result (spec.ready_unit book f.now.edition (valid_unit book f.now.key)) }
{
    let unit = match unit_of(&book, f) {
        Some(unit) => unit.clone_in(alloc)?,
        None => return Err(INVALID),
    };
    let object = match object_of(&book, f) {
        Some(object) => object.clone_in(alloc)?,
        None => return Err(INVALID),
    };
    let (origin, places) = made_of(alloc, &book, &object)?;
    Ok(Ready {
        edition: f.edition,
        book,
        unit,
        object,
        origin,
        places,
    })
}

/// The code of a trigger, where it is valid in the edition of this book.
fn unit_of<'a>(book: &'a Shared<Book>, f: &Firing) -> Option<&'a Shared<Unit>>
    ensures { option_copied result ≡ option_map (unit_code book.now) (valid_unit book.now f.now.key) }
{
    book.get().unit(f.edition, f.key.class, &f.key.name)
}

/// The trigger, where the edition of this book sees it.
fn object_of<'a>(book: &'a Shared<Book>, f: &Firing) -> Option<&'a Shared<Object>>
    ensures { option_copied result ≡ views.object_of f.now.key book.now.objects }
{
    shared_object(book.get().view().get(), f.key.class, &f.key.name)
}

/// The origin of a body's statements, and the places of its columns, by what the edition of this book sees.
fn made_of(
    alloc: Global,
    book: &Shared<Book>,
    object: &Shared<Object>,
) -> Result<(Origin, List<u16>), Stop>
    ensures { (e : Edition) → IsMadeOf book.now e object.now.tree result }
{
    body_of(alloc, book.get().view().get(), &object.get().tree)
}

fn all_ready(
    alloc: Global,
    c: &Catalogue,
    units: &mut Units,
    firings: &[Firing],
) -> Result<List<Ready>, Stop>
    requires { IsCurrent c.now units.old }
    ensures ready { ForBooks c.now units.old (λ lists. GiveReady (View lists) result (spec.all_ready (names_of lists) firings.now)) }
    ensures tables { IfOk result (λ all. HaveTables c.now all) }
    ensures current { ForBooks c.now units.old (λ lists. AreCurrent lists units.new) }
{
    let mut all = List::new(alloc);
    for f in firings {
        all.push(ready_for(alloc, c, units, f)?)?;
    }
    Ok(all)
}

// ---- APPLY TRIGGER

/// A forward crossedition trigger with UPDATE among its events.
fn is_applied(tree: &UnitTree) -> bool
    ensures { result ≡ spec.is_applied tree.now }
{
    match tree {
        UnitTree::Trigger(trigger) => {
            is_forward(trigger.get().crossedition) && has_update(trigger.get().events.as_slice())
        }
        _ => false,
    }
}

fn is_forward(crossedition: Option<Direction>) -> bool
    ensures { result ≡ fired.same_direction crossedition (Some direction.Forward) }
{
    matches!(crossedition, Some(Direction::Forward))
}

fn has_update(events: &[Op]) -> bool
    ensures { result ≡ list_any (fired.same_op op.Update) events.now }
{
    events.iter().any(|event| is_update(*event))
}

fn is_update(event: Op) -> bool
    ensures { result ≡ fired.same_op op.Update event }
{
    matches!(event, Op::Update)
}

/// The trigger that APPLY TRIGGER fires, where the edition sees it.
fn applied<'a>(v: &'a EditionView, name: &Name) -> Option<&'a Object>
    requires { IsInOrder v.now }
    ensures { option_copied result ≡ spec.applied v.now name.now }
{
    match object(v, Class::Trigger, name) {
        Some(object) => if_applied(object),
        None => None,
    }
}

fn if_applied(object: &Object) -> Option<&Object>
    ensures { option_copied result ≡ spec.if_applied object.now }
{
    if is_applied(&object.tree) {
        Some(object)
    } else {
        None
    }
}

/// Whether APPLY TRIGGER, where the statement is one, is of a forward crossedition trigger that is there.
pub fn is_appliable(v: &EditionView, s: &SqlTree) -> bool
    requires { IsInOrder v.now }
    ensures { result ≡ statements.is_appliable v.now s.now }
{
    match s {
        SqlTree::Apply(name) => match applied(v, name) {
            Some(_) => true,
            None => false,
        },
        _ => true,
    }
}

fn is_timed(at: Timing, tree: &UnitTree) -> bool
    ensures { result ≡ spec.is_timed at tree.now }
{
    match tree {
        UnitTree::Trigger(trigger) => same_timing(at, trigger.get().timing),
        _ => false,
    }
}

fn same_timing(a: Timing, b: Timing) -> bool
    ensures { result ≡ fired.same_timing a b }
{
    matches!(
        (a, b),
        (Timing::Before, Timing::Before) | (Timing::After, Timing::After)
    )
}

/// The trigger of APPLY TRIGGER, where it is of this timing. It runs in the edition in which it is actual.
fn alone(alloc: Global, at: Timing, object: Option<&Object>) -> Result<List<Firing>, NoMemory>
    ensures { IfOk result (λ firings. firings ≡ spec.alone at (option_copied object.entry)) }
{
    match object {
        Some(object) => alone_at(alloc, at, object),
        None => Ok(List::new(alloc)),
    }
}

fn alone_at(alloc: Global, at: Timing, object: &Object) -> Result<List<Firing>, NoMemory>
    ensures { IfOk result (λ firings. firings ≡ spec.alone at (Some object.now)) }
{
    let mut firings = List::new(alloc);
    if is_timed(at, &object.tree) {
        firings.push(Firing {
            key: object.key.clone_in(alloc)?,
            edition: object.stamp.edition,
        })?;
    }
    Ok(firings)
}

// ---- the triggers of a statement

/// The triggers that a statement fires, for one timing.
fn firings(
    alloc: Global,
    c: &Catalogue,
    v: &EditionView,
    origin: Origin,
    at: Timing,
    s: &SqlTree,
) -> Result<List<Firing>, NoMemory>
    requires { IsInOrder v.now }
    ensures { (lists : Lists) (t : TxId) (changing : Sequence Changing) → c.now ≡ as_catalogue lists → v.now ≡ View lists v.now.edition
        → IfOk result (λ firings. firings ≡ spec.firings (names_of lists) (place_at v.now.edition origin t changing) at s.now) }
{
    let e = v.edition;
    match s {
        SqlTree::Query(_) => Ok(List::new(alloc)),
        SqlTree::Insert(i) => fires(alloc, c, e, &i.get().table, Op::Insert, at, origin),
        SqlTree::Update(u) => fires(alloc, c, e, &u.get().table, Op::Update, at, origin),
        SqlTree::Delete(d) => fires(alloc, c, e, &d.get().table, Op::Delete, at, origin),
        SqlTree::Apply(name) => alone(alloc, at, applied(v, name)),
    }
}

/// The same, ready to run: ORA-04098 where one of them is invalid.
pub fn ready_at(
    alloc: Global,
    c: &Catalogue,
    units: &mut Units,
    v: &EditionView,
    origin: Origin,
    at: Timing,
    s: &SqlTree,
) -> Result<List<Ready>, Stop>
    requires order { IsInOrder v.now }
    requires kept { IsCurrent c.now units.old }
    ensures ready { ForViews c.now units.old v.now (λ lists. (t : TxId) (changing : Sequence Changing)
        → GiveReady (View lists) result (spec.ready_at (names_of lists) (place_at v.now.edition origin t changing) at s.now)) }
    ensures tables { IfOk result (λ all. HaveTables c.now all) }
    ensures current { ForBooks c.now units.old (λ lists. AreCurrent lists units.new) }
{
    let firings = firings(alloc, c, v, origin, at, s)?;
    all_ready(alloc, c, units, firings.as_slice())
}

/// What a statement does to rows, as the bodies of its triggers see it.
pub fn operation(s: &SqlTree) -> Op
    ensures { result ≡ spec.operation s.now }
{
    match s {
        SqlTree::Insert(_) => Op::Insert,
        SqlTree::Delete(_) => Op::Delete,
        _ => Op::Update,
    }
}
