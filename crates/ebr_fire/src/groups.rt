//! The groups of triggers that a change of rows fires.

ghost use Rattle.std.specs.Prelude.{◌≡◌, ◌++◌, IfOk, OnOk};
ghost use Rattle.std.specs.Option.{option_copied};
ghost use Rattle.ebr_cross.specs.Catalogue.{ForLists, visible};
ghost use Rattle.ebr_cross.specs.Kinds.{unit_key};
ghost use Rattle.ebr_fire.specs.Fires.{Crossing, Fires};
ghost use Rattle.ebr_fire.specs.Fires as spec;

use crate::actual::{add_above, add_below};
use crate::firing::Firing;
use crate::kind::Kind;
use crate::seen::add_seen;
use ebr_ast::{Direction, Object, Op, Origin, Timing, UnitTree};
use ebr_base::{Class, CloneIn, EditionNo, List, Name, NoMemory, ObjectKey, Shared};
use ebr_cross::Catalogue;
use std::alloc::Global;

/// A change of rows: the edition in which it is made, its operation, the timing that is asked for, and what makes it.
#[derive(Clone, Copy)]
struct Change {
    edition: EditionNo,
    op: Op,
    timing: Timing,
    origin: Origin,
}

/// What an INSERT, UPDATE or DELETE of a name fires in an edition, for one timing and from one origin, in the order of
/// firing: the triggers on the editioning view that it names, the ordinary ones on the table, the reverse crossedition ones,
/// the forward ones. Enabled triggers alone fire, be they valid or not.
///
/// Oracle Database Development Guide 19c, Crossedition Triggers; which of them fire, and the order, are own.
pub fn fires(
    alloc: Global,
    c: &Catalogue,
    e: EditionNo,
    named: &Name,
    op: Op,
    timing: Timing,
    origin: Origin,
) -> Result<List<Firing>, NoMemory>
    ensures { ForLists c.now (λ lists. IfOk result (λ firings. firings ≡ Fires lists e named.now op timing origin)) }
{
    let change = Change {
        edition: e,
        op,
        timing,
        origin,
    };
    let mut found = List::new(alloc);
    let object = unit_under(alloc, c, e, named)?;
    add_named(alloc, c, change, object, named, &mut found)?;
    Ok(found)
}

/// The crossedition triggers that a change of a table's rows fires in an edition, for one timing and from one origin, in
/// the order of firing: the reverse ones and then the forward ones.
pub fn crossing(
    alloc: Global,
    c: &Catalogue,
    e: EditionNo,
    table: &Name,
    op: Op,
    timing: Timing,
    origin: Origin,
) -> Result<List<Firing>, NoMemory>
    ensures { ForLists c.now (λ lists. IfOk result (λ firings. firings ≡ Crossing lists e table.now op timing origin)) }
{
    let change = Change {
        edition: e,
        op,
        timing,
        origin,
    };
    let mut found = List::new(alloc);
    add_crossing(alloc, c, change, table, &mut found)?;
    Ok(found)
}

/// The object of class Unit that an edition sees under a name.
fn unit_under<'a>(
    alloc: Global,
    c: &'a Catalogue,
    e: EditionNo,
    name: &Name,
) -> Result<Option<&'a Shared<Object>>, NoMemory>
    ensures { ForLists c.now (λ lists. IfOk result (λ object. option_copied object ≡ visible lists e (unit_key name.now))) }
{
    let key = ObjectKey {
        class: Class::Unit,
        name: name.clone_in(alloc)?,
    };
    Ok(c.visible(e, &key))
}

/// Adds what a change of a name fires, by the object that the edition sees under it.
fn add_named(
    alloc: Global,
    c: &Catalogue,
    change: Change,
    object: Option<&Shared<Object>>,
    named: &Name,
    found: &mut List<Firing>,
) -> Result<(), NoMemory>
    ensures { ForLists c.now (λ lists. OnOk result (found.new ≡ found.old ++ spec.on_name lists change.edition (option_copied object.entry) named.now change.op change.timing change.origin)) }
{
    match object {
        Some(object) => add_object(alloc, c, change, &object.get().tree, named, found),
        None => add_table(alloc, c, change, named, found),
    }
}

fn add_object(
    alloc: Global,
    c: &Catalogue,
    change: Change,
    tree: &UnitTree,
    named: &Name,
    found: &mut List<Firing>,
) -> Result<(), NoMemory>
    ensures { ForLists c.now (λ lists. OnOk result (found.new ≡ found.old ++ spec.on_object lists change.edition tree.now named.now change.op change.timing change.origin)) }
{
    match tree {
        UnitTree::View(view) => add_view(alloc, c, change, named, &view.get().table, found),
        _ => Ok(()),
    }
}

/// Adds what a change of an editioning view over a table fires.
fn add_view(
    alloc: Global,
    c: &Catalogue,
    change: Change,
    named: &Name,
    table: &Name,
    found: &mut List<Firing>,
) -> Result<(), NoMemory>
    ensures { ForLists c.now (λ lists. OnOk result (found.new ≡ found.old ++ (spec.ordinary_on lists change.edition named.now change.op change.timing change.origin ++ spec.on_table lists change.edition table.now change.op change.timing change.origin))) }
{
    add_ordinary(alloc, c, change, named, found)?;
    add_table(alloc, c, change, table, found)
}

/// Adds what a change of a table fires.
fn add_table(
    alloc: Global,
    c: &Catalogue,
    change: Change,
    table: &Name,
    found: &mut List<Firing>,
) -> Result<(), NoMemory>
    ensures { ForLists c.now (λ lists. OnOk result (found.new ≡ found.old ++ spec.on_table lists change.edition table.now change.op change.timing change.origin)) }
{
    add_ordinary_on_table(alloc, c, change, table, found)?;
    add_crossing(alloc, c, change, table, found)
}

/// Adds the ordinary triggers on a table: those whose name after ON means the table.
fn add_ordinary_on_table(
    alloc: Global,
    c: &Catalogue,
    change: Change,
    table: &Name,
    found: &mut List<Firing>,
) -> Result<(), NoMemory>
    ensures { ForLists c.now (λ lists. OnOk result (found.new ≡ found.old ++ spec.ordinary_on_table lists change.edition table.now change.op change.timing change.origin)) }
{
    if unit_under(alloc, c, change.edition, table)?.is_some() {
        return Ok(());
    }
    add_ordinary(alloc, c, change, table, found)
}

/// Adds the ordinary triggers on a name, which the body of a crossedition trigger doesn't fire.
fn add_ordinary(
    alloc: Global,
    c: &Catalogue,
    change: Change,
    on: &Name,
    found: &mut List<Firing>,
) -> Result<(), NoMemory>
    ensures { ForLists c.now (λ lists. OnOk result (found.new ≡ found.old ++ spec.ordinary_on lists change.edition on.now change.op change.timing change.origin)) }
{
    match change.origin {
        Origin::Plain => add_seen(alloc, c, change.edition, kind(change, None), on, found),
        Origin::Forward | Origin::Reverse => Ok(()),
    }
}

/// Adds the crossedition triggers on a table.
fn add_crossing(
    alloc: Global,
    c: &Catalogue,
    change: Change,
    table: &Name,
    found: &mut List<Firing>,
) -> Result<(), NoMemory>
    ensures { ForLists c.now (λ lists. OnOk result (found.new ≡ found.old ++ Crossing lists change.edition table.now change.op change.timing change.origin)) }
{
    let forward = kind(change, Some(Direction::Forward));
    let reverse = kind(change, Some(Direction::Reverse));
    match change.origin {
        Origin::Plain => {
            add_seen(alloc, c, change.edition, reverse, table, found)?;
            add_below(alloc, c, change.edition, forward, table, found)
        }
        Origin::Forward => add_below(alloc, c, change.edition, forward, table, found),
        Origin::Reverse => add_above(alloc, c, change.edition, reverse, table, found),
    }
}

/// The kind of trigger that a change fires, of those that cross editions this way or don't.
fn kind(change: Change, crossedition: Option<Direction>) -> Kind
    ensures { result ≡ record { crossedition = crossedition; op = change.op; timing = change.timing } }
{
    Kind {
        crossedition,
        op: change.op,
        timing: change.timing,
    }
}
