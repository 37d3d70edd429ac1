//! Triggers that fire, in order.

ghost use Rattle.std.specs.Prelude.{◌≡◌, ◌++◌, map, IfOk, OnOk};
ghost use Rattle.std.specs.Option.{option_copied};
ghost use Rattle.ebr_fire.specs.Fires as spec;
ghost use Rattle.ebr_fire.specs.inside.Groups.{with_object, with_some};

use crate::kind::{Kind, is_fired};
use ebr_ast::{Direction, Object};
use ebr_base::{CloneIn, EditionNo, List, Name, NoMemory, ObjectKey, Shared, Stamp};
use std::alloc::Global;
use std::collections::BTreeSet;

/// A trigger that fires, and the edition in which its body runs.
#[derive(Drop)]
pub struct Firing {
    pub key: ObjectKey,
    pub edition: EditionNo,
}

/// A trigger with the stamp that decides its place in its group.
#[derive(Drop, PartialEq, Eq, PartialOrd, Ord)]
pub struct Stamped {
    pub stamp: Stamp,
    pub key: ObjectKey,
}

/// Adds what is there under a key, where it is an enabled trigger of a kind on a name.
pub fn add_some(
    alloc: Global,
    kind: Kind,
    on: &Name,
    group: &mut BTreeSet<Stamped>,
    object: Option<&Shared<Object>>,
) -> Result<(), NoMemory>
    ensures { OnOk result (group.new.keys ≡ with_some kind on.now group.old.keys (option_copied object.entry)) }
{
    match object {
        Some(object) => add_object(alloc, kind, on, group, object.get()),
        None => Ok(()),
    }
}

fn add_object(
    alloc: Global,
    kind: Kind,
    on: &Name,
    group: &mut BTreeSet<Stamped>,
    object: &Object,
) -> Result<(), NoMemory>
    ensures { OnOk result (group.new.keys ≡ with_object kind on.now group.old.keys object.now) }
{
    if !is_fired(kind, on, object) {
        return Ok(());
    }
    group.insert(with_stamp(alloc, object)?)?;
    Ok(())
}

fn with_stamp(alloc: Global, object: &Object) -> Result<Stamped, NoMemory>
    ensures { IfOk result (λ stamped. stamped ≡ spec.stamped object.now) }
{
    Ok(Stamped {
        stamp: object.stamp,
        key: object.key.clone_in(alloc)?,
    })
}

/// Adds the firings of a group, in order, behind those that were found.
pub fn add_firings(
    crossedition: Option<Direction>,
    e: EditionNo,
    group: BTreeSet<Stamped>,
    found: &mut List<Firing>,
) -> Result<(), NoMemory>
    ensures { OnOk result (found.new ≡ found.old ++ map (spec.firing crossedition e) group.keys) }
{
    let mut left = group;
    while let Some(trigger) = left.pop_first() {
        found.push(fired(crossedition, e, trigger))?;
    }
    Ok(())
}

fn fired(crossedition: Option<Direction>, e: EditionNo, trigger: Stamped) -> Firing
    ensures { result ≡ spec.firing crossedition e trigger }
{
    Firing {
        edition: run_edition(crossedition, e, trigger.stamp),
        key: trigger.key,
    }
}

/// The edition in which a body runs, where the change is made in another.
fn run_edition(crossedition: Option<Direction>, e: EditionNo, stamp: Stamp) -> EditionNo
    ensures { result ≡ spec.run_edition crossedition e stamp }
{
    match crossedition {
        Some(_) => stamp.edition,
        None => e,
    }
}
