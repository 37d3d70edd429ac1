//! The triggers that an edition sees.

ghost use Rattle.std.specs.Prelude.{◌≡◌, ◌++◌, OnOk};
ghost use Rattle.ebr_cross.specs.Catalogue.{ForLists, visible};
ghost use Rattle.ebr_fire.specs.Fires.{group, seen_triggers};
ghost use Rattle.ebr_fire.specs.inside.Groups.{with_key, with_seen};

use crate::firing::{Firing, Stamped, add_firings, add_some};
use crate::kind::{Kind, is_trigger_key};
use ebr_base::{EditionNo, List, Name, NoMemory, ObjectKey};
use ebr_cross::Catalogue;
use std::alloc::Global;
use std::collections::BTreeSet;

/// Adds the firings of the triggers of a kind on a name that an edition sees.
pub fn add_seen(
    alloc: Global,
    c: &Catalogue,
    e: EditionNo,
    kind: Kind,
    on: &Name,
    found: &mut List<Firing>,
) -> Result<(), NoMemory>
    ensures { ForLists c.now (λ lists. OnOk result (found.new ≡ found.old ++ group e kind on.now (seen_triggers lists e))) }
{
    let mut triggers = BTreeSet::new(alloc);
    add_under(alloc, c, e, kind, on, c.keys(), &mut triggers)?;
    add_firings(kind.crossedition, e, triggers, found)
}

/// Adds what an edition sees under keys.
fn add_under(
    alloc: Global,
    c: &Catalogue,
    e: EditionNo,
    kind: Kind,
    on: &Name,
    keys: &[ObjectKey],
    triggers: &mut BTreeSet<Stamped>,
) -> Result<(), NoMemory>
    ensures { ForLists c.now (λ lists. OnOk result (triggers.new.keys ≡ with_seen lists e kind on.now triggers.old.keys keys.now)) }
{
    for key in keys {
        add_key(alloc, c, e, kind, on, key, triggers)?;
    }
    Ok(())
}

fn add_key(
    alloc: Global,
    c: &Catalogue,
    e: EditionNo,
    kind: Kind,
    on: &Name,
    key: &ObjectKey,
    triggers: &mut BTreeSet<Stamped>,
) -> Result<(), NoMemory>
    ensures { ForLists c.now (λ lists. OnOk result (triggers.new.keys ≡ with_key (λ k. visible lists e k) kind on.now triggers.old.keys key.now)) }
{
    if !is_trigger_key(key) {
        return Ok(());
    }
    add_some(alloc, kind, on, triggers, c.visible(e, key))
}
