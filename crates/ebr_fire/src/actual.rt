//! The triggers that are actual in editions further along the line.

ghost use Rattle.std.specs.Prelude.{◌≡◌, ◌++◌, OnOk};
ghost use Rattle.std.specs.Option.{option_copied};
ghost use Rattle.ebr_cross.specs.Catalogue.{ForLists};
ghost use Rattle.ebr_fire.specs.Fires.{group, actual_among, ancestors, descendants};
ghost use Rattle.ebr_fire.specs.inside.Groups.{with_key, with_edition, with_editions};

use crate::firing::{Firing, Stamped, add_firings, add_some};
use crate::kind::{Kind, is_trigger_key};
use ebr_ast::Object;
use ebr_base::{EditionNo, List, Name, NoMemory, ObjectKey, Shared};
use ebr_cross::Catalogue;
use std::alloc::Global;
use std::collections::BTreeSet;

/// The most editions that live at a time, as `Chain::create` has it.
const MAX_EDITIONS: usize = 256;

/// Adds the firings of the triggers of a kind on a name that are actual in a strict descendant of an edition.
pub fn add_below(
    alloc: Global,
    c: &Catalogue,
    e: EditionNo,
    kind: Kind,
    on: &Name,
    found: &mut List<Firing>,
) -> Result<(), NoMemory>
    ensures { ForLists c.now (λ lists. OnOk result (found.new ≡ found.old ++ group e kind on.now (actual_among lists (descendants lists.editions.made e)))) }
{
    let mut triggers = BTreeSet::new(alloc);
    add_descendants(alloc, c, e, kind, on, &mut triggers)?;
    add_firings(kind.crossedition, e, triggers, found)
}

/// Adds the firings of the triggers of a kind on a name that are actual in a strict ancestor of an edition.
pub fn add_above(
    alloc: Global,
    c: &Catalogue,
    e: EditionNo,
    kind: Kind,
    on: &Name,
    found: &mut List<Firing>,
) -> Result<(), NoMemory>
    ensures { ForLists c.now (λ lists. OnOk result (found.new ≡ found.old ++ group e kind on.now (actual_among lists (ancestors lists.editions.made e)))) }
{
    let mut triggers = BTreeSet::new(alloc);
    add_ancestors(alloc, c, e, kind, on, &mut triggers)?;
    add_firings(kind.crossedition, e, triggers, found)
}

fn add_descendants(
    alloc: Global,
    c: &Catalogue,
    e: EditionNo,
    kind: Kind,
    on: &Name,
    triggers: &mut BTreeSet<Stamped>,
) -> Result<(), NoMemory>
    ensures { ForLists c.now (λ lists. OnOk result (triggers.new.keys ≡ with_editions lists kind on.now triggers.old.keys (descendants c.now.chain.made e))) }
{
    let mut next = c.chain.child(e);
    for _turn in 0..MAX_EDITIONS {
        let Some(d) = next else {
            return Ok(());
        };
        add_edition(alloc, c, d, kind, on, triggers)?;
        next = c.chain.child(d);
    }
    Ok(())
}

fn add_ancestors(
    alloc: Global,
    c: &Catalogue,
    e: EditionNo,
    kind: Kind,
    on: &Name,
    triggers: &mut BTreeSet<Stamped>,
) -> Result<(), NoMemory>
    ensures { ForLists c.now (λ lists. OnOk result (triggers.new.keys ≡ with_editions lists kind on.now triggers.old.keys (ancestors c.now.chain.made e))) }
{
    let mut next = c.chain.parent(e);
    while let Some(d) = next {
        add_edition(alloc, c, d, kind, on, triggers)?;
        next = c.chain.parent(d);
    }
    Ok(())
}

/// Adds the triggers of a kind on a name that are actual in an edition. It finds no memory where 4,294,967,295 keys have a
/// definition or drop there.
fn add_edition(
    alloc: Global,
    c: &Catalogue,
    d: EditionNo,
    kind: Kind,
    on: &Name,
    triggers: &mut BTreeSet<Stamped>,
) -> Result<(), NoMemory>
    ensures { ForLists c.now (λ lists. OnOk result (triggers.new.keys ≡ with_edition lists kind on.now triggers.old.keys d)) }
{
    for at in 0..u32::MAX {
        let Some((key, object)) = c.actual_in(d, at) else {
            return Ok(());
        };
        add_actual(alloc, kind, on, triggers, key, object)?;
    }
    Err(NoMemory)
}

fn add_actual(
    alloc: Global,
    kind: Kind,
    on: &Name,
    triggers: &mut BTreeSet<Stamped>,
    key: &ObjectKey,
    object: Option<&Shared<Object>>,
) -> Result<(), NoMemory>
    ensures { OnOk result (triggers.new.keys ≡ with_key (λ k. option_copied object.entry) kind on.now triggers.old.keys key.now) }
{
    if !is_trigger_key(key) {
        return Ok(());
    }
    add_some(alloc, kind, on, triggers, object)
}
