//! What an edition sees of the catalogue.

ghost use Rattle.std.specs.Prelude.{◌≡◌, map, IfOk};
ghost use Rattle.std.specs.List.{filter_map};
ghost use Rattle.ebr_ast.specs.Views.{IsInOrder};
ghost use Rattle.ebr_cross.specs.Catalogue.{ForLists, HaveOwnKeys, View, in_order, visible};
ghost use Rattle.ebr_cross.specs.inside.Places.{Shows};

use crate::catalogue::Catalogue;
use ebr_ast::{EditionView, Object};
use ebr_base::{CloneIn, EditionNo, List, MAX_COUNT, NoMemory, ObjectKey, Shared, TableDef};
use ebr_shared_list::SharedList;
use ebr_tables::Tables;
use std::alloc::Global;
use std::collections::BTreeSet;

/// All that an edition sees: the visible objects in order of class and then of name, shared with the catalogue, and copies
/// of the living tables in order of id. It finds no memory where there are 4,294,967,295 visible objects or more.
pub fn view_of(c: &Catalogue, alloc: Global, e: EditionNo) -> Result<EditionView, NoMemory>
    ensures view { ForLists c.now (λ lists. IfOk result (λ view. view ≡ View lists e)) }
    ensures order { ForLists c.now (λ lists. HaveOwnKeys lists → IfOk result (λ view. IsInOrder view)) }
{
    let keys = in_order(alloc, c.actuals.keys())?;
    let objects = objects_under(alloc, c, e, keys)?;
    let objects = SharedList::from_slice(alloc, objects.as_slice())?;
    let tables = living_tables(alloc, &c.tables)?;
    view_with(e, objects, tables)
}

/// A view of objects and tables.
pub(crate) fn view_with(
    edition: EditionNo,
    objects: SharedList<Shared<Object>>,
    tables: Shared<List<TableDef>>,
) -> Result<EditionView, NoMemory>
    ensures { IfOk result (λ view. Shows edition objects tables view) }
{
    if objects.len() >= MAX_COUNT {
        return Err(NoMemory);
    }
    Ok(EditionView {
        edition,
        objects,
        tables,
    })
}

/// The keys in order of class and then of name.
#[tactic(auto, unfolding(crate::specs::Catalogue::in_order))]
fn in_order(alloc: Global, keys: &[ObjectKey]) -> Result<BTreeSet<&ObjectKey>, NoMemory>
    ensures { IfOk result (λ set. map (λ key. key.now) set.keys ≡ in_order keys.now) }
{
    let mut set = BTreeSet::new(alloc);
    for key in keys {
        set.insert(key)?;
    }
    Ok(set)
}

/// The objects that an edition sees under keys, in the keys' order.
fn objects_under(
    alloc: Global,
    c: &Catalogue,
    e: EditionNo,
    keys: BTreeSet<&ObjectKey>,
) -> Result<List<Shared<Object>>, NoMemory>
    ensures { ForLists c.now (λ lists. IfOk result (λ objects. objects ≡ filter_map (λ key. visible lists e key) (map (λ key. key.now) keys.entry.keys))) }
{
    let mut left = keys;
    let mut objects = List::new(alloc);
    while let Some(key) = left.pop_first() {
        if let Some(object) = c.visible(e, key) {
            objects.push(object.clone_in(alloc)?)?;
        }
    }
    Ok(objects)
}

/// Copies of the living tables, in order of id.
pub(crate) fn living_tables(
    alloc: Global,
    tables: &Tables,
) -> Result<Shared<List<TableDef>>, NoMemory>
    ensures { IfOk result (λ copies. copies ≡ tables.now.living) }
{
    let mut copies = List::new(alloc);
    let mut at = 0;
    while let Some(def) = tables.nth(at) {
        copies.push(def.clone_in(alloc)?)?;
        at += 1;
    }
    Shared::new(alloc, copies)
}
