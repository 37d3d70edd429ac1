//! What an edition sees after a definition.

ghost use Rattle.std.specs.Prelude.{◌≡◌, ◌<◌, ◌↔◌, IsTrue, map, IfOk, OnOk};
ghost use Rattle.std.specs.List.Sorted.{IsStrictlySortedBy};
ghost use Rattle.ebr_base.specs.Keys.{key_order};
ghost use Rattle.ebr_ast.specs.declared.definition.ObjectKind.TheVariants as kind;
ghost use Rattle.ebr_ast.specs.Views.{key_of as object_key, IsInOrder};
ghost use Rattle.ebr_editions.specs.Editions.{leaf, IsLine};
ghost use Rattle.ebr_cross.specs.declared.record.CatalogueRecord.TheVariants as made;
ghost use Rattle.ebr_cross.specs.Catalogue.{ForLists, HaveOwnKeys, IsViewOf, View, visible};
ghost use Rattle.ebr_cross.specs.Kinds as kinds_spec;
ghost use Rattle.ebr_cross.specs.Records.{ForChanged, with_record};
ghost use Rattle.ebr_cross.specs.Places.{placed};
ghost use Rattle.ebr_cross.specs.inside.Places.{with_seen, Shows};

use crate::catalogue::Catalogue;
use crate::kinds::key_of;
use crate::record::CatalogueRecord;
use crate::view::{living_tables, view_of, view_with};
use ebr_ast::{EditionView, Object, ObjectKind};
use ebr_base::{CloneIn, EditionNo, Name, NoMemory, ObjectKey, Shared};
use ebr_editions::Chain;
use ebr_names::search;
use ebr_shared_list::SharedList;
use std::alloc::Global;

/// What an edition sees after a definition, from what it saw before it: `c` is the catalogue after the definition, and
/// `record` what that made.
///
/// It is the same view where the record changes nothing that an edition sees. Where an object was made, altered or dropped,
/// the other objects and the tables are shared with the view before, and no other key is looked up again; where a table was,
/// the objects are.
pub fn view_after(
    c: &Catalogue,
    alloc: Global,
    view: &Shared<EditionView>,
    record: &CatalogueRecord,
) -> Result<Shared<EditionView>, NoMemory>
    ensures { ForChanged c.now view.now record.now (λ lists. IfOk result (λ v. IsViewOf (with_record lists record.now) view.now.edition v)) }
{
    let seen = view.get();
    match record {
        CatalogueRecord::EditionGone(_) => view.clone_in(alloc),
        CatalogueRecord::Default(_) => view.clone_in(alloc),
        CatalogueRecord::Edition { .. } if is_before_leaf(&c.chain, seen.edition) => {
            view.clone_in(alloc)
        }
        _ => changed(c, alloc, seen, record),
    }
}

/// Whether an edition was made no later than the leaf's parent. The leaf then isn't in its line, since a parent has a smaller
/// number than its child.
fn is_before_leaf(chain: &Chain, e: EditionNo) -> bool
    ensures before { IsTrue result → e.0 < (leaf chain.now.made).0 }
    ensures line { IsLine chain.now }
{
    match chain.parent(chain.leaf()) {
        Some(parent) => e.0 <= parent.0,
        None => false,
    }
}

/// A new view after a definition.
fn changed(
    c: &Catalogue,
    alloc: Global,
    view: &EditionView,
    record: &CatalogueRecord,
) -> Result<Shared<EditionView>, NoMemory>
    ensures { ForChanged c.now view.now record.now (λ lists. IfOk result (λ v. IsViewOf (with_record lists record.now) view.now.edition v)) }
{
    match record {
        CatalogueRecord::Object(object) => with_key(c, alloc, view, &object.get().key),
        CatalogueRecord::ObjectGone { key, .. } => with_key(c, alloc, view, key),
        CatalogueRecord::PackageGone { edition, name } => {
            after_package(c, alloc, view, *edition, name)
        }
        CatalogueRecord::Table(_) => with_tables(c, alloc, view),
        CatalogueRecord::Column { .. } => with_tables(c, alloc, view),
        CatalogueRecord::TableGone(_) => with_tables(c, alloc, view),
        _ => made_anew(c, alloc, view.edition),
    }
}

/// All that an edition sees, looked up anew.
fn made_anew(c: &Catalogue, alloc: Global, e: EditionNo) -> Result<Shared<EditionView>, NoMemory>
    ensures view { ForLists c.now (λ lists. IfOk result (λ v. v ≡ View lists e)) }
    ensures order { ForLists c.now (λ lists. HaveOwnKeys lists → IfOk result (λ v. IsInOrder v)) }
{
    let view = view_of(c, alloc, e)?;
    Ok(Shared::new(alloc, view)?)
}

/// A view with the same objects, and the tables anew.
fn with_tables(
    c: &Catalogue,
    alloc: Global,
    view: &EditionView,
) -> Result<Shared<EditionView>, NoMemory>
    ensures { ForLists c.now (λ lists. IfOk result (λ v. Shows view.now.edition view.now.objects lists.tables.living v)) }
{
    let objects = view.objects.clone_in(alloc)?;
    let tables = living_tables(alloc, &c.tables)?;
    let next = view_with(view.edition, objects, tables)?;
    Shared::new(alloc, next)
}

/// A view with what its edition sees under a key now.
fn with_key(
    c: &Catalogue,
    alloc: Global,
    view: &EditionView,
    key: &ObjectKey,
) -> Result<Shared<EditionView>, NoMemory>
    ensures { IsStrictlySortedBy key_order (map object_key view.now.objects)
        → ForLists c.now (λ lists. IfOk result (λ v. Shows view.now.edition (with_seen lists view.now.edition key.now view.now.objects) view.now.tables v)) }
{
    let objects = with_seen(c, alloc, view.edition, &view.objects, key)?;
    with_objects(alloc, view, objects)
}

/// A view after the drop of a package in an edition.
fn after_package(
    c: &Catalogue,
    alloc: Global,
    view: &EditionView,
    e: EditionNo,
    name: &Name,
) -> Result<Shared<EditionView>, NoMemory>
    ensures { ForChanged c.now view.now (made.PackageGone e name.now) (λ lists. IfOk result (λ v. IsViewOf (with_record lists (made.PackageGone e name.now)) view.now.edition v)) }
{
    if is_same(e, view.edition) {
        return without_package(c, alloc, view, name);
    }
    made_anew(c, alloc, view.edition)
}

fn is_same(d: EditionNo, e: EditionNo) -> bool
    ensures { IsTrue result ↔ (d ≡ e) }
{
    d == e
}

/// A view with what its edition sees under the keys of a package and its body now.
fn without_package(
    c: &Catalogue,
    alloc: Global,
    view: &EditionView,
    name: &Name,
) -> Result<Shared<EditionView>, NoMemory>
    ensures { IsStrictlySortedBy key_order (map object_key view.now.objects)
        → ForLists c.now (λ lists. IsStrictlySortedBy key_order (map object_key (with_seen lists view.now.edition (kinds_spec.key_of kind.Package name.now) view.now.objects))
        → IfOk result (λ v. Shows view.now.edition (with_seen lists view.now.edition (kinds_spec.key_of kind.PackageBody name.now) (with_seen lists view.now.edition (kinds_spec.key_of kind.Package name.now) view.now.objects)) view.now.tables v)) }
{
    let package = key_of(alloc, ObjectKind::Package, name)?;
    let body = key_of(alloc, ObjectKind::PackageBody, name)?;
    let first = with_seen(c, alloc, view.edition, &view.objects, &package)?;
    let objects = with_seen(c, alloc, view.edition, &first, &body)?;
    with_objects(alloc, view, objects)
}

/// A view of other objects with the same tables.
fn with_objects(
    alloc: Global,
    view: &EditionView,
    objects: SharedList<Shared<Object>>,
) -> Result<Shared<EditionView>, NoMemory>
    ensures { IfOk result (λ v. Shows view.now.edition objects view.now.tables v) }
{
    let tables = view.tables.clone_in(alloc)?;
    let next = view_with(view.edition, objects, tables)?;
    Shared::new(alloc, next)
}

/// Objects in order, with what an edition sees under a key now.
fn with_seen(
    c: &Catalogue,
    alloc: Global,
    e: EditionNo,
    objects: &SharedList<Shared<Object>>,
    key: &ObjectKey,
) -> Result<SharedList<Shared<Object>>, NoMemory>
    ensures { IsStrictlySortedBy key_order (map object_key objects.now)
        → ForLists c.now (λ lists. IfOk result (λ seen. seen ≡ with_seen lists e key.now objects.now)) }
{
    let new = seen_under(c, alloc, e, key)?;
    let mut seen = objects.clone_in(alloc)?;
    put(alloc, &mut seen, key, new)?;
    Ok(seen)
}

/// Another holder of the object that an edition sees under a key.
fn seen_under(
    c: &Catalogue,
    alloc: Global,
    e: EditionNo,
    key: &ObjectKey,
) -> Result<Option<Shared<Object>>, NoMemory>
    ensures { ForLists c.now (λ lists. IfOk result (λ object. object ≡ visible lists e key.now)) }
{
    match c.visible(e, key) {
        Some(object) => Ok(Some(object.clone_in(alloc)?)),
        None => Ok(None),
    }
}

/// Puts an object, or none, in place of what objects in order have under a key.
fn put(
    alloc: Global,
    objects: &mut SharedList<Shared<Object>>,
    key: &ObjectKey,
    new: Option<Shared<Object>>,
) -> Result<(), NoMemory>
    ensures { IsStrictlySortedBy key_order (map object_key objects.old)
        → OnOk result (objects.new ≡ placed key_order object_key key.now new objects.old) }
{
    match search(objects, key.class, &key.name) {
        Ok(at) => objects.splice(alloc, at, 1, new),
        Err(at) => objects.splice(alloc, at, 0, new),
    }
}
