//! What the records of objects change in the catalogue.

ghost use Rattle.std.specs.Prelude.{◌≡◌, ◌≤◌, ◌&&◌, ℕ, List as Sequence, length, IfOk, Some};
ghost use Rattle.ebr_editions.specs.Editions.{is_living};
ghost use Rattle.ebr_cross.specs.Catalogue.{ForLists};
ghost use Rattle.ebr_cross.specs.Following.{MayFollow};
ghost use Rattle.ebr_cross.specs.Kinds as kinds;
ghost use Rattle.ebr_record.specs.declared.record.Record.TheVariants as left;
ghost use Rattle.ebr_core.specs.Records as records;
ghost use Rattle.ebr_core.specs.inside.Stored.{max_stored};
ghost use Rattle.ebr_allowed.specs.Allowed as spec;
ghost use Rattle.ebr_recovery.specs.inside.Plans.{Plans, PlansBy, PlansRecord, kind_dropped as class_kind, may_hide_key};

use crate::fault::RecoveryFault;
use crate::held::without;
use ebr_ast::{Definition, ObjectKind, UnitTree};
use ebr_base::{Bytes, EditionNo, Name, ObjectKey, Shared, Stop};
use ebr_cross::{Catalogue, CatalogueRecord, key_of, kind_of, name_of};
use ebr_record::DroppedClass;
use ebr_script::stored;
use std::alloc::Global;

/// The plan of an object, by its text.
pub fn object_plan(
    alloc: Global,
    c: &Catalogue,
    e: EditionNo,
    enabled: bool,
    text: &Shared<Bytes>,
) -> Result<CatalogueRecord, RecoveryFault>
    requires { length text.now ≤ max_stored }
    ensures plans { ForLists c.now (λ lists. PlansRecord lists (left.Object e enabled text.now) result) }
    ensures follows { IfOk result (λ made. MayFollow c.now made) }
{
    if !c.chain.lives(e) {
        return Err(RecoveryFault::NotAllowed);
    }
    let Some(definition) = stored(alloc, text.get().as_slice())? else {
        return Err(RecoveryFault::NotAllowed);
    };
    let planned = creation_plan(alloc, c, e, enabled, text, &definition);
    without(definition, planned)
}

/// The plan of what a definition creates.
fn creation_plan(
    alloc: Global,
    c: &Catalogue,
    e: EditionNo,
    enabled: bool,
    text: &Shared<Bytes>,
    definition: &Definition,
) -> Result<CatalogueRecord, RecoveryFault>
    ensures plans { ForLists c.now (λ lists. Plans (spec.may_store lists e enabled text.now (Some definition.now)) lists (records.with_stored lists e enabled text.now (Some definition.now)) (left.Object e enabled text.now) result) }
    ensures follows { IfOk result (λ made. MayFollow c.now made) }
{
    match definition {
        Definition::CreateObject { unit, .. } => unit_plan(alloc, c, e, enabled, text, unit),
        _ => Err(RecoveryFault::NotAllowed),
    }
}

/// The plan of a unit.
fn unit_plan(
    alloc: Global,
    c: &Catalogue,
    e: EditionNo,
    enabled: bool,
    text: &Shared<Bytes>,
    unit: &UnitTree,
) -> Result<CatalogueRecord, RecoveryFault>
    ensures plans { ForLists c.now (λ lists. Plans (spec.may_put lists e enabled text.now unit.now (kinds.kind_of unit.now) (kinds.name_of unit.now)) lists (records.with_named lists e enabled text.now unit.now (kinds.kind_of unit.now) (kinds.name_of unit.now)) (left.Object e enabled text.now) result) }
    ensures follows { IfOk result (λ made. MayFollow c.now made) }
{
    match (kind_of(unit), name_of(unit)) {
        (Some(kind), Some(name)) => named_plan(alloc, c, e, enabled, text, unit, kind, name),
        _ => Err(RecoveryFault::NotAllowed),
    }
}

/// The plan of a unit of a kind and a name.
fn named_plan(
    alloc: Global,
    c: &Catalogue,
    e: EditionNo,
    enabled: bool,
    text: &Shared<Bytes>,
    unit: &UnitTree,
    kind: ObjectKind,
    name: &Name,
) -> Result<CatalogueRecord, RecoveryFault>
    ensures plans { ForLists c.now (λ lists. Plans (spec.may_put lists e enabled text.now unit.now (Some kind) (Some name.now)) lists (records.with_named lists e enabled text.now unit.now (Some kind) (Some name.now)) (left.Object e enabled text.now) result) }
    ensures follows { IfOk result (λ made. MayFollow c.now made) }
{
    if !may_be_enabled(kind, enabled) {
        return Err(RecoveryFault::NotAllowed);
    }
    let key = key_of(alloc, kind, name)?;
    match c.plan_recovered(alloc, e, &key, text, unit, enabled) {
        Ok(made) => Ok(made),
        Err(Stop::Raised(_)) => Err(RecoveryFault::NotAllowed),
        Err(Stop::NoMemory) => Err(RecoveryFault::NoMemory),
    }
}

/// Whether an object of a kind may be enabled so: each is enabled but a trigger, which may be disabled.
fn may_be_enabled(kind: ObjectKind, enabled: bool) -> bool
    ensures { result ≡ spec.may_be_enabled kind enabled }
{
    match kind {
        ObjectKind::Trigger => true,
        _ => enabled,
    }
}

/// The plan of the drop of an object.
pub fn drop_plan(
    alloc: Global,
    c: &Catalogue,
    e: EditionNo,
    class: DroppedClass,
    name: &Name,
) -> Result<CatalogueRecord, RecoveryFault>
    ensures plans { ForLists c.now (λ lists. PlansBy (is_living lists.editions.made e && spec.may_hide lists e class name.now) (records.gone e class name.now) result) }
    ensures is { IfOk result (λ made. made ≡ records.gone e class name.now) }
{
    if !c.chain.lives(e) {
        return Err(RecoveryFault::NotAllowed);
    }
    let key = key_of(alloc, kind_dropped(class), name)?;
    if !may_hide(c, e, class, &key) {
        return Err(RecoveryFault::NotAllowed);
    }
    Ok(gone(e, class, key))
}

/// A kind of object whose key is dropped.
fn kind_dropped(class: DroppedClass) -> ObjectKind
    ensures { result ≡ class_kind class }
{
    match class {
        DroppedClass::Unit => ObjectKind::Procedure,
        DroppedClass::Body => ObjectKind::PackageBody,
        DroppedClass::Trigger => ObjectKind::Trigger,
        DroppedClass::Package => ObjectKind::Package,
    }
}

/// Whether what is dropped under a key is visible: a package specification goes with its body, another unit alone.
fn may_hide(c: &Catalogue, e: EditionNo, class: DroppedClass, key: &ObjectKey) -> bool
    ensures { ForLists c.now (λ lists. result ≡ may_hide_key lists e class key.now) }
{
    match class {
        DroppedClass::Unit => {
            c.visible(e, key).is_some() && !c.has_object(e, key, ObjectKind::Package)
        }
        DroppedClass::Body => c.visible(e, key).is_some(),
        DroppedClass::Trigger => c.visible(e, key).is_some(),
        DroppedClass::Package => c.has_object(e, key, ObjectKind::Package),
    }
}

/// The record of a drop.
fn gone(e: EditionNo, class: DroppedClass, key: ObjectKey) -> CatalogueRecord
    ensures { (name : Sequence ℕ) → key ≡ kinds.key_of (class_kind class) name → result ≡ records.gone e class name }
{
    match class {
        DroppedClass::Package => CatalogueRecord::PackageGone {
            edition: e,
            name: key.name,
        },
        _ => CatalogueRecord::ObjectGone { edition: e, key },
    }
}
