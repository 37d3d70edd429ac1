//! What a unit's tree defines.

ghost use Rattle.std.specs.Prelude.{◌≡◌, IfOk};
ghost use Rattle.std.specs.Option.{option_copied};
ghost use Rattle.ebr_cross.specs.Kinds as spec;

use ebr_ast::{ObjectKind, ParameterType, UnitTree};
use ebr_base::{Class, CloneIn, Name, NoMemory, ObjectKey};
use std::alloc::Global;

/// The kind of object that a unit is; a block is none.
pub fn kind_of(unit: &UnitTree) -> Option<ObjectKind>
    ensures { result ≡ spec.kind_of unit.now }
{
    match unit {
        UnitTree::Subprogram(subprogram) => Some(subprogram_kind(&subprogram.get().head.result)),
        UnitTree::Package(..) => Some(ObjectKind::Package),
        UnitTree::PackageBody(_) => Some(ObjectKind::PackageBody),
        UnitTree::Trigger(_) => Some(ObjectKind::Trigger),
        UnitTree::View(_) => Some(ObjectKind::View),
        UnitTree::Block(_) => None,
    }
}

fn subprogram_kind(returned: &Option<ParameterType>) -> ObjectKind
    ensures { result ≡ spec.subprogram_kind returned.now }
{
    match returned {
        Some(_) => ObjectKind::Function,
        None => ObjectKind::Procedure,
    }
}

/// The name that a unit defines; a block defines none.
pub fn name_of(unit: &UnitTree) -> Option<&Name>
    ensures { option_copied result ≡ spec.name_of unit.now }
{
    match unit {
        UnitTree::Subprogram(subprogram) => Some(&subprogram.get().head.name),
        UnitTree::Package(name, _) => Some(name),
        UnitTree::PackageBody(body) => Some(&body.get().name),
        UnitTree::Trigger(trigger) => Some(&trigger.get().name),
        UnitTree::View(view) => Some(&view.get().name),
        UnitTree::Block(_) => None,
    }
}

fn class_of(kind: ObjectKind) -> Class
    ensures { result ≡ spec.class_of kind }
{
    match kind {
        ObjectKind::PackageBody => Class::Body,
        ObjectKind::Trigger => Class::Trigger,
        ObjectKind::Procedure | ObjectKind::Function | ObjectKind::Package | ObjectKind::View => {
            Class::Unit
        }
    }
}

/// The key of an object of a kind.
pub fn key_of(alloc: Global, kind: ObjectKind, name: &Name) -> Result<ObjectKey, NoMemory>
    ensures { IfOk result (λ key. key ≡ spec.key_of kind name.now) }
{
    Ok(ObjectKey {
        class: class_of(kind),
        name: name.clone_in(alloc)?,
    })
}

/// The key of a procedure, function, package specification or view.
pub fn unit_key(alloc: Global, name: &Name) -> Result<ObjectKey, NoMemory>
    ensures { IfOk result (λ key. key ≡ spec.unit_key name.now) }
{
    Ok(ObjectKey {
        class: Class::Unit,
        name: name.clone_in(alloc)?,
    })
}

/// Whether a unit is an object of a kind.
pub fn is_of_kind(kind: ObjectKind, unit: &UnitTree) -> bool
    ensures { result ≡ spec.is_of_kind kind unit.now }
{
    match kind_of(unit) {
        Some(other) => same_kind(kind, other),
        None => false,
    }
}

fn same_kind(a: ObjectKind, b: ObjectKind) -> bool
    ensures { result ≡ spec.same_kind a b }
{
    matches!(
        (a, b),
        (ObjectKind::Procedure, ObjectKind::Procedure)
            | (ObjectKind::Function, ObjectKind::Function)
            | (ObjectKind::Package, ObjectKind::Package)
            | (ObjectKind::PackageBody, ObjectKind::PackageBody)
            | (ObjectKind::Trigger, ObjectKind::Trigger)
            | (ObjectKind::View, ObjectKind::View)
    )
}
