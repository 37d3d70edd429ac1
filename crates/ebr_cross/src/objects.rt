//! Definitions of objects.

ghost use Rattle.std.specs.Prelude.{◌≡◌, Some, IfOk};
ghost use Rattle.ebr_base.specs.Answers.{Answers};
ghost use Rattle.ebr_cross.specs.Catalogue.{ForLists, visible};
ghost use Rattle.ebr_cross.specs.Definitions as spec;
ghost use Rattle.ebr_cross.specs.Kinds as kinds_spec;
ghost use Rattle.ebr_cross.specs.Following.{MayFollow};
ghost use Rattle.ebr_cross.specs.inside.Steps.{FindsKey, MakesObject};

use crate::catalogue::Catalogue;
use crate::kinds::{is_of_kind, key_of, kind_of, name_of};
use crate::record::CatalogueRecord;
use ebr_ast::{Object, ObjectKind, UnitTree};
use ebr_base::{Bytes, CloneIn, Code, EditionNo, Name, NoMemory, ObjectKey, Shared, Stop};
use std::alloc::Global;

impl Catalogue {
    /// The plan of CREATE of a unit or an editioning view. Refusals: those of `new_object`.
    pub(crate) fn plan_object(
        &self,
        alloc: Global,
        e: EditionNo,
        replace: bool,
        unit: &UnitTree,
        text: &Shared<Bytes>,
    ) -> Result<CatalogueRecord, Stop>
        ensures answer { ForLists self.now (λ c. Answers result (spec.create_object c e replace unit.now text.now)) }
        ensures follows { IfOk result (λ r. MayFollow self.now r) }
    {
        match self.new_object(alloc, e, replace, unit, text) {
            Ok(object) => Ok(CatalogueRecord::Object(object)),
            Err(stop) => Err(stop),
        }
    }

    /// The object that a CREATE makes. Refusals: those of `creation_refusal`, and EBR-0034 where the edition would see more
    /// than 4,096 objects.
    fn new_object(
        &self,
        alloc: Global,
        e: EditionNo,
        replace: bool,
        unit: &UnitTree,
        text: &Shared<Bytes>,
    ) -> Result<Shared<Object>, Stop>
        ensures { ForLists self.now (λ c. MakesObject (spec.create_object c e replace unit.now text.now) result) }
    {
        match (kind_of(unit), name_of(unit)) {
            (Some(kind), Some(name)) => {
                self.new_named(alloc, e, replace, kind, name, unit, text)
            }
            _ => Err(Stop::Raised(Code::Ora(900))),
        }
    }

    /// The object of a kind that a CREATE makes under a name.
    fn new_named(
        &self,
        alloc: Global,
        e: EditionNo,
        replace: bool,
        kind: ObjectKind,
        name: &Name,
        unit: &UnitTree,
        text: &Shared<Bytes>,
    ) -> Result<Shared<Object>, Stop>
        ensures { ForLists self.now (λ c. MakesObject (spec.object_named c e replace unit.now text.now (Some kind) (Some name.now)) result) }
    {
        let key = key_of(alloc, kind, name)?;
        if let Some(code) = self.creation_refusal(alloc, e, replace, kind, &key, unit)? {
            return Err(Stop::Raised(code));
        }
        self.allowed_object(alloc, e, &key, text, unit, is_enabled(unit))
    }

    /// The plan of ALTER TRIGGER. Refusals: those of `altered_trigger`.
    pub(crate) fn plan_trigger(
        &self,
        alloc: Global,
        e: EditionNo,
        name: &Name,
        enabled: bool,
    ) -> Result<CatalogueRecord, Stop>
        ensures answer { ForLists self.now (λ c. Answers result (spec.alter_trigger c e name.now enabled)) }
        ensures follows { IfOk result (λ r. MayFollow self.now r) }
    {
        match self.altered_trigger(alloc, e, name, enabled) {
            Ok(object) => Ok(CatalogueRecord::Object(object)),
            Err(stop) => Err(stop),
        }
    }

    /// The trigger that ALTER TRIGGER makes. Refusals: ORA-04080 where the edition sees no such trigger, EBR-0034 where it
    /// would see more than 4,096 objects.
    fn altered_trigger(
        &self,
        alloc: Global,
        e: EditionNo,
        name: &Name,
        enabled: bool,
    ) -> Result<Shared<Object>, Stop>
        ensures { ForLists self.now (λ c. MakesObject (spec.alter_trigger c e name.now enabled) result) }
    {
        let key = key_of(alloc, ObjectKind::Trigger, name)?;
        let Some(trigger) = self.visible(e, &key) else {
            return Err(Stop::Raised(Code::Ora(4080)));
        };
        let found = trigger.get();
        self.allowed_object(alloc, e, &key, &found.text, &found.tree, enabled)
    }

    /// The plan of an object of a unit that is recovered: as it is made now, whatever stands under its key. Refusal: EBR-0034 where
    /// the edition would see more than 4,096 objects.
    pub fn plan_recovered(
        &self,
        alloc: Global,
        e: EditionNo,
        key: &ObjectKey,
        text: &Shared<Bytes>,
        tree: &UnitTree,
        enabled: bool,
    ) -> Result<CatalogueRecord, Stop>
        ensures answer { ForLists self.now (λ c. Answers result (spec.put_object c e key.now (spec.object_of c e key.now text.now tree.now enabled))) }
        ensures follows { IfOk result (λ r. MayFollow self.now r) }
    {
        match self.allowed_object(alloc, e, key, text, tree, enabled) {
            Ok(object) => Ok(CatalogueRecord::Object(object)),
            Err(stop) => Err(stop),
        }
    }

    /// An object as it is made now. Refusal: EBR-0034 where the edition would see more than 4,096 objects.
    fn allowed_object(
        &self,
        alloc: Global,
        e: EditionNo,
        key: &ObjectKey,
        text: &Shared<Bytes>,
        tree: &UnitTree,
        enabled: bool,
    ) -> Result<Shared<Object>, Stop>
        ensures { ForLists self.now (λ c. MakesObject (spec.put_object c e key.now (spec.object_of c e key.now text.now tree.now enabled)) result) }
    {
        let object = self.object_of(alloc, e, key, text, tree, enabled)?;
        match self.actuals.put_answer(&self.chain, e, key, &object) {
            Ok(_) => Ok(object),
            Err(code) => Err(Stop::Raised(code)),
        }
    }

    /// An object as it is made now.
    fn object_of(
        &self,
        alloc: Global,
        e: EditionNo,
        key: &ObjectKey,
        text: &Shared<Bytes>,
        tree: &UnitTree,
        enabled: bool,
    ) -> Result<Shared<Object>, NoMemory>
        ensures { ForLists self.now (λ c. IfOk result (λ o. o ≡ spec.object_of c e key.now text.now tree.now enabled)) }
    {
        let stamp = self.actuals.next_stamp(e);
        let key = key.clone_in(alloc)?;
        let text = text.clone_in(alloc)?;
        let object = Object {
            key,
            text,
            tree: tree.clone_in(alloc)?,
            stamp,
            enabled,
        };
        Ok(Shared::new(alloc, object)?)
    }

    /// The plan of DROP of an object. Refusals: those of `key_to_drop`. DROP PACKAGE takes the body along, where it is visible.
    pub(crate) fn plan_object_drop(
        &self,
        alloc: Global,
        e: EditionNo,
        kind: ObjectKind,
        name: &Name,
    ) -> Result<CatalogueRecord, Stop>
        ensures answer { ForLists self.now (λ c. Answers result (spec.drop_object c e kind name.now)) }
        ensures follows { IfOk result (λ r. MayFollow self.now r) }
    {
        match self.key_to_drop(alloc, e, kind, name) {
            Ok(key) => Ok(gone_record(alloc, e, kind, key, name)?),
            Err(stop) => Err(stop),
        }
    }

    /// The key of the object that a DROP drops. Refusal where the edition sees none of that kind and name: ORA-04080 for a
    /// trigger, ORA-00942 for a view, ORA-04043 for every other.
    fn key_to_drop(
        &self,
        alloc: Global,
        e: EditionNo,
        kind: ObjectKind,
        name: &Name,
    ) -> Result<ObjectKey, Stop>
        ensures answer { ForLists self.now (λ c. FindsKey c e kind (spec.drop_object c e kind name.now) result) }
        ensures key { IfOk result (λ key. key ≡ kinds_spec.key_of kind name.now) }
    {
        let key = key_of(alloc, kind, name)?;
        if !self.has_object(e, &key, kind) {
            return Err(Stop::Raised(missing_code(kind)));
        }
        Ok(key)
    }

    /// Whether the edition sees an object of a kind under a key.
    pub fn has_object(&self, e: EditionNo, key: &ObjectKey, kind: ObjectKind) -> bool
        ensures { ForLists self.now (λ c. result ≡ spec.is_object_of kind (visible c e key.now)) }
    {
        match self.visible(e, key) {
            Some(object) => is_of_kind(kind, &object.get().tree),
            None => false,
        }
    }
}

/// The record of the drop of an object.
fn gone_record(
    alloc: Global,
    e: EditionNo,
    kind: ObjectKind,
    key: ObjectKey,
    name: &Name,
) -> Result<CatalogueRecord, NoMemory>
    requires { key ≡ kinds_spec.key_of kind name.now }
    ensures { IfOk result (λ gone. gone ≡ spec.gone_record e kind name.now) }
{
    match kind {
        ObjectKind::Package => Ok(CatalogueRecord::PackageGone {
            edition: e,
            name: name.clone_in(alloc)?,
        }),
        _ => Ok(CatalogueRecord::ObjectGone { edition: e, key }),
    }
}

/// Whether a new object is enabled.
fn is_enabled(unit: &UnitTree) -> bool
    ensures { result ≡ spec.is_enabled unit.now }
{
    match unit {
        UnitTree::Trigger(trigger) => trigger.get().enabled,
        _ => true,
    }
}

/// The code where an object of a kind isn't there.
fn missing_code(kind: ObjectKind) -> Code
    ensures { result ≡ spec.missing_code kind }
{
    match kind {
        ObjectKind::Trigger => Code::Ora(4080),
        ObjectKind::View => Code::Ora(942),
        ObjectKind::Procedure
        | ObjectKind::Function
        | ObjectKind::Package
        | ObjectKind::PackageBody => Code::Ora(4043),
    }
}
