//! Targets of assignments, of INTO and of FETCH.

ghost use Rattle.std.specs.Prelude.{◌≡◌, [], drop};
ghost use Rattle.std.specs.Option.{option_copied};
ghost use Rattle.ebr_validity.specs.Targets as spec;
ghost use Rattle.ebr_rules.specs.Noted.{noted};
ghost use Rattle.ebr_scope.specs.Lent.{env};

use crate::expressions::images;
use crate::judge::{assigns, is_after};
use crate::verdict::must;
use ebr_ast::{Path, Target};
use ebr_base::{List, Name, Shared};
use ebr_fields::image_type;
use ebr_scope::{Field, Place, Scopes, meant, variable_type};
use ebr_sqlcheck::{ValueType, alike, type_in};

fn named(
    path: &Path,
    ty: Option<ValueType>,
    place: &Place<'_>,
    known: &Scopes<'_>,
    least: &mut Option<u8>,
)
    ensures { least.new ≡ noted (spec.target_sites (Target.Name path.now) ty (env place.now known.now)) least.old }
{
    let meaning = meant(place.seen, known, path);
    assigns(meaning, least);
    must(least, 4, alike(type_in(variable_type(meaning)), ty));
}

fn new_image(name: &Name, ty: Option<ValueType>, place: &Place<'_>, least: &mut Option<u8>)
    ensures { least.new ≡ noted (spec.target_sites (Target.New name.now) ty (env place.now [])) least.old }
{
    let column = image_type(name, place);
    images(column, place, least);
    must(least, 6, !is_after(place.timing));
    must(least, 4, alike(column, ty));
}

/// Judges a target of a value of a type.
pub fn target(
    it: &Target,
    ty: Option<ValueType>,
    place: &Place<'_>,
    known: &Scopes<'_>,
    least: &mut Option<u8>,
)
    ensures { least.new ≡ noted (spec.target_sites it.now ty (env place.now known.now)) least.old }
{
    match it {
        Target::Name(path) => named(path, ty, place, known, least),
        Target::New(name) => new_image(name, ty, place, least),
    }
}

fn first_type(fields: &[Field]) -> Option<ValueType>
    ensures { result ≡ spec.first_type fields.now }
{
    match fields.first() {
        Some(field) => field.ty,
        None => None,
    }
}

fn behind_first(fields: &[Field]) -> &[Field]
    ensures { result.now ≡ drop 1 fields.now }
{
    match fields.split_first() {
        Some((_, rest)) => rest,
        None => fields,
    }
}

/// Targets, each for the first of the columns that are left.
fn each_target(
    list: &[Target],
    fields: &[Field],
    place: &Place<'_>,
    known: &Scopes<'_>,
    least: &mut Option<u8>,
)
    ensures { least.new ≡ noted (spec.each_target list.now fields.now (env place.now known.now)) least.old }
{
    let mut rest = fields;
    for it in list {
        target(it, first_type(rest), place, known, least);
        rest = behind_first(rest);
    }
}

/// Judges the targets of a row of these columns.
pub fn into(
    fields: Option<&Shared<List<Field>>>,
    list: &[Target],
    place: &Place<'_>,
    known: &Scopes<'_>,
    least: &mut Option<u8>,
)
    ensures { least.new ≡ noted (spec.into (option_copied fields.entry) list.now (env place.now known.now)) least.old }
{
    match fields {
        Some(fields) => {
            must(least, 9, fields.get().len() == list.len());
            each_target(list, fields.get().as_slice(), place, known, least);
        }
        None => each_target(list, &[], place, known, least),
    }
}
