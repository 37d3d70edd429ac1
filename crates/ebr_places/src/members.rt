//! Members of packages, and subprograms that the edition sees.

ghost use Rattle.std.specs.Prelude.{◌≡◌, [], Some, IfOk, option_map};
ghost use Rattle.std.specs.List.{filter_map, position};
ghost use Rattle.std.specs.Option.{option_copied, unwrap_or};
ghost use Rattle.ebr_ast.specs.Views.{unit_key};
ghost use Rattle.ebr_run.specs.Scope as spec;
ghost use Rattle.ebr_run.specs.declared.place.Location.TheVariants as place;
ghost use Rattle.ebr_places.specs.Lent.{lent};
ghost use Rattle.ebr_places.specs.inside.Members as inside;

use crate::denoted::Denoted;
use crate::exceptions::declared_exception;
use crate::kinds::declared_type;
use ebr_ast::{Decl, DeclaredType, Head, PackageItem, PackageItems, Subprograms, UnitTree};
use ebr_base::{Class, CloneIn, Name, NoMemory, ObjectKey};
use ebr_names::object;
use ebr_run::Location;
use ebr_scope::{Seen, item_named, visible_package};
use std::alloc::Global;

/// The subprograms of the visible body of a package; none where there is no such body.
fn visible_subprograms<'a>(seen: &Seen<'a>, owner: &Name) -> Option<&'a Subprograms>
    ensures { unwrap_or (option_copied result) [] ≡ spec.visible_subprograms seen.now.view owner.now }
{
    match object(seen.get(), Class::Body, owner) {
        Some(object) => subprograms_of(&object.tree),
        None => None,
    }
}

fn subprograms_of(tree: &UnitTree) -> Option<&Subprograms>
    ensures { unwrap_or (option_copied result) [] ≡ spec.subprograms_of tree.now }
{
    match tree {
        UnitTree::PackageBody(body) => Some(&body.get().subprograms),
        _ => None,
    }
}

/// The place of a subprogram in the visible body of a package.
fn place_of(seen: &Seen<'_>, owner: &Name, name: &Name) -> Option<usize>
    ensures { result ≡ position (spec.is_subprogram_named name.now) (spec.visible_subprograms seen.now.view owner.now) }
{
    match visible_subprograms(seen, owner) {
        Some(list) => list.place(name),
        None => None,
    }
}

/// A subprogram at a place of a unit.
pub fn subprogram_of<'a>(
    alloc: Global,
    class: Class,
    name: &Name,
    at: usize,
    head: &'a Head,
) -> Result<Denoted<'a>, NoMemory>
    ensures { IfOk result (λ d. lent d ≡ spec.Subprogram (record { class = class; name = name.now }) at head.now) }
{
    let name = name.clone_in(alloc)?;
    Ok(Denoted::Subprogram(ObjectKey { class, name }, at, head))
}

/// A subprogram of a package, as its visible body has it.
pub fn packaged<'a>(
    alloc: Global,
    seen: &Seen<'_>,
    owner: &Name,
    head: &'a Head,
) -> Result<Denoted<'a>, NoMemory>
    ensures { IfOk result (λ d. lent d ≡ spec.packaged seen.now.view owner.now head.now) }
{
    let at = place_of(seen, owner, &head.name);
    subprogram_of(alloc, Class::Body, owner, at.unwrap_or(0), head)
}

/// The declaration of an item.
pub fn declaration_in(item: &PackageItem) -> Option<&Decl>
    ensures { option_copied result ≡ spec.declaration_in item.now }
{
    match item {
        PackageItem::Decl(declaration) => Some(declaration),
        PackageItem::Head(_) => None,
    }
}

/// How many variables and constants stand before a name.
#[tactic(auto, using(crate::proofs::Items::same_variables))]
fn variables_before(items: &PackageItems, name: &Name) -> usize
    ensures { result ≡ spec.variables_before name.now (filter_map spec.declaration_in items.now) }
{
    items.variables_before(name)
}

fn variable_of<'a>(
    alloc: Global,
    seen: &Seen<'_>,
    owner: &Name,
    at: usize,
    ty: &DeclaredType,
) -> Result<Option<Denoted<'a>>, NoMemory>
    ensures { IfOk result (λ d. option_map lent d ≡ Some (spec.Variable (place.Member owner.now at) (Some (spec.declared_type seen.now.view ty.now)))) }
{
    let ty = declared_type(alloc, seen, ty)?;
    let owner = owner.clone_in(alloc)?;
    Ok(Some(Denoted::Variable(Location::Member(owner, at), Some(ty))))
}

/// The code that EXCEPTION_INIT gives an exception of a package.
#[tactic(auto, using(crate::proofs::Items::same_code))]
fn code_given(items: &PackageItems, name: &Name) -> Option<u64>
    ensures { result ≡ spec.code_given name.now (filter_map spec.declaration_in items.now) }
{
    items.code_given(name)
}

fn exception_of<'a>(
    alloc: Global,
    owner: &Name,
    items: &PackageItems,
    name: &Name,
) -> Result<Option<Denoted<'a>>, NoMemory>
    ensures { IfOk result (λ d. option_map lent d ≡ Some (spec.Exception (Some owner.now) (spec.declared_exception (Some (unit_key owner.now)) [] name.now (filter_map spec.declaration_in items.now)))) }
{
    let unit = Some(ObjectKey {
        class: Class::Unit,
        name: owner.clone_in(alloc)?,
    });
    let fault = declared_exception(alloc, &unit, &[], name, code_given(items, name))?;
    Ok(Some(Denoted::Exception(Some(owner.clone_in(alloc)?), fault)))
}

fn member_of_decl<'a>(
    alloc: Global,
    seen: &Seen<'a>,
    owner: &Name,
    items: &PackageItems,
    declaration: &Decl,
) -> Result<Option<Denoted<'a>>, NoMemory>
    ensures { IfOk result (λ d. option_map lent d ≡ spec.member_of_decl seen.now.view owner.now (filter_map spec.declaration_in items.now) declaration.now) }
{
    match declaration {
        Decl::Variable { name, ty, .. } => {
            variable_of(alloc, seen, owner, variables_before(items, name), ty)
        }
        Decl::Exception(name) => exception_of(alloc, owner, items, name),
        Decl::ExceptionInit(_, _) | Decl::Autonomous | Decl::Cursor(_, _) => Ok(None),
    }
}

fn member_of_item<'a>(
    alloc: Global,
    seen: &Seen<'a>,
    owner: &Name,
    items: &PackageItems,
    item: &'a PackageItem,
) -> Result<Option<Denoted<'a>>, NoMemory>
    ensures { IfOk result (λ d. option_map lent d ≡ spec.member_of_item seen.now.view owner.now (filter_map spec.declaration_in items.now) item.now) }
{
    match item {
        PackageItem::Decl(declaration) => member_of_decl(alloc, seen, owner, items, declaration),
        PackageItem::Head(head) => Ok(Some(packaged(alloc, seen, owner, head)?)),
    }
}

/// What a package, of which these are the items, has under a name.
fn member_in<'a>(
    alloc: Global,
    seen: &Seen<'a>,
    owner: &Name,
    items: &'a PackageItems,
    name: &Name,
) -> Result<Option<Denoted<'a>>, NoMemory>
    ensures { IfOk result (λ d. option_map lent d ≡ inside.member_in seen.now.view owner.now items.now name.now) }
{
    match item_named(items, name) {
        Some(item) => member_of_item(alloc, seen, owner, items, item),
        None => Ok(None),
    }
}

/// `p.m` as a member of the visible package p.
pub fn member<'a>(
    alloc: Global,
    seen: &Seen<'a>,
    owner: &Name,
    name: &Name,
) -> Result<Option<Denoted<'a>>, NoMemory>
    ensures { IfOk result (λ d. option_map lent d ≡ spec.member seen.now.view owner.now name.now) }
{
    match visible_package(seen, owner) {
        Some(items) => member_in(alloc, seen, owner, items, name),
        None => Ok(None),
    }
}
