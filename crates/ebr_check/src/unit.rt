//! Units.

ghost use Rattle.std.specs.Prelude.{◌≡◌, [], map, filter_map, OnOk, IfOk, option_map};
ghost use Rattle.ebr_base.specs.Answers.{Answers};
ghost use Rattle.ebr_base.specs.Keys.{table_named};
ghost use Rattle.ebr_names.specs.Columns as names;
ghost use Rattle.ebr_names.specs.Headers.{head_in, declaration_in};
ghost use Rattle.ebr_scope.specs.Around.{outside};
ghost use Rattle.ebr_validity.specs.Statements.{with_decls};
ghost use Rattle.ebr_validity.specs.Units as spec;
ghost use Rattle.ebr_scope.specs.Declarations as declared;
ghost use Rattle.ebr_rules.specs.Noted.{noted};
ghost use Rattle.ebr_scope.specs.Lent.{env};

use crate::declaration::{add_parameters, declaration, declarations, head_types};
use crate::package::{implements, specifies};
use crate::scope::{declares_body, declares_items, declares_parameters, item_pragmas, pragmas};
use crate::statement::{block, handlers, statements};
use ebr_ast::{Head, PackageBody, PackageItem, ParameterType, Subprogram, Trigger, UnitTree};
use ebr_base::{CloneIn, Code, Column, List, Name, NoMemory, Stop};
use ebr_names::{ViewColumn, columns, table};
use ebr_rules::must;
use ebr_scope::{Meaning, Place, Scopes, Seen, parameter_type, visible_items};
use ebr_sqlcheck::ValueType;
use std::alloc::Global;

/// Judges a head.
fn head(alloc: Global, it: &Head, place: &Place<'_>, least: &mut Option<u8>) -> Result<(), NoMemory>
    ensures { OnOk result (least.new ≡ noted (spec.head_sites it.now (env place.now [])) least.old) }
{
    declares_parameters(alloc, it.parameters.as_slice(), least)?;
    head_types(it, place, least);
    Ok(())
}

/// What a subprogram gives; none where it is a procedure.
fn result_type(ty: &Option<ParameterType>, seen: &Seen<'_>) -> Option<Option<ValueType>>
    ensures { result ≡ option_map (declared.parameter_type seen.now.view) ty.now }
{
    match ty {
        Some(ty) => Some(parameter_type(seen, ty)),
        None => None,
    }
}

/// Judges a procedure or a function.
fn subprogram<'a>(
    alloc: Global,
    it: &'a Subprogram,
    place: &Place<'a>,
    known: &mut Scopes<'a>,
    least: &mut Option<u8>,
) -> Result<(), NoMemory>
    ensures least { OnOk result (least.new ≡ noted (spec.subprogram_sites it.now (env place.now known.old)) least.old) }
    ensures known { OnOk result (known.new ≡ known.old) }
{
    head(alloc, &it.head, place, least)?;
    let depth = known.depth();
    add_parameters(it.head.parameters.as_slice(), place, known)?;
    let inner = place.within_subprogram(result_type(&it.head.result, place.seen));
    block(alloc, &it.body, &inner, known, least)?;
    known.cut(depth);
    Ok(())
}

fn subprograms<'a>(
    alloc: Global,
    list: &'a [Subprogram],
    place: &Place<'a>,
    known: &mut Scopes<'a>,
    least: &mut Option<u8>,
) -> Result<(), NoMemory>
    ensures least { OnOk result (least.new ≡ noted (spec.subprograms_sites list.now (env place.now known.old)) least.old) }
    ensures known { OnOk result (known.new ≡ known.old) }
{
    for it in list {
        subprogram(alloc, it, place, known, least)?;
    }
    Ok(())
}

// ---- packages

/// Makes the subprograms of a specification known.
fn add_heads<'a>(items: &'a [PackageItem], known: &mut Scopes<'a>) -> Result<(), NoMemory>
    ensures { OnOk result (known.new ≡ declared.with_heads (filter_map head_in items.now) known.old) }
{
    for item in items {
        if let PackageItem::Head(head) = item {
            known.add(&head.name, Meaning::Subprogram(head))?;
        }
    }
    Ok(())
}

/// Judges an item of a specification, and makes its declaration known.
fn item<'a>(
    alloc: Global,
    it: &'a PackageItem,
    place: &Place<'a>,
    known: &mut Scopes<'a>,
    least: &mut Option<u8>,
) -> Result<(), NoMemory>
    ensures least { OnOk result (least.new ≡ noted (spec.item_sites it.now (env place.now known.old)) least.old) }
    ensures known { OnOk result (known.new ≡ spec.with_item it.now (env place.now known.old)) }
{
    match it {
        PackageItem::Decl(it) => declaration(alloc, it, place, known, least),
        PackageItem::Head(it) => head(alloc, it, place, least),
    }
}

fn items<'a>(
    alloc: Global,
    list: &'a [PackageItem],
    place: &Place<'a>,
    known: &mut Scopes<'a>,
    least: &mut Option<u8>,
) -> Result<(), NoMemory>
    ensures least { OnOk result (least.new ≡ noted (spec.items_sites list.now (env place.now known.old)) least.old) }
    ensures known { OnOk result (known.new ≡ with_decls (filter_map declaration_in list.now) (env place.now known.old)) }
{
    for it in list {
        item(alloc, it, place, known, least)?;
    }
    Ok(())
}

/// Judges a package's specification.
fn package<'a>(
    alloc: Global,
    list: &'a [PackageItem],
    place: &Place<'a>,
    known: &mut Scopes<'a>,
    least: &mut Option<u8>,
) -> Result<(), NoMemory>
    ensures { OnOk result (least.new ≡ noted (spec.package_sites list.now (env place.now known.old)) least.old) }
{
    specifies(list, least);
    declares_items(alloc, list, least)?;
    item_pragmas(alloc, list, least)?;
    add_heads(list, known)?;
    items(alloc, list, place, known, least)
}

/// Makes all names of a specification known. What is found there is no fault of the body.
fn add_specification<'a>(
    alloc: Global,
    list: &'a [PackageItem],
    place: &Place<'a>,
    known: &mut Scopes<'a>,
) -> Result<(), NoMemory>
    ensures { OnOk result (env place.now known.new ≡ spec.behind_specification list.now (env place.now known.old)) }
{
    add_heads(list, known)?;
    let mut ignored = None;
    items(alloc, list, place, known, &mut ignored)
}

/// Makes the subprograms of a body known.
fn add_subprograms<'a>(list: &'a [Subprogram], known: &mut Scopes<'a>) -> Result<(), NoMemory>
    ensures { OnOk result (known.new ≡ declared.with_heads (map spec.head_of_subprogram list.now) known.old) }
{
    for it in list {
        known.add(&it.head.name, Meaning::Subprogram(&it.head))?;
    }
    Ok(())
}

/// Judges what stands in a package's body.
fn body_parts<'a>(
    alloc: Global,
    it: &'a PackageBody,
    place: &Place<'a>,
    known: &mut Scopes<'a>,
    least: &mut Option<u8>,
) -> Result<(), NoMemory>
    ensures { OnOk result (least.new ≡ noted (spec.body_parts it.now (env place.now known.old)) least.old) }
{
    declarations(alloc, it.declarations.as_slice(), place, known, least)?;
    subprograms(alloc, it.subprograms.as_slice(), place, known, least)?;
    let inner = place.within_block();
    statements(alloc, &it.statements, &inner, known, least)?;
    handlers(alloc, &it.handlers, &inner, known, least)
}

/// Judges a package's body.
fn package_body<'a>(
    alloc: Global,
    it: &'a PackageBody,
    place: &Place<'a>,
    known: &mut Scopes<'a>,
    least: &mut Option<u8>,
) -> Result<(), NoMemory>
    ensures { OnOk result (least.new ≡ noted (spec.package_body_sites it.now (env place.now known.old)) least.old) }
{
    let list = it.declarations.as_slice();
    implements(it, place.seen, least);
    declares_body(alloc, list, it.subprograms.as_slice(), least)?;
    pragmas(alloc, false, list, least)?;
    add_specification(alloc, visible_items(place.seen, &it.name), place, known)?;
    let inner = place.within_package(&it.name, known.depth());
    add_subprograms(it.subprograms.as_slice(), known)?;
    body_parts(alloc, it, &inner, known, least)
}

// ---- triggers

/// The columns of a table; it finds no memory where there are more than 65,536.
fn table_columns(alloc: Global, list: &[Column]) -> Result<List<ViewColumn>, NoMemory>
    ensures { IfOk result (λ found. found ≡ names.table_columns 0 list.now) }
{
    let mut found = List::new(alloc);
    for (place, column) in list.iter().enumerate() {
        if place > 65535 {
            return Err(NoMemory);
        }
        let name = column.name.clone_in(alloc)?;
        found.push(ViewColumn {
            name,
            place: place as u16,
            ty: column.ty,
        })?;
    }
    Ok(found)
}

/// The columns of the table of a name.
fn columns_of_table(alloc: Global, on: &Name, seen: &Seen<'_>) -> Result<List<ViewColumn>, Stop>
    ensures { Answers result (names.columns_of_table (table_named on.now seen.now.view.tables)) }
{
    match table(seen.get(), on) {
        Some(def) => Ok(table_columns(alloc, def.columns.as_slice())?),
        None => Err(Stop::Raised(Code::Ora(942))),
    }
}

/// The columns of what a trigger is on; a crossedition trigger is on a table.
pub fn row_columns(alloc: Global, it: &Trigger, seen: &Seen<'_>) -> Result<List<ViewColumn>, Stop>
    ensures { Answers result (spec.row_columns seen.now.view it.now it.now.crossedition) }
{
    match it.crossedition {
        Some(_) => columns_of_table(alloc, &it.on, seen),
        None => columns(alloc, seen.get(), &it.on),
    }
}

/// Judges the body of a trigger over the columns of what it is on.
fn trigger_over(
    alloc: Global,
    it: &Trigger,
    list: &[ViewColumn],
    seen: &Seen<'_>,
    least: &mut Option<u8>,
) -> Result<(), NoMemory>
    ensures { OnOk result (least.new ≡ noted (spec.trigger_body it.now list.now (outside seen.now.view)) least.old) }
{
    let place = Place::outside(seen).within_trigger(it.timing, list);
    let mut known = Scopes::new(alloc);
    block(alloc, &it.body, &place, &mut known, least)
}

/// Judges a trigger.
fn trigger(
    alloc: Global,
    it: &Trigger,
    seen: &Seen<'_>,
    least: &mut Option<u8>,
) -> Result<(), NoMemory>
    ensures { OnOk result (least.new ≡ noted (spec.unit_sites (UnitTree.Trigger it.now) (outside seen.now.view)) least.old) }
{
    match row_columns(alloc, it, seen) {
        Ok(list) => trigger_over(alloc, it, list.as_slice(), seen, least),
        Err(Stop::Raised(_)) => {
            must(least, 12, false);
            trigger_over(alloc, it, &[], seen, least)
        }
        Err(Stop::NoMemory) => Err(NoMemory),
    }
}

// ---- units

/// What was found, when the names that it was found with are no longer wanted. It is generic, so that these are dropped by
/// one call.
fn without<T: Drop, R>(_held: T, found: R) -> R
    ensures { result ≡ found }
{
    found
}

/// Judges a unit, around which no names are known.
fn unit_within<'a>(
    alloc: Global,
    it: &'a UnitTree,
    seen: &'a Seen<'a>,
    known: &mut Scopes<'a>,
    least: &mut Option<u8>,
) -> Result<(), NoMemory>
    requires { known.old ≡ [] }
    ensures { OnOk result (least.new ≡ noted (spec.sites_in seen.now.view it.now) least.old) }
{
    let place = Place::outside(seen);
    match it {
        UnitTree::Subprogram(it) => subprogram(alloc, it.get(), &place, known, least),
        UnitTree::Package(_, list) => package(alloc, list.get().as_slice(), &place, known, least),
        UnitTree::PackageBody(it) => package_body(alloc, it.get(), &place, known, least),
        UnitTree::Trigger(it) => trigger(alloc, it.get(), seen, least),
        UnitTree::View(_) => Ok(()),
        UnitTree::Block(it) => block(alloc, it.get(), &place, known, least),
    }
}

/// Judges a unit.
pub fn unit<'a>(
    alloc: Global,
    it: &'a UnitTree,
    seen: &'a Seen<'a>,
    least: &mut Option<u8>,
) -> Result<(), NoMemory>
    ensures { OnOk result (least.new ≡ noted (spec.sites_in seen.now.view it.now) least.old) }
{
    let mut known = Scopes::new(alloc);
    let done = unit_within(alloc, it, seen, &mut known, least);
    without(known, done)
}
