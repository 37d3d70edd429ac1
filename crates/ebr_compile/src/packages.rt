//! The units of packages.

ghost use Rattle.std.specs.Prelude.{◌≡◌, ◌||◌, ◌++◌, [], suc, map, filter_map, Some, IfOk, OnOk};
ghost use Rattle.std.specs.List.{list_any};
ghost use Rattle.ebr_scope.specs.Names.{visible_items};
ghost use Rattle.ebr_run.specs.Scope.{body_key, declaration_in, part, with_subprograms};
ghost use Rattle.ebr_run.specs.Statements.{with_decls, with_decls_among};
ghost use Rattle.ebr_run.specs.Units as run;
ghost use Rattle.ebr_code.specs.Codes as codes;
ghost use Rattle.ebr_code.specs.Units as spec;
ghost use Rattle.ebr_compile.specs.inside.Items as inside;

use crate::held::{release, value_if_done, without};
use crate::units::{key_of, subprogram};
use ebr_ast::{Decl, PackageBody, PackageItem, Subprogram, Subprograms};
use ebr_base::{Class, CloneIn, List, Name, NoMemory, Shared};
use ebr_code::{Initial, Instruction, Unit};
use ebr_places::{Around, Codes};
use ebr_scope::{Seen, visible_items};
use ebr_stmtcode::{declaration, declarations, guarded, next};
use std::alloc::Global;

fn is_state(it: &Decl) -> bool
    ensures { result ≡ run.is_state it.now }
{
    match it {
        Decl::Variable { .. } => true,
        Decl::Cursor(_, _) => true,
        Decl::Exception(_) | Decl::ExceptionInit(_, _) | Decl::Autonomous => false,
    }
}

fn has_state(list: &[Decl]) -> bool
    ensures { result ≡ run.has_state list.now }
{
    list.iter().any(|it| is_state(it))
}

fn item_is_state(item: &PackageItem) -> bool
    ensures { result ≡ inside.item_is_state item.now }
{
    match item {
        PackageItem::Decl(it) => is_state(it),
        PackageItem::Head(_) => false,
    }
}

fn any_state(items: &[PackageItem]) -> bool
    ensures { result ≡ list_any inside.item_is_state items.now }
{
    items.iter().any(|item| item_is_state(item))
}

/// Whether a specification declares a variable, a constant or a cursor.
#[tactic(auto, using(crate::proofs::Frames::any_state_is))]
fn items_have_state(items: &[PackageItem]) -> bool
    ensures { result ≡ run.has_state (filter_map declaration_in items.now) }
{
    any_state(items)
}

/// Adds the code of a specification's declarations, and makes their names known.
fn item_declarations<'a>(
    alloc: Global,
    items: &'a [PackageItem],
    around: &mut Around<'a>,
    out: &mut List<Instruction>,
) -> Result<(), NoMemory>
    ensures code { OnOk result (out.new ≡ out.old ++ codes.decls_code (filter_map declaration_in items.now) around.old) }
    ensures around { OnOk result (around.new ≡ with_decls (filter_map declaration_in items.now) around.old) }
{
    let among = Codes::of_items(alloc, items)?;
    let done = items_declared(alloc, items, &among, around, out);
    without(among, done)
}

/// Adds the code of a specification's declarations, which stand among others, and makes their names known.
fn items_declared<'a>(
    alloc: Global,
    items: &'a [PackageItem],
    among: &Codes<'_>,
    around: &mut Around<'a>,
    out: &mut List<Instruction>,
) -> Result<(), NoMemory>
    ensures code { OnOk result (out.new ≡ out.old ++ codes.decls_code_among among.now (filter_map declaration_in items.now) around.old) }
    ensures around { OnOk result (around.new ≡ with_decls_among among.now (filter_map declaration_in items.now) around.old) }
{
    for item in items {
        if let PackageItem::Decl(it) = item {
            declaration(alloc, it, among, around, out)?;
        }
    }
    Ok(())
}

/// Where a package's declarations begin.
fn in_specification<'a>(
    alloc: Global,
    name: &Name,
    items: &'a [PackageItem],
    seen: &'a Seen<'a>,
) -> Result<Around<'a>, NoMemory>
    ensures { IfOk result (λ around. around ≡ run.in_specification seen.now.view name.now items.now) }
{
    let key = key_of(alloc, Class::Unit, name)?;
    let owner = name.clone_in(alloc)?;
    let mut around = Around::outside(alloc, seen, Some(key));
    around.set_owner(owner);
    let done = around.add_heads(alloc, name, items);
    value_if_done(around, done)
}

/// How a package's state is made by its specification.
fn made<'a>(
    alloc: Global,
    items: &'a [PackageItem],
    around: &mut Around<'a>,
) -> Result<Initial, NoMemory>
    ensures { IfOk result (λ initial. initial ≡ record { stateful = run.has_state (filter_map declaration_in items.now); code = codes.decls_code (filter_map declaration_in items.now) around.old }) }
{
    let mut code = List::new(alloc);
    item_declarations(alloc, items, around, &mut code)?;
    Ok(Initial {
        code: Shared::new(alloc, code)?,
        stateful: items_have_state(items),
    })
}

/// The unit of a package's specification.
pub fn package_unit<'a>(
    alloc: Global,
    name: &Name,
    items: &'a [PackageItem],
    seen: &'a Seen<'a>,
) -> Result<Unit, NoMemory>
    ensures { IfOk result (λ unit. unit ≡ record { subprograms = []; initial = Some (spec.specification_initial seen.now.view name.now items.now) }) }
{
    let mut around = in_specification(alloc, name, items, seen)?;
    let initial = made(alloc, items, &mut around);
    let initial = without(around, initial)?;
    Ok(Unit {
        subprograms: List::new(alloc),
        initial: Some(initial),
    })
}

/// A subprogram of a body, with its place.
fn packaged<'a>(
    alloc: Global,
    it: &'a Subprogram,
    at: usize,
    around: &mut Around<'a>,
) -> Result<ebr_code::Subprogram, NoMemory>
    ensures subprogram { IfOk result (λ s. s ≡ spec.subprogram_code (part (suc at) around.old) it.now) }
    ensures around { OnOk result (around.new ≡ around.old) }
{
    around.enter_part(next(at)?)?;
    let found = subprogram(alloc, it, around)?;
    around.leave_part();
    Ok(found)
}

/// The subprograms of a body.
fn subprograms<'a>(
    alloc: Global,
    list: &'a Subprograms,
    around: &mut Around<'a>,
) -> Result<List<ebr_code::Subprogram>, NoMemory>
    ensures subprograms { IfOk result (λ found. found ≡ spec.subprograms_code 0 list.now around.old) }
    ensures around { OnOk result (around.new ≡ around.old) }
{
    let mut found = List::new(alloc);
    for (at, it) in list.as_slice().iter().enumerate() {
        found.push(packaged(alloc, it, at, around)?)?;
    }
    Ok(found)
}

/// Adds the code of a specification's declarations, and makes its names known, and the subprograms of its body.
fn add_body<'a>(
    alloc: Global,
    it: &'a PackageBody,
    items: &'a [PackageItem],
    around: &mut Around<'a>,
    out: &mut List<Instruction>,
) -> Result<(), NoMemory>
    ensures code { OnOk result (out.new ≡ out.old ++ codes.decls_code (filter_map declaration_in items.now) around.old) }
    ensures around { OnOk result (around.new ≡ with_subprograms it.now.name 0 it.now.subprograms (record (with_decls (filter_map declaration_in items.now) around.old) { unit = Some (body_key it.now.name) })) }
{
    item_declarations(alloc, items, around, out)?;
    let key = key_of(alloc, Class::Body, &it.name)?;
    around.set_unit(key);
    around.add_subprograms(alloc, &it.name, it.subprograms.as_slice())
}

/// Where a body's declarations begin: behind those of the specification, whose code is added, with all subprograms known.
fn in_body<'a>(
    alloc: Global,
    it: &'a PackageBody,
    seen: &'a Seen<'a>,
    out: &mut List<Instruction>,
) -> Result<Around<'a>, NoMemory>
    ensures code { OnOk result (out.new ≡ out.old ++ spec.specification_code seen.now.view it.now.name (visible_items seen.now.view it.now.name)) }
    ensures around { IfOk result (λ around. around ≡ run.in_package_body seen.now.view it.now) }
{
    let items = visible_items(seen, &it.name);
    let mut around = in_specification(alloc, &it.name, items, seen)?;
    let done = add_body(alloc, it, items, &mut around, out);
    value_if_done(around, done)
}

/// Adds the code of a body's initial part, which has variables and cursors of its own.
fn initial_part<'a>(
    alloc: Global,
    it: &'a PackageBody,
    around: &mut Around<'a>,
    out: &mut List<Instruction>,
) -> Result<(), NoMemory>
    ensures { OnOk result (out.new ≡ out.old ++ codes.guarded_code (map codes.stmt_code it.now.statements) (map codes.handler_code it.now.handlers) (run.in_initial_part around.old)) }
{
    around.enter_part(0)?;
    release(around.enter_frame());
    guarded(alloc, &it.statements, &it.handlers, around, out)
}

/// Whether a body or its specification declares a variable, a constant or a cursor.
fn body_has_state(it: &PackageBody, seen: &Seen<'_>) -> bool
    ensures { result ≡ (run.has_state (filter_map declaration_in (visible_items seen.now.view it.now.name)) || run.has_state it.now.declarations) }
{
    items_have_state(visible_items(seen, &it.name)) || has_state(it.declarations.as_slice())
}

/// The subprograms of a body, and the code of its declarations and its initial part.
fn body_parts<'a>(
    alloc: Global,
    it: &'a PackageBody,
    around: &mut Around<'a>,
    out: &mut List<Instruction>,
) -> Result<List<ebr_code::Subprogram>, NoMemory>
    ensures subprograms { IfOk result (λ found. found ≡ spec.subprograms_code 0 it.now.subprograms (with_decls it.now.declarations around.old)) }
    ensures code { OnOk result (out.new ≡ out.old ++ (codes.decls_code it.now.declarations around.old ++ codes.guarded_code (map codes.stmt_code it.now.statements) (map codes.handler_code it.now.handlers) (run.in_initial_part (with_decls it.now.declarations around.old)))) }
{
    declarations(alloc, it.declarations.as_slice(), around, out)?;
    let found = subprograms(alloc, &it.subprograms, around)?;
    initial_part(alloc, it, around, out)?;
    Ok(found)
}

/// The unit of a package's body.
pub fn body_unit<'a>(
    alloc: Global,
    it: &'a PackageBody,
    seen: &'a Seen<'a>,
) -> Result<Unit, NoMemory>
    ensures { IfOk result (λ unit. unit ≡ record { subprograms = spec.subprograms_code 0 it.now.subprograms (run.behind_body seen.now.view it.now); initial = Some (spec.body_initial seen.now.view it.now) }) }
{
    let mut code = List::new(alloc);
    let mut around = in_body(alloc, it, seen, &mut code)?;
    let found = body_parts(alloc, it, &mut around, &mut code);
    let subprograms = without(around, found)?;
    let code = Shared::new(alloc, code)?;
    Ok(Unit {
        subprograms,
        initial: Some(Initial {
            stateful: body_has_state(it, seen),
            code,
        }),
    })
}
