//! The names and the pragmas of one scope.

ghost use Rattle.std.specs.Prelude.{◌≡◌, ◌∷◌, ◌++◌, ◌||◌, [], ℕ, List as Sequence, false, Some, map, filter_map, IfOk, OnOk};
ghost use Rattle.std.specs.Option.{option_copied};
ghost use Rattle.std.specs.List.{list_all, list_any};
ghost use Rattle.std.specs.Str.{bytes_eq};
ghost use Rattle.ebr_names.specs.Headers.{declaration_in};
ghost use Rattle.ebr_validity.specs.Sites as site;
ghost use Rattle.ebr_validity.specs.Rules as rules;
ghost use Rattle.ebr_scope.specs.Declarations as declarations;
ghost use Rattle.ebr_validity.specs.Units as units;
ghost use Rattle.ebr_rules.specs.Noted.{noted};
ghost use Rattle.ebr_check.specs.inside.Names as inside;

use ebr_ast::{Decl, PackageItem, Parameter, Subprogram};
use ebr_base::{CloneIn, List, Name, NoMemory, Shared, rest_from};
use ebr_rules::must;
use ebr_scope::{Field, decl_name, item_name};
use indexmap::IndexSet;
use std::alloc::Global;
use std::hash::Hash;

/// Whether all names are different.
fn are_distinct(alloc: Global, names: &[&Name]) -> Result<bool, NoMemory>
    ensures { IfOk result (λ distinct. distinct ≡ rules.are_distinct (map (λ n. n.now) names.now)) }
{
    are_fresh(alloc, names)
}

/// Whether all keys are different. A set holds those so far.
pub fn are_fresh<K: Copy + Eq + Hash>(alloc: Global, keys: &[K]) -> Result<bool, NoMemory>
    ensures { IfOk result (λ fresh. fresh ≡ inside.are_fresh K.eq [] keys.now) }
{
    let mut before = IndexSet::new(alloc);
    for key in keys {
        if !before.insert(*key)? {
            return Ok(false);
        }
    }
    Ok(true)
}

/// The names that declarations declare.
fn declared<'a>(alloc: Global, list: &'a [Decl]) -> Result<List<&'a Name>, NoMemory>
    ensures { IfOk result (λ names. map (λ n. n.now) names ≡ filter_map declarations.decl_name list.now) }
{
    let mut names = List::new(alloc);
    for declaration in list {
        if let Some(name) = decl_name(declaration) {
            names.push(name)?;
        }
    }
    Ok(names)
}

/// The names of a block's declarations are different.
pub fn declares(alloc: Global, list: &[Decl], least: &mut Option<u8>) -> Result<(), NoMemory>
    ensures { OnOk result (least.new ≡ noted (site.Declares (filter_map declarations.decl_name list.now) ∷ []) least.old) }
{
    let names = declared(alloc, list)?;
    let distinct = are_distinct(alloc, names.as_slice())?;
    must(least, 5, distinct);
    Ok(())
}

/// The names of parameters are different.
pub fn declares_parameters(
    alloc: Global,
    list: &[Parameter],
    least: &mut Option<u8>,
) -> Result<(), NoMemory>
    ensures { OnOk result (least.new ≡ noted (site.Declares (map units.parameter_name list.now) ∷ []) least.old) }
{
    let mut names = List::new(alloc);
    for parameter in list {
        names.push(&parameter.name)?;
    }
    let distinct = are_distinct(alloc, names.as_slice())?;
    must(least, 5, distinct);
    Ok(())
}

/// The names of a specification are different.
pub fn declares_items(
    alloc: Global,
    list: &[PackageItem],
    least: &mut Option<u8>,
) -> Result<(), NoMemory>
    ensures { OnOk result (least.new ≡ noted (site.Declares (filter_map declarations.item_name list.now) ∷ []) least.old) }
{
    let mut names = List::new(alloc);
    for item in list {
        if let Some(name) = item_name(item) {
            names.push(name)?;
        }
    }
    let distinct = are_distinct(alloc, names.as_slice())?;
    must(least, 5, distinct);
    Ok(())
}

/// The names of a package's body, declarations and subprograms, are different.
pub fn declares_body(
    alloc: Global,
    list: &[Decl],
    subprograms: &[Subprogram],
    least: &mut Option<u8>,
) -> Result<(), NoMemory>
    ensures { OnOk result (least.new ≡ noted (site.Declares (filter_map declarations.decl_name list.now ++ map units.head_name (map units.head_of_subprogram subprograms.now)) ∷ []) least.old) }
{
    let mut names = declared(alloc, list)?;
    for subprogram in subprograms {
        names.push(&subprogram.head.name)?;
    }
    let distinct = are_distinct(alloc, names.as_slice())?;
    must(least, 5, distinct);
    Ok(())
}

/// The fields of a loop's record have different names.
pub fn loops(
    alloc: Global,
    fields: Option<&Shared<List<Field>>>,
    least: &mut Option<u8>,
) -> Result<(), NoMemory>
    ensures { OnOk result (least.new ≡ noted (site.Loops (option_copied fields.entry) ∷ []) least.old) }
{
    match fields {
        Some(fields) => differ(alloc, fields.get().as_slice(), least),
        None => Ok(()),
    }
}

fn differ(alloc: Global, fields: &[Field], least: &mut Option<u8>) -> Result<(), NoMemory>
    ensures { OnOk result (least.new ≡ noted (site.Loops (Some fields.now) ∷ []) least.old) }
{
    let mut names = List::new(alloc);
    for field in fields {
        if let Some(name) = &field.name {
            names.push(name)?;
        }
    }
    let distinct = are_distinct(alloc, names.as_slice())?;
    must(least, 9, distinct);
    Ok(())
}

// ---- pragmas

/// Declarations, lent.
fn lent(alloc: Global, list: &[Decl]) -> Result<List<&Decl>, NoMemory>
    ensures { IfOk result (λ lent. map (λ d. d.now) lent ≡ list.now) }
{
    let mut lent = List::new(alloc);
    for declaration in list {
        lent.push(declaration)?;
    }
    Ok(lent)
}

/// The declarations of a specification.
fn declarations_in(alloc: Global, items: &[PackageItem]) -> Result<List<&Decl>, NoMemory>
    ensures { IfOk result (λ lent. map (λ d. d.now) lent ≡ filter_map declaration_in items.now) }
{
    let mut lent = List::new(alloc);
    for item in items {
        if let PackageItem::Decl(declaration) = item {
            lent.push(declaration)?;
        }
    }
    Ok(lent)
}

fn is_autonomous(declaration: &Decl) -> bool
    ensures { result ≡ rules.is_autonomous declaration.now }
{
    match declaration {
        Decl::Autonomous => true,
        Decl::Variable { .. }
        | Decl::Exception(_)
        | Decl::ExceptionInit(_, _)
        | Decl::Cursor(_, _) => false,
    }
}

fn has_autonomous(list: &[&Decl]) -> bool
    ensures { result ≡ rules.has_autonomous (map (λ d. d.now) list.now) }
{
    for declaration in list {
        if is_autonomous(declaration) {
            return true;
        }
    }
    false
}

/// Whether AUTONOMOUS_TRANSACTION stands so often as it may: once at most, and not at all where it may not stand.
fn autonomous_stands(outermost: bool, list: &[&Decl]) -> bool
    ensures { result ≡ rules.autonomous_stands outermost (map (λ d. d.now) list.now) }
{
    for (at, declaration) in list.iter().enumerate() {
        if is_autonomous(declaration) {
            return outermost && !has_autonomous(rest_from(list, at + 1));
        }
    }
    true
}

/// The names of the exceptions among declarations.
fn exceptions(alloc: Global, list: &[&Decl]) -> Result<IndexSet<Name>, NoMemory>
    ensures { IfOk result (λ names. inside.HasExceptions (map (λ d. d.now) list.now) names.keys) }
{
    let mut names = IndexSet::new(alloc);
    for declaration in list {
        note(&mut names, declaration)?;
    }
    Ok(names)
}

/// Notes the name of an exception.
fn note(names: &mut IndexSet<Name>, declaration: &Decl) -> Result<(), NoMemory>
    ensures { OnOk result (inside.NotesException declaration.now names.old.keys names.new.keys) }
{
    match declaration {
        Decl::Exception(name) => put(names, name),
        Decl::Variable { .. } | Decl::ExceptionInit(_, _) | Decl::Autonomous | Decl::Cursor(_, _) =>
            { Ok(()) }
    }
}

fn put(names: &mut IndexSet<Name>, name: &Name) -> Result<(), NoMemory>
    ensures { OnOk result ((n : Sequence ℕ) → list_any (bytes_eq n) names.new.keys ≡ (bytes_eq n name.now || list_any (bytes_eq n) names.old.keys)) }
{
    let alloc = *names.allocator();
    let key = name.clone_in(alloc)?;
    names.insert(key)?;
    Ok(())
}

fn has_name(names: &IndexSet<Name>, name: &Name) -> bool
    ensures { result ≡ list_any (bytes_eq name.now) names.now.keys }
{
    names.contains(name)
}

/// Whether an exception may have a number.
fn is_exception_number(number: u64) -> bool
    ensures { result ≡ rules.is_exception_number number }
{
    1 <= number && number <= 20999 && number != 1403
}

fn init_stands(exceptions: &IndexSet<Name>, declaration: &Decl) -> bool
    ensures { result ≡ inside.init_stands exceptions.now.keys declaration.now }
{
    match declaration {
        Decl::ExceptionInit(name, number) => {
            is_exception_number(*number) && has_name(exceptions, name)
        }
        Decl::Variable { .. } | Decl::Exception(_) | Decl::Autonomous | Decl::Cursor(_, _) => true,
    }
}

fn inits_stand(exceptions: &IndexSet<Name>, list: &[&Decl]) -> bool
    ensures { result ≡ list_all (inside.init_stands exceptions.now.keys) (map (λ d. d.now) list.now) }
{
    for declaration in list {
        if !init_stands(exceptions, declaration) {
            return false;
        }
    }
    true
}

/// Whether the pragmas among declarations stand where they may.
#[tactic(auto, using(crate::proofs::Exceptions::all_stand))]
fn all_stand(alloc: Global, outermost: bool, list: &[&Decl]) -> Result<bool, NoMemory>
    ensures { IfOk result (λ stand. stand ≡ rules.pragmas_stand (site.Pragmas outermost (map (λ d. d.now) list.now))) }
{
    let names = exceptions(alloc, list)?;
    Ok(autonomous_stands(outermost, list) && inits_stand(&names, list))
}

fn lent_pragmas(
    alloc: Global,
    outermost: bool,
    list: &[&Decl],
    least: &mut Option<u8>,
) -> Result<(), NoMemory>
    ensures { OnOk result (least.new ≡ noted (site.Pragmas outermost (map (λ d. d.now) list.now) ∷ []) least.old) }
{
    let stand = all_stand(alloc, outermost, list)?;
    must(least, 10, stand);
    Ok(())
}

/// The pragmas among declarations.
pub fn pragmas(
    alloc: Global,
    outermost: bool,
    list: &[Decl],
    least: &mut Option<u8>,
) -> Result<(), NoMemory>
    ensures { OnOk result (least.new ≡ noted (site.Pragmas outermost list.now ∷ []) least.old) }
{
    let lent = lent(alloc, list)?;
    lent_pragmas(alloc, outermost, lent.as_slice(), least)
}

/// The pragmas of a specification.
pub fn item_pragmas(
    alloc: Global,
    list: &[PackageItem],
    least: &mut Option<u8>,
) -> Result<(), NoMemory>
    ensures { OnOk result (least.new ≡ noted (site.Pragmas false (filter_map declaration_in list.now) ∷ []) least.old) }
{
    let lent = declarations_in(alloc, list)?;
    lent_pragmas(alloc, false, lent.as_slice(), least)
}
