//! The lists of packages, with what look-ups by a name want of them.

ghost use Rattle.std.specs.Prelude.{◌≡◌, [], true, IfOk, OnOk, find};
ghost use Rattle.std.specs.List.{position};
ghost use Rattle.std.specs.Option.{option_copied};
ghost use Rattle.std.specs.Result.{is_ok};
ghost use Rattle.ebr_ast.specs.Members as spec;
ghost use Rattle.ebr_ast.specs.inside.Notes as inside;

use crate::notes::{note_first, note_last, noted};
use crate::statement::Decl;
use crate::unit::{PackageItem, Subprogram};
use ebr_base::{List, Name, NoMemory, Shared};
use indexmap::IndexMap;
use std::alloc::Global;
use std::marker::Model;

/// The items of a package's specification, which contracts see as their list. No look-up by a name goes through the list.
#[derive(Drop)]
pub struct PackageItems {
    list: List<PackageItem>,
    notes: ItemNotes,
}

/// What is noted of the names of items.
#[derive(Drop)]
struct ItemNotes {
    /// The place of the first item of each name.
    places: IndexMap<Name, usize>,
    /// How many variables and constants stand before the first declaration of each name.
    before: IndexMap<Name, usize>,
    /// How many variables and constants there are.
    variables: usize,
    /// The code that each exception is given last.
    codes: IndexMap<Name, u64>,
}

impl Model for PackageItems {
    ghost use Rattle.std.specs.Prelude.{List as Sequence};
    ghost use Rattle.std.specs.Coded.{coded_list};
    ghost use Rattle.ebr_ast.specs.declared.unit.PackageItem.{PackageItem as Item};
    ghost use Rattle.ebr_ast.specs.contracts.unit.PackageItem as i;
    ghost use Rattle.ebr_ast.specs.inside.Notes.{AreNoted};

    ghost Value = { Sequence Item };

    ghost coded = { coded_list i.the_row.coded };

    ghost view = { λ s. s.list };

    ghost invariant = { λ s. AreNoted s.list s.notes.places.entries s.notes.before.entries s.notes.variables s.notes.codes.entries };
}

impl PackageItems {
    /// A list, made shareable, with what is noted of its names.
    pub fn shared(alloc: Global, list: List<PackageItem>) -> Result<Shared<PackageItems>, NoMemory>
        ensures { IfOk result (λ items. items ≡ list) }
    {
        let mut notes = no_notes(alloc);
        let done = note_items(&mut notes, list.as_slice());
        let (list, notes) = both_if_done(list, notes, done)?;
        Ok(Shared::new(alloc, PackageItems { list, notes })?)
    }

    /// The items.
    pub fn as_slice(&self) -> &[PackageItem]
        ensures { result.now ≡ self.now }
    {
        self.list.as_slice()
    }

    /// The item that a name means.
    pub fn named(&self, name: &Name) -> Option<&PackageItem>
        ensures { option_copied result ≡ spec.item_named name.now self.now }
    {
        match noted(&self.notes.places, name) {
            Some(at) => self.list.get(at),
            None => None,
        }
    }

    /// How many variables and constants stand before the declaration of a name.
    pub fn variables_before(&self, name: &Name) -> usize
        ensures { result ≡ spec.variables_before name.now self.now }
    {
        noted(&self.notes.before, name).unwrap_or(self.notes.variables)
    }

    /// The code that EXCEPTION_INIT gives an exception; of two the last counts.
    pub fn code_given(&self, name: &Name) -> Option<u64>
        ensures { result ≡ spec.code_given name.now self.now }
    {
        noted(&self.notes.codes, name)
    }
}

/// A list with what is noted of it, where all was noted. It is generic, so that what it drops is dropped by one call.
fn both_if_done<L: Drop, N: Drop>(
    list: L,
    notes: N,
    done: Result<(), NoMemory>,
) -> Result<(L, N), NoMemory>
    ensures both { IfOk result (λ it. it ≡ (list, notes)) }
    ensures done { OnOk result (is_ok done ≡ true) }
{
    match done {
        Ok(()) => Ok((list, notes)),
        Err(e) => Err(e),
    }
}

fn no_notes(alloc: Global) -> ItemNotes
    ensures { inside.IsBlank result.places.entries result.before.entries result.codes.entries }
{
    ItemNotes {
        places: IndexMap::new(alloc),
        before: IndexMap::new(alloc),
        variables: 0,
        codes: IndexMap::new(alloc),
    }
}

/// Notes what is asked of the names of items.
fn note_items(notes: &mut ItemNotes, items: &[PackageItem]) -> Result<(), NoMemory>
    requires { inside.IsBlank notes.now.places.entries notes.now.before.entries notes.now.codes.entries }
    ensures found { OnOk result (inside.HasPlaces items.now notes.new.places.entries) }
    ensures counted { OnOk result (inside.HasCounts items.now notes.new.before.entries notes.new.variables) }
    ensures coded { OnOk result (inside.HasCodes items.now notes.new.codes.entries) }
{
    note_places(&mut notes.places, items)?;
    notes.variables = note_counts(&mut notes.before, items)?;
    note_codes(&mut notes.codes, items)
}

// ---- places

fn note_places(places: &mut IndexMap<Name, usize>, items: &[PackageItem]) -> Result<(), NoMemory>
    requires { places.now.entries ≡ [] }
    ensures { OnOk result (inside.HasPlaces items.now places.new.entries) }
{
    for (at, item) in items.iter().enumerate() {
        note_item(places, item, at)?;
    }
    Ok(())
}

fn note_item(
    places: &mut IndexMap<Name, usize>,
    item: &PackageItem,
    at: usize,
) -> Result<(), NoMemory>
    ensures { OnOk result (inside.NotesFirst (λ n. inside.where_so (spec.has_name n item.now) at) places.old.entries places.new.entries) }
{
    match item {
        PackageItem::Decl(declaration) => note_declaration(places, declaration, at),
        PackageItem::Head(head) => note_first(places, &head.name, at),
    }
}

fn note_declaration(
    notes: &mut IndexMap<Name, usize>,
    declaration: &Decl,
    number: usize,
) -> Result<(), NoMemory>
    ensures { OnOk result (inside.NotesFirst (λ n. inside.where_so (spec.declares n declaration.now) number) notes.old.entries notes.new.entries) }
{
    match declaration {
        Decl::Variable { name, .. } => note_first(notes, name, number),
        Decl::Exception(name) => note_first(notes, name, number),
        Decl::Cursor(name, _) => note_first(notes, name, number),
        Decl::ExceptionInit(_, _) | Decl::Autonomous => Ok(()),
    }
}

// ---- counts

/// The number of all variables and constants.
fn note_counts(before: &mut IndexMap<Name, usize>, items: &[PackageItem]) -> Result<usize, NoMemory>
    requires { before.now.entries ≡ [] }
    ensures { IfOk result (λ all. inside.HasCounts items.now before.new.entries all) }
{
    let mut all = 0;
    for item in items {
        note_count(before, item, all)?;
        all += weight(item);
    }
    Ok(all)
}

fn note_count(
    before: &mut IndexMap<Name, usize>,
    item: &PackageItem,
    count: usize,
) -> Result<(), NoMemory>
    ensures { OnOk result (inside.NotesFirst (λ n. inside.where_so (spec.is_declared n item.now) count) before.old.entries before.new.entries) }
{
    match item {
        PackageItem::Decl(declaration) => note_declaration(before, declaration, count),
        PackageItem::Head(_) => Ok(()),
    }
}

/// 1 for a variable or a constant, and else 0.
fn weight(item: &PackageItem) -> usize
    ensures { result ≡ inside.weight (spec.is_variable item.now) }
{
    match item {
        PackageItem::Decl(Decl::Variable { .. }) => 1,
        _ => 0,
    }
}

// ---- codes

fn note_codes(codes: &mut IndexMap<Name, u64>, items: &[PackageItem]) -> Result<(), NoMemory>
    requires { codes.now.entries ≡ [] }
    ensures { OnOk result (inside.HasCodes items.now codes.new.entries) }
{
    for item in items {
        note_given(codes, item)?;
    }
    Ok(())
}

fn note_given(codes: &mut IndexMap<Name, u64>, item: &PackageItem) -> Result<(), NoMemory>
    ensures { OnOk result (inside.NotesLast (λ n. spec.pragma_code n item.now) codes.old.entries codes.new.entries) }
{
    match item {
        PackageItem::Decl(declaration) => note_pragma(codes, declaration),
        PackageItem::Head(_) => Ok(()),
    }
}

fn note_pragma(codes: &mut IndexMap<Name, u64>, declaration: &Decl) -> Result<(), NoMemory>
    ensures { OnOk result (inside.NotesLast (λ n. spec.pragma_code n (PackageItem.Decl declaration.now)) codes.old.entries codes.new.entries) }
{
    match declaration {
        Decl::ExceptionInit(name, code) => note_last(codes, name, *code),
        Decl::Variable { .. } | Decl::Exception(_) | Decl::Cursor(_, _) | Decl::Autonomous => Ok(
            (),
        ),
    }
}

// ---- subprograms

/// The subprograms of a package's body, which contracts see as their list. No look-up by a name goes through the list.
#[derive(Drop)]
pub struct Subprograms {
    list: List<Subprogram>,
    /// The place of the first one of each name.
    places: IndexMap<Name, usize>,
}

impl Model for Subprograms {
    ghost use Rattle.std.specs.Prelude.{List as Sequence};
    ghost use Rattle.std.specs.Coded.{coded_list};
    ghost use Rattle.ebr_ast.specs.declared.unit.Subprogram.{Subprogram as Written};
    ghost use Rattle.ebr_ast.specs.contracts.unit.Subprogram as s;
    ghost use Rattle.ebr_ast.specs.inside.Notes.{HasSubprograms};

    ghost Value = { Sequence Written };

    ghost coded = { coded_list s.the_row.coded };

    ghost view = { λ s. s.list };

    ghost invariant = { λ s. HasSubprograms s.list s.places.entries };
}

impl Subprograms {
    /// A list, with what is noted of its names.
    pub fn of(alloc: Global, list: List<Subprogram>) -> Result<Subprograms, NoMemory>
        ensures { IfOk result (λ subprograms. subprograms ≡ list) }
    {
        let mut places = IndexMap::new(alloc);
        let done = note_subprograms(&mut places, list.as_slice());
        let (list, places) = both_if_done(list, places, done)?;
        Ok(Subprograms { list, places })
    }

    /// The subprograms.
    pub fn as_slice(&self) -> &[Subprogram]
        ensures { result.now ≡ self.now }
    {
        self.list.as_slice()
    }

    /// The first one of a name.
    pub fn named(&self, name: &Name) -> Option<&Subprogram>
        ensures { option_copied result ≡ find (spec.is_named name.now) self.now }
    {
        match noted(&self.places, name) {
            Some(at) => self.list.get(at),
            None => None,
        }
    }

    /// The place of the first one of a name, counted from 0.
    pub fn place(&self, name: &Name) -> Option<usize>
        ensures { result ≡ position (spec.is_named name.now) self.now }
    {
        noted(&self.places, name)
    }
}

fn note_subprograms(
    places: &mut IndexMap<Name, usize>,
    subprograms: &[Subprogram],
) -> Result<(), NoMemory>
    requires { places.now.entries ≡ [] }
    ensures { OnOk result (inside.HasSubprograms subprograms.now places.new.entries) }
{
    for (at, it) in subprograms.iter().enumerate() {
        note_first(places, &it.head.name, at)?;
    }
    Ok(())
}
