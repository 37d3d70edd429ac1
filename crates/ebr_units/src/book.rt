//! The book of an edition.

ghost use Rattle.std.specs.Prelude.{◌≡◌, ◌+◌, ◌≤◌, [], ◌∷◌, map, option_map, IfOk, OnOk};
ghost use Rattle.std.specs.List.{position};
ghost use Rattle.std.specs.List.Sorted.{IsStrictlySortedBy};
ghost use Rattle.std.specs.Option.{option_copied};
ghost use Rattle.ebr_ast.specs.Views.{IsInOrder, object_of};
ghost use Rattle.ebr_base.specs.Keys.{same_key, key_order};
ghost use Rattle.ebr_laws.specs.Served.{HasCodeOf};
ghost use Rattle.ebr_units.specs.Served.{served, valid_among, valid_count};
ghost use Rattle.ebr_units.specs.inside.Entries.{entry, key_in, unit_in};

use ebr_ast::{EditionView, Object};
use ebr_base::{Class, CloneIn, EditionNo, List, Name, NoMemory, Shared, Stamp};
use ebr_check::check;
use ebr_code::{CodeBook, Unit};
use ebr_compile::{Steps, compile};
use ebr_names::order_of;
use std::alloc::Global;
use std::cmp::Ordering;
use std::marker::Model;
use std::sync::ledger::Ledger;

/// A visible object with its compiled unit, where it is valid.
#[derive(Drop)]
struct Entry {
    object: Shared<Object>,
    unit: Option<Shared<Unit>>,
}

/// What an edition sees, which contracts see it as, with the compiled unit of each object that is valid. It is asked of its
/// own edition alone.
#[derive(Drop)]
pub struct Book {
    seen: Shared<EditionView>,
    /// In the order of the objects.
    entries: List<Entry>,
}

impl Model for Book {
    ghost use Rattle.std.specs.Prelude.{◌≡◌, map};
    ghost use Rattle.ebr_ast.specs.declared.view.EditionView.{EditionView as Sees};
    ghost use Rattle.ebr_ast.specs.contracts.view.EditionView as e;
    ghost use Rattle.ebr_ast.specs.Views.{IsInOrder};
    ghost use Rattle.ebr_units.specs.inside.Entries.{entry};

    ghost Value = { Sees };

    ghost coded = { e.the_row.coded };

    ghost view = { λ b. b.seen };

    ghost invariant = { λ b. IsInOrder b.seen × (b.entries ≡ map (entry b.seen) b.seen.objects) };
}

impl Book {
    /// The book of what an edition sees. Each valid unit counts a step.
    pub fn new<L: Ledger>(
        alloc: Global,
        seen: Shared<EditionView>,
        steps: &mut Steps<L>,
    ) -> Result<Book, NoMemory>
        requires { IsInOrder seen }
        ensures book { IfOk result (λ book. book ≡ seen) }
        ensures code { IfOk result (λ book. HasCodeOf seen (served book)) }
        ensures step { OnOk result (steps.new ≡ steps.old + valid_count seen) }
        ensures most { steps.new ≤ steps.old + valid_count seen }
    {
        let entries = entries_of(alloc, seen.get(), steps)?;
        Ok(Book { seen, entries })
    }

    /// All that the edition sees, in order.
    pub fn view(&self) -> &Shared<EditionView>
        ensures view { result.now ≡ self.now }
        ensures order { IsInOrder self.now }
    {
        &self.seen
    }

    /// The entry of a class and a name. It is searched for by halving.
    fn entry(&self, class: Class, name: &Name) -> Option<&Entry>
        ensures { option_copied result ≡ option_map (entry self.now) (object_of (record { class = class; name = name.now }) self.now.objects) }
    {
        match place(self.entries.as_slice(), class, name) {
            Some(at) => self.entries.get(at),
            None => None,
        }
    }
}

impl CodeBook for Book {
    ghost answers = { λ v e. served v };

    fn unit(&self, _e: EditionNo, class: Class, name: &Name) -> Option<&Shared<Unit>> {
        match self.entry(class, name) {
            Some(entry) => entry.unit.as_ref(),
            None => None,
        }
    }

    fn stamp(&self, _e: EditionNo, class: Class, name: &Name) -> Option<Stamp> {
        match self.entry(class, name) {
            Some(entry) => Some(entry.object.get().stamp),
            None => None,
        }
    }

    fn objects(&self, _e: EditionNo) -> usize {
        self.view().get().objects.len()
    }
}

/// The place of the entry of a class and a name, counted from 0.
fn place(entries: &[Entry], class: Class, name: &Name) -> Option<usize>
    requires { IsStrictlySortedBy key_order (map key_in entries.now) }
    ensures { result ≡ position (λ it. same_key (record { class = class; name = name.now }) (key_in it)) entries.now }
{
    entries
        .binary_search_by(
            |it: &Entry| -> Ordering
                ensures { result ≡ key_order (key_in it.now) (record { class = class; name = name.entry.now }) }
            { order_of(&it.object.get().key, class, name) },
        )
        .ok()
}

fn entries_of<L: Ledger>(
    alloc: Global,
    v: &EditionView,
    steps: &mut Steps<L>,
) -> Result<List<Entry>, NoMemory>
    requires { IsInOrder v.now }
    ensures entries { IfOk result (λ entries. entries ≡ map (entry v.now) v.now.objects) }
    ensures step { OnOk result (steps.new ≡ steps.old + valid_count v.now) }
    ensures most { steps.new ≤ steps.old + valid_count v.now }
{
    let objects = v.objects.to_list(alloc)?;
    let mut entries = List::new(alloc);
    for it in objects.as_slice() {
        entries.push(entry_of(alloc, v, it, steps)?)?;
    }
    Ok(entries)
}

fn entry_of<L: Ledger>(
    alloc: Global,
    v: &EditionView,
    it: &Shared<Object>,
    steps: &mut Steps<L>,
) -> Result<Entry, NoMemory>
    requires { IsInOrder v.now }
    ensures entry { IfOk result (λ made. made ≡ entry v.now it.now) }
    ensures step { OnOk result (steps.new ≡ steps.old + valid_among v.now (it.now ∷ [])) }
    ensures most { steps.new ≤ steps.old + valid_among v.now (it.now ∷ []) }
{
    let unit = compiled(alloc, v, it.get(), steps)?;
    let object = it.clone_in(alloc)?;
    Ok(Entry { object, unit })
}

/// The compiled unit of an object, where it is valid.
fn compiled<L: Ledger>(
    alloc: Global,
    v: &EditionView,
    it: &Object,
    steps: &mut Steps<L>,
) -> Result<Option<Shared<Unit>>, NoMemory>
    requires { IsInOrder v.now }
    ensures unit { IfOk result (λ unit. unit ≡ unit_in v.now it.now) }
    ensures step { OnOk result (steps.new ≡ steps.old + valid_among v.now (it.now ∷ [])) }
    ensures most { steps.new ≤ steps.old + valid_among v.now (it.now ∷ []) }
{
    if check(alloc, v, &it.tree)?.is_some() {
        return Ok(None);
    }
    let unit = compile(alloc, v, &it.tree, steps)?;
    Ok(Some(Shared::new(alloc, unit)?))
}
