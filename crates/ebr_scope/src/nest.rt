//! Where the innermost one of a name stands among names that are nested.

ghost use Rattle.std.specs.Prelude.{◌≡◌, ◌∷◌, ◌++◌, ◌-◌, [], IsTrue, OnOk, true, drop, length};
ghost use Rattle.std.specs.Map.{set_value};
ghost use Rattle.std.specs.Str.{bytes_eq};
ghost use Rattle.ebr_scope.specs.inside.Nests.{place_in, Notes, restored};
ghost use Rattle.ebr_scope.specs.Nests.{place};

use ebr_base::{CloneIn, Name, NoMemory};
use indexmap::IndexMap;
use std::alloc::Global;
use std::marker::Model;

/// A name, whether it is one to be found, and the place of the one of its name that it hides.
#[derive(Drop)]
struct Nested<'a> {
    name: &'a Name,
    counts: bool,
    hides: Option<usize>,
}

/// Names that are nested, which contracts see as their list, the innermost first, each with whether it is one to be found.
#[derive(Drop)]
pub struct Nest<'a> {
    /// The place of the innermost one of each name. A name of which none is left stays, without a place.
    places: IndexMap<Name, Option<usize>>,
    nested: Vec<Nested<'a>>,
}

impl<'a> Model for Nest<'a> {
    ghost use Rattle.std.specs.Prelude.{List, map, reverse};
    ghost use Rattle.std.specs.Coded.{codes};
    ghost use Rattle.ebr_scope.specs.inside.Nests.{key, IsNest};
    ghost use Rattle.ebr_scope.specs.Nests.{Key};

    ghost Value = { List Key };

    ghost coded = { Prim.hlevel codes };

    ghost view = { λ s. map key (reverse s.nested.items) };

    ghost invariant = { λ s. IsNest s.places.entries (reverse s.nested.items) };
}

impl<'a> Nest<'a> {
    /// No names, which takes no memory.
    pub fn new(alloc: Global) -> Nest<'a>
        ensures { result ≡ [] }
    {
        Nest {
            places: IndexMap::new(alloc),
            nested: Vec::new(alloc),
        }
    }

    /// Adds a name inside all others. Where there is no memory, no name is left.
    pub fn add(&mut self, name: &'a Name, counts: bool) -> Result<(), NoMemory>
        ensures { OnOk result (self.new ≡ (name.now, counts) ∷ self.old) }
    {
        let hides = place_in(&self.places, name);
        let noted = note(&mut self.places, name, counts, self.nested.len());
        let entry = Nested {
            name,
            counts,
            hides,
        };
        if noted.is_ok() && is_pushed(&mut self.nested, entry) {
            return Ok(());
        }
        self.nested.clear();
        self.places.clear();
        Err(NoMemory)
    }

    /// Takes away all names but the outermost ones.
    pub fn cut(&mut self, depth: usize)
        ensures { self.new ≡ drop (length self.old - depth) self.old }
    {
        for _turn in depth..self.nested.len() {
            self.pop();
        }
    }

    /// Takes away the innermost name.
    fn pop(&mut self)
        ensures { self.new ≡ drop 1 self.old }
    {
        if let Some(last) = self.nested.pop() {
            restore(&mut self.places, &last);
        }
    }

    /// The place, counted from the outermost, of the innermost one of a name.
    pub fn find(&self, name: &Name) -> Option<usize>
        ensures { result ≡ place name.now self.now }
    {
        place_in(&self.places, name)
    }
}

/// Adds an item at the end, where there is memory.
pub fn is_pushed<T: Drop>(items: &mut Vec<T>, item: T) -> bool
    ensures { IsTrue result → items.new.items ≡ items.old.items ++ item ∷ [] }
{
    items.push(item).is_ok()
}

/// The place that the map has for a name.
fn place_in(places: &IndexMap<Name, Option<usize>>, name: &Name) -> Option<usize>
    ensures { result ≡ place_in places.now.entries name.now }
{
    match places.get(name) {
        Some(at) => *at,
        None => None,
    }
}

/// Puts a name that is to be found at a place.
fn note(
    places: &mut IndexMap<Name, Option<usize>>,
    name: &Name,
    counts: bool,
    at: usize,
) -> Result<(), NoMemory>
    ensures { OnOk result (Notes name.now counts at places.old.entries places.new.entries) }
{
    if !counts {
        return Ok(());
    }
    put(places, name, at)
}

/// Puts a name at a place.
fn put(places: &mut IndexMap<Name, Option<usize>>, name: &Name, at: usize) -> Result<(), NoMemory>
    ensures { OnOk result (Notes name.now true at places.old.entries places.new.entries) }
{
    let alloc = *places.allocator();
    let key = name.clone_in(alloc)?;
    places.insert(key, Some(at))?;
    Ok(())
}

/// Gives the innermost one's name the place that it hid.
fn restore(places: &mut IndexMap<Name, Option<usize>>, last: &Nested<'_>)
    ensures { places.new.entries ≡ restored last.now places.old.entries }
{
    if last.counts {
        set(places, last.name, last.hides);
    }
}

/// Changes the place of a name that is there.
fn set(places: &mut IndexMap<Name, Option<usize>>, name: &Name, to: Option<usize>)
    ensures { places.new.entries ≡ set_value (bytes_eq name.now) places.old.entries to }
{
    if let Some(at) = places.get_mut(name) {
        *at = to;
    }
}
