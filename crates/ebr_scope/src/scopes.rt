//! The names that are declared around a place in code.

ghost use Rattle.std.specs.Prelude.{◌≡◌, ◌∷◌, ◌-◌, [], OnOk, slice_get, drop, length, option_map, option_and_then};
ghost use Rattle.std.specs.Option.{option_copied, is_some};
ghost use Rattle.ebr_scope.specs.Meanings as spec;
ghost use Rattle.ebr_scope.specs.Names.{entry_fields};
ghost use Rattle.ebr_scope.specs.Lent.{lent};

use crate::field::Field;
use crate::meaning::Meaning;
use crate::nest::{Nest, is_pushed};
use ebr_ast::Head;
use ebr_base::{List, Name, NoMemory, Shared};
use std::alloc::Global;
use std::marker::Model;

/// A declared name. The tree lends it.
#[derive(Drop)]
struct Entry<'a> {
    name: &'a Name,
    meaning: Meaning<'a>,
    fields: Option<Shared<List<Field>>>,
}

/// The declared names, which contracts see as their list, the innermost first.
#[derive(Drop)]
pub struct Scopes<'a> {
    entries: Vec<Entry<'a>>,
    /// Where the innermost one of each name stands.
    places: Nest<'a>,
    /// Where the innermost subprogram of each name stands.
    subprograms: Nest<'a>,
}

impl<'a> Model for Scopes<'a> {
    ghost use Rattle.std.specs.Prelude.{map, reverse};
    ghost use Rattle.ebr_scope.specs.Meanings as spec;
    ghost use Rattle.ebr_scope.specs.Lent.{lent};
    ghost use Rattle.ebr_scope.specs.inside.Kept.{IsKept};

    ghost Value = { spec.Scope };

    ghost view = { λ s. map (λ e. record { name = e.name.now; meaning = lent e.meaning; fields = e.fields }) (reverse s.entries.items) };

    ghost invariant = { λ s. IsKept s.places s.subprograms (reverse s.entries.items) };
}

impl<'a> Scopes<'a> {
    /// No names, which takes no memory.
    pub fn new(alloc: Global) -> Scopes<'a>
        ensures { result ≡ [] }
    {
        Scopes {
            entries: Vec::new(alloc),
            places: Nest::new(alloc),
            subprograms: Nest::new(alloc),
        }
    }

    /// How many names there are.
    pub fn depth(&self) -> usize
        ensures { result ≡ length self.now }
    {
        self.entries.len()
    }

    /// Adds a name inside all others. Where there is no memory, no name is left.
    pub fn add(&mut self, name: &'a Name, meaning: Meaning<'a>) -> Result<(), NoMemory>
        ensures { OnOk result (self.new ≡ spec.entry name.now (lent meaning.entry) ∷ self.old) }
    {
        self.add_with(name, meaning, None)
    }

    /// Adds a name with the columns of a cursor or a record. Where there is no memory, no name is left.
    pub fn add_with(
        &mut self,
        name: &'a Name,
        meaning: Meaning<'a>,
        fields: Option<Shared<List<Field>>>,
    ) -> Result<(), NoMemory>
        ensures { OnOk result (self.new ≡ spec.with_fields name.now (lent meaning.entry) fields ∷ self.old) }
    {
        let place = self.places.add(name, true);
        let subprogram = self.subprograms.add(name, is_subprogram(meaning));
        let entry = Entry {
            name,
            meaning,
            fields,
        };
        if is_pushed(&mut self.entries, entry) && place.is_ok() && subprogram.is_ok() {
            return Ok(());
        }
        self.entries.clear();
        self.places.cut(0);
        self.subprograms.cut(0);
        Err(NoMemory)
    }

    /// Takes away all names but the outermost ones.
    pub fn cut(&mut self, depth: usize)
        ensures { self.new ≡ drop (length self.old - depth) self.old }
    {
        self.entries.truncate(depth);
        self.places.cut(depth);
        self.subprograms.cut(depth);
    }

    /// What a name stands for, the innermost one.
    pub fn find(&self, name: &Name) -> Option<Meaning<'a>>
        ensures { option_map lent result ≡ option_map (λ e. e.meaning) (spec.innermost name.now self.now) }
    {
        match entry_at(self.entries.as_slice(), self.places.find(name)) {
            Some(entry) => Some(entry.meaning),
            None => None,
        }
    }

    /// The columns of the innermost cursor or record of a name.
    pub fn fields(&self, name: &Name) -> Option<&Shared<List<Field>>>
        ensures { option_copied result ≡ entry_fields (spec.innermost name.now self.now) }
    {
        match entry_at(self.entries.as_slice(), self.places.find(name)) {
            Some(entry) => entry.fields.as_ref(),
            None => None,
        }
    }

    /// Whether the innermost one of a name is among so many outermost names.
    pub fn is_outer(&self, name: &Name, count: usize) -> bool
        ensures { result ≡ spec.is_outer count name.now self.now }
    {
        match self.places.find(name) {
            Some(at) => at < count,
            None => false,
        }
    }

    /// The head of the innermost subprogram of a name.
    pub fn subprogram(&self, name: &Name) -> Option<&'a Head>
        ensures { option_copied result ≡ spec.subprogram name.now self.now }
    {
        match entry_at(self.entries.as_slice(), self.subprograms.find(name)) {
            Some(entry) => head_in(entry.meaning),
            None => None,
        }
    }
}

/// The name at a place, counted from the outermost.
fn entry_at<'b, 'a>(entries: &'b [Entry<'a>], at: Option<usize>) -> Option<&'b Entry<'a>>
    ensures { option_copied result ≡ option_and_then (slice_get entries.now) at }
{
    match at {
        Some(at) => entries.get(at),
        None => None,
    }
}

fn is_subprogram(meaning: Meaning<'_>) -> bool
    ensures { result ≡ is_some (spec.head_in (lent meaning.entry)) }
{
    head_in(meaning).is_some()
}

/// The head of a subprogram.
pub fn head_in<'a>(meaning: Meaning<'a>) -> Option<&'a Head>
    ensures { option_copied result ≡ spec.head_in (lent meaning.entry) }
{
    match meaning {
        Meaning::Subprogram(head) => Some(head),
        Meaning::Variable(_)
        | Meaning::Constant(_)
        | Meaning::Parameter(_, _)
        | Meaning::Exception
        | Meaning::Cursor
        | Meaning::Record => None,
    }
}
