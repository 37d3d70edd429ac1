//! The names that are declared around a place in code.

ghost use Rattle.std.specs.Prelude.{◌≡◌, ◌∷◌, ◌-◌, [], OnOk, find, map, drop, length, slice_get, option_map, option_and_then};
ghost use Rattle.std.specs.Option.{option_copied};
ghost use Rattle.ebr_scope.specs.Meanings as known;
ghost use Rattle.ebr_scope.specs.Lent as checked;
ghost use Rattle.ebr_run.specs.Scope as spec;
ghost use Rattle.ebr_places.specs.Lent.{lent};

use crate::denoted::Denoted;
use ebr_base::{List, Name, NoMemory, Shared};
use ebr_scope::{Field, Meaning, Nest, Scopes, is_pushed};
use std::alloc::Global;
use std::marker::Model;

/// A declared name: what it is to the checks, and what it stands for. The tree lends it.
#[derive(Drop)]
struct Entry<'a> {
    name: &'a Name,
    meaning: Meaning<'a>,
    fields: Option<Shared<List<Field>>>,
    denoted: Denoted<'a>,
}

/// The declared names, which contracts see as their list, the innermost first.
#[derive(Drop)]
pub struct Names<'a> {
    entries: Vec<Entry<'a>>,
    /// What the checks know of them.
    known: Scopes<'a>,
    /// Where the innermost one of each name stands.
    places: Nest<'a>,
    /// Where the innermost subprogram of each name stands.
    subprograms: Nest<'a>,
}

impl<'a> Model for Names<'a> {
    ghost use Rattle.std.specs.Prelude.{map, reverse};
    ghost use Rattle.ebr_scope.specs.Lent as checked;
    ghost use Rattle.ebr_run.specs.Scope as spec;
    ghost use Rattle.ebr_places.specs.Lent.{lent};
    ghost use Rattle.ebr_places.specs.inside.Kept.{IsKept};
    ghost use Rattle.ebr_ast.specs.contracts.query.Query as q;
    ghost use Rattle.std.specs.Coded.{codes};

    ghost Value = { spec.Scope };

    ghost coded = { Prim.hlevel (codes, q.the_row.coded) };

    ghost view = { λ s. map (λ e. record { entry = record { name = e.name.now; meaning = checked.lent e.meaning; fields = e.fields }; denoted = lent e.denoted }) (reverse s.entries.items) };

    ghost invariant = { λ s. IsKept s.known s.places s.subprograms (reverse s.entries.items) };
}

impl<'a> Names<'a> {
    /// No names, which takes no memory.
    pub fn new(alloc: Global) -> Names<'a>
        ensures { result ≡ [] }
    {
        Names {
            entries: Vec::new(alloc),
            known: Scopes::new(alloc),
            places: Nest::new(alloc),
            subprograms: Nest::new(alloc),
        }
    }

    /// How many names there are.
    pub fn depth(&self) -> usize
        ensures { result ≡ length self.now }
    {
        self.entries.len()
    }

    /// What the checks know of the names.
    pub fn known(&self) -> &Scopes<'a>
        ensures { result.now ≡ map spec.entry_of self.now }
    {
        &self.known
    }

    /// Adds a name inside all others, with the columns of a cursor or a record, given twice. Where there is no memory, no name
    /// is left.
    pub fn add(
        &mut self,
        name: &'a Name,
        meaning: Meaning<'a>,
        fields: Option<Shared<List<Field>>>,
        copy: Option<Shared<List<Field>>>,
        denoted: Denoted<'a>,
    ) -> Result<(), NoMemory>
        requires { copy ≡ fields }
        ensures { OnOk result (self.new ≡ record { entry = known.with_fields name.now (checked.lent meaning.entry) fields; denoted = lent denoted.entry } ∷ self.old) }
    {
        let known = self.known.add_with(name, meaning, copy);
        let place = self.places.add(name, true);
        let subprogram = self.subprograms.add(name, is_subprogram(&denoted));
        let entry = Entry {
            name,
            meaning,
            fields,
            denoted,
        };
        if is_pushed(&mut self.entries, entry)
            && known.is_ok()
            && place.is_ok()
            && subprogram.is_ok()
        {
            return Ok(());
        }
        self.entries.clear();
        self.known.cut(0);
        self.places.cut(0);
        self.subprograms.cut(0);
        Err(NoMemory)
    }

    /// Takes away all names but the outermost ones.
    pub fn cut(&mut self, depth: usize)
        ensures { self.new ≡ drop (length self.old - depth) self.old }
    {
        self.entries.truncate(depth);
        self.known.cut(depth);
        self.places.cut(depth);
        self.subprograms.cut(depth);
    }

    /// What a name stands for, the innermost one.
    pub fn find(&self, name: &Name) -> Option<&Denoted<'a>>
        ensures { option_map lent (option_copied result) ≡ spec.innermost name.now self.now }
    {
        match entry_at(self.entries.as_slice(), self.places.find(name)) {
            Some(entry) => Some(&entry.denoted),
            None => None,
        }
    }

    /// The innermost subprogram of a name.
    pub fn subprogram(&self, name: &Name) -> Option<&Denoted<'a>>
        ensures { option_map lent (option_copied result) ≡ option_map spec.denoted_of (find (spec.is_subprogram_of name.now) self.now) }
    {
        match entry_at(self.entries.as_slice(), self.subprograms.find(name)) {
            Some(entry) => Some(&entry.denoted),
            None => None,
        }
    }
}

/// The name at a place, counted from the outermost.
fn entry_at<'b, 'a>(entries: &'b [Entry<'a>], at: Option<usize>) -> Option<&'b Entry<'a>>
    ensures { option_copied result ≡ option_and_then (slice_get entries.now) at }
{
    match at {
        Some(at) => entries.get(at),
        None => None,
    }
}

fn is_subprogram(denoted: &Denoted<'_>) -> bool
    ensures { result ≡ spec.is_subprogram (lent denoted.now) }
{
    match denoted {
        Denoted::Subprogram(_, _, _) => true,
        Denoted::Variable(_, _)
        | Denoted::Exception(_, _)
        | Denoted::Cursor(_, _, _)
        | Denoted::Record(_) => false,
    }
}
