//! The states of packages in a session.

ghost use Rattle.std.specs.Prelude.{◌≡◌, [], ◌∷◌, ◌++◌, None, option_map, IfOk, OnOk};
ghost use Rattle.ebr_run.specs.Cursors as cursors;
ghost use Rattle.ebr_run.specs.Packages as run;
ghost use Rattle.ebr_run.specs.Calls.{first_state};
ghost use Rattle.ebr_run.specs.Packages.{change, forget, state_of};
ghost use Rattle.ebr_run.specs.Values.{cursor_in, set_cursor_member, set_member};
ghost use Rattle.ebr_memory.specs.Packages as spec;
ghost use Rattle.ebr_memory.specs.Packages.{made_of, member};
ghost use Rattle.ebr_memory.specs.Rows.{fetched_of};
ghost use Rattle.ebr_memory.specs.inside.Views as inside;

use crate::cursor::{Cursor, Fetched, closed_attribute};
use crate::levels::Levels;
use crate::memory::{cursor_attribute, fetch, is_open, put_cursor, put_variable};
use crate::values::variable;
use ebr_ast::Attribute;
use ebr_base::{Name, NoMemory, Stamp, Value};
use ebr_sqlcheck::ValueType;
use indexmap::IndexMap;
use std::alloc::Global;
use std::marker::Model;

/// What a state was made from: the visible specification and body.
#[derive(Clone, Copy)]
pub struct Made {
    pub specification: Option<Stamp>,
    pub body: Option<Stamp>,
}

/// How the state of a package stands to what it would be made from now.
#[derive(Clone, Copy)]
pub enum PackageStatus {
    /// There is none.
    Absent,
    /// It was made from just that.
    Current,
    /// It was made from something else; whether the package has a variable, a constant or a cursor.
    Outdated(bool),
}

/// The state of a package.
#[derive(Drop)]
struct PackageState {
    made: Made,
    /// Whether the package has a variable, a constant or a cursor.
    stateful: bool,
    members: Levels<Value>,
    cursors: Levels<Cursor>,
}

/// The states of a session's packages, which contracts see as the list of them.
#[derive(Drop)]
pub struct Packages {
    states: IndexMap<Name, PackageState>,
}

impl Model for Packages {
    ghost use Rattle.std.specs.Prelude.{List, map};
    ghost use Rattle.ebr_run.specs.Packages as run;
    ghost use Rattle.ebr_memory.specs.inside.Views.{package_of};

    ghost Value = { List run.PackageState };

    ghost view = { λ p. map package_of p.states.entries };
}

impl Packages {
    /// No states, which takes no memory.
    pub fn new(alloc: Global) -> Packages
        ensures { result ≡ [] }
    {
        Packages {
            states: IndexMap::new(alloc),
        }
    }

    /// Takes all states away.
    pub fn clear(&mut self)
        ensures { self.new ≡ [] }
    {
        self.states.clear();
    }

    /// How the state of a package stands to what it would be made from now.
    pub fn status(&self, name: &Name, made: Made) -> PackageStatus
        ensures { result ≡ spec.status (state_of name.now self.now) (made_of made) }
    {
        match self.states.get(name) {
            Some(state) => status_of(state, made),
            None => PackageStatus::Absent,
        }
    }

    /// Adds the first state of a package at the end, and takes away the one that there may be.
    pub fn renew(&mut self, name: Name, made: Made, stateful: bool) -> Result<(), NoMemory>
        ensures renewed { OnOk result (self.new ≡ forget name self.old ++ first_state name (made_of made) stateful ∷ []) }
        ensures added { state_of name self.old ≡ None → OnOk result (self.new ≡ self.old ++ first_state name (made_of made) stateful ∷ []) }
    {
        let alloc = *self.states.allocator();
        self.states.shift_remove(&name);
        self.states
            .insert(name, first_state(alloc, made, stateful))?;
        Ok(())
    }

    /// Takes the state of a package away.
    pub fn forget(&mut self, name: &Name)
        ensures { self.new ≡ forget name.now self.old }
    {
        self.states.shift_remove(name);
    }

    /// A copy of the value of a package's variable; none where there is no state.
    pub fn member(
        &self,
        alloc: Global,
        name: &Name,
        place: usize,
    ) -> Result<Option<Value>, NoMemory>
        ensures { IfOk result (λ value. value ≡ option_map (member place) (state_of name.now self.now)) }
    {
        match self.states.get(name) {
            Some(state) => Ok(Some(variable(alloc, &state.members, place)?)),
            None => Ok(None),
        }
    }

    /// Puts a value into a package's variable, where there is a state.
    pub fn put_member(&mut self, name: &Name, place: usize, value: Value) -> Result<(), NoMemory>
        ensures { OnOk result (self.new ≡ change name.now (set_member place value) self.old) }
    {
        let Some(state) = self.states.get_mut(name) else {
            return Ok(());
        };
        put_in(state, place, value)?;
        Ok(())
    }

    /// Whether a package's cursor is open.
    pub fn is_open(&self, name: &Name, place: usize) -> bool
        ensures { result ≡ cursors.is_open (cursor_in (state_of name.now self.now) place) }
    {
        match self.states.get(name) {
            Some(state) => is_open(&state.cursors, place),
            None => false,
        }
    }

    /// An attribute of a package's cursor; none where the cursor has to be open for it.
    pub fn attribute(
        &self,
        name: &Name,
        place: usize,
        attribute: Attribute,
    ) -> Result<Option<Value>, NoMemory>
        ensures { IfOk result (λ value. value ≡ cursors.attribute_of attribute (cursor_in (state_of name.now self.now) place)) }
    {
        match self.states.get(name) {
            Some(state) => cursor_attribute(&state.cursors, place, attribute),
            None => Ok(closed_attribute(attribute)),
        }
    }

    /// Puts a cursor into its place in a package, where there is a state.
    pub fn put_cursor(&mut self, name: &Name, place: usize, cursor: Cursor) -> Result<(), NoMemory>
        ensures { OnOk result (self.new ≡ change name.now (set_cursor_member place cursor) self.old) }
    {
        let Some(state) = self.states.get_mut(name) else {
            return Ok(());
        };
        put_cursor_in(state, place, cursor)?;
        Ok(())
    }

    /// Fetches from a package's cursor.
    pub fn fetch(
        &mut self,
        alloc: Global,
        name: &Name,
        place: usize,
        types: &[Option<ValueType>],
    ) -> Result<Fetched, NoMemory>
        ensures given { IfOk result (λ given. fetched_of given ≡ cursors.fetched types.now (cursor_in (state_of name.now self.old) place)) }
        ensures moved { OnOk result (self.new ≡ change name.now (set_cursor_member place (cursors.after_fetch (cursor_in (state_of name.now self.old) place))) self.old) }
    {
        let Some(state) = self.states.get_mut(name) else {
            return Ok(Fetched::Unopened);
        };
        let given = fetch_in(alloc, state, place, types)?;
        Ok(given)
    }
}

/// The first state of a package.
fn first_state(alloc: Global, made: Made, stateful: bool) -> PackageState
    ensures { result ≡ inside.first_state made stateful }
{
    PackageState {
        made,
        stateful,
        members: Levels::new(alloc),
        cursors: Levels::new(alloc),
    }
}

fn status_of(state: &PackageState, made: Made) -> PackageStatus
    ensures { result ≡ spec.status_of (made_of state.now.made) state.now.stateful (made_of made) }
{
    if same_made(state.made, made) {
        PackageStatus::Current
    } else {
        PackageStatus::Outdated(state.stateful)
    }
}

fn same_made(a: Made, b: Made) -> bool
    ensures { result ≡ run.same_made (made_of a) (made_of b) }
{
    same_stamp(&a.specification, &b.specification) && same_stamp(&a.body, &b.body)
}

fn same_stamp(a: &Option<Stamp>, b: &Option<Stamp>) -> bool
    ensures { result ≡ run.same_stamp a.now b.now }
{
    match (a, b) {
        (None, None) => true,
        (Some(a), Some(b)) => *a == *b,
        _ => false,
    }
}

fn put_in(state: &mut PackageState, place: usize, value: Value) -> Result<(), NoMemory>
    ensures { OnOk result (state.new ≡ inside.with_member place value state.old) }
{
    put_variable(&mut state.members, place, value)
}

fn put_cursor_in(state: &mut PackageState, place: usize, cursor: Cursor) -> Result<(), NoMemory>
    ensures { OnOk result (state.new ≡ inside.with_cursor place cursor state.old) }
{
    put_cursor(&mut state.cursors, place, cursor)
}

fn fetch_in(
    alloc: Global,
    state: &mut PackageState,
    place: usize,
    types: &[Option<ValueType>],
) -> Result<Fetched, NoMemory>
    ensures given { IfOk result (λ given. fetched_of given ≡ cursors.fetched types.now (inside.cursor_at place state.old)) }
    ensures moved { OnOk result (state.new ≡ inside.with_cursor place (cursors.after_fetch (inside.cursor_at place state.old)) state.old) }
{
    fetch(alloc, &mut state.cursors, place, types)
}
