//! A list for each running subprogram, all in one vector.

ghost use Rattle.std.specs.Prelude.{◌≡◌, ◌<◌, [], ◌∷◌, ◌++◌, length, slice_get, slice_set, Some, OnOk};
ghost use Rattle.std.specs.Option.{option_copied};
ghost use Rattle.ebr_memory.specs.Levels.{with_top, opened, closed};

use ebr_base::{List, NoMemory, rest_from};
use std::alloc::Global;
use std::marker::Model;
use std::mem;

/// Lists on top of each other, of which the topmost one grows and shrinks. A new one takes no memory of its own.
#[derive(Drop)]
pub struct Levels<T> {
    items: Vec<T>,
    /// Where the topmost list begins.
    base: usize,
    /// Where the lists beneath begin, the lowest first.
    bases: Vec<usize>,
}

impl<T> Model for Levels<T> {
    ghost use Rattle.std.specs.Prelude.{reverse};
    ghost use Rattle.ebr_memory.specs.Levels as spec;

    ghost Value = { spec.Levels T };

    ghost view = { λ l. spec.levels l.base (reverse l.bases.items) l.items.items };

    ghost invariant = { λ l. spec.IsCut l.base (reverse l.bases.items) l.items.items };
}

impl<T> Levels<T> {
    /// One empty list, which takes no memory.
    pub fn new(alloc: Global) -> Levels<T>
        ensures { result ≡ record { top = []; beneath = [] } }
    {
        Levels {
            items: Vec::new(alloc),
            base: 0,
            bases: Vec::new(alloc),
        }
    }

    /// One list.
    pub fn of(alloc: Global, items: List<T>) -> Levels<T>
        ensures { result ≡ record { top = items; beneath = [] } }
    {
        Levels {
            items: items.into_vec(),
            base: 0,
            bases: Vec::new(alloc),
        }
    }

    /// The topmost list.
    pub fn as_slice(&self) -> &[T]
        ensures { result.now ≡ self.now.top }
    {
        rest_from(self.items.as_slice(), self.base)
    }

    /// How many elements the topmost list has.
    pub fn len(&self) -> usize
        ensures { result ≡ length self.now.top }
    {
        self.as_slice().len()
    }

    /// The element at a place of the topmost list, counted from 0.
    pub fn get(&self, at: usize) -> Option<&T>
        ensures { option_copied result ≡ slice_get self.now.top at }
    {
        self.as_slice().get(at)
    }
}

impl<T: Drop> Levels<T> {
    /// Adds an element at the end of the topmost list.
    pub fn push(&mut self, item: T) -> Result<(), NoMemory>
        ensures { OnOk result (self.new ≡ with_top (self.old.top ++ item ∷ []) self.old) }
    {
        self.items.push(item)?;
        Ok(())
    }

    /// Puts an element in the place of another one of the topmost list.
    pub fn set(&mut self, at: usize, item: T)
        requires { at < length self.old.top }
        ensures { self.new ≡ with_top (slice_set self.old.top at item) self.old }
    {
        let place = self.base + at;
        self.items[place] = item;
    }

    /// Puts an element in the place of another one of the topmost list, and gives that one.
    pub fn replace(&mut self, at: usize, item: T) -> T
        requires { at < length self.old.top }
        ensures given { slice_get self.old.top at ≡ Some result }
        ensures put { self.new ≡ with_top (slice_set self.old.top at item) self.old }
    {
        let place = self.base + at;
        mem::replace(&mut self.items[place], item)
    }

    /// Empties the topmost list.
    pub fn clear(&mut self)
        ensures { self.new ≡ with_top [] self.old }
    {
        self.items.truncate(self.base);
    }

    /// Puts an empty list on top.
    pub fn open(&mut self) -> Result<(), NoMemory>
        ensures { OnOk result (self.new ≡ opened self.old) }
    {
        self.bases.push(self.base)?;
        self.base = self.items.len();
        Ok(())
    }

    /// Takes the topmost list away.
    pub fn close(&mut self)
        ensures { self.new ≡ closed self.old }
    {
        self.items.truncate(self.base);
        self.base = self.bases.pop().unwrap_or(0);
    }
}
