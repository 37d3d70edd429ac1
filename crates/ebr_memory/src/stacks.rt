//! A stack for each running subprogram, all in one vector.

ghost use Rattle.std.specs.Prelude.{◌≡◌, [], ◌∷◌, ◌++◌, length, take, drop, reverse, MatchOption, OnOk, IfOk};
ghost use Rattle.ebr_memory.specs.Levels.{with_top, opened, closed, joined};

use ebr_base::{CloneIn, List, NoMemory, rest_from};
use std::alloc::Global;
use std::marker::Model;

/// Stacks on top of each other, each of which contracts see as the list of its elements, the topmost first. A new one
/// takes no memory of its own.
#[derive(Drop)]
pub struct Stacks<T> {
    items: Vec<T>,
    /// Where the topmost stack begins.
    base: usize,
    /// Where the stacks beneath begin, the lowest first.
    bases: Vec<usize>,
}

impl<T> Model for Stacks<T> {
    ghost use Rattle.std.specs.Prelude.{reverse};
    ghost use Rattle.ebr_memory.specs.Levels as spec;

    ghost Value = { spec.Levels T };

    ghost view = { λ s. spec.stacks s.base (reverse s.bases.items) s.items.items };

    ghost invariant = { λ s. spec.IsCut s.base (reverse s.bases.items) s.items.items };
}

impl<T> Stacks<T> {
    /// One empty stack, which takes no memory.
    pub fn new(alloc: Global) -> Stacks<T>
        ensures { result ≡ record { top = []; beneath = [] } }
    {
        Stacks {
            items: Vec::new(alloc),
            base: 0,
            bases: Vec::new(alloc),
        }
    }

    /// How many elements the topmost stack has.
    pub fn len(&self) -> usize
        ensures { result ≡ length self.now.top }
    {
        self.items.len() - self.base
    }

    /// So many elements from the top of the topmost stack, the topmost last.
    pub fn last(&self, count: usize) -> &[T]
        ensures { result.now ≡ reverse (take count self.now.top) }
    {
        let height = self.items.len() - self.base;
        rest_from(
            self.items.as_slice(),
            self.base + height.saturating_sub(count),
        )
    }
}

impl<T: Drop> Stacks<T> {
    /// Puts an element on the topmost stack.
    pub fn push(&mut self, item: T) -> Result<(), NoMemory>
        ensures { OnOk result (self.new ≡ with_top (item ∷ self.old.top) self.old) }
    {
        self.items.push(item)?;
        Ok(())
    }

    /// Puts an element beneath all others of the topmost stack.
    pub fn push_lowest(&mut self, item: T) -> Result<(), NoMemory>
        ensures { OnOk result (self.new ≡ with_top (self.old.top ++ item ∷ []) self.old) }
    {
        self.items.insert(self.base, item)?;
        Ok(())
    }

    /// Takes the topmost element of the topmost stack away.
    pub fn pop(&mut self) -> Option<T>
        ensures { MatchOption result ((self.old.top ≡ []) × (self.new ≡ self.old)) (λ top. self.old ≡ with_top (top ∷ self.new.top) self.new) }
    {
        if self.base < self.items.len() {
            self.items.pop()
        } else {
            None
        }
    }

    /// Takes so many elements from the top of the topmost stack, and gives them, the topmost last.
    pub fn take(&mut self, count: usize) -> Result<List<T>, NoMemory>
        ensures taken { IfOk result (λ taken. taken ≡ reverse (take count self.old.top)) }
        ensures rest { OnOk result (self.new ≡ with_top (drop count self.old.top) self.old) }
    {
        let height = self.items.len() - self.base;
        let taken = self
            .items
            .split_off(self.base + height.saturating_sub(count))?;
        Ok(List::from_vec(taken))
    }

    /// Takes so many elements from the top of the topmost stack away.
    pub fn shorten(&mut self, count: usize)
        ensures { self.new ≡ with_top (drop count self.old.top) self.old }
    {
        let height = self.items.len() - self.base;
        self.items
            .truncate(self.base + height.saturating_sub(count));
    }

    /// Empties the topmost stack.
    pub fn clear(&mut self)
        ensures { self.new ≡ with_top [] self.old }
    {
        self.items.truncate(self.base);
    }

    /// Puts an empty stack on top.
    pub fn open(&mut self) -> Result<(), NoMemory>
        ensures { OnOk result (self.new ≡ opened self.old) }
    {
        self.bases.push(self.base)?;
        self.base = self.items.len();
        Ok(())
    }

    /// Takes the topmost stack away.
    pub fn close(&mut self)
        ensures { self.new ≡ closed self.old }
    {
        self.items.truncate(self.base);
        self.base = self.bases.pop().unwrap_or(0);
    }

    /// Leaves the elements of the topmost stack on top of the one beneath.
    pub fn join(&mut self)
        ensures { self.new ≡ joined self.old }
    {
        self.base = self.bases.pop().unwrap_or(0);
    }
}

impl<T: CloneIn> Stacks<T> {
    /// Puts copies of elements on the topmost stack, the first one topmost.
    pub fn push_copies(&mut self, alloc: Global, items: &[T]) -> Result<(), NoMemory>
        ensures { OnOk result (self.new ≡ with_top (items.now ++ self.old.top) self.old) }
    {
        for at in (0..items.len()).rev() {
            self.push(items[at].clone_in(alloc)?)?;
        }
        Ok(())
    }
}
