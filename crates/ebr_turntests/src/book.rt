//! The book.
ghost use Rattle.std.specs.Prelude.{◌≡◌, ◌∷◌, [], ◌++◌};

use ebr_turn::Booked;
use std::alloc::Global;
use std::sync::Wait;

/// A list of numbers and items.
#[derive(Drop)]
pub struct Book {
    /// Its entries, each with the number under which its item was written.
    pub entries: Vec<(u32, u32), Global>,
}

impl Booked for Book {
    type Item = u32;

    ghost booked = { λ b. b.entries.items };
}

impl Book {
    /// A book without entries.
    pub fn new(alloc: Global) -> Book
        ensures { result.entries.items ≡ [] }
    {
        Book {
            entries: Vec::new(alloc),
        }
    }

    /// Adds an entry. It may wait for memory.
    pub fn append<R: Wait>(mut self, rt: &R, number: u32, item: u32) -> Book
        ensures { result.entries.items ≡ self.entries.items ++ (number, item) ∷ [] }
    {
        for _ in rt.forever() {
            if self.entries.push((number, item)).is_ok() {
                return self;
            }
        }
        unreachable!()
    }
}
