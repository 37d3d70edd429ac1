//! What is called and referred to.

use ebr_base::{CloneIn, NoMemory, ObjectKey};
use std::alloc::Global;

/// A subprogram of a stored unit, and the shape of a call of it.
#[derive(Drop)]
pub struct Callee {
    /// The procedure or function, or the body of its package.
    pub unit: ObjectKey,
    /// Its place among the unit's subprograms.
    pub place: usize,
    /// How many arguments it is given.
    pub arguments: usize,
    /// How many values it gives back.
    pub results: usize,
}

impl CloneIn for Callee {
    fn clone_in(&self, alloc: Global) -> Result<Callee, NoMemory> {
        Ok(Callee {
            unit: self.unit.clone_in(alloc)?,
            place: self.place,
            arguments: self.arguments,
            results: self.results,
        })
    }
}

/// Why a package is referred to.
#[derive(Clone, Copy, Debug, PartialEq, Eq)]
pub enum Reference {
    /// For a variable, a constant or a cursor, which code under a trigger may not use.
    Data,
    /// For a subprogram or an exception.
    Other,
}
