//! Where variables and cursors are, and what variables hold.

use ebr_base::{CloneIn, ColType, Name, NoMemory};
use std::alloc::Global;

/// The type of a variable, which bounds its values.
#[derive(Clone, Copy, Debug, PartialEq, Eq)]
pub enum VariableType {
    /// A number or a text, as a column of this type.
    Plain(ColType),
    Boolean,
    /// That of a column that isn't there any more. It takes every value.
    Unknown,
}

/// Where a variable or a cursor is.
#[derive(Drop)]
pub enum Location {
    /// One of the running subprogram, by its place, counted from 0.
    Own(usize),
    /// One of a package, by its place among those of the specification and then of the body.
    Member(Name, usize),
}

impl CloneIn for Location {
    fn clone_in(&self, alloc: Global) -> Result<Location, NoMemory> {
        match self {
            Location::Own(at) => Ok(Location::Own(*at)),
            Location::Member(package, at) => Ok(Location::Member(package.clone_in(alloc)?, *at)),
        }
    }
}

/// What gives a bind of a statement its value.
#[derive(Drop)]
pub enum Bind {
    Variable(Location),
    /// The column of `:NEW` at a place.
    New(usize),
    /// The column of `:OLD` at a place.
    Old(usize),
}

impl CloneIn for Bind {
    fn clone_in(&self, alloc: Global) -> Result<Bind, NoMemory> {
        match self {
            Bind::Variable(location) => Ok(Bind::Variable(location.clone_in(alloc)?)),
            Bind::New(at) => Ok(Bind::New(*at)),
            Bind::Old(at) => Ok(Bind::Old(*at)),
        }
    }
}
