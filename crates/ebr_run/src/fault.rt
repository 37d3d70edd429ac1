//! What is raised.

use ebr_base::{CloneIn, Code, List, Name, NoMemory, ObjectKey, Shared};
use std::alloc::Global;

/// A declared exception, told by where its declaration stands.
#[derive(Drop)]
pub struct Exception {
    /// The object in whose text it is declared; none for a block that a session runs.
    pub unit: Option<ObjectKey>,
    /// The way to the block that declares it: at each level, which part of the tree it stands in.
    pub block: List<usize>,
    pub name: Name,
}

/// What was raised. An exception that has a code is raised as this code.
#[derive(Drop)]
pub enum Fault {
    Code(Code),
    User(Shared<Exception>),
}

impl CloneIn for Fault {
    fn clone_in(&self, alloc: Global) -> Result<Fault, NoMemory> {
        match self {
            Fault::Code(code) => Ok(Fault::Code(*code)),
            Fault::User(exception) => Ok(Fault::User(exception.clone_in(alloc)?)),
        }
    }
}
