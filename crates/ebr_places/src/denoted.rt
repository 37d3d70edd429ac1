//! What names stand for.

ghost use Rattle.std.specs.Prelude.{◌≡◌, IfOk};

use ebr_ast::{Head, Query};
use ebr_base::{CloneIn, List, Name, NoMemory, ObjectKey, Shared, both};
use ebr_run::{Bind, Fault, Location, VariableType};
use ebr_scope::Field;
use ebr_sqlcheck::ValueType;
use std::alloc::Global;

/// A statement whose binds have their sources.
#[derive(Drop)]
pub struct Bound<T> {
    pub tree: Shared<T>,
    pub binds: Shared<List<Bind>>,
}

/// A field of a loop's record, and the place of its variable.
#[derive(Drop)]
pub struct Part {
    pub name: Option<Name>,
    pub variable: usize,
    pub ty: Option<ValueType>,
}

/// What a name stands for. It lends the head of a subprogram.
#[derive(Drop)]
pub enum Denoted<'a> {
    /// Where a variable is, and its type.
    Variable(Location, Option<VariableType>),
    /// An exception, and the package that declares it.
    Exception(Option<Name>, Fault),
    /// A cursor's place, its query, and its columns.
    Cursor(Location, Bound<Query>, Option<Shared<List<Field>>>),
    /// The record of a loop over rows.
    Record(Shared<List<Part>>),
    /// The unit that has the subprogram, its place there, and its head.
    Subprogram(ObjectKey, usize, &'a Head),
}

impl<T: Drop> CloneIn for Bound<T> {
    fn clone_in(&self, alloc: Global) -> Result<Bound<T>, NoMemory> {
        let (tree, binds) = both(alloc, &self.tree, &self.binds)?;
        Ok(Bound { tree, binds })
    }
}

fn cursor<'a>(
    alloc: Global,
    location: &Location,
    query: &Bound<Query>,
    fields: &Option<Shared<List<Field>>>,
) -> Result<Denoted<'a>, NoMemory>
    ensures { IfOk result (λ copy. copy ≡ Denoted.Cursor location.now query.now fields.now) }
{
    let (query, fields) = both(alloc, query, fields)?;
    Ok(Denoted::Cursor(location.clone_in(alloc)?, query, fields))
}

impl<'a> CloneIn for Denoted<'a> {
    fn clone_in(&self, alloc: Global) -> Result<Denoted<'a>, NoMemory> {
        match self {
            Denoted::Variable(location, ty) => {
                Ok(Denoted::Variable(location.clone_in(alloc)?, *ty))
            }
            Denoted::Exception(package, fault) => {
                let (package, fault) = both(alloc, package, fault)?;
                Ok(Denoted::Exception(package, fault))
            }
            Denoted::Cursor(location, query, fields) => cursor(alloc, location, query, fields),
            Denoted::Record(parts) => Ok(Denoted::Record(parts.clone_in(alloc)?)),
            Denoted::Subprogram(key, at, head) => {
                Ok(Denoted::Subprogram(key.clone_in(alloc)?, *at, *head))
            }
        }
    }
}
