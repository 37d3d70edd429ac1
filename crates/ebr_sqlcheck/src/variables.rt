//! What stands in a statement that is no column.

use crate::value_type::{ValueType, type_of_value};
use ebr_base::{Name, Value};
use ebr_exprtree::{Path, RowImage};

/// What names in a statement are that are no columns: what the code around it has, and binds.
///
/// Each is none where there is no such thing, and inside that none where there is one whose type isn't known.
pub trait Variables {
    ghost use Rattle.std.specs.Prelude.{◌≡◌};
    ghost use Rattle.ebr_sqlcheck.specs.Names.{Others};

    ghost others: { Self → Others };

    /// The type of a variable.
    fn variable(&self, path: &Path) -> Option<Option<ValueType>>
        ensures { result ≡ (others self.now).variable path.now };

    /// The type of `:NEW.name` or `:OLD.name`.
    fn image(&self, image: RowImage, name: &Name) -> Option<Option<ValueType>>
        ensures { result ≡ (others self.now).image image name.now };

    /// The type of the bind at a place, counted from 0.
    fn bind(&self, at: u32) -> Option<Option<ValueType>>
        ensures { result ≡ (others self.now).bind at };
}

/// The binds of a session's statement, beside which nothing else is known. Each has its value's type.
#[derive(Drop)]
pub struct Binds<'a> {
    pub values: &'a [Value],
}

impl<'a> Variables for Binds<'a> {
    ghost use Rattle.ebr_sqlcheck.specs.Names.{binds_alone};

    ghost others = { λ b. binds_alone b.values.now };

    fn variable(&self, _path: &Path) -> Option<Option<ValueType>> {
        None
    }

    fn image(&self, _image: RowImage, _name: &Name) -> Option<Option<ValueType>> {
        None
    }

    fn bind(&self, at: u32) -> Option<Option<ValueType>> {
        match self.values.get(at as usize) {
            Some(value) => Some(type_of_value(value)),
            None => None,
        }
    }
}
