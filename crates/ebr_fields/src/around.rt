//! What names in a statement of SQL are that are no columns.

ghost use Rattle.std.specs.Prelude.{◌≡◌, []};
ghost use Rattle.ebr_scope.specs.Around.{image_type};
ghost use Rattle.ebr_scope.specs.Lent.{env};

use ebr_ast::{Path, RowImage};
use ebr_base::Name;
use ebr_scope::{Place, Scopes, meant, variable_type};
use ebr_sqlcheck::{ValueType, Variables, named_type};

/// The type of a column of what the trigger is on; none where there is no such column.
pub fn image_type(name: &Name, place: &Place<'_>) -> Option<ValueType>
    ensures { result ≡ image_type (env place.now []) name.now }
{
    named_type(place.columns, name)
}

/// What is known around a statement: variables, and `:NEW.c` and `:OLD.c`, which another rule judges.
#[derive(Drop)]
pub struct Around<'b, 'a> {
    pub place: &'b Place<'a>,
    pub known: &'b Scopes<'a>,
}

impl<'b, 'a> Variables for Around<'b, 'a> {
    ghost use Rattle.ebr_scope.specs.Around as spec;
    ghost use Rattle.ebr_scope.specs.Lent.{env};

    ghost others = { λ a. spec.others (env a.place.now a.known.now) };

    fn variable(&self, path: &Path) -> Option<Option<ValueType>> {
        variable_type(meant(self.place.seen, self.known, path))
    }

    fn image(&self, _image: RowImage, name: &Name) -> Option<Option<ValueType>> {
        Some(image_type(name, self.place))
    }

    fn bind(&self, _at: u32) -> Option<Option<ValueType>> {
        None
    }
}
