//! The headers of visible objects.

ghost use Rattle.std.specs.Prelude.{◌≡◌, IfOk, option_map};
ghost use Rattle.ebr_ast.specs.Views.{IsInOrder};
ghost use Rattle.ebr_names.specs.Headers.{lent, visible_header};

use crate::heads::{Header, header_of};
use crate::lookup::object;
use ebr_ast::EditionView;
use ebr_base::{NoMemory, ObjectKey};
use std::alloc::Global;

/// The header of the visible object of a key, valid or not; none where the key isn't visible. The view
/// lends what stands in it.
pub fn header<'a>(
    alloc: Global,
    v: &'a EditionView,
    key: &ObjectKey,
) -> Result<Option<Header<'a>>, NoMemory>
    requires { IsInOrder v.now }
    ensures { IfOk result (λ header. option_map lent header ≡ visible_header v.now key.now) }
{
    match object(v, key.class, &key.name) {
        Some(object) => Ok(Some(header_of(alloc, &object.tree)?)),
        None => Ok(None),
    }
}
