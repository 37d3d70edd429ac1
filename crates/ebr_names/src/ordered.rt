//! Whether objects stand in order.

ghost use Rattle.std.specs.Prelude.{◌≡◌, ◌↔◌, IsTrue};
ghost use Rattle.std.specs.Option.{option_copied};
ghost use Rattle.ebr_ast.specs.Views.{IsInOrder};
ghost use Rattle.ebr_names.specs.inside.Rising.{rising, is_before};

use crate::lookup::{object_at, order_of};
use ebr_ast::{EditionView, Object};
use ebr_base::{MAX_COUNT, Shared};
use ebr_shared_list::SharedList;

/// Whether the objects stand in order of class and then of name, each key once, and can be counted, as look-ups need it.
/// What a catalogue gives is so; this is the test for what is made by hand.
pub fn is_in_order(v: &EditionView) -> bool
    ensures { IsTrue result ↔ IsInOrder v.now }
{
    v.objects.len() < MAX_COUNT && rises(&v.objects)
}

fn rises(objects: &SharedList<Shared<Object>>) -> bool
    ensures { result ≡ rising objects.now }
{
    for at in 0..objects.len() {
        let object = object_at(objects, at);
        let next = object_at(objects, at + 1);
        if !goes_before(object, next) {
            return false;
        }
    }
    true
}

/// Whether the key of an object is before that of the next one, where there is one.
fn goes_before(object: Option<&Object>, next: Option<&Object>) -> bool
    ensures { result ≡ is_before (option_copied object.entry) (option_copied next.entry) }
{
    match (object, next) {
        (Some(object), Some(next)) => {
            order_of(&object.key, next.key.class, &next.key.name).is_lt()
        }
        _ => true,
    }
}
