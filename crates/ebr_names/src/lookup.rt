//! Objects and tables in what an edition sees.

ghost use Rattle.std.specs.Prelude.{◌≡◌, ◌<◌, map, length, slice_get, IfSome};
ghost use Rattle.std.specs.List.{position};
ghost use Rattle.std.specs.List.Sorted.{IsStrictlySortedBy, IsBinarySearchResult, IsSearchInRange};
ghost use Rattle.std.specs.Option.{option_copied};
ghost use Rattle.ebr_base.specs.Keys.{same_key, key_order, table_named};
ghost use Rattle.ebr_ast.specs.Views.{key_of, object_of, IsInOrder};

use ebr_ast::{EditionView, Object};
use ebr_base::{Class, Name, ObjectKey, Shared, TableDef};
use ebr_shared_list::{Probe, SharedList};
use std::cmp::Ordering;

/// The visible object of a class and a name. It is searched for by halving, and takes no memory.
pub fn object<'a>(v: &'a EditionView, class: Class, name: &Name) -> Option<&'a Object>
    requires { IsInOrder v.now }
    ensures { option_copied result ≡ object_of (record { class = class; name = name.now }) v.now.objects }
{
    match shared_object(v, class, name) {
        Some(object) => Some(object.get()),
        None => None,
    }
}

/// The visible object of a class and a name, of which another holder can be made. It is searched for by halving, and takes
/// no memory.
pub fn shared_object<'a>(
    v: &'a EditionView,
    class: Class,
    name: &Name,
) -> Option<&'a Shared<Object>>
    requires { IsInOrder v.now }
    ensures { option_copied result ≡ object_of (record { class = class; name = name.now }) v.now.objects }
{
    match place(&v.objects, class, name) {
        Some(place) => v.objects.get(place),
        None => None,
    }
}

/// The object at a place.
pub fn object_at<'a>(objects: &'a SharedList<Shared<Object>>, place: usize) -> Option<&'a Object>
    ensures { option_copied result ≡ slice_get objects.now place }
{
    match objects.get(place) {
        Some(object) => Some(object.get()),
        None => None,
    }
}

/// The place of the object of a class and a name, counted from 0.
pub fn place(objects: &SharedList<Shared<Object>>, class: Class, name: &Name) -> Option<usize>
    requires { IsStrictlySortedBy key_order (map key_of objects.now) }
    ensures place { result ≡ position (λ o. same_key (record { class = class; name = name.now }) o.key) objects.now }
    ensures within { IfSome result (λ place. place < length objects.now) }
{
    search(objects, class, name).ok()
}

/// The place of the object of a class and a name, counted from 0, or the one where it would go. It is searched for by
/// halving.
pub fn search(
    objects: &SharedList<Shared<Object>>,
    class: Class,
    name: &Name,
) -> Result<usize, usize>
    ensures within { IsSearchInRange result (length objects.now) }
    ensures found { IsBinarySearchResult (λ o. key_order o.key (record { class = class; name = name.now })) objects.now result }
{
    objects.place(&KeyProbe { class, name })
}

/// A search for the object of a class and a name.
#[derive(Clone, Copy)]
struct KeyProbe<'a> {
    class: Class,
    name: &'a Name,
}

impl<'a> Probe<Shared<Object>> for KeyProbe<'a> {
    ghost use Rattle.ebr_base.specs.Keys.{key_order};

    ghost order = { λ probe o. key_order o.key (record { class = probe.class; name = probe.name.now }) };

    fn order(&self, object: &Shared<Object>) -> Ordering {
        order_of(&object.get().key, self.class, self.name)
    }
}

/// How a key stands to that of a class and a name.
pub fn order_of(key: &ObjectKey, class: Class, name: &Name) -> Ordering
    ensures { result ≡ key_order key.now (record { class = class; name = name.now }) }
{
    key.class.cmp(&class).then(key.name.cmp(name))
}

/// The table of a name. It takes no memory.
pub fn table<'a>(v: &'a EditionView, name: &Name) -> Option<&'a TableDef>
    ensures { option_copied result ≡ table_named name.now v.now.tables }
{
    v.tables
        .get()
        .as_slice()
        .iter()
        .find(|table| *name == table.name)
}
