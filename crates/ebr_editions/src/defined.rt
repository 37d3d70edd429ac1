//! What one edition has had defined.

ghost use Rattle.std.specs.Prelude.{◌≡◌, ◌+◌, ◌<◌, None, Some, IfSome, OnOk, OnErr, slice_get, option_map};
ghost use Rattle.std.specs.Option.{option_copied};
ghost use Rattle.std.specs.Map.{lookup};
ghost use Rattle.ebr_base.specs.declared.numbers.TheConstants.{MAX_COUNT};
ghost use Rattle.ebr_base.specs.Keys.{same_key};
ghost use Rattle.ebr_editions.specs.Held.{Defined, nothing_defined, with_object, deref_object};

use ebr_base::{NoMemory, ObjectKey};
use indexmap::IndexMap;
use std::alloc::Global;
use std::marker::Model;

/// How many definitions and drops an edition has had, and what the last one left for each key.
#[derive(Drop)]
pub struct Definitions<O> {
    /// In the order of the first definition of each key; a dropped key has no object.
    objects: IndexMap<ObjectKey, Option<O>>,
    count: u32,
}

impl<O> Model for Definitions<O> {
    ghost use Rattle.ebr_editions.specs.Held.{Defined};

    ghost Value = { Defined O };

    ghost view = { λ d. record { count = d.count; objects = d.objects.entries } };
}

impl<O: Drop> Definitions<O> {
    pub fn new(alloc: Global) -> Definitions<O>
        ensures { result ≡ nothing_defined }
    {
        Definitions {
            objects: IndexMap::new(alloc),
            count: 0,
        }
    }

    /// Notes a definition, or a drop where there is no object.
    pub fn put(&mut self, key: ObjectKey, object: Option<O>) -> Result<(), NoMemory>
        requires { self.old.count < MAX_COUNT }
        ensures ok { OnOk result (self.new ≡ with_object self.old key object) }
        ensures err { OnErr result (self.new ≡ self.old) }
    {
        self.objects.insert(key, object)?;
        self.count += 1;
        Ok(())
    }

    /// Notes two drops: both, or where there is no memory none.
    pub fn hide_two(&mut self, first: ObjectKey, second: ObjectKey) -> Result<(), NoMemory>
        requires { self.old.count + 1 < MAX_COUNT }
        ensures ok { OnOk result (self.new ≡ with_object (with_object self.old first None) second None) }
        ensures err { OnErr result (self.new ≡ self.old) }
    {
        self.objects.reserve(2)?;
        self.objects.insert(first, None).unwrap();
        self.objects.insert(second, None).unwrap();
        self.count += 2;
        Ok(())
    }

    /// What the last definition of a key left.
    pub fn get(&self, key: &ObjectKey) -> Option<&Option<O>>
        ensures { option_copied result ≡ lookup (same_key key.now) self.now.objects }
    {
        self.objects.get(key)
    }

    /// The key at a place in the order of first definitions, with what its last definition left.
    pub fn at(&self, at: usize) -> Option<(&ObjectKey, Option<&O>)>
        ensures entry { option_map deref_object result ≡ slice_get self.now.objects at }
        ensures last { IfSome result (λ p. lookup (same_key p.0.now) self.now.objects ≡ Some (option_copied p.1)) }
    {
        let (key, object) = self.objects.get_index(at)?;
        Some((key, object.as_ref()))
    }

    /// How many definitions and drops there were.
    pub fn count(&self) -> u32
        ensures { result ≡ self.now.count }
    {
        self.count
    }
}
