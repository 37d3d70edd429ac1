//! The objects that are actual in each edition.

ghost use Rattle.std.specs.Prelude.{◌≡◌, ◌+◌, ◌<◌, [], Some, None, nat_le, IfOk, IfSome, OnOk, OnErr, option_map};
ghost use Rattle.std.specs.Option.{option_copied};
ghost use Rattle.ebr_base.specs.Answers.{Answers};
ghost use Rattle.ebr_base.specs.declared.numbers.TheConstants.{MAX_COUNT};
ghost use Rattle.ebr_editions.specs.Objects.{next_stamp, with_entry, without_both, Visible, actual_object, actual_at, keys_of, put_answer, hide_answer};
ghost use Rattle.ebr_editions.specs.Held.{HasEntries, ForEntries, held, hold, deref_object, defined_in, with_definition};
ghost use Rattle.ebr_editions.specs.inside.Held.{held_object, held_visible, held_stamp, held_at, held_others};

use crate::chain::Chain;
use crate::defined::Definitions;
use ebr_base::{CloneIn, Code, EditionNo, MAX_COUNT, NoMemory, ObjectKey, Stamp, Stop, both};
use indexmap::{IndexMap, IndexSet};
use std::alloc::Global;
use std::marker::Model;

/// The most objects that an edition sees.
const MAX_OBJECTS: usize = 4096;

/// The objects of all editions.
///
/// Its contracts speak of the plain list of definitions and drops that led to it, in the order in which they were
/// made. Contracts see what such a list leaves (`held`), and a replaced object is gone, so no value tells the list
/// itself: each clause holds of whichever entries leave what is held (`ForEntries`), and there always are such entries
/// (`HasEntries`).
#[derive(Drop)]
pub struct Actuals<O> {
    alloc: Global,
    /// Every key that was ever defined, in any edition.
    keys: IndexSet<ObjectKey>,
    editions: IndexMap<EditionNo, Definitions<O>>,
}

impl<O> Model for Actuals<O> {
    ghost use Rattle.ebr_editions.specs.Held.{Held, HasEntries};

    ghost Value = { Held O };

    ghost view = { λ a. record { keys = a.keys.keys; editions = a.editions.entries } };

    ghost invariant = { λ a. HasEntries (record { keys = a.keys.keys; editions = a.editions.entries }) };
}

impl<O: Drop> Actuals<O> {
    /// Holds nothing.
    pub fn new(alloc: Global) -> Result<Actuals<O>, NoMemory>
        ensures { IfOk result (λ actuals. actuals ≡ held []) }
    {
        Ok(Actuals {
            alloc,
            keys: IndexSet::new(alloc),
            editions: IndexMap::new(alloc),
        })
    }

    /// What the last definition of a key in an edition left.
    fn entry<'a>(&'a self, e: EditionNo, key: &ObjectKey) -> Option<&'a Option<O>>
        ensures object { option_copied result ≡ held_object self.now e key.now }
        ensures entries { HasEntries self.now }
    {
        let definitions = self.editions.get(&e)?;
        definitions.get(key)
    }

    /// The object that is actual in an edition itself.
    pub fn actual<'a>(&'a self, e: EditionNo, key: &ObjectKey) -> Option<&'a O>
        ensures object { ForEntries self.now (λ entries. option_copied result ≡ actual_object entries e key.now) }
        ensures entries { HasEntries self.now }
    {
        self.entry(e, key)?.as_ref()
    }

    /// The keys that were ever defined, in any edition, in the order of their first definitions.
    pub fn keys(&self) -> &[ObjectKey]
        ensures { ForEntries self.now (λ entries. result.now ≡ keys_of entries) }
    {
        self.all_keys()
    }

    fn all_keys(&self) -> &[ObjectKey]
        ensures { result.now ≡ self.now.keys }
    {
        self.keys.as_slice()
    }

    /// The stamp that the next definition or drop in an edition gets.
    pub fn next_stamp(&self, e: EditionNo) -> Stamp
        ensures stamp { ForEntries self.now (λ entries. result ≡ next_stamp entries e) }
        ensures entries { HasEntries self.now }
    {
        self.stamp(e)
    }

    fn stamp(&self, e: EditionNo) -> Stamp
        ensures stamp { result ≡ held_stamp self.now e }
        ensures entries { HasEntries self.now }
    {
        Stamp {
            edition: e,
            count: self.count(e) + 1,
        }
    }

    /// How many definitions and drops an edition has had.
    fn count(&self, e: EditionNo) -> u32
        ensures count { result ≡ (defined_in self.now.editions e).count }
        ensures few { result < MAX_COUNT }
        ensures entries { HasEntries self.now }
    {
        match self.editions.get(&e) {
            Some(definitions) => definitions.count(),
            None => 0,
        }
    }

    /// The key at a place among those with a definition or drop in an edition, in the order of their first ones there,
    /// with the object that is actual there; none where the last one was a drop.
    pub fn actual_in(&self, e: EditionNo, at: u32) -> Option<(&ObjectKey, Option<&O>)>
        ensures entry { ForEntries self.now (λ entries. option_map deref_object result ≡ actual_at entries e at) }
        ensures entries { HasEntries self.now }
    {
        self.at(e, at as usize)
    }

    fn at(&self, e: EditionNo, at: usize) -> Option<(&ObjectKey, Option<&O>)>
        ensures entry { option_map deref_object result ≡ held_at self.now e at }
        ensures last { IfSome result (λ p. held_object self.now e p.0.now ≡ Some (option_copied p.1)) }
        ensures entries { HasEntries self.now }
    {
        let definitions = self.editions.get(&e)?;
        definitions.at(at)
    }

    /// The object that an edition sees under a key: its own, or the nearest one up the line that isn't hidden.
    pub fn visible<'a>(&'a self, chain: &Chain, e: EditionNo, key: &ObjectKey) -> Option<&'a O>
        ensures { ForEntries self.now (λ entries. option_copied result ≡ Visible chain.now.made entries e key.now) }
    {
        self.seen(chain, e, key)
    }

    fn seen<'a>(&'a self, chain: &Chain, e: EditionNo, key: &ObjectKey) -> Option<&'a O>
        ensures { option_copied result ≡ held_visible chain.now.made self.now e key.now }
    {
        let mut next = Some(e);
        while let Some(d) = next {
            if let Some(object) = self.entry(d, key) {
                return object.as_ref();
            }
            next = chain.parent(d);
        }
        None
    }

    /// Makes an object actual in an edition.
    ///
    /// Refusal: EBR-0034 where more than 4,096 objects would be visible in the edition afterwards. It finds no memory
    /// where the edition has had 4,294,967,294 definitions and drops. An `Err` changes nothing.
    pub fn put(&mut self, chain: &Chain, e: EditionNo, key: ObjectKey, o: O) -> Result<Stamp, Stop>
        ensures answer { ForEntries self.old (λ entries. Answers result (put_answer chain.now.made entries e key o)) }
        ensures made { OnOk result (ForEntries self.old (λ entries. self.new ≡ held (with_entry entries e key (Some o)))) }
        ensures unchanged { OnErr result (self.new ≡ self.old) }
    {
        if self.is_full(chain, e, &key) {
            return Err(Stop::Raised(Code::Ebr(34)));
        }
        Ok(self.add(e, key, Some(o))?)
    }

    /// Hides a key in an edition and in what inherits from there. Its ancestors' objects stay visible in them.
    ///
    /// Refusal: ORA-04043 where the key isn't visible in the edition. It finds no memory where the edition has had
    /// 4,294,967,294 definitions and drops. An `Err` changes nothing.
    pub fn hide(&mut self, chain: &Chain, e: EditionNo, key: &ObjectKey) -> Result<Stamp, Stop>
        ensures answer { ForEntries self.old (λ entries. Answers result (hide_answer chain.now.made entries e key.now)) }
        ensures hidden { OnOk result (ForEntries self.old (λ entries. self.new ≡ held (with_entry entries e key.now None))) }
        ensures unchanged { OnErr result (self.new ≡ self.old) }
    {
        if self.seen(chain, e, key).is_none() {
            return Err(Stop::Raised(Code::Ora(4043)));
        }
        let copy = key.clone_in(self.alloc)?;
        Ok(self.add(e, copy, None)?)
    }

    /// Makes an object actual in an edition, or where there is none hides the key there, and tests nothing. It finds no memory
    /// where the edition has had 4,294,967,294 definitions and drops. An `Err` changes nothing.
    pub fn enter(&mut self, e: EditionNo, key: ObjectKey, object: Option<O>) -> Result<(), NoMemory>
        ensures made { OnOk result (ForEntries self.old (λ entries. self.new ≡ held (with_entry entries e key object))) }
        ensures unchanged { OnErr result (self.new ≡ self.old) }
    {
        self.add(e, key, object)?;
        Ok(())
    }

    /// Hides a key in an edition, whether it is visible or not, and after it another one where that is visible, in one step. It
    /// finds no memory where the edition has had 4,294,967,293 definitions and drops. An `Err` changes nothing.
    pub fn enter_drops(
        &mut self,
        chain: &Chain,
        e: EditionNo,
        first: &ObjectKey,
        second: &ObjectKey,
    ) -> Result<(), NoMemory>
        ensures hidden { OnOk result (ForEntries self.old (λ entries. self.new ≡ held (without_both chain.now.made entries e first.now second.now))) }
        ensures unchanged { OnErr result (self.new ≡ self.old) }
    {
        if self.seen(chain, e, second).is_none() {
            let copy = first.clone_in(self.alloc)?;
            return self.enter(e, copy, None);
        }
        let copies = both(self.alloc, first, second)?;
        self.hide_two(e, copies.0, copies.1)?;
        Ok(())
    }

    /// Hides a key in an edition, and after it another one where that is visible, in one step.
    ///
    /// Refusal: ORA-04043 where the first key isn't visible in the edition. It finds no memory where the edition has had
    /// 4,294,967,293 definitions and drops. An `Err` changes nothing.
    pub fn hide_both(
        &mut self,
        chain: &Chain,
        e: EditionNo,
        first: &ObjectKey,
        second: &ObjectKey,
    ) -> Result<Stamp, Stop>
        ensures answer { ForEntries self.old (λ entries. Answers result (hide_answer chain.now.made entries e first.now)) }
        ensures hidden { OnOk result (ForEntries self.old (λ entries. self.new ≡ held (without_both chain.now.made entries e first.now second.now))) }
        ensures unchanged { OnErr result (self.new ≡ self.old) }
    {
        if self.seen(chain, e, second).is_none() {
            return self.hide(chain, e, first);
        }
        if self.seen(chain, e, first).is_none() {
            return Err(Stop::Raised(Code::Ora(4043)));
        }
        let copies = both(self.alloc, first, second)?;
        Ok(self.hide_two(e, copies.0, copies.1)?)
    }

    /// What `put` would answer: the stamp, or EBR-0034.
    pub fn put_answer(
        &self,
        chain: &Chain,
        e: EditionNo,
        key: &ObjectKey,
        o: &O,
    ) -> Result<Stamp, Code>
        ensures { ForEntries self.now (λ entries. result ≡ put_answer chain.now.made entries e key.now o.now) }
    {
        if self.is_full(chain, e, key) {
            return Err(Code::Ebr(34));
        }
        Ok(self.stamp(e))
    }

    /// Whether no other object than one under this key may become visible in an edition.
    fn is_full(&self, chain: &Chain, e: EditionNo, key: &ObjectKey) -> bool
        ensures { result ≡ nat_le 4096 (held_others chain.now.made self.now e key.now) }
    {
        // Not counted where there are too few keys to come to the limit.
        self.keys.len() >= MAX_OBJECTS && self.others(chain, e, key) >= MAX_OBJECTS
    }

    /// How many objects an edition sees under other keys.
    fn others(&self, chain: &Chain, e: EditionNo, key: &ObjectKey) -> usize
        ensures { result ≡ held_others chain.now.made self.now e key.now }
    {
        let mut count = 0;
        for k in self.keys.as_slice() {
            if k != key && self.seen(chain, e, k).is_some() {
                count += 1;
            }
        }
        count
    }

    fn add(&mut self, e: EditionNo, key: ObjectKey, object: Option<O>) -> Result<Stamp, NoMemory>
        ensures stamp { IfOk result (λ stamp. stamp ≡ held_stamp self.old e) }
        ensures held { OnOk result (self.new ≡ hold self.old e key object) }
        ensures unchanged { OnErr result (self.new ≡ self.old) }
    {
        let stamp = self.stamp(e);
        if stamp.count as usize >= MAX_COUNT {
            return Err(NoMemory);
        }
        self.keys.reserve(1)?;
        let copy = key.clone_in(self.alloc)?;
        define(self.alloc, &mut self.editions, e, key, object)?;
        self.keys.insert(copy).unwrap();
        Ok(stamp)
    }

    fn hide_two(
        &mut self,
        e: EditionNo,
        first: ObjectKey,
        second: ObjectKey,
    ) -> Result<Stamp, NoMemory>
        ensures stamp { IfOk result (λ stamp. stamp ≡ held_stamp self.old e) }
        ensures held { OnOk result (self.new ≡ hold (hold self.old e first None) e second None) }
        ensures unchanged { OnErr result (self.new ≡ self.old) }
    {
        let stamp = self.stamp(e);
        if stamp.count as usize >= MAX_COUNT - 1 {
            return Err(NoMemory);
        }
        self.keys.reserve(2)?;
        let copies = both(self.alloc, &first, &second)?;
        hide_two(self.alloc, &mut self.editions, e, first, second)?;
        self.keys.insert(copies.0).unwrap();
        self.keys.insert(copies.1).unwrap();
        Ok(stamp)
    }
}

/// Notes two drops in one edition: both, or where there is no memory none.
fn hide_two<O: Drop>(
    alloc: Global,
    editions: &mut IndexMap<EditionNo, Definitions<O>>,
    e: EditionNo,
    first: ObjectKey,
    second: ObjectKey,
) -> Result<(), NoMemory>
    requires { (defined_in editions.old.entries e).count + 1 < MAX_COUNT }
    ensures ok { OnOk result (editions.new.entries ≡ with_definition (with_definition editions.old.entries e first None) e second None) }
    ensures err { OnErr result (editions.new.entries ≡ editions.old.entries) }
{
    match editions.get_mut(&e) {
        Some(definitions) => definitions.hide_two(first, second),
        None => {
            let mut definitions = Definitions::new(alloc);
            definitions.hide_two(first, second)?;
            editions.insert(e, definitions)?;
            Ok(())
        }
    }
}

fn define<O: Drop>(
    alloc: Global,
    editions: &mut IndexMap<EditionNo, Definitions<O>>,
    e: EditionNo,
    key: ObjectKey,
    object: Option<O>,
) -> Result<(), NoMemory>
    requires { (defined_in editions.old.entries e).count < MAX_COUNT }
    ensures ok { OnOk result (editions.new.entries ≡ with_definition editions.old.entries e key object) }
    ensures err { OnErr result (editions.new.entries ≡ editions.old.entries) }
{
    match editions.get_mut(&e) {
        Some(definitions) => definitions.put(key, object),
        None => {
            let mut definitions = Definitions::new(alloc);
            definitions.put(key, object)?;
            editions.insert(e, definitions)?;
            Ok(())
        }
    }
}
