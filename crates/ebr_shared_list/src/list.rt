//! The list.

ghost use Rattle.std.specs.Prelude.{◌≡◌, ◌+◌, ◌-◌, ◌≤◌, [], length, slice_get, IfOk, OnOk, OnErr};
ghost use Rattle.std.specs.Option.{option_copied};
ghost use Rattle.std.specs.List.Sorted.{IsBinarySearchResult, IsSearchInRange};
ghost use Rattle.ebr_shared_list.specs.Joined.{as_list, spliced};

use crate::edit::{chunks_of, copied, spliced_chunks};
use crate::search::{Probe, item, place};
use ebr_base::{CloneIn, List, NoMemory, Shared};
use std::alloc::Global;
use std::marker::Model;

/// A list in shared chunks, which contracts see as the list of its elements.
#[derive(Drop)]
pub struct SharedList<T> {
    chunks: Shared<List<Shared<List<T>>>>,
    len: usize,
}

impl<T> Model for SharedList<T> {
    ghost use Rattle.std.specs.Prelude.{◌≡◌, List as Sequence, length};
    ghost use Rattle.std.specs.Coded.{coded_list};
    ghost use Rattle.ebr_shared_list.specs.Joined.{joined, AreFilled};

    ghost Value = { Sequence T };

    ghost coded = { coded_list T.code };

    ghost view = { λ s. joined s.chunks };

    ghost invariant = { λ s. (s.len ≡ length (joined s.chunks)) × AreFilled s.chunks };
}

impl<T> SharedList<T> {
    /// How many elements there are.
    pub fn len(&self) -> usize
        ensures { result ≡ length self.now }
    {
        self.len
    }

    /// The element at a place, counted from 0.
    pub fn get(&self, at: usize) -> Option<&T>
        ensures { option_copied result ≡ slice_get self.now at }
    {
        item(self.chunks.get().as_slice(), at)
    }

    /// The place of what is searched for, by halving: an element that stands as it, or, where the elements stand in its
    /// order, the place between those before it and those behind it.
    pub fn place<P: Probe<T>>(&self, probe: &P) -> Result<usize, usize>
        ensures range { IsSearchInRange result (length self.now) }
        ensures place { IsBinarySearchResult (P.order probe.now) self.now result }
    {
        let _len = self.len;
        place(self.chunks.get().as_slice(), probe)
    }
}

impl<T: Drop> SharedList<T> {
    /// The empty list.
    pub fn new(alloc: Global) -> Result<SharedList<T>, NoMemory>
        ensures { IfOk result (λ made. made ≡ []) }
    {
        let chunks = Shared::new(alloc, List::new(alloc))?;
        Ok(SharedList { chunks, len: 0 })
    }
}

impl<T: Drop> CloneIn for SharedList<T> {
    /// Another holder of the same elements. It copies none of them.
    fn clone_in(&self, alloc: Global) -> Result<SharedList<T>, NoMemory> {
        Ok(SharedList {
            chunks: self.chunks.clone_in(alloc)?,
            len: self.len,
        })
    }
}

impl<T: CloneIn> SharedList<T> {
    /// A list of copies of the elements, in their order.
    pub fn from_slice(alloc: Global, items: &[T]) -> Result<SharedList<T>, NoMemory>
        ensures { IfOk result (λ made. made ≡ items.now) }
    {
        let chunks = Shared::new(alloc, chunks_of(alloc, items)?)?;
        Ok(SharedList {
            chunks,
            len: items.len(),
        })
    }

    /// Copies of all elements.
    pub fn to_list(&self, alloc: Global) -> Result<List<T>, NoMemory>
        ensures { IfOk result (λ items. items ≡ self.now) }
    {
        copied(alloc, self.chunks.get().as_slice())
    }

    /// Puts a new element, or none, in place of one at a place, or of none. Other holders keep what they have.
    pub fn splice(
        &mut self,
        alloc: Global,
        at: usize,
        cut: usize,
        new: Option<T>,
    ) -> Result<(), NoMemory>
        requires one { cut ≤ 1 }
        requires within { at + cut ≤ length self.old }
        ensures ok { OnOk result (self.new ≡ spliced self.old at cut new) }
        ensures err { OnErr result (self.new ≡ self.old) }
    {
        let len = len_after(self.len, cut, &new)?;
        let chunks = spliced_chunks(alloc, self.chunks.get().as_slice(), at, cut, new)?;
        let chunks = Shared::new(alloc, chunks)?;
        *self = SharedList { chunks, len };
        Ok(())
    }
}

/// The length with a new element, or none, and without so many.
fn len_after<T>(len: usize, cut: usize, new: &Option<T>) -> Result<usize, NoMemory>
    requires { cut ≤ len }
    ensures { IfOk result (λ after. after ≡ (len - cut) + length (as_list new.now)) }
{
    match new {
        Some(_) => (len - cut).checked_add(1).ok_or(NoMemory),
        None => Ok(len - cut),
    }
}
