//! The change of one place.

ghost use Rattle.std.specs.Prelude.{◌≡◌, ◌+◌, ◌<◌, ◌≤◌, [], ◌∷◌, ◌++◌, length, take, drop, IfOk, OnOk, IsTrue, slice_index_or};
ghost use Rattle.std.specs.Bool.{OnFalse};
ghost use Rattle.ebr_shared_list.specs.Joined.{as_list, joined, spliced, AreFilled};
ghost use Rattle.ebr_shared_list.specs.Places.{IsPlace};

use ebr_base::{CloneIn, List, NoMemory, Shared};
use std::alloc::Global;

/// How many elements a chunk has at most.
pub const CHUNK: usize = 64;

/// Where a place is: in which chunk, and at which place there.
#[derive(Clone, Copy)]
pub struct Place {
    pub chunk: usize,
    pub at: usize,
}

/// Adds copies of elements.
fn copy_all<T: CloneIn>(alloc: Global, from: &[T], into: &mut List<T>) -> Result<(), NoMemory>
    ensures { OnOk result (into.new ≡ into.old ++ from.now) }
{
    for item in from {
        into.push(item.clone_in(alloc)?)?;
    }
    Ok(())
}

fn push_some<T: Drop>(new: Option<T>, into: &mut List<T>) -> Result<(), NoMemory>
    ensures { OnOk result (into.new ≡ into.old ++ as_list new) }
{
    match new {
        Some(item) => into.push(item),
        None => Ok(()),
    }
}

/// The elements with a new one, or none, in place of so many at a place.
fn spliced<T: CloneIn>(
    alloc: Global,
    items: &[T],
    at: usize,
    cut: usize,
    new: Option<T>,
) -> Result<List<T>, NoMemory>
    requires { at + cut ≤ length items.now }
    ensures { IfOk result (λ made. made ≡ spliced items.now at cut new) }
{
    let mut made = List::new(alloc);
    copy_all(alloc, &items[..at], &mut made)?;
    push_some(new, &mut made)?;
    copy_all(alloc, &items[at + cut..], &mut made)?;
    Ok(made)
}

/// Adds the elements as a chunk.
fn push_chunk<T: Drop>(
    alloc: Global,
    items: List<T>,
    into: &mut List<Shared<List<T>>>,
) -> Result<(), NoMemory>
    requires { 0 < length items }
    ensures joined { OnOk result (joined into.new ≡ joined into.old ++ items) }
    ensures filled { AreFilled into.old → OnOk result (AreFilled into.new) }
{
    let chunk = Shared::new(alloc, items)?;
    into.push(chunk)
}

/// Adds the elements as two chunks.
fn push_halves<T: Drop>(
    alloc: Global,
    items: List<T>,
    into: &mut List<Shared<List<T>>>,
) -> Result<(), NoMemory>
    requires { CHUNK < length items }
    ensures joined { OnOk result (joined into.new ≡ joined into.old ++ items) }
    ensures filled { AreFilled into.old → OnOk result (AreFilled into.new) }
{
    let mut front = items.into_vec();
    let rest = front.split_off(CHUNK / 2)?;
    push_chunk(alloc, List::from_vec(front), into)?;
    push_chunk(alloc, List::from_vec(rest), into)
}

/// Adds the elements as chunks: none, one or two.
fn push_chunks<T: Drop>(
    alloc: Global,
    items: List<T>,
    into: &mut List<Shared<List<T>>>,
) -> Result<(), NoMemory>
    ensures joined { OnOk result (joined into.new ≡ joined into.old ++ items) }
    ensures filled { AreFilled into.old → OnOk result (AreFilled into.new) }
{
    if items.len() == 0 {
        return Ok(());
    }
    if items.len() <= CHUNK {
        return push_chunk(alloc, items, into);
    }
    push_halves(alloc, items, into)
}

fn fits(at: usize, cut: usize, len: usize) -> bool
    ensures fits { IsTrue result → at + cut ≤ len }
    ensures passes { OnFalse result (len < at + cut) }
{
    cut <= len && at <= len - cut
}

/// The place of an element, or of a new one where none is cut out.
fn place_of<T>(chunks: &[Shared<List<T>>], at: usize, cut: usize) -> Place
    requires one { cut ≤ 1 }
    requires within { at + cut ≤ length (joined chunks.now) }
    ensures { IsPlace chunks.now at cut result }
{
    let mut left = at;
    for (chunk, items) in chunks.iter().enumerate() {
        let len = items.get().len();
        if fits(left, cut, len) {
            return Place { chunk, at: left };
        }
        left -= len;
    }
    Place {
        chunk: chunks.len(),
        at: 0,
    }
}

/// The elements of the chunk of a place, with the change.
fn changed_chunk<T: CloneIn>(
    alloc: Global,
    chunks: &[Shared<List<T>>],
    place: Place,
    cut: usize,
    new: Option<T>,
) -> Result<List<T>, NoMemory>
    requires { place.at + cut ≤ length (slice_index_or chunks.now place.chunk []) }
    ensures { IfOk result (λ made. made ≡ spliced (slice_index_or chunks.now place.chunk []) place.at cut new) }
{
    if place.chunk < chunks.len() {
        return spliced(
            alloc,
            chunks[place.chunk].get().as_slice(),
            place.at,
            cut,
            new,
        );
    }
    let none = List::new(alloc);
    spliced(alloc, none.as_slice(), place.at, cut, new)
}

/// The chunks behind one.
fn behind<T>(chunks: &[Shared<List<T>>], at: usize) -> &[Shared<List<T>>]
    requires { at ≤ length chunks.now }
    ensures { result.now ≡ drop (at + 1) chunks.now }
{
    if at < chunks.len() {
        return &chunks[at + 1..];
    }
    &chunks[at..]
}

/// The chunks with a change at a place.
fn changed<T: CloneIn>(
    alloc: Global,
    chunks: &[Shared<List<T>>],
    place: Place,
    cut: usize,
    new: Option<T>,
) -> Result<List<Shared<List<T>>>, NoMemory>
    requires chunk { place.chunk ≤ length chunks.now }
    requires within { place.at + cut ≤ length (slice_index_or chunks.now place.chunk []) }
    ensures joined { IfOk result (λ made. joined made ≡ joined (take place.chunk chunks.now) ++ (spliced (slice_index_or chunks.now place.chunk []) place.at cut new ++ joined (drop (place.chunk + 1) chunks.now))) }
    ensures filled { AreFilled chunks.now → IfOk result (λ made. AreFilled made) }
{
    let items = changed_chunk(alloc, chunks, place, cut, new)?;
    let mut made = List::new(alloc);
    copy_all(alloc, &chunks[..place.chunk], &mut made)?;
    push_chunks(alloc, items, &mut made)?;
    copy_all(alloc, behind(chunks, place.chunk), &mut made)?;
    Ok(made)
}

/// The chunks with a new element, or none, in place of so many at a place.
pub fn spliced_chunks<T: CloneIn>(
    alloc: Global,
    chunks: &[Shared<List<T>>],
    at: usize,
    cut: usize,
    new: Option<T>,
) -> Result<List<Shared<List<T>>>, NoMemory>
    requires one { cut ≤ 1 }
    requires within { at + cut ≤ length (joined chunks.now) }
    ensures joined { IfOk result (λ made. joined made ≡ spliced (joined chunks.now) at cut new) }
    ensures filled { AreFilled chunks.now → IfOk result (λ made. AreFilled made) }
{
    let place = place_of(chunks, at, cut);
    changed(alloc, chunks, place, cut, new)
}

/// Copies of elements, as chunks.
pub fn chunks_of<T: CloneIn>(alloc: Global, items: &[T]) -> Result<List<Shared<List<T>>>, NoMemory>
    ensures joined { IfOk result (λ made. joined made ≡ items.now) }
    ensures filled { IfOk result (λ made. AreFilled made) }
{
    let mut made = List::new(alloc);
    let mut left = items;
    while left.len() > CHUNK {
        let (front, rest) = left.split_at(CHUNK);
        push_copies(alloc, front, &mut made)?;
        left = rest;
    }
    push_copies(alloc, left, &mut made)?;
    Ok(made)
}

/// Adds copies of elements as chunks.
fn push_copies<T: CloneIn>(
    alloc: Global,
    items: &[T],
    into: &mut List<Shared<List<T>>>,
) -> Result<(), NoMemory>
    ensures joined { OnOk result (joined into.new ≡ joined into.old ++ items.now) }
    ensures filled { AreFilled into.old → OnOk result (AreFilled into.new) }
{
    let mut copies = List::new(alloc);
    copy_all(alloc, items, &mut copies)?;
    push_chunks(alloc, copies, into)
}

/// Copies of the elements of chunks.
pub fn copied<T: CloneIn>(alloc: Global, chunks: &[Shared<List<T>>]) -> Result<List<T>, NoMemory>
    ensures { IfOk result (λ items. items ≡ joined chunks.now) }
{
    let mut items = List::new(alloc);
    for chunk in chunks {
        copy_all(alloc, chunk.get().as_slice(), &mut items)?;
    }
    Ok(items)
}
