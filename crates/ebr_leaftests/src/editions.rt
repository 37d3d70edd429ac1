//! Editions and their objects: that `create`, `put` and `hide` succeed with ample memory, of which the server calls the parts.

use crate::answers::{is, release};
use ebr_base::{Class, EditionNo, Name, NoMemory, ObjectKey, Stamp, Stop};
use ebr_editions::{Actuals, Chain};
use std::alloc::Global;
use std::test::Fail;

/// A name; where the bytes spell none, the test fails with want of memory.
fn name(alloc: Global, bytes: &[u8]) -> Result<Name, NoMemory> {
    Name::of(alloc, bytes)?.ok_or(NoMemory)
}

fn key(alloc: Global) -> Result<ObjectKey, NoMemory> {
    Ok(ObjectKey {
        class: Class::Unit,
        name: name(alloc, b"P")?,
    })
}

/// The number of a child of the leaf.
fn create(alloc: Global, chain: &mut Chain) -> Result<u32, Stop> {
    Ok(chain.create(name(alloc, b"V2")?, None)?.0)
}

/// The count of a stamp, or why there is none.
fn count(answer: Result<Stamp, Stop>) -> Result<u32, Stop> {
    match answer {
        Ok(stamp) => Ok(stamp.count),
        Err(stop) => Err(stop),
    }
}

fn put(alloc: Global, chain: &Chain, actuals: &mut Actuals<u32>) -> Result<u32, Stop> {
    count(actuals.put(chain, EditionNo(2), key(alloc)?, 10))
}

fn hide(alloc: Global, chain: &Chain, actuals: &mut Actuals<u32>) -> Result<u32, Stop> {
    count(actuals.hide(chain, EditionNo(2), &key(alloc)?))
}

/// Whether an object, which is a number, is defined in edition 2 and dropped there.
fn object_goes(alloc: Global, chain: &Chain) -> Result<bool, NoMemory> {
    let mut actuals = Actuals::new(alloc)?;
    let goes = is(put(alloc, chain, &mut actuals), Ok(1))
        && is(hide(alloc, chain, &mut actuals), Ok(2));
    release(actuals);
    Ok(goes)
}

/// Whether the second edition is made, and then the object.
fn edition_goes(alloc: Global) -> Result<bool, NoMemory> {
    let mut chain = Chain::new(alloc)?;
    let goes = if is(create(alloc, &mut chain), Ok(2)) {
        object_goes(alloc, &chain)
    } else {
        Ok(false)
    };
    release(chain);
    goes
}

#[test]
fn an_object_is_defined_and_dropped_in_a_new_edition(rt: HostRuntime) -> Result<(), Fail> {
    assert!(rt; edition_goes(rt.alloc())?);
    Ok(())
}
