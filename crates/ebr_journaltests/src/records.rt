//! Records, disks, and what is found on them.

ghost use Rattle.std.specs.Prelude.{◌≡◌, ◌≤◌, length, IfOk, Ok};
ghost use Rattle.ebr_record.specs.Payload.{HasPayload};

use ebr_base::{Bytes, EditionNo, List, Name, NoMemory};
use ebr_journal::{Found, Journal};
use ebr_outside::{Fail, MemDisk};
use ebr_record::Record;
use std::alloc::Global;

/// A journal of the first format whose one record is the edition V2.
pub fn old() -> &'static [u8] {
    b"\x01\x01\x00\x00\x00\x08\x02\x02V2\x00\x00\x00\x01\x00"
}

/// The same one, continued with the edition V3.
pub fn old_continued() -> &'static [u8] {
    b"\x01\x01\x00\x00\x00\x08\x02\x02V2\x00\x00\x00\x01\x01\x00\x00\x00\x02\x0a\x02\x01\x00\x00\x00\x00\x00\x00\x00\x08\x02\x02V3\x00\x00\x00\x02\x00"
}

/// A journal of the last format whose one record is the edition V2.
pub fn new() -> &'static [u8] {
    b"\x01\x01\x00\x00\x00\x02\x0a\x02\x01\x00\x00\x00\x00\x00\x00\x00\x08\x02\x02V2\x00\x00\x00\x01\x00"
}

/// A name; where the bytes spell none, the test fails with want of memory.
fn name(alloc: Global, bytes: &[u8]) -> Result<Name, NoMemory>
    ensures { IfOk result (λ name. length name ≤ 128) }
{
    let name = Name::of(alloc, bytes)?.ok_or(NoMemory)?;
    let _bytes = name.as_slice();
    Ok(name)
}

/// An edition was made.
pub fn edition(alloc: Global, bytes: &[u8], parent: u32) -> Result<Record, NoMemory>
    ensures { IfOk result HasPayload }
{
    Ok(Record::Edition {
        name: name(alloc, bytes)?,
        parent: EditionNo(parent),
    })
}

/// A disk of these bytes, of which each call from this one on fails.
pub fn disk(alloc: Global, bytes: &[u8], call: u32) -> Result<MemDisk, NoMemory> {
    let mut failing = List::new(alloc);
    failing.push(Fail {
        at: call,
        onward: true,
    })?;
    MemDisk::new(alloc, Bytes::from_slice(alloc, bytes)?, failing)
}

/// A disk of these bytes that never fails.
pub fn sound_disk(alloc: Global, bytes: &[u8]) -> Result<MemDisk, NoMemory> {
    MemDisk::new(alloc, Bytes::from_slice(alloc, bytes)?, List::new(alloc))
}

/// The names of the editions that were made, with a `?` for any other record.
pub fn editions(alloc: Global, found: &Found) -> Result<Bytes, NoMemory> {
    let mut told = Bytes::new(alloc);
    for r in found.records.as_slice() {
        match r {
            Record::Edition { name, .. } => told.extend(name.as_slice())?,
            _ => told.push(b'?')?,
        }
    }
    Ok(told)
}

/// The names of the editions that a start finds on a disk that doesn't fail. Where it doesn't begin the test fails with want of
/// memory.
pub fn found_on(alloc: Global, disk: MemDisk) -> Result<Bytes, NoMemory> {
    let (journal, found) = ok(Journal::start(alloc, disk))?;
    release(journal);
    editions(alloc, &found)
}

/// The value of a call that is to go well; elsewhere the test fails with want of memory.
pub fn ok<T: Drop, E: Drop>(answer: Result<T, E>) -> Result<T, NoMemory>
    ensures { IfOk result (λ value. answer ≡ Ok value) }
{
    match answer {
        Ok(value) => Ok(value),
        Err(_) => Err(NoMemory),
    }
}

/// Drops a value. It is generic so that for its caller the drop is one call.
pub fn release<T: Drop>(_value: T) {}
