//! A journal that is stopped at each of its calls.

ghost use Rattle.ebr_record.specs.Payload.{HasPayload};

use crate::records::{disk, edition, found_on, old, release};
use ebr_base::NoMemory;
use ebr_journal::Journal;
use ebr_outside::MemDisk;
use ebr_record::Record;
use std::alloc::Global;
use std::test::Fail;

/// How far a run came: the start, the mark and the record, each where the one before it went well.
#[derive(Clone, Copy, PartialEq, Eq)]
enum Came {
    Nowhere,
    Started,
    Marked,
    Kept,
}

/// Gives a journal the mark and keeps a record, as far as that goes.
fn go_on(journal: &mut Journal<MemDisk>, r: &Record) -> Came
    requires { HasPayload r.now }
{
    if journal.upgrade().is_err() {
        return Came::Started;
    }
    if journal.takes(r) && journal.append(r).is_ok() {
        return Came::Kept;
    }
    Came::Marked
}

/// Opens a journal of one record, gives it the mark and keeps one record more, on a disk of which each call from this one on
/// fails.
fn run(alloc: Global, call: u32, r: &Record) -> Result<(MemDisk, Came), NoMemory>
    requires { HasPayload r.now }
{
    match Journal::start(alloc, disk(alloc, old(), call)?) {
        Ok((mut journal, found)) => {
            release(found);
            let came = go_on(&mut journal, r);
            Ok((journal.into_disk(), came))
        }
        Err(fault) => Ok((fault.disk, Came::Nowhere)),
    }
}

/// Whether each image that a crash may leave opens with the first record and, as told, with the second: 0 is never, 1 maybe, 2
/// always.
fn opens(alloc: Global, left: &MemDisk, second: u32) -> Result<bool, NoMemory> {
    for pick in 0..8 {
        let names = found_on(alloc, left.after_crash(pick)?)?;
        let fits = match names.as_slice() {
            b"V2" => second <= 1,
            b"V2V3" => second >= 1,
            _ => false,
        };
        if !fits {
            return Ok(false);
        }
    }
    Ok(true)
}

/// Whether a run that is stopped at a call came so far, and leaves the second record as told.
fn stops(alloc: Global, call: u32, wanted: Came, second: u32) -> Result<bool, NoMemory> {
    let third = edition(alloc, b"v3", 2)?;
    let (left, came) = run(alloc, call, &third)?;
    Ok(came == wanted && opens(alloc, &left, second)?)
}

/// A start makes three calls of a file that isn't blank, the mark four and a record four. Of these the record may be there from
/// the third on.
#[test]
fn each_stop_leaves_what_was_acknowledged(rt: HostRuntime) -> Result<(), Fail> {
    let alloc = rt.alloc();
    for call in 1..4 {
        assert!(rt; stops(alloc, call, Came::Nowhere, 0)?);
    }
    for call in 4..8 {
        assert!(rt; stops(alloc, call, Came::Started, 0)?);
    }
    for call in 8..10 {
        assert!(rt; stops(alloc, call, Came::Marked, 0)?);
    }
    for call in 10..12 {
        assert!(rt; stops(alloc, call, Came::Marked, 1)?);
    }
    assert!(rt; stops(alloc, 12, Came::Kept, 2)?);
    Ok(())
}
