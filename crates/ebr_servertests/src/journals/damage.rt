//! Journals that are opened: whole ones, old ones, damaged ones, and what is left of them.

use ebr_base::NoMemory;
use ebr_server::ExitCode;
use ebr_trial::{MemOutcome, Stop, disk_is, dumped, dumps, rehearsed_on, release};
use std::alloc::Global;
use std::test::Fail;

/// A journal of the first format: edition V2 was made.
pub const OLD: &[u8] = b"\x01\x01\0\0\0\x08\x02\x02V2\0\0\0\x01\0";

/// The same continued: the mark, and edition V3.
const CONTINUED: &[u8] =
    b"\x01\x01\0\0\0\x08\x02\x02V2\0\0\0\x01\x01\0\0\0\x02\x0a\x02\x01\0\0\0\0\0\0\0\x08\x02\x02V3\0\0\0\x02\0";

/// A journal of the last format: the mark, and edition V2.
const NEW: &[u8] = b"\x01\x01\0\0\0\x02\x0a\x02\x01\0\0\0\0\0\0\0\x08\x02\x02V2\0\0\0\x01\0";

/// The mark alone.
const MARKED: &[u8] = b"\x01\x01\0\0\0\x02\x0a\x02\0";

/// Whether a rehearsal of an empty script goes through, and leaves these bytes.
fn opens(alloc: Global, bytes: &[u8], left: &[u8]) -> Result<bool, NoMemory> {
    let outcome = rehearsed_on(alloc, bytes, b"", None)?;
    let so = outcome.code == ExitCode::Done && disk_is(&outcome, left);
    release(outcome);
    Ok(so)
}

/// Whether `dump` and a rehearsal find a file whole, and the one writes these lines, the other leaves these bytes.
fn is_whole(alloc: Global, bytes: &[u8], lines: &[u8], left: &[u8]) -> Result<bool, NoMemory> {
    Ok(dumps(alloc, bytes, lines)? && opens(alloc, bytes, left)?)
}

#[test]
fn blank_files_and_closed_gates_have_no_records(rt: HostRuntime) -> Result<(), Fail> {
    let alloc = rt.alloc();
    assert!(rt; is_whole(alloc, b"", b"", MARKED)?);
    assert!(rt; is_whole(alloc, b"\x01", b"", MARKED)?);
    assert!(rt; is_whole(alloc, b"\0\x07", b"", MARKED)?);
    assert!(rt; is_whole(alloc, b"\x01\0", b"", MARKED)?);
    assert!(rt; is_whole(alloc, b"\x01\x05\xff", b"", MARKED)?);
    Ok(())
}

#[test]
fn old_files_are_continued(rt: HostRuntime) -> Result<(), Fail> {
    let alloc = rt.alloc();
    assert!(rt; dumps(alloc, OLD, b"edition V2\n")?);
    assert!(rt; dumps(alloc, CONTINUED, b"edition V2\nedition V3\n")?);
    assert!(rt; leaves(alloc, OLD, b"CREATE EDITION v3;\n", CONTINUED)?);
    assert!(rt; leaves(alloc, b"", b"CREATE EDITION v2;\n", NEW)?);
    Ok(())
}

/// Whether a rehearsal of a script leaves these bytes.
fn leaves(alloc: Global, bytes: &[u8], script: &[u8], left: &[u8]) -> Result<bool, NoMemory> {
    let outcome = rehearsed_on(alloc, bytes, script, None)?;
    let so = outcome.code == ExitCode::Done && disk_is(&outcome, left);
    release(outcome);
    Ok(so)
}

/// A file that is damaged, and what is told of it.
fn damaged(at: u32) -> Option<(&'static [u8], u64, &'static [u8])> {
    match at {
        0 => Some((b"\x02\0\0", 0, b"damaged at 0\n")),
        1 => Some((b"\x01\x01", 1, b"damaged at 1\n")),
        2 => Some((b"\x01\x01\0\0\0\0\0", 1, b"damaged at 1\n")),
        3 => Some((&OLD[..14], 1, b"damaged at 1\n")),
        4 => Some((
            b"\x01\x01\0\0\0\x08\x02\x02V2\0\0\0\x01\x01",
            14,
            b"damaged at 14\n",
        )),
        5 => Some((
            b"\x01\x01\0\0\0\x08\x0a\x02V2\0\0\0\x01\0",
            1,
            b"damaged at 1\n",
        )),
        6 => Some((
            b"\x01\x01\0\0\0\x08\x02\x02v2\0\0\0\x01\0",
            1,
            b"damaged at 1\n",
        )),
        // The parent isn't there.
        7 => Some((
            b"\x01\x01\0\0\0\x08\x02\x02V2\0\0\0\x02\0",
            1,
            b"damaged at 1\n",
        )),
        // The second edition is the child of one that has a child, in front of a gate with nothing behind it.
        8 => Some((
            b"\x01\x01\0\0\0\x08\x02\x02V2\0\0\0\x01\x01\0\0\0\x08\x02\x02V3\0\0\0\x01\x01",
            14,
            b"damaged at 14\n",
        )),
        9 => Some((&CONTINUED[..30], 21, b"damaged at 21\n")),
        // Behind the mark, a child of an edition that isn't there.
        10 => Some((
            b"\x01\x01\0\0\0\x08\x02\x02V2\0\0\0\x01\x01\0\0\0\x02\x0a\x02\x01\0\0\0\0\0\0\0\x08\x02\x02V3\0\0\0\x09\0",
            21,
            b"damaged at 21\n",
        )),
        11 => Some((&OLD[..10], 1, b"damaged at 1\n")),
        _ => None,
    }
}

/// Whether a run ended so, with the journal as it was.
fn is_left_damaged(outcome: &MemOutcome, bytes: &[u8], stop: Stop) -> bool {
    stop.is(outcome) && disk_is(outcome, bytes)
}

fn is_damaged(
    alloc: Global,
    bytes: &[u8],
    at: u64,
    report: &'static [u8],
) -> Result<bool, NoMemory> {
    let stop = Stop {
        code: ExitCode::Damaged { at },
        status: 6,
        report,
    };
    let dump = dumped(alloc, bytes)?;
    let told = is_left_damaged(&dump, bytes, stop);
    release(dump);
    let rehearsal = rehearsed_on(alloc, bytes, b"CREATE EDITION v9;\n", None)?;
    let stopped = is_left_damaged(&rehearsal, bytes, stop);
    release(rehearsal);
    Ok(told && stopped)
}

/// The first of the damaged files that isn't found so; their number where there is none.
fn first_unfound(alloc: Global) -> Result<u32, NoMemory> {
    for at in 0..99 {
        let Some((bytes, place, report)) = damaged(at) else {
            return Ok(at);
        };
        if !is_damaged(alloc, bytes, place, report)? {
            return Ok(at);
        }
    }
    Ok(99)
}

#[test]
fn damaged_journals_are_told_and_left(rt: HostRuntime) -> Result<(), Fail> {
    assert!(rt; first_unfound(rt.alloc())? == 12);
    Ok(())
}

#[test]
fn what_stands_behind_the_closed_gate_is_not_read(rt: HostRuntime) -> Result<(), Fail> {
    let alloc = rt.alloc();
    assert!(rt;
        dumps(
            alloc,
            b"\x01\x01\0\0\0\x08\x02\x02V2\0\0\0\x01\0\x01\x02\x03",
            b"edition V2\n"
        )?
    );
    assert!(rt; dumps(alloc, b"\x01\0\0\0\0\x08\x02\x02V2", b"")?);
    Ok(())
}
