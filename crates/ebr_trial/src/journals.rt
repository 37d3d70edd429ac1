//! Runs commands over a journal in memory.

use crate::rehearsals::{file, rehearse_words, rehearsed};
use crate::trial::{MemOutcome, release};
use ebr_base::{Bytes, List, NoMemory};
use ebr_outside::{Fail, MemFile};
use ebr_server::ExitCode;
use std::alloc::Global;

/// The words of `dump journal`.
pub const DUMP: &[&[u8]] = &[b"dump", b"journal"];

/// The journal with these bytes, of whose disk a call may fail.
pub fn journal(alloc: Global, bytes: &[u8], fail: Option<Fail>) -> Result<MemFile, NoMemory> {
    let mut made = file(alloc, b"journal", bytes)?;
    if let Some(fail) = fail {
        made.disk.push(fail)?;
    }
    Ok(made)
}

/// `dump` of a journal with these bytes.
pub fn dumped(alloc: Global, bytes: &[u8]) -> Result<MemOutcome, NoMemory> {
    let mut files = List::new(alloc);
    files.push(journal(alloc, bytes, None)?)?;
    rehearsed(alloc, DUMP, files, None, None)
}

/// A rehearsal of scripts by an order over a journal with these bytes, of whose disk a call may fail; of at most 33.
pub fn rehearsed_over(
    alloc: Global,
    bytes: &[u8],
    order: &[u8],
    scripts: &[&[u8]],
    fail: Option<Fail>,
) -> Result<MemOutcome, NoMemory> {
    let words = rehearse_words(scripts.len());
    let mut files = List::new(alloc);
    files.push(journal(alloc, bytes, fail)?)?;
    files.push(file(alloc, b"order", order)?)?;
    for (at, script) in scripts.iter().enumerate() {
        if let Some(word) = words.get(at.saturating_add(3)) {
            files.push(file(alloc, word, script)?)?;
        }
    }
    rehearsed(alloc, words, files, None, None)
}

/// The same of one script.
pub fn rehearsed_on(
    alloc: Global,
    bytes: &[u8],
    script: &[u8],
    fail: Option<Fail>,
) -> Result<MemOutcome, NoMemory> {
    rehearsed_over(alloc, bytes, b"", &[script], fail)
}

/// The bytes of the disk that is handed back.
pub fn bytes_of(alloc: Global, outcome: &MemOutcome) -> Result<Bytes, NoMemory> {
    match &outcome.disk {
        Some(disk) => Bytes::from_slice(alloc, disk.bytes()),
        None => Ok(Bytes::new(alloc)),
    }
}

/// Whether the disk that is handed back has these bytes.
pub fn disk_is(outcome: &MemOutcome, bytes: &[u8]) -> bool {
    match &outcome.disk {
        Some(disk) => disk.bytes() == bytes,
        None => false,
    }
}

/// Whether `dump` of a journal with these bytes writes these lines, and leaves it so.
pub fn dumps(alloc: Global, bytes: &[u8], lines: &[u8]) -> Result<bool, NoMemory> {
    let outcome = dumped(alloc, bytes)?;
    let so = outcome.code == ExitCode::Done
        && outcome.report.held() == lines
        && disk_is(&outcome, bytes);
    release(outcome);
    Ok(so)
}
