//! Runs scripts in threads over a host in memory.

use crate::gate::OrderGate;
use crate::journals::journal;
use crate::rehearsals::{file, rehearse_words};
use crate::trial::{MemOutcome, release, words_of};
use ebr_base::{Bytes, List, NoMemory};
use ebr_outside::{Fail, Host, MemFile, MemHost, OpenGate};
use ebr_server::serve;
use std::alloc::Global;
use std::sync::Wait;
use std::thread::Threads;

/// The words of a run of the scripts `1.sql`, `2.sql` and so on; of at most 33.
pub fn run_words(alloc: Global, sessions: usize) -> Result<List<Bytes>, NoMemory> {
    let mut words = words_of(alloc, &[b"run", b"journal"])?;
    for word in rehearse_words(sessions).iter().skip(3) {
        words.push(Bytes::from_slice(alloc, word)?)?;
    }
    Ok(words)
}

/// The files `1.sql`, `2.sql` and so on with these bytes; at most 33.
pub fn script_files(alloc: Global, scripts: &[Bytes]) -> Result<List<MemFile>, NoMemory> {
    let mut files = List::new(alloc);
    let words = rehearse_words(scripts.len()).iter().skip(3);
    for (word, script) in words.zip(scripts) {
        files.push(file(alloc, word, script.as_slice())?)?;
    }
    Ok(files)
}

/// `serve` with these words over these files.
pub fn ran<R: Threads + Wait + Sync>(
    rt: &R,
    alloc: Global,
    words: &[Bytes],
    files: List<MemFile>,
) -> MemOutcome {
    let mut host = MemHost::new(alloc, files, List::new(alloc), List::new(alloc), OpenGate);
    let outcome = serve(rt, alloc, words, &mut host);
    release(host);
    outcome
}

/// A run of these scripts over a journal with these bytes, of whose disk a call may fail; of at most 33.
pub fn ran_over<R: Threads + Wait + Sync>(
    rt: &R,
    alloc: Global,
    bytes: &[u8],
    scripts: &[Bytes],
    fail: Option<Fail>,
) -> Result<MemOutcome, NoMemory> {
    let words = run_words(alloc, scripts.len())?;
    let mut files = script_files(alloc, scripts)?;
    files.push(journal(alloc, bytes, fail)?)?;
    Ok(ran(rt, alloc, words.as_slice(), files))
}

/// What came in time.
fn in_time<T: Drop>(came: T, late: bool) -> Option<T> {
    if late { None } else { Some(came) }
}

/// The same as `ran`, where the asks of the sessions pass in this order. None where a session waited too long for its place in it.
pub fn ran_in_order<R: Threads + Wait + Sync>(
    rt: &R,
    alloc: Global,
    words: &[Bytes],
    files: List<MemFile>,
    order: Vec<u32>,
) -> Option<MemOutcome> {
    let gate = OrderGate::new(order);
    let mut host = MemHost::new(alloc, files, List::new(alloc), List::new(alloc), gate);
    let outcome = serve(rt, alloc, words, &mut host);
    let late = host.gate().was_late();
    release(host);
    in_time(outcome, late)
}
