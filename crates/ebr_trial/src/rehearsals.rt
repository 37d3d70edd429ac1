//! Rehearses scripts over a host in memory, byte for byte.

use crate::trial::{MemOutcome, alone, list_of, release, words_of};
use ebr_base::{Bytes, List, NoMemory};
use ebr_outside::{Fail, MemFile, MemHost, MemSink, OpenGate};
use ebr_report::SessionEnd;
use ebr_server::ExitCode;
use std::alloc::Global;

/// The words of a rehearsal of 33 scripts, one more than there may be.
static WORDS: [&[u8]; 36] = [
    b"rehearse",
    b"journal",
    b"order",
    b"1.sql",
    b"2.sql",
    b"3.sql",
    b"4.sql",
    b"5.sql",
    b"6.sql",
    b"7.sql",
    b"8.sql",
    b"9.sql",
    b"10.sql",
    b"11.sql",
    b"12.sql",
    b"13.sql",
    b"14.sql",
    b"15.sql",
    b"16.sql",
    b"17.sql",
    b"18.sql",
    b"19.sql",
    b"20.sql",
    b"21.sql",
    b"22.sql",
    b"23.sql",
    b"24.sql",
    b"25.sql",
    b"26.sql",
    b"27.sql",
    b"28.sql",
    b"29.sql",
    b"30.sql",
    b"31.sql",
    b"32.sql",
    b"33.sql",
];

/// The words of a rehearsal of the scripts `1.sql`, `2.sql` and so on by `order`; of at most 33.
pub fn rehearse_words(sessions: usize) -> &'static [&'static [u8]] {
    &WORDS[..3 + sessions.min(33)]
}

/// A file that fails at nothing.
pub fn file(alloc: Global, word: &[u8], bytes: &[u8]) -> Result<MemFile, NoMemory> {
    let word = Bytes::from_slice(alloc, word)?;
    Ok(MemFile {
        word,
        bytes: Bytes::from_slice(alloc, bytes)?,
        source: List::new(alloc),
        sink: List::new(alloc),
        disk: List::new(alloc),
    })
}

/// A file of which the source fails at a read.
pub fn failing_source(
    alloc: Global,
    word: &[u8],
    bytes: &[u8],
    fail: Fail,
) -> Result<MemFile, NoMemory> {
    let mut made = file(alloc, word, bytes)?;
    made.source.push(fail)?;
    Ok(made)
}

/// A word whose sink fails at a write.
pub fn failing_sink(alloc: Global, word: &[u8], fail: Fail) -> Result<MemFile, NoMemory> {
    let mut made = file(alloc, word, b"")?;
    made.sink.push(fail)?;
    Ok(made)
}

/// `serve_alone` with these words over these files. The writes of the report that `report` names fail, and of the host's own calls those
/// that `host` names.
pub fn rehearsed(
    alloc: Global,
    words: &[&[u8]],
    files: List<MemFile>,
    report: Option<Fail>,
    host: Option<Fail>,
) -> Result<MemOutcome, NoMemory> {
    let owned = words_of(alloc, words)?;
    let report = list_of(alloc, report)?;
    let host = list_of(alloc, host)?;
    let mut host = MemHost::new(alloc, files, report, host, OpenGate);
    let outcome = alone(alloc, owned.as_slice(), &mut host);
    release(host);
    outcome
}

/// What follows the bytes of a sink and the `~` behind them, where these replies begin so.
fn behind_sink<'a>(replies: &'a [u8], end: &SessionEnd<MemSink>) -> Option<&'a [u8]> {
    let Some(sink) = &end.sink else {
        return None;
    };
    match replies.strip_prefix(sink.held()) {
        Some(rest) => rest.strip_prefix(b"~".as_slice()),
        None => None,
    }
}

/// Whether the sinks of these sessions hold these replies, each with `~` behind it, and there are no others.
fn hold(ends: &[SessionEnd<MemSink>], replies: &[u8]) -> bool {
    let mut left = replies;
    for end in ends {
        let Some(rest) = behind_sink(left, end) else {
            return false;
        };
        left = rest;
    }
    left.is_empty()
}

/// Whether a rehearsal came to this code, these replies, each with `~` behind it, and this report.
pub fn came_to(outcome: &MemOutcome, code: ExitCode, replies: &[u8], report: &[u8]) -> bool {
    outcome.code == code
        && outcome.report.held() == report
        && hold(outcome.ends.as_slice(), replies)
}

/// How a run ends in which no session began.
#[derive(Clone, Copy)]
pub struct Stop {
    pub code: ExitCode,
    pub status: u8,
    pub report: &'static [u8],
}

impl Stop {
    /// Whether a run ended so.
    pub fn is(&self, outcome: &MemOutcome) -> bool {
        came_to(outcome, self.code, b"", self.report)
            && outcome.code.status() == self.status
            && outcome.history.is_empty()
    }
}

/// Whether a rehearsal ends so before a session begins.
pub fn stops(
    alloc: Global,
    words: &[&[u8]],
    files: List<MemFile>,
    host: Option<Fail>,
    stop: Stop,
) -> Result<bool, NoMemory> {
    let outcome = rehearsed(alloc, words, files, None, host)?;
    let stops = stop.is(&outcome);
    release(outcome);
    Ok(stops)
}
