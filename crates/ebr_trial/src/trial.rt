//! Runs a script over a host in memory, byte for byte.

use ebr_base::{Bytes, List, NoMemory};
use ebr_outside::{Fail, MemDisk, MemFile, MemHost, MemSink, MemSource, OpenGate};
use ebr_server::{ExitCode, Outcome, serve_alone};
use ebr_words::{Command, command_of};
use std::alloc::Global;

pub type MemOutcome = Outcome<MemSource, MemSink, MemSink, MemDisk>;

/// The words of `try s.sql`.
pub const TRY: &[&[u8]] = &[b"try", b"s.sql"];

/// The calls of the source, of the report and of the host that are to fail.
#[derive(Clone, Copy)]
pub struct Faults {
    pub source: Option<Fail>,
    pub report: Option<Fail>,
    pub host: Option<Fail>,
}

pub const NO_FAULTS: Faults = Faults {
    source: None,
    report: None,
    host: None,
};

/// One call that fails, or none.
pub fn list_of(alloc: Global, fail: Option<Fail>) -> Result<List<Fail>, NoMemory> {
    let mut list = List::new(alloc);
    if let Some(fail) = fail {
        list.push(fail)?;
    }
    Ok(list)
}

/// The file `s.sql` with these bytes.
fn file_of(alloc: Global, script: &[u8], source: List<Fail>) -> Result<MemFile, NoMemory> {
    let word = Bytes::from_slice(alloc, b"s.sql")?;
    Ok(MemFile {
        word,
        bytes: Bytes::from_slice(alloc, script)?,
        source,
        sink: List::new(alloc),
        disk: List::new(alloc),
    })
}

/// The host in which `s.sql` has these bytes.
fn host_of(alloc: Global, script: &[u8], faults: Faults) -> Result<MemHost, NoMemory> {
    let mut files = List::new(alloc);
    files.push(file_of(alloc, script, list_of(alloc, faults.source)?)?)?;
    let report = list_of(alloc, faults.report)?;
    let host = list_of(alloc, faults.host)?;
    Ok(MemHost::new(alloc, files, report, host, OpenGate))
}

/// Words of their own.
pub fn words_of(alloc: Global, words: &[&[u8]]) -> Result<List<Bytes>, NoMemory> {
    let mut owned = List::new(alloc);
    for word in words {
        owned.push(Bytes::from_slice(alloc, word)?)?;
    }
    Ok(owned)
}

/// Drops a value. It is generic so that for its caller the drop is one call.
pub fn release<T: Drop>(_value: T) {}

/// `serve_alone` with these words. Those of `run`, which it doesn't serve, come to nothing.
pub fn alone(alloc: Global, words: &[Bytes], host: &mut MemHost) -> Result<MemOutcome, NoMemory> {
    match command_of(words) {
        Some(Command::Run) => Err(NoMemory),
        _ => Ok(serve_alone(alloc, words, host)),
    }
}

/// `serve_alone` with these words, where `s.sql` has these bytes.
pub fn served(
    alloc: Global,
    words: &[&[u8]],
    script: &[u8],
    faults: Faults,
) -> Result<MemOutcome, NoMemory> {
    let owned = words_of(alloc, words)?;
    let mut host = host_of(alloc, script, faults)?;
    let outcome = alone(alloc, owned.as_slice(), &mut host);
    release(host);
    outcome
}

/// Whether a run ended with this code and this report.
pub fn ended(outcome: &MemOutcome, code: ExitCode, report: &[u8]) -> bool {
    outcome.code == code && outcome.report.held() == report
}

/// Whether a script is run to its end, with these replies.
pub fn prints(alloc: Global, script: &[u8], replies: &[u8]) -> Result<bool, NoMemory> {
    let outcome = served(alloc, TRY, script, NO_FAULTS)?;
    let done = ended(&outcome, ExitCode::Done, replies);
    release(outcome);
    Ok(done)
}
