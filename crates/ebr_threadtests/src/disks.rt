//! A disk that fails while sessions commit.

use ebr_base::{Bytes, List, NoMemory};
use ebr_outside::{Fail, MemDisk};
use ebr_server::{EndKind, ExitCode};
use ebr_trial::{MemOutcome, bytes_of, dumped, ran_over, release};
use std::alloc::Global;
use std::sync::Wait;
use std::test::Fail as TestFail;
use std::thread::Threads;

/// How many sessions there are.
const SESSIONS: u32 = 4;

/// How often each commits.
const COMMITS: u32 = 5;

/// The call of this number fails, and each one behind it.
fn from(call: u32) -> Option<Fail> {
    Some(Fail {
        at: call,
        onward: true,
    })
}

/// One script.
fn alone(alloc: Global, script: &[u8]) -> Result<List<Bytes>, NoMemory> {
    let mut scripts = List::new(alloc);
    scripts.push(Bytes::from_slice(alloc, script)?)?;
    Ok(scripts)
}

/// What a session runs: rows of its own, with a commit behind each.
fn commits(alloc: Global, session: u32) -> Result<Bytes, NoMemory> {
    let mut script = Bytes::new(alloc);
    for n in 0..COMMITS {
        let piece = format!(in alloc; "INSERT INTO t VALUES ({session}{n});\nCOMMIT;\n")?;
        script.extend(piece.as_bytes())?;
    }
    Ok(script)
}

/// What the sessions run.
fn all_commit(alloc: Global) -> Result<List<Bytes>, NoMemory> {
    let mut scripts = List::new(alloc);
    for session in 1..=SESSIONS {
        scripts.push(commits(alloc, session)?)?;
    }
    Ok(scripts)
}

/// How many lines of a text are this one.
fn count(text: &[u8], line: &[u8]) -> usize {
    text.split(|byte| *byte == b'\n')
        .filter(|one| *one == line)
        .count()
}

/// How many commits the sessions' sinks tell.
fn acknowledged(outcome: &MemOutcome) -> usize {
    let mut commits = 0usize;
    for end in outcome.ends.as_slice() {
        if let Some(sink) = &end.sink {
            commits = commits.saturating_add(count(sink.held(), b"OK"));
        }
    }
    commits
}

/// How many commits a journal with these bytes has.
fn committed(alloc: Global, bytes: &[u8]) -> Result<usize, NoMemory> {
    let outcome = dumped(alloc, bytes)?;
    let commits = count(outcome.report.held(), b"commit 1");
    release(outcome);
    Ok(commits)
}

/// Whether each of four images that a crash may leave of a disk has so many commits, or one more.
fn images_have(alloc: Global, disk: &MemDisk, least: usize) -> Result<bool, NoMemory> {
    for pick in 0..4u64 {
        let image = disk.after_crash(pick)?;
        let commits = committed(alloc, image.bytes())?;
        if commits < least || commits > least.saturating_add(1) {
            return Ok(false);
        }
    }
    Ok(true)
}

/// Whether a run ended as the disk has it: each session has ended or was stopped, and what is left has each commit that was acknowledged.
fn is_kept(alloc: Global, outcome: &MemOutcome) -> Result<bool, NoMemory> {
    let ended = outcome.ends.as_slice().iter().all(|end| end.end == EndKind::Ended
        || end.end == EndKind::Stopped);
    match &outcome.disk {
        Some(disk) => Ok(ended && images_have(alloc, disk, acknowledged(outcome))?),
        None => Ok(false),
    }
}

/// Whether a run over a disk that fails at any call keeps what it acknowledged, and makes more calls than so many.
fn survives<R: Threads + Wait + Sync>(rt: &R, alloc: Global, least: u32) -> Result<bool, NoMemory> {
    let table = alone(alloc, b"CREATE TABLE t (a NUMBER(9) PRIMARY KEY);\n")?;
    let made = ran_over(rt, alloc, b"", table.as_slice(), None)?;
    let bytes = bytes_of(alloc, &made);
    release(made);
    let bytes = bytes?;
    let scripts = all_commit(alloc)?;
    for call in 1..999u32 {
        let outcome = ran_over(rt, alloc, bytes.as_slice(), scripts.as_slice(), from(call))?;
        let code = outcome.code;
        let so = is_kept(alloc, &outcome);
        release(outcome);
        if !so? || code != ExitCode::DiskFault {
            return Ok(so? && code == ExitCode::Done && call > least);
        }
    }
    Ok(false)
}

/// Each commit takes four calls.
#[test]
fn a_disk_that_fails_keeps_what_was_acknowledged(rt: HostRuntime) -> Result<(), TestFail> {
    assert!(rt; survives(&rt, rt.alloc(), 4 * SESSIONS * COMMITS)?);
    Ok(())
}
