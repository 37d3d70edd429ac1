//! The words of a rehearsal, and as many scripts as there may be.

use ebr_base::{Bytes, List, NoMemory};
use ebr_outside::{Fail, MemFile};
use ebr_server::ExitCode;
use ebr_trial::{Stop, came_to, file, rehearse_words, rehearsed, release, stops};
use std::alloc::Global;
use std::test::Fail as TestFail;

const USAGE: Stop = Stop {
    code: ExitCode::Usage,
    status: 2,
    report: b"usage\n",
};

/// Every call of the host fails, so that what is opened can be told.
const NOTHING_OPENS: Option<Fail> = Some(Fail {
    at: 1,
    onward: true,
});

static NO_REHEARSALS: [&[&[u8]]; 17] = [
    &[b"rehearse"],
    &[b"rehearse", b"j"],
    &[b"rehearse", b"j", b"o"],
    &[b"rehearse", b"", b"o", b"s"],
    &[b"rehearse", b"j", b"", b"s"],
    &[b"rehearse", b"j", b"o", b""],
    &[b"rehearse", b"j", b"o", b"s", b""],
    &[b"rehearse", b"j", b"o", b"s", b"s"],
    &[b"rehearse", b"j", b"o", b"s", b"t", b"u", b"t"],
    &[b"rehearse", b"j", b"j", b"s"],
    &[b"rehearse", b"s", b"o", b"s"],
    &[b"rehearse", b"j", b"s", b"s"],
    &[b"rehearse", b"s.out", b"o", b"s"],
    &[b"rehearse", b"j", b"t.out", b"s", b"t"],
    &[b"rehearse", b"j", b"o", b"s", b"s.out"],
    &[b"rehearse", b"j", b"o", b"t.out", b"s", b"t"],
    &[b"REHEARSE", b"j", b"o", b"s"],
];

fn is_usage(alloc: Global, words: &[&[u8]]) -> Result<bool, NoMemory> {
    stops(alloc, words, List::new(alloc), NOTHING_OPENS, USAGE)
}

fn all_are_usage(alloc: Global, rows: &[&[&[u8]]]) -> Result<bool, NoMemory> {
    for words in rows {
        if !is_usage(alloc, words)? {
            return Ok(false);
        }
    }
    Ok(true)
}

#[test]
fn words_that_name_no_rehearsal_are_usage(rt: HostRuntime) -> Result<(), TestFail> {
    assert!(rt; all_are_usage(rt.alloc(), &NO_REHEARSALS)?);
    Ok(())
}

#[test]
fn thirty_three_scripts_are_usage(rt: HostRuntime) -> Result<(), TestFail> {
    assert!(rt; is_usage(rt.alloc(), rehearse_words(33))?);
    Ok(())
}

/// The numbers of the sessions from the last one down to the second one, a line for each.
fn told_numbers(alloc: Global) -> Result<Bytes, NoMemory> {
    let mut lines = Bytes::new(alloc);
    for n in 0..31u32 {
        let session = 32u32.saturating_sub(n);
        let line = format!(in alloc; "{session}\n")?;
        lines.extend(line.as_bytes())?;
    }
    Ok(lines)
}

/// Makes a table, and in the end tells what stands in it.
const TELLS: &[u8] = b"\
CREATE TABLE t (a NUMBER);
SELECT a FROM t;
";

/// A turn of session 1, and two of each other one.
fn numbered_order(alloc: Global) -> Result<Bytes, NoMemory> {
    let mut order = Bytes::from_slice(alloc, b"1")?;
    for n in 0..31u32 {
        let session = 32u32.saturating_sub(n);
        let turn = format!(in alloc; " {session}")?;
        order.extend(turn.as_bytes())?;
        order.extend(turn.as_bytes())?;
    }
    Ok(order)
}

/// Session 1 makes the table, the others put in their numbers, the last one first, and session 1 tells them.
fn numbered_files(alloc: Global) -> Result<List<MemFile>, NoMemory> {
    let mut files = List::new(alloc);
    let order = numbered_order(alloc)?;
    files.push(file(alloc, b"order", order.as_slice())?)?;
    files.push(file(alloc, b"1.sql", TELLS)?)?;
    for n in 2..33u32 {
        let word = format!(in alloc; "{n}.sql")?;
        let script = format!(in alloc; "INSERT INTO t VALUES ({n});\nCOMMIT;\n")?;
        files.push(file(alloc, word.as_bytes(), script.as_bytes())?)?;
    }
    Ok(files)
}

/// The summary of these sessions.
fn numbered_summary(alloc: Global) -> Result<Bytes, NoMemory> {
    let mut summary = Bytes::new(alloc);
    for n in 1..33u32 {
        let line = format!(in alloc; "session {n}: 3 asks, 0 refused, ended\n")?;
        summary.extend(line.as_bytes())?;
    }
    Ok(summary)
}

/// The replies of these sessions, with `~` behind each.
fn numbered_replies(alloc: Global) -> Result<Bytes, NoMemory> {
    let mut replies = Bytes::from_slice(alloc, b"OK\n")?;
    replies.extend(told_numbers(alloc)?.as_slice())?;
    replies.extend(b"31 rows\n~")?;
    for _ in 0..31 {
        replies.extend(b"1 rows\nOK\n~")?;
    }
    Ok(replies)
}

fn all_tell_their_numbers(alloc: Global) -> Result<bool, NoMemory> {
    let outcome = rehearsed(
        alloc,
        rehearse_words(32),
        numbered_files(alloc)?,
        None,
        None,
    )?;
    let summary = numbered_summary(alloc)?;
    let replies = numbered_replies(alloc)?;
    let so = came_to(
        &outcome,
        ExitCode::Done,
        replies.as_slice(),
        summary.as_slice(),
    );
    release(outcome);
    Ok(so)
}

#[test]
fn thirty_two_scripts_run(rt: HostRuntime) -> Result<(), TestFail> {
    assert!(rt; all_tell_their_numbers(rt.alloc())?);
    Ok(())
}
