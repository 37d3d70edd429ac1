//! The words of a run.

use ebr_base::{Bytes, List, NoMemory};
use ebr_server::ExitCode;
use ebr_trial::{Stop, ran, release, run_words, words_of};
use std::alloc::Global;
use std::sync::Wait;
use std::test::Fail;
use std::thread::Threads;

const USAGE: Stop = Stop {
    code: ExitCode::Usage,
    status: 2,
    report: b"usage\n",
};

static NO_RUNS: [&[&[u8]]; 10] = [
    &[b"run"],
    &[b"run", b"j"],
    &[b"run", b"", b"s"],
    &[b"run", b"j", b""],
    &[b"run", b"j", b"s", b""],
    &[b"run", b"j", b"s", b"s"],
    &[b"run", b"s", b"s"],
    &[b"run", b"s.out", b"s"],
    &[b"run", b"j", b"s", b"s.out"],
    &[b"RUN", b"j", b"s"],
];

/// Whether these words are answered by what tells the commands, and nothing was opened.
fn are_usage<R: Threads + Wait + Sync>(rt: &R, alloc: Global, words: &[Bytes]) -> bool {
    let outcome = ran(rt, alloc, words, List::new(alloc));
    let so = USAGE.is(&outcome) && outcome.disk.is_none();
    release(outcome);
    so
}

fn all_are_usage<R: Threads + Wait + Sync>(
    rt: &R,
    alloc: Global,
    rows: &[&[&[u8]]],
) -> Result<bool, NoMemory> {
    for row in rows {
        if !are_usage(rt, alloc, words_of(alloc, row)?.as_slice()) {
            return Ok(false);
        }
    }
    Ok(true)
}

#[test]
fn words_that_name_no_run_are_usage(rt: HostRuntime) -> Result<(), Fail> {
    assert!(rt; all_are_usage(&rt, rt.alloc(), &NO_RUNS)?);
    Ok(())
}

#[test]
fn thirty_three_scripts_are_usage(rt: HostRuntime) -> Result<(), Fail> {
    assert!(rt; are_usage(&rt, rt.alloc(), run_words(rt.alloc(), 33)?.as_slice()));
    Ok(())
}
