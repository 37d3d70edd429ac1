//! Sinks that fail.

use ebr_base::{Bytes, List, NoMemory};
use ebr_outside::Fail;
use ebr_server::ExitCode;
use ebr_trial::{came_to, failing_sink, ran, release, run_words, script_files};
use std::alloc::Global;
use std::sync::Wait;
use std::test::Fail as TestFail;
use std::thread::Threads;

const QUERIES: &[u8] = b"SELECT 1 FROM dual;\nSELECT 2 FROM dual;\n";

/// As many times these queries.
fn queries(alloc: Global, sessions: usize) -> Result<List<Bytes>, NoMemory> {
    let mut scripts = List::new(alloc);
    for _ in 0..sessions {
        scripts.push(Bytes::from_slice(alloc, QUERIES)?)?;
    }
    Ok(scripts)
}

/// Whether a run of so many sessions that make these queries, where the second write of this sink fails, comes to these replies and this
/// report.
fn loses<R: Threads + Wait + Sync>(
    rt: &R,
    alloc: Global,
    sessions: usize,
    sink: &[u8],
    replies: &[u8],
    report: &[u8],
) -> Result<bool, NoMemory> {
    let second = Fail {
        at: 2,
        onward: false,
    };
    let mut files = script_files(alloc, queries(alloc, sessions)?.as_slice())?;
    files.push(failing_sink(alloc, sink, second)?)?;
    let words = run_words(alloc, sessions)?;
    let outcome = ran(rt, alloc, words.as_slice(), files);
    let so = came_to(&outcome, ExitCode::SinkFault, replies, report) && outcome.code.status() == 5;
    release(outcome);
    Ok(so)
}

#[test]
fn a_session_whose_sink_fails_leaves(rt: HostRuntime) -> Result<(), TestFail> {
    assert!(rt;
        loses(
            &rt,
            rt.alloc(),
            1,
            b"1.sql.out",
            b"1\n1 rows\n~",
            b"session 1: 3 asks, 0 refused, sink fault\nsink fault\n"
        )?
    );
    Ok(())
}

#[test]
fn a_session_whose_sink_fails_leaves_and_the_others_go_on(rt: HostRuntime) -> Result<(), TestFail> {
    assert!(rt;
        loses(
            &rt,
            rt.alloc(),
            3,
            b"2.sql.out",
            b"1\n1 rows\n2\n1 rows\n~1\n1 rows\n~1\n1 rows\n2\n1 rows\n~",
            b"session 1: 3 asks, 0 refused, ended\nsession 2: 3 asks, 0 refused, sink fault\nsession 3: 3 asks, 0 refused, ended\nsink fault\n"
        )?
    );
    Ok(())
}
