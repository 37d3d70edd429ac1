//! What comes of sources, hosts, sinks and reports that fail.

use crate::faults::{at, blanks};
use ebr_base::{Bytes, List, NoMemory};
use ebr_outside::{Fail, MemFile};
use ebr_server::{ExitCode, MAX_SCRIPT};
use ebr_trial::{
    MemOutcome, Stop, came_to, failing_sink, failing_source, file, rehearse_words, rehearsed,
    release, stops,
};
use std::alloc::Global;
use std::test::Fail as TestFail;

/// The call of this number fails, and each one behind it.
fn onward(call: u32) -> Option<Fail> {
    Some(Fail {
        at: call,
        onward: true,
    })
}

/// The order of a session that makes a table, and two others that meet in a row of it.
const ORDER: &[u8] = b"1 1 1 1 1 1 2 3 3 2 2 2";

/// What the first session runs, and its replies.
const MAKES: &[u8] = b"\
CREATE TABLE t (id NUMBER(9) PRIMARY KEY, v VARCHAR2(10) NOT NULL, n NUMBER(9));
INSERT INTO t VALUES (1, 'a', 10);
INSERT INTO t VALUES (2, 'b', 20);
INSERT INTO t VALUES (3, 'c', 30);
COMMIT;
";

const MADE: &[u8] = b"OK\n1 rows\n1 rows\n1 rows\nOK\n";

/// What the second session runs.
const READS: &[u8] = b"\
SELECT n FROM t WHERE id = 1;
UPDATE t SET n = 11 WHERE id = 1;
ROLLBACK;
UPDATE t SET n = 11 WHERE id = 1;
";

/// What the third session runs.
const WRITES: &[u8] = b"\
UPDATE t SET n = 15 WHERE id = 1;
COMMIT;
";

/// The order and the scripts of these three sessions.
fn three_files(alloc: Global) -> Result<List<MemFile>, NoMemory> {
    let mut files = List::new(alloc);
    files.push(file(alloc, b"order", ORDER)?)?;
    files.push(file(alloc, b"1.sql", MAKES)?)?;
    files.push(file(alloc, b"2.sql", READS)?)?;
    files.push(file(alloc, b"3.sql", WRITES)?)?;
    Ok(files)
}

/// How the run of the three ends where a call of the host fails.
fn host_fault(word: u32, report: &'static [u8]) -> Stop {
    Stop {
        code: ExitCode::HostFault { word },
        status: 3,
        report,
    }
}

/// Whether the run ends so where these calls of the host fail, and hands back so many sinks.
fn host_stops(
    alloc: Global,
    host: Option<Fail>,
    sinks: usize,
    stop: Stop,
) -> Result<bool, NoMemory> {
    let files = three_files(alloc)?;
    let outcome = rehearsed(alloc, rehearse_words(3), files, None, host)?;
    let alone = outcome.source.is_none() && outcome.disk.is_none();
    let so = stop.is(&outcome) && alone && outcome.sinks.len() == sinks;
    release(outcome);
    Ok(so)
}

/// The order is opened first, then the scripts, then the sinks are made, and the journal is opened last. A sink's word is that of its
/// script. The sinks that were made come back.
#[test]
fn a_host_that_fails_is_a_host_fault_of_the_word(rt: HostRuntime) -> Result<(), TestFail> {
    let alloc = rt.alloc();
    assert!(rt; host_stops(alloc, at(1), 0, host_fault(2, b"host fault: order\n"))?);
    assert!(rt; host_stops(alloc, at(2), 0, host_fault(3, b"host fault: 1.sql\n"))?);
    assert!(rt; host_stops(alloc, at(3), 0, host_fault(4, b"host fault: 2.sql\n"))?);
    assert!(rt; host_stops(alloc, onward(4), 0, host_fault(5, b"host fault: 3.sql\n"))?);
    assert!(rt; host_stops(alloc, at(5), 0, host_fault(3, b"host fault: 1.sql\n"))?);
    assert!(rt; host_stops(alloc, at(6), 1, host_fault(4, b"host fault: 2.sql\n"))?);
    assert!(rt; host_stops(alloc, onward(7), 2, host_fault(5, b"host fault: 3.sql\n"))?);
    assert!(rt; host_stops(alloc, at(8), 3, host_fault(1, b"host fault: journal\n"))?);
    Ok(())
}

/// Whether the run of so many sessions ends so where only the three scripts and their order are there.
fn missing_stops(alloc: Global, words: &[&[u8]], stop: Stop) -> Result<bool, NoMemory> {
    stops(alloc, words, three_files(alloc)?, None, stop)
}

#[test]
fn a_word_without_bytes_is_a_host_fault(rt: HostRuntime) -> Result<(), TestFail> {
    let alloc = rt.alloc();
    assert!(rt;
        missing_stops(
            alloc,
            rehearse_words(5),
            host_fault(6, b"host fault: 4.sql\n")
        )?
    );
    assert!(rt;
        missing_stops(
            alloc,
            &[b"rehearse", b"journal", b"nope", b"1.sql"],
            host_fault(2, b"host fault: nope\n")
        )?
    );
    Ok(())
}

/// An order and two scripts of blanks, each of which is read in several pieces. A read of the source of this word fails.
fn blank_files(alloc: Global, word: &[u8], fail: Fail) -> Result<List<MemFile>, NoMemory> {
    let text = blanks(alloc, 100_000)?;
    let mut files = List::new(alloc);
    files.push(failing_source(alloc, word, text.as_slice(), fail)?)?;
    files.push(file(alloc, b"order", text.as_slice())?)?;
    files.push(file(alloc, b"1.sql", text.as_slice())?)?;
    files.push(file(alloc, b"2.sql", text.as_slice())?)?;
    Ok(files)
}

/// Whether the run ends so where the second read of the source of this word fails, and hands the source back.
fn source_stops(alloc: Global, word: &[u8], stop: Stop) -> Result<bool, NoMemory> {
    let fail = Fail {
        at: 2,
        onward: false,
    };
    let files = blank_files(alloc, word, fail)?;
    let outcome = rehearsed(alloc, rehearse_words(2), files, None, None)?;
    let so = stop.is(&outcome) && outcome.source.is_some() && outcome.disk.is_none();
    release(outcome);
    Ok(so)
}

#[test]
fn a_source_that_fails_in_the_middle_is_a_host_fault(rt: HostRuntime) -> Result<(), TestFail> {
    let alloc = rt.alloc();
    assert!(rt; source_stops(alloc, b"order", host_fault(2, b"host fault: order\n"))?);
    assert!(rt; source_stops(alloc, b"1.sql", host_fault(3, b"host fault: 1.sql\n"))?);
    assert!(rt; source_stops(alloc, b"2.sql", host_fault(4, b"host fault: 2.sql\n"))?);
    Ok(())
}

const TOO_LONG: Stop = Stop {
    code: ExitCode::TooLong { word: 4 },
    status: 10,
    report: b"too long: 2.sql\n",
};

const BAD_ORDER: Stop = Stop {
    code: ExitCode::BadOrder { at: 2 },
    status: 9,
    report: b"bad order at 2\n",
};

/// Whether the run of a script and one of so many blanks ends so.
fn long_stops(alloc: Global, order: &[u8], count: usize, stop: Stop) -> Result<bool, NoMemory> {
    let mut files = List::new(alloc);
    files.push(file(alloc, b"order", order)?)?;
    files.push(file(alloc, b"1.sql", WRITES)?)?;
    files.push(file(alloc, b"2.sql", blanks(alloc, count)?.as_slice())?)?;
    stops(alloc, rehearse_words(2), files, None, stop)
}

/// A wrong order comes before a script that is too long, and that before one that isn't there.
#[test]
fn a_script_of_more_than_a_mebibyte_is_too_long(rt: HostRuntime) -> Result<(), TestFail> {
    let alloc = rt.alloc();
    assert!(rt; long_stops(alloc, b"1 2", MAX_SCRIPT + 1, TOO_LONG)?);
    assert!(rt; long_stops(alloc, b"1 3", MAX_SCRIPT + 1, BAD_ORDER)?);
    Ok(())
}

/// The replies of the three sessions, where the second one's sink holds these bytes.
fn replies_with(alloc: Global, held: &[u8]) -> Result<Bytes, NoMemory> {
    let mut replies = Bytes::from_slice(alloc, MADE)?;
    replies.push(b'~')?;
    replies.extend(held)?;
    replies.extend(b"~1 rows\nOK\n~")?;
    Ok(replies)
}

/// The report where the second session has this line, and this one ends the report.
fn report_with(alloc: Global, line: &[u8], last: &[u8]) -> Result<Bytes, NoMemory> {
    let mut report = Bytes::from_slice(alloc, b"session 1: 6 asks, 0 refused, ended\n")?;
    report.extend(line)?;
    report.extend(b"session 3: 3 asks, 0 refused, ended\n")?;
    report.extend(last)?;
    Ok(report)
}

/// Which write of the second session's sink fails, what the sink then holds, and the session's line.
type Row = (u32, &'static [u8], &'static [u8]);

static FAILED_WRITES: [Row; 4] = [
    (1, b"", b"session 2: 2 asks, 0 refused, sink fault\n"),
    (
        2,
        b"10\n1 rows\n",
        b"session 2: 3 asks, 1 refused, sink fault\n",
    ),
    (
        3,
        b"10\n1 rows\nORA-08177\n",
        b"session 2: 4 asks, 1 refused, sink fault\n",
    ),
    (
        4,
        b"10\n1 rows\nORA-08177\nOK\n",
        b"session 2: 5 asks, 1 refused, sink fault\n",
    ),
];

/// The run of the three where these writes of the second session's sink fail.
fn with_sink(alloc: Global, fail: Fail) -> Result<MemOutcome, NoMemory> {
    let mut files = three_files(alloc)?;
    files.push(failing_sink(alloc, b"2.sql.out", fail)?)?;
    rehearsed(alloc, rehearse_words(3), files, None, None)
}

fn loses(alloc: Global, row: &Row, onward: bool) -> Result<bool, NoMemory> {
    let (at, held, line) = *row;
    let outcome = with_sink(alloc, Fail { at, onward })?;
    let replies = replies_with(alloc, held)?;
    let report = report_with(alloc, line, b"sink fault\n")?;
    let so = came_to(
        &outcome,
        ExitCode::SinkFault,
        replies.as_slice(),
        report.as_slice(),
    ) && outcome.code.status() == 5;
    release(outcome);
    Ok(so)
}

#[test]
fn a_session_whose_sink_fails_leaves_and_the_others_go_on(rt: HostRuntime) -> Result<(), TestFail> {
    for row in &FAILED_WRITES {
        assert!(rt; loses(rt.alloc(), row, false)?);
        assert!(rt; loses(rt.alloc(), row, true)?);
    }
    Ok(())
}

/// Whether the run of the three is done where a fifth write of the second session's sink would fail.
fn is_done_before(alloc: Global) -> Result<bool, NoMemory> {
    let fail = Fail {
        at: 5,
        onward: true,
    };
    let outcome = with_sink(alloc, fail)?;
    let replies = replies_with(alloc, b"10\n1 rows\nORA-08177\nOK\n1 rows\n")?;
    let report = report_with(alloc, b"session 2: 5 asks, 1 refused, ended\n", b"")?;
    let so = came_to(
        &outcome,
        ExitCode::Done,
        replies.as_slice(),
        report.as_slice(),
    );
    release(outcome);
    Ok(so)
}

#[test]
fn a_write_that_is_not_made_is_no_fault(rt: HostRuntime) -> Result<(), TestFail> {
    assert!(rt; is_done_before(rt.alloc())?);
    Ok(())
}

/// A session whose first write fails has changed a row, which its COMMIT would have kept.
fn leaving_files(alloc: Global) -> Result<List<MemFile>, NoMemory> {
    let mut files = List::new(alloc);
    files.push(file(alloc, b"order", b"1 1 1 1 1 1 2 3 2 3")?)?;
    files.push(file(alloc, b"1.sql", MAKES)?)?;
    files.push(file(
        alloc,
        b"2.sql",
        b"UPDATE t SET n = 1 WHERE id = 1;\nCOMMIT;\n",
    )?)?;
    files.push(file(
        alloc,
        b"3.sql",
        b"UPDATE t SET n = n + 1 WHERE id = 1;\nUPDATE t SET n = n + 1 WHERE id = 1;\nSELECT n FROM t WHERE id = 1;\n",
    )?)?;
    files.push(failing_sink(
        alloc,
        b"2.sql.out",
        Fail {
            at: 1,
            onward: false,
        },
    )?)?;
    Ok(files)
}

const LEAVING_REPLIES: &[u8] = b"\
OK
1 rows
1 rows
1 rows
OK
~~ORA-00054
1 rows
11
1 rows
~";

const LEAVING_REPORT: &[u8] = b"\
session 1: 6 asks, 0 refused, ended
session 2: 2 asks, 0 refused, sink fault
session 3: 4 asks, 1 refused, ended
sink fault
";

fn leaves_nothing_behind(alloc: Global) -> Result<bool, NoMemory> {
    let files = leaving_files(alloc)?;
    let outcome = rehearsed(alloc, rehearse_words(3), files, None, None)?;
    let so = came_to(
        &outcome,
        ExitCode::SinkFault,
        LEAVING_REPLIES,
        LEAVING_REPORT,
    );
    release(outcome);
    Ok(so)
}

#[test]
fn a_session_that_quits_takes_its_changes_back(rt: HostRuntime) -> Result<(), TestFail> {
    assert!(rt; leaves_nothing_behind(rt.alloc())?);
    Ok(())
}

/// The sinks of both sessions that print fail at their first writes.
fn both_fail(alloc: Global) -> Result<bool, NoMemory> {
    let fail = Fail {
        at: 1,
        onward: false,
    };
    let mut files = List::new(alloc);
    files.push(file(alloc, b"order", b"1 2 3 2 1 2 1")?)?;
    files.push(file(alloc, b"1.sql", b"SELECT 1 FROM dual;\nCOMMIT;\n")?)?;
    files.push(file(alloc, b"2.sql", b"SELEC;\nSELECT 2 FROM dual;\n")?)?;
    files.push(file(alloc, b"3.sql", b"")?)?;
    files.push(failing_sink(alloc, b"1.sql.out", fail)?)?;
    files.push(failing_sink(alloc, b"2.sql.out", fail)?)?;
    files.push(failing_sink(alloc, b"3.sql.out", fail)?)?;
    let outcome = rehearsed(alloc, rehearse_words(3), files, None, None)?;
    let report = b"session 1: 2 asks, 0 refused, sink fault
session 2: 1 asks, 0 refused, sink fault
session 3: 1 asks, 0 refused, ended
sink fault
";
    let so = came_to(&outcome, ExitCode::SinkFault, b"~~~", report);
    release(outcome);
    Ok(so)
}

#[test]
fn sinks_fail_one_by_one(rt: HostRuntime) -> Result<(), TestFail> {
    assert!(rt; both_fail(rt.alloc())?);
    Ok(())
}

/// The run of the three where these writes of the report fail: whether the report holds just these first bytes of the summary.
fn summary_is_cut(alloc: Global, report: Option<Fail>, held: &[u8]) -> Result<bool, NoMemory> {
    let files = three_files(alloc)?;
    let outcome = rehearsed(alloc, rehearse_words(3), files, report, None)?;
    let replies = replies_with(alloc, b"10\n1 rows\nORA-08177\nOK\n1 rows\n")?;
    let so = came_to(&outcome, ExitCode::SinkFault, replies.as_slice(), held)
        && outcome.code.status() == 5;
    release(outcome);
    Ok(so)
}

/// Whether the report holds a first part of the summary where its write of this number fails, and not all of it.
fn summary_is_begun(alloc: Global, call: u32) -> Result<bool, NoMemory> {
    let files = three_files(alloc)?;
    let outcome = rehearsed(alloc, rehearse_words(3), files, onward(call), None)?;
    let whole = report_with(alloc, b"session 2: 5 asks, 1 refused, ended\n", b"")?;
    let held = outcome.report.held();
    let so = outcome.code == ExitCode::SinkFault
        && !held.is_empty()
        && held.len() < whole.len()
        && whole.as_slice().starts_with(held);
    release(outcome);
    Ok(so)
}

/// Behind a write of the report that failed no line follows, not even the code's. What the sessions printed is in their sinks.
#[test]
fn a_report_that_fails_in_the_summary_is_a_sink_fault(rt: HostRuntime) -> Result<(), TestFail> {
    assert!(rt; summary_is_cut(rt.alloc(), at(1), b"")?);
    assert!(rt; summary_is_cut(rt.alloc(), onward(1), b"")?);
    assert!(rt; summary_is_begun(rt.alloc(), 2)?);
    assert!(rt; summary_is_begun(rt.alloc(), 3)?);
    Ok(())
}

/// A code of which the last line can't be written stays.
fn keeps_its_code(alloc: Global) -> Result<bool, NoMemory> {
    let mut files = List::new(alloc);
    files.push(file(alloc, b"order", b"1 2 x")?)?;
    let outcome = rehearsed(alloc, rehearse_words(2), files, onward(1), None)?;
    let so = came_to(&outcome, ExitCode::BadOrder { at: 4 }, b"", b"");
    release(outcome);
    Ok(so)
}

#[test]
fn a_bad_order_stays_one_where_the_report_fails(rt: HostRuntime) -> Result<(), TestFail> {
    assert!(rt; keeps_its_code(rt.alloc())?);
    Ok(())
}
