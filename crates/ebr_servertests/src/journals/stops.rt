//! Runs that are stopped at a call of the journal's disk, and what is there when it is opened again.

use crate::journals::continued::{bytes_behind, replies};
use crate::journals::damage::OLD;
use ebr_asks::Answer;
use ebr_base::{List, NoMemory};
use ebr_outside::{Fail, MemDisk};
use ebr_server::ExitCode;
use ebr_trial::{
    DUMP, MemOutcome, Stop, came_to, dumped, journal, rehearsed, rehearsed_on, rehearsed_over,
    release,
};
use std::alloc::Global;
use std::test::Fail as TestFail;

/// The calls from this one on fail.
fn from(call: u32) -> Option<Fail> {
    Some(Fail {
        at: call,
        onward: true,
    })
}

/// A script, the lines of all records that it makes, and how many of these each ask makes.
#[derive(Clone, Copy)]
struct Script {
    text: &'static [u8],
    lines: &'static [u8],
    made: &'static [usize],
}

/// A table with rows, and a trigger across editions whose body commits by itself.
const UPGRADE: Script = Script {
    text: b"\
CREATE TABLE t (id NUMBER(9) PRIMARY KEY, v VARCHAR2(10) NOT NULL, n NUMBER(9));
INSERT INTO t VALUES (1, 'a', 10);
INSERT INTO t VALUES (2, 'b', 20);
INSERT INTO t VALUES (3, 'c', 30);
COMMIT;
CREATE TABLE log_t (msg VARCHAR2(40));
CREATE PROCEDURE log_it (m VARCHAR2) IS
  PRAGMA AUTONOMOUS_TRANSACTION;
BEGIN INSERT INTO log_t VALUES (m); COMMIT; END;
/
CREATE EDITION v2;
ALTER SESSION SET EDITION = v2;
CREATE TRIGGER t_f BEFORE UPDATE ON t FOR EACH ROW FORWARD CROSSEDITION
BEGIN log_it('seen'); END;
/
ALTER SESSION SET EDITION = ora$base;
UPDATE t SET n = 5;
",
    lines: b"\
table T
commit 3
table LOG_T
object ORA$BASE procedure LOG_IT
edition V2
object V2 trigger T_F
commit 1
commit 1
commit 1
",
    made: &[1, 0, 0, 0, 1, 1, 1, 1, 0, 1, 0, 3],
};

/// Each kind of record.
const EVERY: Script = Script {
    text: b"\
CREATE TABLE t (a NUMBER(9) PRIMARY KEY);
ALTER TABLE t ADD (b VARCHAR2(10));
INSERT INTO t VALUES (1, 'x');
COMMIT;
CREATE PROCEDURE p IS BEGIN NULL; END;
/
CREATE FUNCTION f RETURN NUMBER IS BEGIN RETURN 1; END;
/
CREATE PACKAGE k IS PROCEDURE q; END;
/
CREATE PACKAGE BODY k IS PROCEDURE q IS BEGIN NULL; END; END;
/
CREATE EDITIONING VIEW v AS SELECT a FROM t;
CREATE TRIGGER g BEFORE INSERT ON t FOR EACH ROW BEGIN NULL; END;
/
ALTER TRIGGER g DISABLE;
DROP TRIGGER g;
DROP PACKAGE BODY k;
CREATE PACKAGE BODY k IS PROCEDURE q IS BEGIN NULL; END; END;
/
DROP PACKAGE k;
DROP FUNCTION f;
DROP VIEW v;
CREATE EDITION v2;
ALTER DATABASE DEFAULT EDITION = v2;
ALTER DATABASE DEFAULT EDITION = ora$base;
DROP EDITION v2;
DROP TABLE t;
",
    lines: b"\
table T
column T B
commit 1
object ORA$BASE procedure P
object ORA$BASE function F
object ORA$BASE package K
object ORA$BASE body K
object ORA$BASE view V
object ORA$BASE trigger G
object ORA$BASE trigger G
gone ORA$BASE trigger G
gone ORA$BASE body K
object ORA$BASE body K
gone ORA$BASE package K
gone ORA$BASE unit F
gone ORA$BASE unit V
edition V2
default V2
default ORA$BASE
drop edition V2
drop table T
",
    made: &[
        1, 1, 0, 1, 1, 1, 1, 1, 1, 1, 1, 1, 1, 1, 1, 1, 1, 1, 1, 1, 1, 1,
    ],
};

/// How many records were acknowledged, by how many asks were answered before the disk failed.
fn acknowledged(made: &[usize], outcome: &MemOutcome) -> usize {
    let mut records = 0usize;
    for (at, entry) in outcome.history.as_slice().iter().enumerate() {
        if matches!(entry.answer, Answer::DiskFault) || at >= made.len() {
            return records;
        }
        records = records.saturating_add(made[at]);
    }
    records
}

/// How many lines there are.
fn lines_in(text: &[u8]) -> usize {
    text.iter().filter(|byte| **byte == b'\n').count()
}

/// Whether lines are the first ones of all, and so many at least.
fn are_first(lines: &[u8], all: &[u8], least: usize) -> bool {
    all.starts_with(lines)
        && (lines.is_empty() || lines.ends_with(b"\n"))
        && lines_in(lines) >= least
}

/// Whether a journal dumps as the first of these lines, and as many as so many at least.
fn has_first(alloc: Global, bytes: &[u8], all: &[u8], least: usize) -> Result<bool, NoMemory> {
    let outcome = dumped(alloc, bytes)?;
    let so = outcome.code == ExitCode::Done && are_first(outcome.report.held(), all, least);
    release(outcome);
    Ok(so)
}

/// Whether each of eight images that a crash may leave of a disk has the first of these records, and as many as so many at least.
fn images_have(alloc: Global, disk: &MemDisk, all: &[u8], least: usize) -> Result<bool, NoMemory> {
    for pick in 0..8u64 {
        let image = disk.after_crash(pick)?;
        if !has_first(alloc, image.bytes(), all, least)? {
            return Ok(false);
        }
    }
    Ok(true)
}

/// The same of the disk that a run left.
fn run_leaves(
    alloc: Global,
    outcome: &MemOutcome,
    all: &[u8],
    least: usize,
) -> Result<bool, NoMemory> {
    match &outcome.disk {
        Some(disk) => images_have(alloc, disk, all, least),
        None => Ok(false),
    }
}

/// Whether a run that is stopped at any call of its disk leaves the first of the records, those that were acknowledged among them, and it
/// makes more calls than so many.
fn is_survived(alloc: Global, script: &Script, least: u32) -> Result<bool, NoMemory> {
    for call in 1..999u32 {
        let outcome = rehearsed_on(alloc, b"", script.text, from(call))?;
        let done = outcome.code == ExitCode::Done;
        let kept = acknowledged(script.made, &outcome);
        let so = run_leaves(alloc, &outcome, script.lines, kept)?;
        release(outcome);
        if done || !so {
            return Ok(so && call > least);
        }
    }
    Ok(false)
}

/// A start of a blank file takes eight calls at least, the mark four, and so does each record.
#[test]
fn a_stop_at_any_call_leaves_the_first_records(rt: HostRuntime) -> Result<(), TestFail> {
    assert!(rt; is_survived(rt.alloc(), &UPGRADE, 8 + 4 + 4 * 9)?);
    assert!(rt; is_survived(rt.alloc(), &EVERY, 8 + 4 + 4 * 21)?);
    Ok(())
}

/// How many calls of its disk a run of this script makes over a journal with these bytes.
fn calls_of(alloc: Global, bytes: &[u8], script: &[u8]) -> Result<u32, NoMemory> {
    for calls in 0..999u32 {
        let outcome = rehearsed_on(alloc, bytes, script, from(calls + 1))?;
        let done = outcome.code == ExitCode::Done;
        release(outcome);
        if done {
            return Ok(calls);
        }
    }
    Ok(0)
}

/// Whether each of eight images that a crash may leave of the disk that comes back dumps as one of two texts.
fn all_dump(
    alloc: Global,
    outcome: &MemOutcome,
    one: &[u8],
    other: &[u8],
) -> Result<bool, NoMemory> {
    let Some(disk) = &outcome.disk else {
        return Ok(false);
    };
    for pick in 0..8u64 {
        let image = disk.after_crash(pick)?;
        let dump = dumped(alloc, image.bytes())?;
        let lines = dump.report.held();
        let so = dump.code == ExitCode::Done && (lines == one || lines == other);
        release(dump);
        if !so {
            return Ok(false);
        }
    }
    Ok(true)
}

/// Whether a run that is stopped at this call of its disk leaves one of two texts of lines.
fn stop_leaves(
    alloc: Global,
    bytes: &[u8],
    script: &[u8],
    call: u32,
    texts: (&[u8], &[u8]),
) -> Result<bool, NoMemory> {
    let outcome = rehearsed_on(alloc, bytes, script, from(call))?;
    let so = all_dump(alloc, &outcome, texts.0, texts.1)?;
    release(outcome);
    Ok(so)
}

/// Makes a table with three rows.
const SETUP: &[u8] = b"\
CREATE TABLE t (id NUMBER(9) PRIMARY KEY, v VARCHAR2(10) NOT NULL, n NUMBER(9));
INSERT INTO t VALUES (1, 'a', 10);
INSERT INTO t VALUES (2, 'b', 20);
INSERT INTO t VALUES (3, 'c', 30);
COMMIT;
";

/// The lines of its records, and of these with a commit behind them.
const BEFORE: &[u8] = b"table T\ncommit 3\n";

const BEHIND: &[u8] = b"table T\ncommit 3\ncommit 1\n";

/// Whether a commit that is stopped at each of its four calls leaves the records that it may.
fn commit_survives(alloc: Global) -> Result<bool, NoMemory> {
    let made = bytes_behind(alloc, b"", SETUP)?;
    let bytes = made.as_slice();
    let script = b"INSERT INTO t VALUES (4, 'd', 40);\nCOMMIT;\n";
    let last = calls_of(alloc, bytes, script)?;
    let none = (BEFORE, BEFORE);
    let either = (BEFORE, BEHIND);
    Ok(
        stop_leaves(alloc, bytes, script, last.saturating_sub(3), none)?
            && stop_leaves(alloc, bytes, script, last.saturating_sub(2), none)?
            && stop_leaves(alloc, bytes, script, last.saturating_sub(1), either)?
            && stop_leaves(alloc, bytes, script, last, either)?
            && stop_leaves(
                alloc,
                bytes,
                script,
                last.saturating_add(1),
                (BEHIND, BEHIND),
            )?,
    )
}

#[test]
fn a_commit_is_there_from_its_last_call_on(rt: HostRuntime) -> Result<(), TestFail> {
    assert!(rt; commit_survives(rt.alloc())?);
    Ok(())
}

/// Whether a file of the first format that gets its mark has the same records at each stop.
fn mark_survives(alloc: Global) -> Result<bool, NoMemory> {
    let calls = calls_of(alloc, OLD, b"")?;
    let same: &[u8] = b"edition V2\n";
    for call in 1..999u32 {
        if !stop_leaves(alloc, OLD, b"", call, (same, same))? {
            return Ok(false);
        }
        if call > calls {
            return Ok(calls > 4);
        }
    }
    Ok(false)
}

#[test]
fn a_file_that_gets_its_mark_keeps_its_records(rt: HostRuntime) -> Result<(), TestFail> {
    assert!(rt; mark_survives(rt.alloc())?);
    Ok(())
}

/// Whether the rows of the table are as before in each of eight images that a crash may leave of a disk.
fn images_keep_rows(alloc: Global, disk: &MemDisk) -> Result<bool, NoMemory> {
    for pick in 0..8u64 {
        let image = disk.after_crash(pick)?;
        let same = replies(
            alloc,
            image.bytes(),
            b"SELECT n FROM t ORDER BY id;\n",
            b"10\n20\n30\n3 rows\n",
        )?;
        if !same {
            return Ok(false);
        }
    }
    Ok(true)
}

/// The same of the disk that a run leaves which is stopped at this call.
fn rows_are_kept(alloc: Global, bytes: &[u8], call: u32) -> Result<bool, NoMemory> {
    let outcome = rehearsed_on(alloc, bytes, b"UPDATE t SET n = 5;\n", from(call))?;
    let kept = match &outcome.disk {
        Some(disk) => images_keep_rows(alloc, disk)?,
        None => false,
    };
    release(outcome);
    Ok(kept)
}

/// The script of the upgrade up to its last statement.
fn without_update() -> &'static [u8] {
    UPGRADE
        .text
        .strip_suffix(b"UPDATE t SET n = 5;\n".as_slice())
        .unwrap_or(b"")
}

/// Whether a statement that isn't committed leaves no row at any stop, whatever its triggers committed.
fn rows_survive(alloc: Global) -> Result<bool, NoMemory> {
    let made = bytes_behind(alloc, b"", without_update())?;
    let bytes = made.as_slice();
    let calls = calls_of(alloc, bytes, b"UPDATE t SET n = 5;\n")?;
    for call in 1..999u32 {
        if !rows_are_kept(alloc, bytes, call)? {
            return Ok(false);
        }
        if call > calls {
            return Ok(calls > 12);
        }
    }
    Ok(false)
}

#[test]
fn rows_that_are_not_committed_are_gone_at_any_stop(rt: HostRuntime) -> Result<(), TestFail> {
    assert!(rt; rows_survive(rt.alloc())?);
    Ok(())
}

/// The disk fails at its first call.
const DISK_FAULT: Stop = Stop {
    code: ExitCode::DiskFault,
    status: 4,
    report: b"disk fault\n",
};

/// The host doesn't open the disk.
const NO_DISK: Stop = Stop {
    code: ExitCode::HostFault { word: 1 },
    status: 3,
    report: b"host fault: journal\n",
};

fn stops_so(outcome: MemOutcome, stop: Stop) -> bool {
    let so = stop.is(&outcome);
    release(outcome);
    so
}

/// `dump` over a host whose calls fail.
fn without_disk(alloc: Global) -> Result<MemOutcome, NoMemory> {
    let mut files = List::new(alloc);
    files.push(journal(alloc, OLD, None)?)?;
    rehearsed(alloc, DUMP, files, None, from(1))
}

#[test]
fn a_disk_that_fails_at_its_start_runs_nothing(rt: HostRuntime) -> Result<(), TestFail> {
    let alloc = rt.alloc();
    assert!(rt; stops_so(rehearsed_on(alloc, OLD, b"", from(1))?, DISK_FAULT));
    assert!(rt; stops_so(without_disk(alloc)?, NO_DISK));
    Ok(())
}

const READS: &[u8] = b"\
SELECT n FROM t WHERE id = 1;
UPDATE t SET n = 11 WHERE id = 1;
ROLLBACK;
UPDATE t SET n = 11 WHERE id = 1;
";

const WRITES: &[u8] = b"\
UPDATE t SET n = 15 WHERE id = 1;
COMMIT;
";

/// Two sessions that meet in a row, over a disk that fails from a call on.
fn two_sessions(alloc: Global, bytes: &[u8], call: u32) -> Result<MemOutcome, NoMemory> {
    rehearsed_over(alloc, bytes, b"1 2 2 1 1 1", &[READS, WRITES], from(call))
}

/// How many calls of the disk they make.
fn calls_of_two(alloc: Global, bytes: &[u8]) -> Result<u32, NoMemory> {
    for calls in 0..999u32 {
        let outcome = two_sessions(alloc, bytes, calls + 1)?;
        let done = outcome.code == ExitCode::Done;
        release(outcome);
        if done {
            return Ok(calls);
        }
    }
    Ok(0)
}

/// Whether a commit whose disk fails at this call stops both sessions.
fn stops_both(alloc: Global, bytes: &[u8], call: u32) -> Result<bool, NoMemory> {
    let outcome = two_sessions(alloc, bytes, call)?;
    let so = came_to(
        &outcome,
        ExitCode::DiskFault,
        b"10\n1 rows\n~1 rows\n~",
        b"session 1: 2 asks, 0 refused, stopped\nsession 2: 2 asks, 0 refused, stopped\ndisk fault\n",
    ) && outcome.code.status() == 4
        && match outcome.history.as_slice().last() {
            Some(entry) => matches!(entry.answer, Answer::Stopped),
            None => false,
        };
    release(outcome);
    Ok(so)
}

/// The last four calls are those of the commit.
fn each_call_stops_both(alloc: Global) -> Result<bool, NoMemory> {
    let made = bytes_behind(alloc, b"", SETUP)?;
    let bytes = made.as_slice();
    let last = calls_of_two(alloc, bytes)?;
    Ok(
        stops_both(alloc, bytes, last.saturating_sub(3))?
            && stops_both(alloc, bytes, last.saturating_sub(2))?
            && stops_both(alloc, bytes, last.saturating_sub(1))?
            && stops_both(alloc, bytes, last)?,
    )
}

#[test]
fn a_commit_that_is_not_kept_stops_the_run(rt: HostRuntime) -> Result<(), TestFail> {
    assert!(rt; each_call_stops_both(rt.alloc())?);
    Ok(())
}
