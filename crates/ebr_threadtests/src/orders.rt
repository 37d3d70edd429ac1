//! Sessions that go on side by side, in an order that a gate keeps. A run that held the turn for a whole block, or for a script, would have
//! a session wait at the gate in vain.

use ebr_base::{List, NoMemory};
use ebr_outside::MemFile;
use ebr_server::ExitCode;
use ebr_trial::{came_to, file, ran_in_order, release, run_words};
use std::alloc::Global;
use std::sync::Wait;
use std::test::Fail;
use std::thread::Threads;

/// What the first session runs, by five asks: it makes a table with three rows.
const MAKES: &[u8] = b"\
CREATE TABLE t (id NUMBER(9) PRIMARY KEY, v VARCHAR2(10) NOT NULL, n NUMBER(9));
INSERT INTO t VALUES (1, 'a', 10);
INSERT INTO t VALUES (2, 'b', 20);
INSERT INTO t VALUES (3, 'c', 30);
COMMIT;
";

/// What the other two sessions run, whose asks come in this order, the replies of all three with `~` behind each, and the report.
struct Row {
    scripts: [&'static [u8]; 2],
    order: &'static [u32],
    replies: &'static [u8],
    report: &'static [u8],
}

/// The statement of one session comes between two statements of another one's block.
const BLOCK: Row = Row {
    scripts: [
        b"BEGIN UPDATE t SET n = 1 WHERE id = 1; UPDATE t SET n = 2 WHERE id = 2; END;\n/\n",
        b"UPDATE t SET n = 3 WHERE id = 3;\n",
    ],
    order: &[2, 2, 3, 2, 2],
    replies: b"OK\n1 rows\n1 rows\n1 rows\nOK\n~OK\n~1 rows\n~",
    report: b"session 1: 6 asks, 0 refused, ended\nsession 2: 5 asks, 0 refused, ended\nsession 3: 2 asks, 0 refused, ended\n",
};

/// A row that was changed since the transaction began is late.
const LATE: Row = Row {
    scripts: [
        b"SELECT n FROM t WHERE id = 1;\nUPDATE t SET n = 11 WHERE id = 1;\nROLLBACK;\nUPDATE t SET n = 11 WHERE id = 1;\n",
        b"UPDATE t SET n = 15 WHERE id = 1;\nCOMMIT;\n",
    ],
    order: &[2, 3, 3, 2, 2, 2],
    replies: b"OK\n1 rows\n1 rows\n1 rows\nOK\n~10\n1 rows\nORA-08177\nOK\n1 rows\n~1 rows\nOK\n~",
    report: b"session 1: 6 asks, 0 refused, ended\nsession 2: 5 asks, 1 refused, ended\nsession 3: 3 asks, 0 refused, ended\n",
};

/// A row that another session has changed is held.
const HELD: Row = Row {
    scripts: [
        b"UPDATE t SET n = 11 WHERE id = 1;\nUPDATE t SET n = 12 WHERE id = 1;\n",
        b"UPDATE t SET n = 15 WHERE id = 1;\n",
    ],
    order: &[2, 3, 2],
    replies: b"OK\n1 rows\n1 rows\n1 rows\nOK\n~1 rows\n1 rows\n~ORA-00054\n~",
    report: b"session 1: 6 asks, 0 refused, ended\nsession 2: 3 asks, 0 refused, ended\nsession 3: 2 asks, 1 refused, ended\n",
};

/// A block that catches that, and tries again when the row is free.
const AGAIN: Row = Row {
    scripts: [
        b"UPDATE t SET n = 1 WHERE id = 1;\nROLLBACK;\n",
        b"BEGIN BEGIN UPDATE t SET n = 2 WHERE id = 1; EXCEPTION WHEN OTHERS THEN DBMS_OUTPUT.PUT_LINE(SQLCODE); END; UPDATE t SET n = 3 WHERE id = 1; DBMS_OUTPUT.PUT_LINE(SQL%ROWCOUNT); END;\n/\n",
    ],
    order: &[2, 3, 3, 2, 3, 3],
    replies: b"OK\n1 rows\n1 rows\n1 rows\nOK\n~1 rows\nOK\n~-54\n1\nOK\n~",
    report: b"session 1: 6 asks, 0 refused, ended\nsession 2: 3 asks, 0 refused, ended\nsession 3: 5 asks, 1 refused, ended\n",
};

/// The scripts of the three sessions.
fn files_of(alloc: Global, row: &Row) -> Result<List<MemFile>, NoMemory> {
    let [second, third] = row.scripts;
    let mut files = List::new(alloc);
    files.push(file(alloc, b"1.sql", MAKES)?)?;
    files.push(file(alloc, b"2.sql", second)?)?;
    files.push(file(alloc, b"3.sql", third)?)?;
    Ok(files)
}

/// The order in which the three sessions' asks come.
fn order_of(alloc: Global, row: &Row) -> Result<Vec<u32>, NoMemory> {
    let mut order = Vec::new(alloc);
    for _ in 0..5 {
        order.push(1)?;
    }
    for session in row.order {
        order.push(*session)?;
    }
    Ok(order)
}

/// Whether a run in this order prints what is written.
fn goes_so<R: Threads + Wait + Sync>(rt: &R, alloc: Global, row: &Row) -> Result<bool, NoMemory> {
    let words = run_words(alloc, 3)?;
    let order = order_of(alloc, row)?;
    let files = files_of(alloc, row)?;
    let Some(outcome) = ran_in_order(rt, alloc, words.as_slice(), files, order) else {
        return Ok(false);
    };
    let so = came_to(&outcome, ExitCode::Done, row.replies, row.report);
    release(outcome);
    Ok(so)
}

#[test]
fn sessions_interleave_inside_a_block(rt: HostRuntime) -> Result<(), Fail> {
    assert!(rt; goes_so(&rt, rt.alloc(), &BLOCK)?);
    Ok(())
}

#[test]
fn scripts_follow_the_order(rt: HostRuntime) -> Result<(), Fail> {
    assert!(rt; goes_so(&rt, rt.alloc(), &LATE)?);
    assert!(rt; goes_so(&rt, rt.alloc(), &HELD)?);
    assert!(rt; goes_so(&rt, rt.alloc(), &AGAIN)?);
    Ok(())
}
