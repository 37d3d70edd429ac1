//! Orders with bytes that a text file hides.

use ebr_base::{List, NoMemory};
use ebr_server::ExitCode;
use ebr_trial::{came_to, file, rehearse_words, rehearsed, release};
use std::alloc::Global;
use std::test::Fail;

/// An order of two sessions, their scripts, their replies with `~` behind each, and the summary.
struct Row {
    order: &'static [u8],
    first: &'static [u8],
    second: &'static [u8],
    replies: &'static [u8],
    summary: &'static [u8],
}

/// The second one first, and blanks for an order.
const BLANKS: Row = Row {
    order: b"2 2 2 2 \n\r\n   ",
    first: b"SELECT * FROM t;\n",
    second: b"CREATE TABLE t (a NUMBER);\nINSERT INTO t VALUES (1);\nCOMMIT;\n",
    replies: b"1\n1 rows\n~OK\n1 rows\nOK\n~",
    summary: b"session 1: 2 asks, 0 refused, ended\nsession 2: 4 asks, 0 refused, ended\n",
};

/// Numbers may begin with zeros, and lines end as they will.
const ZEROS: Row = Row {
    order: b"01 002\r\n2\n 0000000000000000000000000000001  1",
    first: b"CREATE TABLE t (a NUMBER);\nINSERT INTO t VALUES (1);\nSELECT * FROM t;\nCOMMIT;\n",
    second: b"INSERT INTO t VALUES (2);\nCOMMIT;\nSELECT * FROM t;\n",
    replies: b"OK\n1 rows\n2\n1\n2 rows\nOK\n~1 rows\nOK\n2\n1\n2 rows\n~",
    summary: b"session 1: 5 asks, 0 refused, ended\nsession 2: 4 asks, 0 refused, ended\n",
};

fn is_rehearsed(alloc: Global, row: &Row) -> Result<bool, NoMemory> {
    let mut files = List::new(alloc);
    files.push(file(alloc, b"order", row.order)?)?;
    files.push(file(alloc, b"1.sql", row.first)?)?;
    files.push(file(alloc, b"2.sql", row.second)?)?;
    let outcome = rehearsed(alloc, rehearse_words(2), files, None, None)?;
    let so = came_to(&outcome, ExitCode::Done, row.replies, row.summary);
    release(outcome);
    Ok(so)
}

#[test]
fn numbers_of_an_order_stand_between_any_white_bytes(rt: HostRuntime) -> Result<(), Fail> {
    assert!(rt; is_rehearsed(rt.alloc(), &BLANKS)?);
    assert!(rt; is_rehearsed(rt.alloc(), &ZEROS)?);
    Ok(())
}
