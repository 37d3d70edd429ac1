//! Orders that can't be read, and ones as long as they may be.

use ebr_base::{Bytes, List, NoMemory};
use ebr_outside::MemFile;
use ebr_server::{ExitCode, MAX_SCRIPT};
use ebr_trial::{Stop, came_to, file, rehearse_words, rehearsed, release, stops};
use std::alloc::Global;
use std::test::Fail;

/// Orders of two sessions, and the last line of each: the place of the first byte that is wrong.
static ORDERS: &str = "\
1 2 x~bad order at 4~\
x~bad order at 0~\
x 1 0~bad order at 0~\
1x~bad order at 1~\
1,2~bad order at 1~\
1\t2~bad order at 1~\
1\x0b2~bad order at 1~\
1 2;~bad order at 3~\
-1~bad order at 0~\
1 +2~bad order at 2~\
1 2\0~bad order at 3~\
1 \u{e9}~bad order at 2~\
0~bad order at 0~\
1 2 0~bad order at 4~\
1 000 x~bad order at 2~\
3~bad order at 0~\
1 3~bad order at 2~\
1\r\n003 1~bad order at 3~\
12~bad order at 0~\
2 1 3x~bad order at 4~\
4294967297~bad order at 0~\
1 18446744073709551617~bad order at 2~\
1 99999999999999999999999999999999999999999 x~bad order at 2~\
";

/// An order alone: where it is wrong, no script is read.
fn order_alone(alloc: Global, order: &[u8]) -> Result<List<MemFile>, NoMemory> {
    let mut files = List::new(alloc);
    files.push(file(alloc, b"order", order)?)?;
    Ok(files)
}

/// Whether an order of two sessions ends the run with this line.
fn is_bad(alloc: Global, order: &str, line: &str) -> Result<bool, NoMemory> {
    let mut report = Bytes::from_slice(alloc, line.as_bytes())?;
    report.push(b'\n')?;
    let files = order_alone(alloc, order.as_bytes())?;
    let outcome = rehearsed(alloc, rehearse_words(2), files, None, None)?;
    let bad = came_to(&outcome, outcome.code, b"", report.as_slice())
        && matches!(outcome.code, ExitCode::BadOrder { .. })
        && outcome.code.status() == 9
        && outcome.history.is_empty();
    release(outcome);
    Ok(bad)
}

/// A table from the first row on that ends otherwise; nothing where there is none.
fn good_from(alloc: Global, table: &'static str) -> Result<&'static str, NoMemory> {
    let mut left = table;
    for _ in 0..table.len() {
        let Some((order, rest)) = left.split_once('~') else {
            return Ok(left);
        };
        let Some((line, rest)) = rest.split_once('~') else {
            return Ok(left);
        };
        if !is_bad(alloc, order, line)? {
            return Ok(left);
        }
        left = rest;
    }
    Ok(left)
}

#[test]
fn a_bad_order_ends_the_run_before_a_script_is_read(rt: HostRuntime) -> Result<(), Fail> {
    assert_eq!(rt; good_from(rt.alloc(), ORDERS)?, "");
    Ok(())
}

/// A text so many times.
fn repeated(alloc: Global, text: &[u8], count: usize) -> Result<Bytes, NoMemory> {
    let mut whole = Bytes::new(alloc);
    for _ in 0..count {
        whole.extend(text)?;
    }
    Ok(whole)
}

/// Session 1 tells what session 2 has put in, if it has.
const TELLS: &[u8] = b"\
CREATE TABLE t (a NUMBER);
SELECT a FROM t;
";

const PUTS: &[u8] = b"\
INSERT INTO t VALUES (7);
COMMIT;
";

/// These two scripts, with an order.
fn two_files(alloc: Global, order: &[u8]) -> Result<List<MemFile>, NoMemory> {
    let mut files = order_alone(alloc, order)?;
    files.push(file(alloc, b"1.sql", TELLS)?)?;
    files.push(file(alloc, b"2.sql", PUTS)?)?;
    Ok(files)
}

const REPLIES: &[u8] = b"OK\n7\n1 rows\n~1 rows\nOK\n~";

const SUMMARY: &[u8] = b"\
session 1: 3 asks, 0 refused, ended
session 2: 3 asks, 0 refused, ended
";

/// Whether the scripts run by an order that is 1 and then 2 so often that it has these bytes.
fn runs_by(alloc: Global, twos: usize, length: usize) -> Result<bool, NoMemory> {
    let mut order = Bytes::from_slice(alloc, b"1 ")?;
    order.extend(repeated(alloc, b"2 ", twos)?.as_slice())?;
    let files = two_files(alloc, order.as_slice())?;
    let outcome = rehearsed(alloc, rehearse_words(2), files, None, None)?;
    let runs = came_to(&outcome, ExitCode::Done, REPLIES, SUMMARY) && order.len() == length;
    release(outcome);
    Ok(runs)
}

#[test]
fn an_order_of_a_mebibyte_is_taken(rt: HostRuntime) -> Result<(), Fail> {
    assert!(rt; runs_by(rt.alloc(), 524_287, MAX_SCRIPT)?);
    Ok(())
}

const TOO_LONG: Stop = Stop {
    code: ExitCode::TooLong { word: 2 },
    status: 10,
    report: b"too long: order\n",
};

/// Whether an order of so many spaces is too long, whatever the scripts are.
fn is_too_long(alloc: Global, spaces: usize) -> Result<bool, NoMemory> {
    let order = repeated(alloc, b" ", spaces)?;
    let files = order_alone(alloc, order.as_slice())?;
    stops(alloc, rehearse_words(2), files, None, TOO_LONG)
}

#[test]
fn an_order_of_more_than_a_mebibyte_is_too_long(rt: HostRuntime) -> Result<(), Fail> {
    assert!(rt; is_too_long(rt.alloc(), MAX_SCRIPT + 1)?);
    Ok(())
}
