//! A record of each kind, and its line.

ghost use Rattle.std.specs.Prelude.{All, IfOk};
ghost use Rattle.ebr_record.specs.Payload.{HasPayload};

use crate::lines::dump;
use ebr_base::{List, NoMemory};
use ebr_encoding::{Form, decode};
use ebr_record::Record;
use std::alloc::Global;
use std::test::Fail;

/// Payloads of records one behind the other, written by hand.
fn payload(at: u32) -> Option<&'static [u8]> {
    match at {
        0 => Some(b"\x07\x01T\0\x01\x02ID\x01\x09\x01\x01\0\0"),
        1 => Some(b"\x07\x02T2\0\x01\x02ID\x01\x09\x01\x01\0\0"),
        2 => Some(
            b"\x01\0\0\0\x02\0\0\0\x01\0\0\0\0\0\0\0\x01\x01\0\x01\x01\0\0\0\0\0\0\0\x01\0\0\0\x01\0\0\0\0\0\0\0\x01\0",
        ),
        3 => Some(b"\x08\0\0\0\x02\x01N\x01\x09\0"),
        4 => Some(b"\x02\x02V2\0\0\0\x01"),
        5 => Some(b"\x02\x02V3\0\0\0\x02"),
        6 => Some(b"\x03\0\0\0\x03"),
        7 => Some(b"\x04\0\0\0\x02"),
        8 => Some(b"\x05\0\0\0\x01\x01\0\0\0\x26create procedure p is begin null; end;"),
        9 => Some(
            b"\x05\0\0\0\x02\x01\0\0\0\x3ecreate or replace function f return number is begin null; end;",
        ),
        10 => Some(b"\x05\0\0\0\x02\x01\0\0\0\x1acreate package k is end k;"),
        11 => Some(b"\x05\0\0\0\x02\x01\0\0\0\x1fcreate package body k is end k;"),
        12 => Some(
            b"\x05\0\0\0\x01\0\0\0\0\x41create trigger b before insert on t for each row begin null; end;",
        ),
        13 => Some(b"\x05\0\0\0\x01\x01\0\0\0\x2dcreate editioning view v as select id from t2"),
        14 => Some(b"\x06\0\0\0\x01\x01\x01P"),
        15 => Some(b"\x06\0\0\0\x02\x02\x01K"),
        16 => Some(b"\x06\0\0\0\x01\x03\x01B"),
        17 => Some(b"\x06\0\0\0\x02\x04\x01K"),
        18 => Some(b"\x09\0\0\0\x01"),
        _ => None,
    }
}

/// Their lines.
const LINES: &[u8] = b"table T
table T2
commit 2
column T2 N
edition V2
edition V3
drop edition V3
default V2
object ORA$BASE procedure P
object V2 function F
object V2 package K
object V2 body K
object ORA$BASE trigger B
object ORA$BASE view V
gone ORA$BASE unit P
gone V2 body K
gone ORA$BASE trigger B
gone V2 package K
drop table T
";

/// The records.
fn records(alloc: Global) -> Result<List<Record>, NoMemory>
    ensures { IfOk result (λ records. All HasPayload records) }
{
    let mut records = List::new(alloc);
    for at in 0..99 {
        let Some(bytes) = payload(at) else {
            return Ok(records);
        };
        let Ok(r) = decode(alloc, Form::Long, bytes) else {
            return Err(NoMemory);
        };
        records.push(r)?;
    }
    Ok(records)
}

fn have_their_lines(alloc: Global) -> Result<bool, NoMemory> {
    let records = records(alloc)?;
    let text = dump(alloc, records.as_slice())?;
    Ok(text.as_slice() == LINES)
}

#[test]
fn records_have_their_lines(rt: HostRuntime) -> Result<(), Fail> {
    assert!(rt; have_their_lines(rt.alloc()) == Ok(true));
    Ok(())
}
