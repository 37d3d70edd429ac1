//! Records as bytes, both ways: each kind is read and written again, and bytes that spell none are refused.

ghost use Rattle.std.specs.Prelude.{◌≤◌};
ghost use Rattle.ebr_record.specs.Payload.{HasPayload};

use crate::answers::release;
use ebr_base::{Bytes, NoMemory};
use ebr_encoding::{DecodeErr, Form, decode, encode, has_form};
use ebr_record::Record;
use std::alloc::Global;
use std::test::Fail;

/// Payloads of all kinds, written by hand.
fn payload(at: u32) -> Option<&'static [u8]> {
    match at {
        0 => Some(b"\x01\0\0\0\0"),
        1 => Some(b"\x01\0\0\0\x01\0\0\0\x02\0\0\0\0\0\0\x01\0\0"),
        2 => Some(b"\x01\0\0\0\x01\0\0\0\x02\0\0\0\0\0\0\0\x01\x01\0\0"),
        3 => Some(
            b"\x01\0\0\0\x02\0\0\0\x02\0\0\0\0\0\0\0\x01\x01\0\x03\0\x01\xff\xff\xff\xff\xff\xff\xff\xfe\x02\0\0\0\x02ab\xff\xff\xff\xff\xff\xff\xff\xff\xff\xff\xff\xff\0",
        ),
        4 => Some(b"\x02\x02V2\0\0\0\x01"),
        5 => Some(b"\x03\0\0\x01\0"),
        6 => Some(b"\x04\xff\xff\xff\xff"),
        7 => Some(b"\x05\0\0\0\x01\x01\0\0\0\x02x;"),
        8 => Some(b"\x05\0\0\0\x01\0\0\0\0\0"),
        9 => Some(b"\x06\0\0\0\x01\x01\x01P"),
        10 => Some(b"\x06\0\0\0\x01\x04\x04P$_#"),
        11 => Some(b"\x07\x01T\0\x02\x02ID\x01\x09\x01\x01V\x02\x01\x2c\0\x01\0\0"),
        12 => Some(b"\x07\x01T\0\0\0"),
        13 => Some(b"\x08\0\0\0\x03\x01V\x02\x01\x2c\0"),
        14 => Some(b"\x09\0\0\0\x03"),
        _ => None,
    }
}

/// Bytes that spell no record: each is one byte or so from a payload.
fn no_payload(at: u32) -> Option<&'static [u8]> {
    match at {
        0 => Some(b""),
        1 => Some(b"\0"),
        2 => Some(b"\x0a\0\0\0\x03"),
        3 => Some(b"\x09\0\0\0\x03\0"),
        4 => Some(b"\x01\0\0\0\x01"),
        5 => Some(b"\x01\0\0\0\x01\0\0\0\x02\0\0\0\0\0\0\x01\0\x02"),
        6 => Some(b"\x01\0\0\0\x01\0\0\0\x02\0\0\0\0\0\0\0\x01\x01\0\x01\x02\0\0\0\0"),
        7 => Some(b"\x01\0\0\0\x01\0\0\0\x02\0\0\0\0\0\0\0\x01\x01\0\x01\x03"),
        8 => Some(b"\x02\x02v2\0\0\0\x01"),
        9 => Some(b"\x02\x06SELECT\0\0\0\x01"),
        10 => Some(b"\x02\0\0\0\0\x01"),
        11 => Some(b"\x02\x022V\0\0\0\x01"),
        12 => Some(b"\x05\0\0\0\x01\x02\0\0\0\x02x;"),
        13 => Some(b"\x05\0\0\0\x01\x01\0\0\0\x03x;"),
        14 => Some(b"\x06\0\0\0\x01\0\x01P"),
        15 => Some(b"\x06\0\0\0\x01\x05\x01P"),
        16 => Some(b"\x07\x01T\0\x01\x02ID\x03\x09\x01\0"),
        17 => Some(b"\x08\0\0\0\x03\x01V\x02\x01\x2c\x02"),
        _ => None,
    }
}

fn written(alloc: Global, r: &Record) -> Result<Bytes, NoMemory>
    requires { HasPayload r.now }
{
    let mut bytes = Bytes::new(alloc);
    encode(r, &mut bytes)?;
    Ok(bytes)
}

/// Whether a record is written as these bytes.
fn is_written_so(alloc: Global, r: &Record, bytes: &[u8]) -> bool
    requires { HasPayload r.now }
{
    match written(alloc, r) {
        Ok(written) => written.as_slice() == bytes,
        Err(NoMemory) => false,
    }
}

/// Whether bytes are read as a record that is written as these bytes, and has both forms.
fn comes_back(alloc: Global, bytes: &[u8]) -> bool {
    let read = decode(alloc, Form::Short, bytes);
    let same = match &read {
        Ok(r) => is_written_so(alloc, r, bytes)
            && has_form(Form::Short, r)
            && has_form(Form::Long, r),
        Err(_) => false,
    };
    release(read);
    same
}

/// Whether bytes are read in a form; nothing where there is no memory.
fn is_read(alloc: Global, form: Form, bytes: &[u8]) -> Option<bool> {
    let read = decode(alloc, form, bytes);
    let answer = match &read {
        Ok(_) => Some(true),
        Err(DecodeErr::Bad) => Some(false),
        Err(DecodeErr::NoMemory) => None,
    };
    release(read);
    answer
}

/// Whether each shorter beginning of a payload is refused.
fn needs_all(alloc: Global, bytes: &[u8]) -> bool {
    for len in 0..bytes.len() {
        if is_read(alloc, Form::Long, &bytes[..len]) != Some(false) {
            return false;
        }
    }
    true
}

/// The first payload that doesn't come back, or that a beginning of passes for; their number where there is none.
fn first_that_stays_away(alloc: Global) -> u32 {
    for at in 0..99 {
        let Some(bytes) = payload(at) else {
            return at;
        };
        if !comes_back(alloc, bytes) || !needs_all(alloc, bytes) {
            return at + 100;
        }
    }
    100
}

fn first_that_is_read(alloc: Global) -> u32 {
    for at in 0..99 {
        let Some(bytes) = no_payload(at) else {
            return at;
        };
        if is_read(alloc, Form::Long, bytes) != Some(false) {
            return at + 100;
        }
    }
    100
}

#[test]
fn each_kind_is_read_and_written_again(rt: HostRuntime) {
    assert!(rt; first_that_stays_away(rt.alloc()) == 15);
    assert!(rt; first_that_is_read(rt.alloc()) == 18);
}

/// A commit of so many changes, each of which removes row 0 of table 0.
fn commit(alloc: Global, changes: u32) -> Result<Bytes, NoMemory>
    requires { changes ≤ 1000000 }
{
    let mut bytes = Bytes::from_slice(alloc, b"\x01")?;
    bytes.extend(&changes.to_be_bytes())?;
    bytes.extend(&vec![in alloc; 0; 13 * changes as usize]?)?;
    Ok(bytes)
}

/// Whether bytes have the short form, and the long one, as said.
fn has_forms(alloc: Global, bytes: Result<Bytes, NoMemory>, short: bool, long: bool) -> bool {
    match &bytes {
        Ok(bytes) => {
            is_read(alloc, Form::Short, bytes.as_slice()) == Some(short)
                && is_read(alloc, Form::Long, bytes.as_slice()) == Some(long)
        }
        Err(NoMemory) => false,
    }
}

#[test]
fn forms_bound_the_changes_of_a_commit(rt: HostRuntime) {
    let alloc = rt.alloc();
    assert!(rt; has_forms(alloc, commit(alloc, 100_000), true, true));
    assert!(rt; has_forms(alloc, commit(alloc, 100_001), false, true));
    assert!(rt; has_forms(alloc, commit(alloc, 200_001), false, false));
}
