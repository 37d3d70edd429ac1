//! Bytes that a text file hides, parentheses as deep as they may be, and stored texts.

use ebr_base::{Bytes, NoMemory};
use ebr_server::{Ask, Entry};
use ebr_trial::{NO_FAULTS, TRY, prints, release, served};
use std::alloc::Global;
use std::test::Fail;

/// A unit and a call, with each white byte between words and symbols.
const WHITE: &[u8] =
    b"\tCREATE PROCEDURE Ab IS BEGIN DBMS_OUTPUT . PUT_LINE ( 'x; y' ) ; END ;\r\n / \r\nCALL\naB ( ) ;";

#[test]
fn white_bytes_stand_between_words_and_symbols(rt: HostRuntime) -> Result<(), Fail> {
    assert!(rt; prints(rt.alloc(), WHITE, b"OK\nx; y\nOK\n")?);
    Ok(())
}

#[test]
fn any_bytes_have_an_answer(rt: HostRuntime) -> Result<(), Fail> {
    assert!(rt; prints(rt.alloc(), b"\x00\xff'", b"EBR-0020\n")?);
    Ok(())
}

/// A query of a number in so many parentheses.
fn nested(alloc: Global, depth: usize) -> Result<Bytes, NoMemory> {
    let mut script = Bytes::from_slice(alloc, b"SELECT ")?;
    for _ in 0..depth {
        script.push(b'(')?;
    }
    script.push(b'1')?;
    for _ in 0..depth {
        script.push(b')')?;
    }
    script.extend(b" FROM dual;")?;
    Ok(script)
}

fn nests(alloc: Global, depth: usize, replies: &[u8]) -> Result<bool, NoMemory> {
    prints(alloc, nested(alloc, depth)?.as_slice(), replies)
}

#[test]
fn parentheses_nest_64_deep(rt: HostRuntime) -> Result<(), Fail> {
    assert!(rt; nests(rt.alloc(), 64, b"1\n1 rows\n")?);
    assert!(rt; nests(rt.alloc(), 65, b"EBR-0025\n")?);
    Ok(())
}

/// Whether the ask of an entry has this stored text.
fn has_text(entry: &Entry, expected: &[u8]) -> bool {
    match &entry.ask {
        Ask::Ddl { text, .. } => text.get().as_slice() == expected,
        _ => false,
    }
}

fn first_has_text(history: &[Entry], expected: &[u8]) -> bool {
    match history.get(0) {
        Some(entry) => has_text(entry, expected),
        None => false,
    }
}

fn stores(alloc: Global, script: &[u8], text: &[u8]) -> Result<bool, NoMemory> {
    let outcome = served(alloc, TRY, script, NO_FAULTS)?;
    let has = first_has_text(outcome.history.as_slice(), text);
    release(outcome);
    Ok(has)
}

const CREATED: &[u8] = b"CREATE PROCEDURE a IS BEGIN DBMS_OUTPUT.PUT_LINE('a'); END;";

const COMMENTED: &[u8] =
    b"/* the first */ CREATE PROCEDURE a IS BEGIN DBMS_OUTPUT.PUT_LINE('a'); END; -- done\n/\nCALL a();";

#[test]
fn stored_text_ends_at_the_last_token(rt: HostRuntime) -> Result<(), Fail> {
    assert!(rt; stores(rt.alloc(), COMMENTED, CREATED)?);
    assert!(rt; stores(rt.alloc(), b"CREATE EDITION v2;", b"")?);
    Ok(())
}
