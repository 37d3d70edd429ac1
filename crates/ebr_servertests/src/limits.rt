//! As many editions, objects, tables and columns as there may be, and one more, and makings of packages as deep as they may nest.

use ebr_base::{Bytes, NoMemory};
use ebr_trial::prints;
use std::alloc::Global;
use std::test::Fail;

/// Adds a number in four digits.
fn push_number(script: &mut Bytes, n: u32) -> Result<(), NoMemory> {
    for place in [1000, 100, 10, 1] {
        script.push(b'0' + (n / place % 10) as u8)?;
    }
    Ok(())
}

/// A piece so many times, each with a name of its own.
pub fn many(alloc: Global, count: u32, head: &[u8], tail: &[u8]) -> Result<Bytes, NoMemory> {
    let mut script = Bytes::new(alloc);
    for n in 0..count {
        script.extend(head)?;
        push_number(&mut script, n)?;
        script.extend(tail)?;
    }
    Ok(script)
}

/// `OK` so many times, and then a last line.
fn replies(alloc: Global, count: u32, last: &[u8]) -> Result<Bytes, NoMemory> {
    let mut lines = Bytes::new(alloc);
    for _ in 0..count {
        lines.extend(b"OK\n")?;
    }
    lines.extend(last)?;
    Ok(lines)
}

/// A piece so many times and once more, each with a name of its own: all but the last are done.
fn fills(
    alloc: Global,
    count: u32,
    head: &[u8],
    tail: &[u8],
    last: &[u8],
) -> Result<bool, NoMemory> {
    let script = many(alloc, count.saturating_add(1), head, tail)?;
    let lines = replies(alloc, count, last)?;
    prints(alloc, script.as_slice(), lines.as_slice())
}

const PROCEDURE_TAIL: &[u8] = b" IS BEGIN NULL; END;\n/\n";

#[test]
fn edition_sees_4096_objects(rt: HostRuntime) -> Result<(), Fail> {
    let alloc = rt.alloc();
    assert!(rt;
        fills(
            alloc,
            4096,
            b"CREATE PROCEDURE p",
            PROCEDURE_TAIL,
            b"EBR-0034\n"
        )?
    );
    Ok(())
}

/// A child sees as many objects as there may be, and then also one that its parent gets: it may alter none, until it drops
/// one.
fn overfull(alloc: Global) -> Result<Bytes, NoMemory> {
    let mut script = Bytes::from_slice(
        alloc,
        b"CREATE TABLE t (a NUMBER);
CREATE TRIGGER r BEFORE INSERT ON t FOR EACH ROW BEGIN NULL; END;
/
CREATE EDITION v2;
ALTER SESSION SET EDITION = v2;
",
    )?;
    script.extend(many(alloc, 4095, b"CREATE PROCEDURE p", PROCEDURE_TAIL)?.as_slice())?;
    script.extend(
        b"ALTER TRIGGER r DISABLE;
ALTER SESSION SET EDITION = ora$base;
CREATE PROCEDURE q IS BEGIN NULL; END;
/
ALTER SESSION SET EDITION = v2;
ALTER TRIGGER r ENABLE;
DROP PROCEDURE q;
ALTER TRIGGER r ENABLE;
",
    )?;
    Ok(script)
}

#[test]
fn overfull_edition_alters_no_trigger(rt: HostRuntime) -> Result<(), Fail> {
    let alloc = rt.alloc();
    let lines = replies(alloc, 4103, b"EBR-0034\nOK\nOK\n")?;
    assert!(rt; prints(alloc, overfull(alloc)?.as_slice(), lines.as_slice())?);
    Ok(())
}

/// Packages from a number up to another one, each initialised from the one before it.
fn push_packages(script: &mut Bytes, first: u32, end: u32) -> Result<(), NoMemory> {
    for n in first..end {
        script.extend(b"CREATE PACKAGE p")?;
        push_number(script, n)?;
        script.extend(b" IS n NUMBER := p")?;
        push_number(script, n.saturating_sub(1))?;
        script.extend(b".n + 1; END;\n/\n")?;
    }
    Ok(())
}

/// A child sees 4,095 packages of its own, and then also 15 that its parent gets. Each is made from the one before it.
fn nested_packages(alloc: Global) -> Result<Bytes, NoMemory> {
    let mut script = Bytes::from_slice(
        alloc,
        b"CREATE EDITION v2;
ALTER SESSION SET EDITION = v2;
CREATE PACKAGE p0000 IS n NUMBER := 1; END;
/
",
    )?;
    push_packages(&mut script, 1, 4095)?;
    script.extend(b"ALTER SESSION SET EDITION = ora$base;\n")?;
    push_packages(&mut script, 4095, 4110)?;
    script.extend(
        b"ALTER SESSION SET EDITION = v2;
BEGIN DBMS_OUTPUT.PUT_LINE(p4109.n); END;
/
",
    )?;
    Ok(script)
}

/// The parent doesn't see what its first package is made from.
#[test]
fn makings_nest_as_deep_as_an_edition_sees_packages(rt: HostRuntime) -> Result<(), Fail> {
    let alloc = rt.alloc();
    let mut lines = replies(alloc, 4098, b"INVALID\n")?;
    lines.extend(replies(alloc, 15, b"4110\nOK\n")?.as_slice())?;
    assert!(rt; prints(alloc, nested_packages(alloc)?.as_slice(), lines.as_slice())?);
    Ok(())
}

#[test]
fn a_thousand_tables_live(rt: HostRuntime) -> Result<(), Fail> {
    let alloc = rt.alloc();
    assert!(rt;
        fills(
            alloc,
            1000,
            b"CREATE TABLE t",
            b" (a NUMBER);\n",
            b"EBR-0037\n"
        )?
    );
    Ok(())
}

#[test]
fn at_most_256_editions_live(rt: HostRuntime) -> Result<(), Fail> {
    let alloc = rt.alloc();
    assert!(rt; fills(alloc, 255, b"CREATE EDITION e", b";\n", b"EBR-0035\n")?);
    Ok(())
}

/// CREATE TABLE of a table with so many columns and one more, and ALTER TABLE ADD of another one.
fn wide(alloc: Global, columns: u32) -> Result<Bytes, NoMemory> {
    let mut script = Bytes::from_slice(alloc, b"CREATE TABLE t (a NUMBER")?;
    script.extend(many(alloc, columns, b", c", b" NUMBER")?.as_slice())?;
    script.extend(b");\nALTER TABLE t ADD b NUMBER;\n")?;
    Ok(script)
}

fn widens(alloc: Global, columns: u32, replies: &[u8]) -> Result<bool, NoMemory> {
    prints(alloc, wide(alloc, columns)?.as_slice(), replies)
}

#[test]
fn table_has_64_columns(rt: HostRuntime) -> Result<(), Fail> {
    assert!(rt; widens(rt.alloc(), 63, b"OK\nEBR-0036\n")?);
    assert!(rt; widens(rt.alloc(), 64, b"EBR-0036\nORA-00942\n")?);
    Ok(())
}
