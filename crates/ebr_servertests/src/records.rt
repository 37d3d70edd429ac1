//! As many bytes in a transaction's record and in the journal as there may be, and one more.
//!
//! The table has 64 columns of 4000 bytes, so that a change of its one row takes 256335 bytes of a record: 15, and for each value 5 and
//! its text. A value that is NULL takes 1. The record takes 5 more, and 9 again in the journal.

use crate::limits::many;
use ebr_base::{Bytes, NoMemory};
use ebr_trial::prints;
use std::alloc::Global;
use std::test::Fail;

/// Creates the table, which takes 651 bytes of a journal. The columns behind the first have the numbers 0000 to 0062 in their names.
fn push_table(alloc: Global, script: &mut Bytes) -> Result<(), NoMemory> {
    script.extend(b"CREATE TABLE w (k VARCHAR2(4000)")?;
    script.extend(many(alloc, 63, b", c", b" VARCHAR2(4000)")?.as_slice())?;
    script.extend(b");\n")
}

/// Inserts the row and changes it, so that its transaction has 523 changes, whose record takes 134063210 bytes.
fn push_row(script: &mut Bytes) -> Result<(), NoMemory> {
    script.extend(
        b"DECLARE
  x VARCHAR2(4000) := 'a';
BEGIN
  FOR i IN 1 .. 11 LOOP x := x || x; END LOOP;
  x := x || SUBSTR(x, 1, 1952);
  INSERT INTO w VALUES (x",
    )?;
    for _ in 0..63 {
        script.extend(b", x")?;
    }
    script.extend(b");\n  FOR i IN 1 .. 522 LOOP UPDATE w SET k = k; END LOOP;\nEND;\n/\n")
}

/// Cuts the first column to so many bytes, and sets so many of the others to NULL.
fn push_cut(alloc: Global, script: &mut Bytes, length: &[u8], nulls: u32) -> Result<(), NoMemory> {
    script.extend(b"UPDATE w SET k = SUBSTR(k, 1, ")?;
    script.extend(length)?;
    script.extend(b")")?;
    script.extend(many(alloc, nulls, b", c", b" = NULL")?.as_slice())?;
    script.extend(b";\n")
}

/// The 524th change fills the record's 134217728 bytes, with 38 texts of 4000 bytes and one of 2283.
fn full_transaction(alloc: Global) -> Result<Bytes, NoMemory> {
    let mut script = Bytes::new(alloc);
    push_table(alloc, &mut script)?;
    push_row(&mut script)?;
    push_cut(alloc, &mut script, b"2284", 25)?;
    push_cut(alloc, &mut script, b"2283", 25)?;
    script.extend(
        b"UPDATE w SET k = NULL;
DELETE FROM w;
SELECT LENGTH(k), LENGTH(c0024), LENGTH(c0025) FROM w;
COMMIT;
DELETE FROM w;
",
    )?;
    Ok(script)
}

const FULL_REPLIES: &[u8] =
    b"OK\nOK\nEBR-0040\n1 rows\nEBR-0040\nEBR-0040\n2283||4000\n1 rows\nOK\n1 rows\n";

#[test]
fn a_transaction_has_a_record_of_134217728_bytes(rt: HostRuntime) -> Result<(), Fail> {
    let alloc = rt.alloc();
    assert!(rt; prints(alloc, full_transaction(alloc)?.as_slice(), FULL_REPLIES)?);
    Ok(())
}

/// With the table, four records of 523 changes and one of two, 104692 of the journal's 536870912 bytes are left. The next record fills
/// them, with 26 texts of 4000 bytes and one of 491.
fn full_journal(alloc: Global) -> Result<Bytes, NoMemory> {
    let mut script = Bytes::new(alloc);
    push_table(alloc, &mut script)?;
    push_row(&mut script)?;
    script.extend(
        b"COMMIT;
BEGIN
  FOR i IN 1 .. 3 LOOP
    FOR j IN 1 .. 523 LOOP UPDATE w SET k = k; END LOOP;
    COMMIT;
  END LOOP;
  FOR j IN 1 .. 2 LOOP UPDATE w SET k = k; END LOOP;
  COMMIT;
END;
/
",
    )?;
    push_cut(alloc, &mut script, b"492", 37)?;
    script.extend(
        b"COMMIT;
SELECT LENGTH(k), LENGTH(c0036), LENGTH(c0037) FROM w;
CREATE EDITION v2;
ROLLBACK;
",
    )?;
    push_cut(alloc, &mut script, b"491", 37)?;
    script.extend(
        b"COMMIT;
CREATE EDITION v2;
DELETE FROM w;
BEGIN COMMIT; EXCEPTION WHEN OTHERS THEN DBMS_OUTPUT.PUT_LINE(SQLCODE); END;
/
ROLLBACK;
SELECT LENGTH(k) FROM w;
",
    )?;
    Ok(script)
}

const JOURNAL_REPLIES: &[u8] = b"OK
OK
OK
OK
1 rows
EBR-0042
492||4000
1 rows
EBR-0042
OK
1 rows
OK
EBR-0042
1 rows
-100042
OK
OK
491
1 rows
";

#[test]
fn a_journal_takes_536870912_bytes(rt: HostRuntime) -> Result<(), Fail> {
    let alloc = rt.alloc();
    assert!(rt; prints(alloc, full_journal(alloc)?.as_slice(), JOURNAL_REPLIES)?);
    Ok(())
}
