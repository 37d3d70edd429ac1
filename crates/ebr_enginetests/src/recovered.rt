//! Engines over the records of others, and records that aren't allowed.

ghost use Rattle.std.specs.Prelude.{◌≡◌, All, IfOk, IsTrue, OnOk};
ghost use Rattle.ebr_recovery.specs.Recovery.{HasRoom};

use crate::asking::release;
use crate::script::{fault_of, kept_by, number, part};
use ebr_base::{CloneIn, List, NoMemory};
use ebr_core::Engine;
use ebr_record::{Keep, ListKeep, Record};
use ebr_recovery::{ListFault, Recovery, begin_with};
use std::alloc::Global;
use std::test::Fail;

// ---- copies of records

/// Whether a stored text has room in a record.
fn has_room(r: &Record) -> bool
    ensures { IsTrue result → HasRoom r.now }
{
    match r {
        Record::Object { text, .. } => text.get().len() <= 1_000_000,
        _ => true,
    }
}

/// A copy of a record, whose stored text has room in it.
fn copy(alloc: Global, r: &Record) -> Result<Record, NoMemory>
    ensures same { IfOk result (λ copy. copy ≡ r.now) }
    ensures room { OnOk result (HasRoom r.now) }
{
    if !has_room(r) {
        return Err(NoMemory);
    }
    r.clone_in(alloc)
}

/// Copies of records.
fn copies(alloc: Global, records: &[Record]) -> Result<List<Record>, NoMemory>
    ensures copies { IfOk result (λ copies. copies ≡ records.now) }
    ensures room { IfOk result (λ copies. All HasRoom copies) }
{
    let mut copies = List::new(alloc);
    for r in records {
        copies.push(copy(alloc, r)?)?;
    }
    Ok(copies)
}

/// Adds a copy of a record, unless it is left out.
fn push_unless(
    alloc: Global,
    copies: &mut List<Record>,
    is_left_out: bool,
    r: &Record,
) -> Result<(), NoMemory>
    ensures { OnOk result (All HasRoom copies.old → All HasRoom copies.new) }
{
    if is_left_out {
        return Ok(());
    }
    let copied = copy(alloc, r)?;
    copies.push(copied)?;
    Ok(())
}

/// Copies of all records but the one with this number, counted from 0.
fn copies_without(
    alloc: Global,
    records: &[Record],
    left_out: usize,
) -> Result<List<Record>, NoMemory>
    ensures { IfOk result (λ copies. All HasRoom copies) }
{
    let mut copies = List::new(alloc);
    for (at, r) in records.iter().enumerate() {
        push_unless(alloc, &mut copies, at == left_out, r)?;
    }
    Ok(copies)
}

// ---- an engine over the records of another one

/// An engine that goes on with what another one kept.
fn gone_on(alloc: Global, engine: Engine<ListKeep>) -> Result<Engine<ListKeep>, NoMemory> {
    let keeper = kept_by(engine);
    let records = copies(alloc, keeper.records());
    match records {
        Ok(records) => begun(alloc, keeper, records),
        Err(NoMemory) => {
            release(keeper);
            Err(NoMemory)
        }
    }
}

/// An engine over these records, which a keeper has kept.
fn begun(
    alloc: Global,
    keeper: ListKeep,
    records: List<Record>,
) -> Result<Engine<ListKeep>, NoMemory>
    requires kept { records ≡ keeper.records }
    requires room { All HasRoom records }
{
    if keeper.is_stopped() {
        release(keeper);
        return Err(NoMemory);
    }
    match begin_with(alloc, keeper, records, 3) {
        Ok(engine) => Ok(engine),
        Err(left) => {
            release(left);
            Err(NoMemory)
        }
    }
}

/// The first fault of these lines, on an engine that then goes on, and of those behind them.
fn fault_over(alloc: Global, lines: &str, later: &str) -> Result<Option<String>, NoMemory> {
    let mut engine = Engine::start(alloc, ListKeep::new(alloc, &[])?, 3)?;
    let found = fault_of(alloc, &mut engine, lines);
    if let Ok(None) = found {
        return later_fault(alloc, engine, later);
    }
    release(engine);
    found
}

/// The first fault of these lines, on an engine over what another one kept.
fn later_fault(
    alloc: Global,
    engine: Engine<ListKeep>,
    lines: &str,
) -> Result<Option<String>, NoMemory> {
    let mut engine = gone_on(alloc, engine)?;
    let found = fault_of(alloc, &mut engine, lines);
    release(engine);
    found
}

/// The first fault of a table of titles, lines and the lines behind them, with `~` behind each.
fn fault_in_recovered(alloc: Global, table: &str) -> Result<Option<String>, NoMemory> {
    let mut left = table;
    for _turn in 0..table.len() {
        if left.is_empty() {
            return Ok(None);
        }
        let (_, rest) = part(left)?;
        let (lines, rest) = part(rest)?;
        let (later, rest) = part(rest)?;
        let found = fault_over(alloc, lines, later)?;
        if found.is_some() {
            return Ok(found);
        }
        left = rest;
    }
    Ok(None)
}

static RECOVERED: &str = "\
rows and tables are there again, and what wasn't committed isn't~\
1 CREATE TABLE t (id NUMBER(9) PRIMARY KEY, n NUMBER(9))
1 INSERT INTO t VALUES (1, 10) => rows 1
1 INSERT INTO t VALUES (2, 20) => rows 1
1 COMMIT
1 UPDATE t SET n = 11 WHERE id = 1 => rows 1
1 DELETE FROM t WHERE id = 2 => rows 1
1 COMMIT
1 ALTER TABLE t ADD x NUMBER(9)
1 INSERT INTO t VALUES (3, 30, 33) => rows 1
1 COMMIT
1 CREATE TABLE u (id NUMBER(9))
1 DROP TABLE u
1 INSERT INTO t VALUES (4, 40, 44) => rows 1
2 UPDATE t SET n = 0 WHERE id = 1 => rows 1
~\
2 SELECT * FROM t => (1, 11, -) (3, 30, 33)
2 SELECT * FROM u => ORA-00942
2 INSERT INTO t VALUES (3, 0, 0) => ORA-00001
2 INSERT INTO t VALUES (2, 22, NULL) => rows 1
2 COMMIT
1 CREATE TABLE u (id NUMBER(9))
1 SELECT * FROM u => no row
3 SELECT id FROM t => (1) (3) (2)
3 begin => edition 1 T U
~\
editions and objects are there again, and sessions begin in the default edition~\
1 CREATE TABLE t (id NUMBER(9), n NUMBER(9))
1 CREATE PROCEDURE p IS BEGIN NULL; END;
1 CREATE PACKAGE k IS PROCEDURE q; END;
1 CREATE PACKAGE BODY k IS PROCEDURE q IS BEGIN NULL; END; END;
1 CREATE TRIGGER g BEFORE INSERT ON t FOR EACH ROW BEGIN :NEW.n := 7; END;
1 CREATE TRIGGER h BEFORE INSERT ON t FOR EACH ROW BEGIN :NEW.id := 8; END;
1 CREATE EDITIONING VIEW v AS SELECT id, n FROM t
1 ALTER TRIGGER g DISABLE
1 CREATE EDITION v2
1 CREATE EDITION v3
1 DROP EDITION v3
1 ALTER SESSION SET EDITION = v2
1 CREATE OR REPLACE EDITIONING VIEW v (k, m) AS SELECT id, n FROM t
1 DROP PROCEDURE p
1 DROP TRIGGER h
1 DROP PACKAGE BODY k
1 ALTER DATABASE DEFAULT EDITION = v2
~\
2 begin => edition 2 K V G T
2 end
1 INSERT INTO v (k, m) VALUES (1, 10) => rows 1
1 SELECT k, m FROM v => (1, 10)
1 ROLLBACK
1 ALTER SESSION SET EDITION = ora$base
1 begin => edition 1 K P V K G H T
1 end
1 INSERT INTO t VALUES (1, 10) => rows 1
1 SELECT * FROM t => (8, 10)
1 ALTER TRIGGER g ENABLE
1 INSERT INTO t VALUES (2, 20) => rows 1
1 SELECT * FROM t => (8, 10) (8, 7)
1 COMMIT
1 CREATE EDITION v2 => EBR-0031
2 CREATE EDITION v4
2 ALTER SESSION SET EDITION = v4
2 DROP PACKAGE k
2 begin => edition 4 V G T
~\
";

#[test]
fn what_was_kept_is_recovered(rt: HostRuntime) -> Result<(), Fail> {
    assert_eq!(rt; fault_in_recovered(rt.alloc(), RECOVERED)?, None);
    Ok(())
}

// ---- records that aren't allowed

/// What comes of the recovery of records.
fn outcome(alloc: Global, records: &[Record]) -> Result<Option<usize>, NoMemory>
    requires { All HasRoom records.now }
{
    let mut recovery = Recovery::new(alloc, 1)?;
    let done = recovery.extend(alloc, records);
    release(recovery);
    match done {
        Ok(()) => Ok(None),
        Err(ListFault::NotAllowed(at)) => Ok(Some(at)),
        Err(ListFault::NoMemory) => Err(NoMemory),
    }
}

/// The place of the first record that isn't allowed among those of these lines but one; none where all are.
fn refused(alloc: Global, lines: &str, left_out: usize) -> Result<Option<usize>, NoMemory> {
    let mut engine = Engine::start(alloc, ListKeep::new(alloc, &[])?, 1)?;
    let found = fault_of(alloc, &mut engine, lines);
    let keeper = kept_by(engine);
    let records = copies_without(alloc, keeper.records(), left_out);
    release(keeper);
    match found {
        Ok(None) => {
            let records = records?;
            outcome(alloc, records.as_slice())
        }
        _ => Err(NoMemory),
    }
}

/// Whether the place is the wanted one: a number, or `-` where all are allowed.
fn is_wanted(found: Option<usize>, wanted: &str) -> Result<bool, NoMemory> {
    match found {
        Some(at) => Ok(number(wanted)? as usize == at),
        None => Ok(wanted == "-"),
    }
}

/// The first title of a table whose records are refused at another place. Behind each title stand the lines, the number of the
/// record that is left out, and the place, with `~` behind each.
fn wrongly_refused(alloc: Global, table: &str) -> Result<Option<String>, NoMemory> {
    let mut left = table;
    for _turn in 0..table.len() {
        if left.is_empty() {
            return Ok(None);
        }
        let (title, rest) = part(left)?;
        let (lines, rest) = part(rest)?;
        let (left_out, rest) = part(rest)?;
        let (wanted, rest) = part(rest)?;
        let found = refused(alloc, lines, number(left_out)? as usize)?;
        if !is_wanted(found, wanted)? {
            return Ok(Some(format!(in alloc; "{title} gives {found:?}")?));
        }
        left = rest;
    }
    Ok(None)
}

static REFUSED: &str = "\
all of them~\
1 CREATE EDITION v2
1 CREATE EDITION v3
~9~-~\
an edition whose parent isn't there~\
1 CREATE EDITION v2
1 CREATE EDITION v3
~0~0~\
an edition of a name that is there~\
1 CREATE EDITION v2
1 DROP EDITION v2
1 CREATE EDITION v2
~1~1~\
the drop of an edition with a child~\
1 CREATE EDITION v2
1 CREATE EDITION v3
1 DROP EDITION v3
1 DROP EDITION v2
~2~2~\
the drop of an edition that isn't there~\
1 CREATE EDITION v2
1 DROP EDITION v2
~0~0~\
the choice of a default edition that isn't there~\
1 CREATE EDITION v2
1 ALTER DATABASE DEFAULT EDITION = v2
~0~0~\
a table of a name that is there~\
1 CREATE TABLE t (id NUMBER(9))
1 DROP TABLE t
1 CREATE TABLE t (n NUMBER(9))
~1~1~\
a column of a table that isn't there~\
1 CREATE TABLE t (id NUMBER(9))
1 ALTER TABLE t ADD n NUMBER(9)
~0~0~\
the drop of a table that isn't there~\
1 CREATE TABLE t (id NUMBER(9))
1 DROP TABLE t
~0~0~\
an object in an edition that isn't there~\
1 CREATE EDITION v2
1 ALTER SESSION SET EDITION = v2
1 CREATE PROCEDURE p IS BEGIN NULL; END;
~0~0~\
the drop of a procedure that isn't there~\
1 CREATE PROCEDURE p IS BEGIN NULL; END;
1 DROP PROCEDURE p
~0~0~\
the drop of a package that isn't there~\
1 CREATE PACKAGE k IS PROCEDURE q; END;
1 DROP PACKAGE k
~0~0~\
a commit of a table that isn't there~\
1 CREATE TABLE t (id NUMBER(9))
1 INSERT INTO t VALUES (1) => rows 1
1 COMMIT
~0~0~\
a row that doesn't fit~\
1 CREATE TABLE t (id NUMBER(9))
1 ALTER TABLE t ADD n NUMBER(9)
1 INSERT INTO t VALUES (1, 10) => rows 1
1 COMMIT
~1~1~\
a removed row that isn't there~\
1 CREATE TABLE t (id NUMBER(9))
1 INSERT INTO t VALUES (1) => rows 1
1 COMMIT
1 DELETE FROM t => rows 1
1 COMMIT
~1~1~\
two rows of a key~\
1 CREATE TABLE t (id NUMBER(9) PRIMARY KEY)
1 INSERT INTO t VALUES (1) => rows 1
1 COMMIT
1 DELETE FROM t => rows 1
1 COMMIT
1 INSERT INTO t VALUES (1) => rows 1
1 COMMIT
~2~2~\
";

#[test]
fn what_is_not_allowed_is_not_recovered(rt: HostRuntime) -> Result<(), Fail> {
    assert_eq!(rt; wrongly_refused(rt.alloc(), REFUSED)?, None);
    Ok(())
}
