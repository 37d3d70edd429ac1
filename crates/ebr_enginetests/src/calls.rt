//! Calls with their marks, autonomous transactions, and asks out of place.

use crate::script::fault_in;
use std::test::Fail;

static CALLS: &str = "\
two transactions of one session meet at a row~0~\
1 begin => edition 1 T
1 UPDATE t SET n = 11 WHERE id = 1 => rows 1
1 push
1 SELECT n FROM t => (10) (20)
1 UPDATE t SET n = 12 WHERE id = 1 => ORA-00054
1 INSERT INTO t VALUES (1, 0) => ORA-00054
1 UPDATE t SET n = 21 WHERE id = 2 => rows 1
1 end => EBR-0015
1 fail => EBR-0015
1 pop => ORA-06519
1 SELECT n FROM t => (11) (20)
1 pop => EBR-0015
1 pop failed => EBR-0015
1 push
1 UPDATE t SET n = 21 WHERE id = 2 => rows 1
2 UPDATE t SET n = 22 WHERE id = 2 => ORA-00054
1 COMMIT
1 pop
2 SELECT n FROM t => (10) (21)
1 SELECT n FROM t => (11) (20)
1 UPDATE t SET n = 0 WHERE id = 2 => ORA-08177
1 push
1 SELECT id FROM t WHERE id = 2 FOR UPDATE => (2)
1 pop => ORA-06519
1 push
1 UPDATE t SET n = 0 WHERE id = 2 => rows 1
1 pop failed
1 push
1 UPDATE t SET n = 0 WHERE id = 2 => rows 1
1 ROLLBACK
1 push
1 SELECT n FROM t => (10) (21)
1 pop
1 pop
1 end
1 COMMIT
2 COMMIT
2 SELECT n FROM t => (11) (21)
~\
table T
commit 2
commit 1
commit 1
~\
asks out of place~0~\
1 push => EBR-0015
1 pop => EBR-0015
1 pop failed => EBR-0015
1 end => EBR-0015
1 fail => EBR-0015
1 begin => edition 1 T
1 begin => EBR-0015
1 CREATE EDITION v2 => EBR-0015
1 CREATE PROCEDURE p IS BEGIN NULL; END; => EBR-0015
1 ALTER SESSION SET EDITION = nowhere => EBR-0015
1 pop => EBR-0015
2 push => EBR-0015
1 push
1 begin => EBR-0015
1 CREATE EDITION v2 => EBR-0015
1 ALTER SESSION SET EDITION = nowhere => EBR-0015
1 end => EBR-0015
1 pop
1 end
1 end => EBR-0015
1 push => EBR-0015
1 begin => edition 1 T
1 fail
1 fail => EBR-0015
~\
table T
commit 2
~\
as many autonomous transactions as may be open~0~\
1 begin => edition 1 T
1 repeat 49 push
1 UPDATE t SET n = 11 WHERE id = 1 => rows 1
1 push
1 push => EBR-0014
1 UPDATE t SET n = 12 WHERE id = 1 => ORA-00054
1 pop
1 COMMIT
1 repeat 49 pop
1 pop => EBR-0015
1 end
1 SELECT n FROM t => (11) (20)
~\
table T
commit 2
commit 1
~\
a call that fails goes back to where it began, or to its last commit or rollback~0~\
1 UPDATE t SET n = 11 WHERE id = 1 => rows 1
1 begin => edition 1 T
1 UPDATE t SET n = 21 WHERE id = 2 => rows 1
1 SAVEPOINT a
1 fail
1 SELECT n FROM t => (11) (20)
1 ROLLBACK TO a => ORA-01086
2 UPDATE t SET n = 0 WHERE id = 2 => rows 1
2 ROLLBACK
1 begin => edition 1 T
1 UPDATE t SET n = 21 WHERE id = 2 => rows 1
1 COMMIT
1 UPDATE t SET n = 22 WHERE id = 2 => rows 1
1 fail
1 SELECT n FROM t => (11) (21)
2 SELECT n FROM t => (11) (21)
1 begin => edition 1 T
1 UPDATE t SET n = 23 WHERE id = 2 => rows 1
1 ROLLBACK
1 UPDATE t SET n = 24 WHERE id = 2 => rows 1
1 fail
1 SELECT n FROM t => (11) (21)
1 begin => edition 1 T
1 UPDATE t SET n = 25 WHERE id = 2 => rows 1
1 end
1 begin => edition 1 T
1 fail
1 SELECT n FROM t => (11) (25)
1 ROLLBACK
1 SELECT n FROM t => (11) (21)
~\
table T
commit 2
commit 2
~\
the mark of a call goes back with a transaction that goes back further~0~\
1 UPDATE t SET n = 12 WHERE id = 1 => rows 1
1 SAVEPOINT a
1 UPDATE t SET n = 25 WHERE id = 2 => rows 1
1 begin => edition 1 T
1 ROLLBACK TO a
1 UPDATE t SET n = 26 WHERE id = 2 => rows 1
1 fail
1 SELECT n FROM t => (12) (20)
1 begin => edition 1 T
1 SAVEPOINT b
1 UPDATE t SET n = 27 WHERE id = 2 => rows 1
1 ROLLBACK TO b
1 UPDATE t SET n = 28 WHERE id = 2 => rows 1
1 fail
1 SELECT n FROM t => (12) (20)
1 ROLLBACK TO b => ORA-01086
1 ROLLBACK TO a
1 COMMIT
~\
table T
commit 2
commit 1
~\
an autonomous transaction moves no mark~0~\
1 UPDATE t SET n = 11 WHERE id = 1 => rows 1
1 begin => edition 1 T
1 UPDATE t SET n = 21 WHERE id = 2 => rows 1
1 push
1 SAVEPOINT a
1 INSERT INTO t VALUES (3, 30) => rows 1
1 COMMIT
1 INSERT INTO t VALUES (4, 40) => rows 1
1 ROLLBACK
1 SAVEPOINT b
1 INSERT INTO t VALUES (5, 50) => rows 1
1 ROLLBACK TO b
1 pop
1 fail
1 SELECT n FROM t => (11) (20)
1 COMMIT
1 SELECT n FROM t => (11) (20) (30)
~\
table T
commit 2
commit 1
commit 1
~\
";

#[test]
fn calls_and_autonomous_transactions(rt: HostRuntime) -> Result<(), Fail> {
    assert_eq!(rt; fault_in(rt.alloc(), CALLS)?, None);
    Ok(())
}

/// An ask that is refused counts too.
static MOST_ASKS: &str = "\
the last ask that a session has, and those that end what is open~0~\
2 pop => EBR-0015
2 repeat 49995 commit
2 begin => edition 1 T
2 push
2 UPDATE t SET n = 11 WHERE id = 1 => rows 1
2 SELECT n FROM t => (11) (20)
2 SELECT n FROM t => EBR-0010
2 COMMIT => EBR-0010
2 ROLLBACK => EBR-0010
2 SAVEPOINT a => EBR-0010
2 ROLLBACK TO b => EBR-0010
2 push => EBR-0010
2 begin => EBR-0010
2 CREATE EDITION v2 => EBR-0010
2 ALTER SESSION SET EDITION = nowhere => EBR-0010
2 end => EBR-0015
2 pop => ORA-06519
2 end
2 end => EBR-0015
1 UPDATE t SET n = 12 WHERE id = 1 => rows 1
2 leave
2 begin => not there
~\
table T
commit 2
~\
";

#[test]
fn a_session_asks_50_000_times(rt: HostRuntime) -> Result<(), Fail> {
    assert_eq!(rt; fault_in(rt.alloc(), MOST_ASKS)?, None);
    Ok(())
}

/// A text of 63 bytes, doubled four times, weighs 16 + 1,008 bytes, and 128 times 128 of these are all that a session carries.
static MOST_CARRIED: &str = "\
as much as a session carries~0~\
1 CREATE TABLE w (x VARCHAR2(1008))
1 repeat 128 INSERT INTO w VALUES ('123456789 123456789 123456789 123456789 123456789 123456789 123') => rows 1
1 repeat 4 UPDATE w SET x = x || x => rows 128
1 COMMIT
1 SELECT a.x FROM w a, w b => rows 16384
1 SELECT COUNT(*) FROM w => EBR-0011
1 SELECT x FROM w WHERE x IS NULL => no row
1 UPDATE t SET n = 11 WHERE id = 1 => rows 1
1 begin => edition 1 T W
1 SELECT n FROM t => EBR-0011
1 fail
2 SELECT COUNT(*) FROM w => (128)
2 SELECT a.x FROM w a, w b => EBR-0011
2 SELECT COUNT(*) FROM w => (128)
1 COMMIT
2 SELECT n FROM t => (10) (20)
3 SELECT n FROM t => (11) (20)
~\
table T
commit 2
table W
commit 640
commit 1
~\
";

#[test]
fn a_session_carries_16_777_216_bytes(rt: HostRuntime) -> Result<(), Fail> {
    assert_eq!(rt; fault_in(rt.alloc(), MOST_CARRIED)?, None);
    Ok(())
}
