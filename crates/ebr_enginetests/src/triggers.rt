//! Statements that fire triggers, of several sessions, and the records that bodies have kept.

use crate::script::fault_in;
use std::test::Fail;

static TRIGGERS: &str = "\
what autonomous transactions of bodies commit is kept at once, and stays where the statement doesn't~0~\
1 CREATE TABLE log_t (n NUMBER(9))
1 CREATE TRIGGER b BEFORE UPDATE ON t FOR EACH ROW DECLARE PRAGMA AUTONOMOUS_TRANSACTION; BEGIN INSERT INTO log_t VALUES (:OLD.n); COMMIT; END;
1 UPDATE t SET n = n + 1 => rows 2
2 SELECT n FROM log_t => (10) (20)
2 SELECT n FROM t => (10) (20)
1 ROLLBACK
1 SELECT n FROM t => (10) (20)
1 UPDATE t SET id = NULL => ORA-01407
3 SELECT n FROM log_t => (10) (20) (10)
1 UPDATE t SET n = 0 WHERE id = 9 => rows 0
~\
table T
commit 2
table LOG_T
object 1
commit 1
commit 1
commit 1
~\
a fault of the keeper in a body stops the engine, and nothing catches it~6~\
1 CREATE TABLE log_t (n NUMBER(9))
1 CREATE TRIGGER b BEFORE UPDATE ON t FOR EACH ROW DECLARE PRAGMA AUTONOMOUS_TRANSACTION; BEGIN INSERT INTO log_t VALUES (:OLD.n); COMMIT; EXCEPTION WHEN OTHERS THEN NULL; END;
1 UPDATE t SET n = n + 1 => DISK FAULT
1 COMMIT => STOPPED
2 SELECT n FROM log_t => STOPPED
2 leave => not there
~\
table T
commit 2
table LOG_T
object 1
commit 1
~\
rows of a statement that stops at a row of another session are as they were~0~\
1 CREATE TRIGGER b BEFORE UPDATE ON t FOR EACH ROW BEGIN :NEW.n := :NEW.n + 100; END;
2 UPDATE t SET n = 0 WHERE id = 2 => rows 1
1 UPDATE t SET n = 0 => ORA-00054
2 UPDATE t SET n = 1 WHERE id = 1 => rows 1
1 SELECT n FROM t => (10) (20)
2 SELECT n FROM t => (101) (100)
~\
table T
commit 2
object 1
~\
a body may catch that another session holds a row, or has changed it since~0~\
1 CREATE TABLE u (id NUMBER(9), code NUMBER(9))
1 CREATE TRIGGER u_b BEFORE INSERT ON u FOR EACH ROW BEGIN UPDATE t SET n = 0 WHERE id = :NEW.id; EXCEPTION WHEN OTHERS THEN :NEW.code := SQLCODE; END;
2 UPDATE t SET n = 21 WHERE id = 2 => rows 1
1 INSERT INTO u VALUES (1, 0) => rows 1
1 INSERT INTO u VALUES (2, 0) => rows 1
1 SELECT code FROM u => (0) (-54)
1 SELECT n FROM t => (0) (20)
2 UPDATE t SET n = 11 WHERE id = 1 => ORA-00054
2 COMMIT
1 INSERT INTO u VALUES (2, 0) => rows 1
1 SELECT code FROM u => (0) (-54) (-8177)
~\
table T
commit 2
table U
object 1
commit 1
~\
sessions of two editions see each other's rows, each in its own columns~0~\
1 CREATE EDITION v2
1 ALTER SESSION SET EDITION = v2
1 ALTER TABLE t ADD m NUMBER(9)
1 CREATE TRIGGER f BEFORE INSERT OR UPDATE ON t FOR EACH ROW FORWARD CROSSEDITION BEGIN :NEW.m := :NEW.n * 2; END;
1 CREATE TRIGGER r BEFORE INSERT OR UPDATE ON t FOR EACH ROW REVERSE CROSSEDITION BEGIN :NEW.n := TRUNC(:NEW.m / 2); END;
2 INSERT INTO t VALUES (3, 30, NULL) => rows 1
1 APPLY TRIGGER f => rows 2
1 ROLLBACK
2 COMMIT
1 APPLY TRIGGER f => rows 3
2 UPDATE t SET n = 9 WHERE id = 1 => ORA-00054
1 COMMIT
1 SELECT m FROM t => (20) (40) (60)
1 UPDATE t SET m = 50 WHERE id = 1 => rows 1
1 COMMIT
2 SELECT n FROM t => (25) (20) (30)
~\
table T
commit 2
edition V2
column M
object 2
object 2
commit 1
commit 3
commit 1
~\
";

#[test]
fn triggers_beside_other_sessions(rt: HostRuntime) -> Result<(), Fail> {
    assert_eq!(rt; fault_in(rt.alloc(), TRIGGERS)?, None);
    Ok(())
}
