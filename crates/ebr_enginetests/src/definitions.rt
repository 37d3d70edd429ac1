//! Definitions of one session beside the transactions and editions of others.

use crate::script::fault_in;
use std::test::Fail;

/// What sessions are answered one after the other, and the records that are kept.
static DEFINITIONS: &str = "\
a definition commits first, also where it is refused then~0~\
1 UPDATE t SET n = 11 WHERE id = 1 => rows 1
2 SELECT n FROM t => (10) (20)
1 CREATE EDITION v2
1 ROLLBACK
2 SELECT n FROM t => (10) (20)
2 UPDATE t SET n = 0 WHERE id = 1 => ORA-08177
2 COMMIT
2 SELECT n FROM t => (11) (20)
1 UPDATE t SET n = 12 WHERE id = 1 => rows 1
1 CREATE EDITION v2 => EBR-0031
1 ROLLBACK
1 SELECT n FROM t => (12) (20)
1 SAVEPOINT a
1 CREATE TABLE u (id NUMBER(9))
1 ROLLBACK TO a => ORA-01086
2 UPDATE t SET n = 21 WHERE id = 2 => rows 1
1 UPDATE t SET n = 13 WHERE id = 1 => rows 1
1 DROP TABLE t => ORA-00054
2 ROLLBACK
2 SELECT n FROM t => (13) (20)
1 UPDATE t SET n = 14 WHERE id = 1 => rows 1
1 CREATE PROCEDURE p IS BEGIN q(); END; => INVALID
2 COMMIT
2 SELECT n FROM t => (14) (20)
2 begin => edition 1 P T U
~\
table T
commit 2
commit 1
edition V2
commit 1
table U
commit 1
commit 1
object 1
~\
a table that another session has changed or locked isn't altered and not dropped~0~\
2 UPDATE t SET n = 11 WHERE id = 1 => rows 1
1 DROP TABLE t => ORA-00054
1 ALTER TABLE t ADD x NUMBER(9) => ORA-00054
1 ALTER TABLE t ADD id NUMBER(9) => ORA-00054
1 DROP TABLE u => ORA-00942
1 ALTER TABLE u ADD x NUMBER(9) => ORA-00942
2 ROLLBACK
2 SELECT id FROM t WHERE id = 2 FOR UPDATE => (2)
1 DROP TABLE t => ORA-00054
2 begin => edition 1 T
2 push
2 INSERT INTO t VALUES (3, 30) => rows 1
2 SELECT n FROM t => (10) (20) (30)
1 DROP TABLE t => ORA-00054
2 COMMIT
2 pop
2 fail
1 DROP TABLE t => ORA-00054
2 ROLLBACK
2 SELECT n FROM t => (10) (20) (30)
1 ALTER TABLE t ADD id NUMBER(9) => EBR-0029
1 UPDATE t SET n = 12 WHERE id = 1 => rows 1
1 ALTER TABLE t ADD (x NUMBER(9))
2 SELECT * FROM t => (1, 10, -) (2, 20, -) (3, 30, -)
1 DROP TABLE t
2 SELECT * FROM t => ORA-00942
1 CREATE TABLE t (id NUMBER(9))
2 SELECT * FROM t => no row
2 INSERT INTO t VALUES (4) => rows 1
2 COMMIT
1 SELECT * FROM t => (4)
~\
table T
commit 2
commit 1
commit 1
column X
drop table 1
table T
commit 1
~\
sessions in two editions, and an edition in use~0~\
1 CREATE EDITIONING VIEW v AS SELECT id, n FROM t
1 CREATE EDITION v2
1 SELECT id FROM v => (1) (2)
1 ALTER SESSION SET EDITION = v2 => EBR-0016
1 ALTER SESSION SET EDITION = nowhere => EBR-0016
1 COMMIT
1 ALTER SESSION SET EDITION = nowhere => ORA-38802
1 SAVEPOINT a
1 ALTER SESSION SET EDITION = v2
1 CREATE OR REPLACE EDITIONING VIEW v (k, m) AS SELECT id, n FROM t
1 SELECT k FROM v => (1) (2)
1 SELECT id FROM v => ORA-00904
2 SELECT id FROM v => (1) (2)
2 SELECT k FROM v => ORA-00904
1 INSERT INTO v (m, k) VALUES (30, 3) => rows 1
1 COMMIT
2 COMMIT
2 SELECT * FROM v => (1, 10) (2, 20) (3, 30)
1 begin => edition 2 V T
2 begin => edition 1 V T
1 end
2 end
1 CREATE PROCEDURE p IS BEGIN NULL; END;
1 begin => edition 2 P V T
3 begin => edition 1 V T
3 end
1 end
2 DROP EDITION v2 => EBR-0033
2 DROP EDITION v2 CASCADE => EBR-0033
2 DROP EDITION ora$base => EBR-0032
1 DROP EDITION v2 CASCADE => EBR-0033
1 ALTER SESSION SET EDITION = ora$base
2 DROP EDITION v2 => ORA-38811
2 DROP EDITION v2 CASCADE
2 DROP EDITION ora$base => EBR-0033
1 ALTER SESSION SET EDITION = v2 => ORA-38802
1 SELECT * FROM v => (1, 10) (2, 20) (3, 30)
~\
table T
commit 2
object 1
edition V2
object 2
commit 1
object 2
drop edition 2
~\
a trigger of a later edition fires for the sessions before it, where it is enabled~0~\
1 CREATE EDITION v2
1 ALTER SESSION SET EDITION = v2
1 CREATE TRIGGER f BEFORE UPDATE ON t FOR EACH ROW FORWARD CROSSEDITION BEGIN :NEW.n := :NEW.n * 2; END;
2 UPDATE t SET n = 12 WHERE id = 1 => rows 1
2 UPDATE t SET n = 12 WHERE id = 9 => rows 0
2 SELECT n FROM t => (24) (20)
2 ROLLBACK
2 DELETE FROM t WHERE id = 9 => rows 0
1 UPDATE t SET n = 21 WHERE id = 2 => rows 1
1 ALTER TRIGGER f DISABLE
2 UPDATE t SET n = 12 WHERE id = 1 => rows 1
2 COMMIT
1 ALTER TRIGGER f ENABLE
2 UPDATE t SET n = 13 WHERE id = 1 => rows 1
2 SELECT n FROM t => (26) (21)
2 ROLLBACK
1 DROP TRIGGER f
2 UPDATE t SET n = 13 WHERE id = 1 => rows 1
2 COMMIT
1 SELECT n FROM t => (13) (21)
~\
table T
commit 2
edition V2
object 2
commit 1
object 2
commit 1
object 2
gone F
commit 1
~\
";

#[test]
fn definitions_beside_other_sessions(rt: HostRuntime) -> Result<(), Fail> {
    assert_eq!(rt; fault_in(rt.alloc(), DEFINITIONS)?, None);
    Ok(())
}
