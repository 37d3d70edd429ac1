//! Sessions that meet at rows and keys.

use crate::script::fault_in;
use std::test::Fail;

static CONFLICTS: &str = "\
a row that another session has changed is held, and then late~0~\
2 SELECT * FROM t => (1, 10) (2, 20)
1 UPDATE t SET n = 11 WHERE id = 1 => rows 1
1 SELECT * FROM t => (1, 11) (2, 20)
2 SELECT * FROM t => (1, 10) (2, 20)
2 UPDATE t SET n = 12 WHERE id = 1 => ORA-00054
2 DELETE FROM t WHERE n = 10 => ORA-00054
2 SELECT id FROM t WHERE id = 1 FOR UPDATE => ORA-00054
2 UPDATE t SET n = 21 WHERE id = 2 => rows 1
1 DELETE FROM t WHERE id = 2 => ORA-00054
1 COMMIT
2 SELECT * FROM t => (1, 10) (2, 21)
2 UPDATE t SET n = 12 WHERE id = 1 => ORA-08177
2 DELETE FROM t WHERE n = 10 => ORA-08177
2 SELECT id FROM t WHERE id = 1 FOR UPDATE => ORA-08177
2 COMMIT
2 UPDATE t SET n = n + 1 WHERE id = 1 => rows 1
2 SELECT * FROM t => (1, 12) (2, 21)
2 ROLLBACK
1 SELECT * FROM t => (1, 11) (2, 21)
~\
table T
commit 2
commit 1
commit 1
~\
a refused statement is undone alone, its row changes and its beginning with it~0~\
1 SELECT id FROM t WHERE id = 1 FOR UPDATE => (1)
2 UPDATE t SET n = 0 WHERE id = 1 => ORA-00054
3 SELECT * FROM t WHERE id = 1 => (1, 10)
3 UPDATE t SET n = 22 WHERE id = 2 => rows 1
2 UPDATE t SET n = 0 WHERE id = 2 => ORA-00054
2 SELECT id FROM t FOR UPDATE => ORA-00054
1 ROLLBACK
2 UPDATE t SET n = 0 => ORA-00054
2 SELECT id FROM t FOR UPDATE => ORA-00054
1 UPDATE t SET n = 5 WHERE id = 1 => rows 1
3 COMMIT
2 UPDATE t SET n = n + 1 WHERE id = 2 => rows 1
2 SELECT n FROM t => (10) (23)
1 COMMIT
2 UPDATE t SET n = n + 1 => ORA-08177
2 SELECT n FROM t => (10) (23)
2 COMMIT
3 SELECT n FROM t => (5) (23)
~\
table T
commit 2
commit 1
commit 1
commit 1
~\
a row that was deleted~0~\
2 SELECT n FROM t => (10) (20)
1 DELETE FROM t WHERE id = 2 => rows 1
2 UPDATE t SET n = 21 WHERE id = 2 => ORA-00054
1 COMMIT
2 SELECT n FROM t => (10) (20)
2 UPDATE t SET n = 21 WHERE id = 2 => ORA-08177
2 INSERT INTO t VALUES (2, 21) => ORA-08177
2 COMMIT
2 UPDATE t SET n = 21 WHERE id = 2 => rows 0
2 INSERT INTO t VALUES (2, 21) => rows 1
2 COMMIT
1 SELECT * FROM t => (1, 10) (2, 21)
~\
table T
commit 2
commit 1
commit 1
~\
a key meets another one that isn't committed, one that is, and one that the snapshot has~0~\
1 INSERT INTO t VALUES (3, 30) => rows 1
2 INSERT INTO t VALUES (3, 31) => ORA-00054
2 UPDATE t SET id = 3 WHERE id = 1 => ORA-00054
2 INSERT INTO t VALUES (1, 0) => ORA-00001
1 INSERT INTO t VALUES (3, 32) => ORA-00001
1 ROLLBACK
2 INSERT INTO t VALUES (3, 31) => rows 1
3 SELECT COUNT(*) FROM t => (2)
2 COMMIT
3 INSERT INTO t VALUES (3, 32) => ORA-00001
3 SELECT * FROM t WHERE id = 3 => no row
1 DELETE FROM t WHERE id = 1 => rows 1
3 INSERT INTO t VALUES (1, 11) => ORA-00001
1 COMMIT
3 INSERT INTO t VALUES (1, 11) => ORA-08177
3 ROLLBACK
3 INSERT INTO t VALUES (1, 11) => rows 1
3 SAVEPOINT a
3 UPDATE t SET id = 9 WHERE id = 1 => rows 1
1 INSERT INTO t VALUES (1, 12) => ORA-00054
1 INSERT INTO t VALUES (9, 12) => ORA-00054
3 ROLLBACK TO a
1 INSERT INTO t VALUES (9, 12) => rows 1
1 COMMIT
3 COMMIT
2 SELECT id FROM t ORDER BY id => (1) (2) (3) (9)
~\
table T
commit 2
commit 1
commit 1
commit 1
commit 1
~\
savepoints are those of a transaction~0~\
1 UPDATE t SET n = 11 WHERE id = 1 => rows 1
1 SAVEPOINT a
1 UPDATE t SET n = 21 WHERE id = 2 => rows 1
1 SAVEPOINT b
2 UPDATE t SET n = 22 WHERE id = 2 => ORA-00054
1 ROLLBACK TO SAVEPOINT a
1 ROLLBACK TO b => ORA-01086
1 SELECT n FROM t => (11) (20)
2 UPDATE t SET n = 22 WHERE id = 2 => rows 1
2 ROLLBACK TO a => ORA-01086
1 UPDATE t SET n = 12 WHERE id = 1 => rows 1
1 SAVEPOINT a
1 UPDATE t SET n = 13 WHERE id = 1 => rows 1
1 ROLLBACK TO a
1 SELECT n FROM t => (12) (20)
1 COMMIT
1 ROLLBACK TO a => ORA-01086
2 COMMIT
1 SELECT n FROM t => (12) (22)
~\
table T
commit 2
commit 2
commit 1
~\
";

#[test]
fn sessions_meet_at_rows_and_keys(rt: HostRuntime) -> Result<(), Fail> {
    assert_eq!(rt; fault_in(rt.alloc(), CONFLICTS)?, None);
    Ok(())
}
