//! The ends of sessions, faults of the keeper, books, and the history.

use crate::script::fault_in;
use std::test::Fail;

static ENDS: &str = "\
what a session that leaves has not committed is undone~0~\
1 UPDATE t SET n = 11 WHERE id = 1 => rows 1
1 begin => edition 1 T
1 push
1 UPDATE t SET n = 21 WHERE id = 2 => rows 1
1 push
1 INSERT INTO t VALUES (3, 30) => rows 1
2 UPDATE t SET n = 0 WHERE id = 1 => ORA-00054
2 INSERT INTO t VALUES (3, 31) => ORA-00054
1 leave
1 COMMIT => not there
1 leave => not there
4 COMMIT => not there
0 COMMIT => not there
2 UPDATE t SET n = n + 1 => rows 2
2 INSERT INTO t VALUES (3, 31) => rows 1
2 COMMIT
3 SELECT n FROM t => (11) (21) (31)
3 leave
2 DROP TABLE t
2 leave
1 history 16 => 3 sql: (11) (21) (31); 3 leave: OK; 2 definition : OK; 2 leave: OK
~\
table T
commit 2
commit 3
drop table 1
~\
a session that has left is in no edition~0~\
1 CREATE EDITION v2
1 ALTER SESSION SET EDITION = v2
2 ALTER SESSION SET EDITION = v2
2 DROP EDITION v2 => EBR-0033
1 leave
3 DROP EDITION v2 => EBR-0033
2 ALTER SESSION SET EDITION = ora$base
3 DROP EDITION v2
~\
table T
commit 2
edition V2
drop edition 2
~\
a book is set aside by a view, until it is taken or another answer comes~0~\
1 book => no book
1 begin => edition 1 T
2 COMMIT
2 book => no book
1 book => a book
1 book => no book
1 end
1 begin => edition 1 T
1 begin => EBR-0015
1 book => no book
1 end
1 begin => edition 1 T
2 begin => edition 1 T
2 CREATE EDITION v2 => EBR-0015
2 end
3 CREATE EDITION v2
1 book => a book
2 book => no book
1 end
1 begin => edition 1 T
1 leave
1 book => no book
4 book => no book
0 book => no book
~\
table T
commit 2
edition V2
~\
each ask has its entry~0~\
2 begin => edition 1 T
2 push
1 UPDATE t SET n = 11 WHERE id = 1 => rows 1
2 SAVEPOINT a
2 UPDATE t SET n = 12 WHERE id = 1 => ORA-00054
2 ROLLBACK TO a
2 ROLLBACK TO b => ORA-01086
2 pop
1 CREATE PROCEDURE p IS BEGIN NULL; END;
2 push
2 pop failed
2 end
2 begin => edition 1 P T
2 fail
3 ALTER SESSION SET EDITION = ora$base
3 ROLLBACK
1 history 4 => \
2 begin: edition 1 T; \
2 push: OK; \
1 sql: rows 1; \
2 savepoint A: OK; \
2 sql: ORA-00054; \
2 back to A: OK; \
2 back to B: ORA-01086; \
2 pop: OK; \
1 definition CREATE PROCEDURE p IS BEGIN NULL; END;: OK; \
2 push: OK; \
2 pop failed: OK; \
2 end: OK; \
2 begin: edition 1 P T; \
2 fail: OK; \
3 edition ORA$BASE: OK; \
3 rollback: OK
~\
table T
commit 2
commit 1
object 1
~\
a fault of the keeper at a commit stops the engine~3~\
1 UPDATE t SET n = 11 WHERE id = 1 => rows 1
2 UPDATE t SET n = 21 WHERE id = 2 => rows 1
3 leave
1 COMMIT => DISK FAULT
2 COMMIT => STOPPED
2 SELECT n FROM t => not there
1 begin => STOPPED
1 book => no book
1 leave => not there
1 history 6 => 3 leave: OK; 1 commit: DISK FAULT; 2 leave: STOPPED; 1 leave: STOPPED
~\
table T
commit 2
~\
a fault of the keeper at a definition leaves the commit before it~4~\
1 UPDATE t SET n = 11 WHERE id = 1 => rows 1
1 CREATE EDITION v2 => DISK FAULT
1 leave => STOPPED
2 leave => STOPPED
3 SELECT n FROM t => STOPPED
3 leave => not there
1 history 5 => 1 definition : DISK FAULT; 1 leave: STOPPED; 2 leave: STOPPED; 3 leave: STOPPED
~\
table T
commit 2
commit 1
~\
a fault of the keeper at the commit of an autonomous transaction~5~\
1 begin => edition 1 T
1 UPDATE t SET n = 11 WHERE id = 1 => rows 1
1 push
1 UPDATE t SET n = 21 WHERE id = 2 => rows 1
1 COMMIT
1 UPDATE t SET n = 22 WHERE id = 2 => rows 1
1 COMMIT
1 UPDATE t SET n = 23 WHERE id = 2 => rows 1
1 COMMIT => DISK FAULT
1 pop failed => STOPPED
1 end => not there
2 COMMIT => STOPPED
~\
table T
commit 2
commit 1
commit 1
~\
commits without changes call no keeper~3~\
1 COMMIT
1 SELECT n FROM t => (10) (20)
1 COMMIT
1 UPDATE t SET n = 11 WHERE id = 3 => rows 0
1 COMMIT
2 SELECT n FROM t FOR UPDATE => (10) (20)
2 COMMIT
2 DROP EDITION nowhere => ORA-38802
2 CREATE TABLE t (id NUMBER(9)) => ORA-00955
2 CREATE TABLE u (id NUMBER(9)) => DISK FAULT
~\
table T
commit 2
~\
";

#[test]
fn sessions_leave_and_keepers_fail(rt: HostRuntime) -> Result<(), Fail> {
    assert_eq!(rt; fault_in(rt.alloc(), ENDS)?, None);
    Ok(())
}
