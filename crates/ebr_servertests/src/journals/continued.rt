//! Journals that one run behind the other goes on with.

use ebr_base::{Bytes, NoMemory};
use ebr_server::ExitCode;
use ebr_trial::{bytes_of, came_to, dumps, rehearsed_on, rehearsed_over, release};
use std::alloc::Global;
use std::test::Fail;

/// The bytes that a run of a script over a journal with these bytes leaves.
pub fn bytes_behind(alloc: Global, bytes: &[u8], script: &[u8]) -> Result<Bytes, NoMemory> {
    let outcome = rehearsed_on(alloc, bytes, script, None)?;
    let left = bytes_of(alloc, &outcome)?;
    release(outcome);
    Ok(left)
}

/// Whether a run of a script over a journal with these bytes is done, with these replies.
pub fn replies(alloc: Global, bytes: &[u8], script: &[u8], held: &[u8]) -> Result<bool, NoMemory> {
    let outcome = rehearsed_on(alloc, bytes, script, None)?;
    let so = outcome.code == ExitCode::Done
        && match outcome.ends.get(0) {
            Some(end) => match &end.sink {
                Some(sink) => sink.held() == held,
                None => false,
            },
            None => false,
        };
    release(outcome);
    Ok(so)
}

/// Whether ten runs one behind the other each find what the ones before left.
fn ten_runs(alloc: Global) -> Result<bool, NoMemory> {
    let mut left = bytes_behind(alloc, b"", b"CREATE TABLE t (a NUMBER);\n")?;
    for _ in 0..9 {
        left = bytes_behind(
            alloc,
            left.as_slice(),
            b"INSERT INTO t VALUES (1);\nCOMMIT;\n",
        )?;
    }
    let lines = b"\
table T
commit 1
commit 1
commit 1
commit 1
commit 1
commit 1
commit 1
commit 1
commit 1
";
    Ok(
        dumps(alloc, left.as_slice(), lines)?
            && replies(
                alloc,
                left.as_slice(),
                b"SELECT COUNT(*) FROM t;\n",
                b"9\n1 rows\n",
            )?,
    )
}

#[test]
fn a_journal_is_continued_run_by_run(rt: HostRuntime) -> Result<(), Fail> {
    assert!(rt; ten_runs(rt.alloc())?);
    Ok(())
}

/// Makes a shop whose prices are in cents.
const SHOP: &[u8] = b"\
CREATE TABLE orders_t (id NUMBER(9) PRIMARY KEY, price NUMBER(12), eur NUMBER(9), ct NUMBER(2));
CREATE EDITIONING VIEW orders AS SELECT id, price FROM orders_t;
CREATE PACKAGE shop IS
  PROCEDURE sell(i NUMBER, p NUMBER); FUNCTION total RETURN NUMBER;
END;
/
CREATE PACKAGE BODY shop IS
  sold NUMBER := 0;
  PROCEDURE sell(i NUMBER, p NUMBER) IS
  BEGIN INSERT INTO orders (id, price) VALUES (i, p); sold := sold + 1; END;
  FUNCTION total RETURN NUMBER IS s NUMBER;
  BEGIN SELECT SUM(price) INTO s FROM orders; RETURN s; END;
END;
/
CALL shop.sell(1, 250);
COMMIT;
";

const SELLS: &[u8] = b"\
CALL shop.sell(2, 1999);
COMMIT;
CALL shop.sell(4, 505);
COMMIT;
";

const CORRECTS: &[u8] = b"\
UPDATE orders SET price = 300 WHERE id = 1;
COMMIT;
BEGIN DBMS_OUTPUT.PUT_LINE('total ' || shop.total); END;
/
";

/// Has euros and cents stand in columns of their own, in a new edition.
const UPGRADES: &[u8] = b"\
CREATE EDITION v2;
ALTER SESSION SET EDITION = v2;
CREATE OR REPLACE EDITIONING VIEW orders AS SELECT id, eur, ct FROM orders_t;
CREATE TRIGGER orders_f BEFORE INSERT OR UPDATE ON orders_t FOR EACH ROW FORWARD CROSSEDITION
BEGIN :NEW.eur := TRUNC(:NEW.price / 100); :NEW.ct := MOD(:NEW.price, 100); END;
/
CREATE TRIGGER orders_r BEFORE INSERT OR UPDATE ON orders_t FOR EACH ROW REVERSE CROSSEDITION
BEGIN :NEW.price := :NEW.eur * 100 + :NEW.ct; END;
/
CREATE OR REPLACE PACKAGE BODY shop IS
  sold NUMBER := 0;
  PROCEDURE sell(i NUMBER, p NUMBER) IS
  BEGIN INSERT INTO orders VALUES (i, TRUNC(p / 100), MOD(p, 100)); sold := sold + 1; END;
  FUNCTION total RETURN NUMBER IS s NUMBER;
  BEGIN SELECT SUM(eur * 100 + ct) INTO s FROM orders; RETURN s; END;
END;
/
APPLY TRIGGER orders_f;
COMMIT;
ALTER DATABASE DEFAULT EDITION = v2;
CALL shop.sell(5, 1250);
SELECT * FROM orders;
COMMIT;
";

const TURNS: &[u8] = b"1 1 1 3 3 3 3 3 2 3 1 2 3 1 1 1 3 1 3 3 3 3 3 3 2 2 2";

/// What the three sessions print, with `~` behind each.
const SHOP_REPLIES: &[u8] = b"\
OK
OK
OK
OK
~1 rows
OK
total 4054
OK
~OK
OK
OK
OK
OK
OK
2 rows
OK
OK
OK
1|3|0
2|19|99
4|5|5
5|12|50
4 rows
OK
~";

const SHOP_SUMMARY: &[u8] = b"\
session 1: 9 asks, 0 refused, ended
session 2: 6 asks, 0 refused, ended
session 3: 15 asks, 0 refused, ended
";

/// Whether the upgrade comes out so over the shop's journal, and a later run begins in the new edition.
fn is_upgraded(alloc: Global) -> Result<bool, NoMemory> {
    let shop = bytes_behind(alloc, b"", SHOP)?;
    let scripts = [SELLS, CORRECTS, UPGRADES];
    let outcome = rehearsed_over(alloc, shop.as_slice(), TURNS, &scripts, None)?;
    let so = came_to(&outcome, ExitCode::Done, SHOP_REPLIES, SHOP_SUMMARY);
    let left = bytes_of(alloc, &outcome)?;
    release(outcome);
    Ok(
        so && replies(
            alloc,
            left.as_slice(),
            b"SELECT * FROM orders ORDER BY id;\n",
            b"1|3|0\n2|19|99\n4|5|5\n5|12|50\n4 rows\n",
        )?,
    )
}

#[test]
fn an_upgrade_under_sessions_stands_in_the_journal(rt: HostRuntime) -> Result<(), Fail> {
    assert!(rt; is_upgraded(rt.alloc())?);
    Ok(())
}
