//! Which rule units and blocks break, from their texts: its number, which no reply tells.
//!
//! The rules are those of Oracle Database PL/SQL Language Reference 19c where nothing else is said; their numbers are own.

use crate::sample_view::{seen, tree, wanted_row};
use ebr_ast::EditionView;
use ebr_base::{Bytes, NoMemory};
use ebr_check::{CheckFault, check};
use ebr_names::is_in_order;
use std::alloc::Global;
use std::process::Abort;
use std::test::Fail;

// ---- what the edition sees

/// The objects of class Unit in order. GONE has no base.
static OBJECTS: [(&str, &str); 6] = [
    (
        "BADBODY",
        "PACKAGE badbody IS CURSOR c IS SELECT n FROM t; PROCEDURE q(a IN NUMBER); END;",
    ),
    (
        "FOUT",
        "FUNCTION fout(a OUT NUMBER) RETURN NUMBER IS BEGIN RETURN 1; END;",
    ),
    (
        "FT",
        "FUNCTION ft RETURN VARCHAR2 IS BEGIN RETURN 'a'; END;",
    ),
    ("GONE", "EDITIONING VIEW gone AS SELECT id FROM nope"),
    ("OUTS", "PROCEDURE outs(a OUT NUMBER) IS BEGIN a := 1; END;"),
    ("SHOW", "PROCEDURE show IS BEGIN NULL; END;"),
];

// ---- which rule is broken

/// The number of the rule, in digits; 0 where the unit is valid.
fn printed(alloc: Global, fault: Option<CheckFault>) -> Result<Bytes, NoMemory> {
    let rule = match fault {
        Some(fault) => fault.rule,
        None => 0,
    };
    let mut digits = Bytes::new(alloc);
    if rule > 9 {
        digits.push(b'0' + rule / 10 % 10)?;
    }
    digits.push(b'0' + rule % 10)?;
    Ok(digits)
}

/// Whether the least rule that a unit breaks has this number.
fn breaks(alloc: Global, v: &EditionView, text: &str, wanted: &str) -> Result<bool, NoMemory> {
    if !is_in_order(v) {
        return Err(NoMemory);
    }
    let unit = tree(alloc, text)?;
    let fault = check(alloc, v, &unit)?;
    let found = printed(alloc, fault)?;
    Ok(found.as_slice() == wanted.as_bytes())
}

/// The rows of a table from the first one on that isn't as it says; what is wanted is the number of a rule.
fn wrong_from<'a>(alloc: Global, v: &EditionView, table: &'a str) -> Result<&'a str, NoMemory> {
    let mut rest = table;
    for _row in 0..table.len() {
        let Some((wanted, text, rows)) = wanted_row(rest) else {
            return Ok(rest);
        };
        if wanted != "-" && !breaks(alloc, v, text, wanted)? {
            return Ok(rest);
        }
        rest = rows;
    }
    Ok(rest)
}

/// Each unit breaks the rule whose number stands before it; 0 where it is valid.
fn all_are_found(rt: &impl Abort, alloc: Global, table: &str) -> Result<(), Fail> {
    let v = seen(alloc, &OBJECTS)?;
    assert_eq!(rt; wrong_from(alloc, &v, table)?, "");
    Ok(())
}

/// One fault breaks one rule.
static RULES: &str = "\
1 BEGIN OPEN c; END;~\
9 DECLARE c NUMBER; BEGIN OPEN c; END;~\
9 BEGIN OPEN ft; END;~\
1 BEGIN show := 1; END;~\
6 BEGIN ft := 'a'; END;~\
6 DECLARE e EXCEPTION; BEGIN e := 1; END;~\
6 BEGIN FOR r IN (SELECT n FROM t) LOOP r := 1; END LOOP; END;~\
6 BEGIN outs(1); END;~\
4 DECLARE s VARCHAR2(9); BEGIN outs(s); END;~\
4 DECLARE s VARCHAR2(9); BEGIN SELECT n INTO s FROM t; END;~\
4 BEGIN RAISE_APPLICATION_ERROR(-19999, 'a'); END;~\
1 BEGIN NULL; EXCEPTION WHEN zero_divide OR OTHERS THEN NULL; END;~\
- Where there is no such column the type isn't known, and fits everything.~\
5 DECLARE n t.x%TYPE; BEGIN n := 1; n := 'a'; END;~\
- In a statement of SQL the names, then the rest of its checks; where its sources don't resolve its names aren't looked at.~\
2 DECLARE k NUMBER; BEGIN SELECT n INTO k FROM t WHERE id = m; END;~\
2 BEGIN DELETE FROM t WHERE v = ft(); END;~\
2 BEGIN DELETE FROM t WHERE n = SQLCODE; END;~\
2 BEGIN DELETE FROM t WHERE 1 + 'a' = nope; END;~\
3 DECLARE k NUMBER; BEGIN SELECT zzz INTO k FROM nope WHERE f(1) = SQLCODE; END;~\
3 BEGIN UPDATE gone SET id = zzz; END;~\
3 BEGIN DELETE FROM show WHERE zzz = 1; END;~\
3 DECLARE k NUMBER; BEGIN SELECT * INTO k FROM nope; END;~\
3 BEGIN FOR r IN (SELECT n FROM nope) LOOP DBMS_OUTPUT.PUT_LINE(r.z); END LOOP; END;~\
- What stands in triggers alone.~\
12 BEGIN IF INSERTING THEN NULL; END IF; END;~\
12 BEGIN :NEW.n := 1; END;~\
12 BEGIN outs(:NEW.n); END;~\
12 BEGIN DELETE FROM t WHERE n = :NEW.n; END;~\
6 TRIGGER g AFTER INSERT ON t FOR EACH ROW BEGIN :NEW.n := 1; END;~\
6 TRIGGER g BEFORE INSERT ON t FOR EACH ROW BEGIN outs(:OLD.n); END;~\
12 TRIGGER g BEFORE INSERT ON gone FOR EACH ROW BEGIN NULL; END;~\
8 TRIGGER g BEFORE INSERT ON nope FOR EACH ROW BEGIN :NEW.n := 1; RAISE; END;~\
- Editioning views have no code.~\
0 EDITIONING VIEW w AS SELECT id FROM nope~\
0 EDITIONING VIEW w AS SELECT id, id FROM t~\
- The specification isn't valid, but its names are known.~\
0 PACKAGE BODY badbody IS PROCEDURE q(a IN NUMBER) IS BEGIN FOR x IN c LOOP DBMS_OUTPUT.PUT_LINE(x.n + a); END LOOP; END; END;~\
";

#[test]
fn a_fault_breaks_one_rule(rt: HostRuntime) -> Result<(), Fail> {
    all_are_found(&rt, rt.alloc(), RULES)
}

/// Where several rules are broken the least one is told, wherever the places stand.
static LEAST: &str = "\
1 DECLARE n NUMBER; n NUMBER; BEGIN RAISE; m := 1; END;~\
3 BEGIN RAISE; DELETE FROM nope; END;~\
3 BEGIN DELETE FROM nope; RAISE; END;~\
2 BEGIN DELETE FROM t WHERE x = 1; DELETE FROM nope; END;~\
4 DECLARE c CONSTANT NUMBER := 'a'; BEGIN c := 1; END;~\
5 DECLARE c CONSTANT NUMBER := 1; c NUMBER; BEGIN RETURN 1; END;~\
6 DECLARE c CONSTANT NUMBER := 1; BEGIN EXIT; c := 2; END;~\
7 DECLARE n NUMBER; BEGIN EXIT; n := fout(n); END;~\
8 DECLARE PRAGMA AUTONOMOUS_TRANSACTION; c NUMBER; BEGIN OPEN c; RAISE; END;~\
9 BEGIN DECLARE PRAGMA AUTONOMOUS_TRANSACTION; c NUMBER; BEGIN OPEN c; END; END;~\
10 BEGIN DECLARE PRAGMA AUTONOMOUS_TRANSACTION; BEGIN IF INSERTING THEN NULL; END IF; END; END;~\
11 PACKAGE BODY nope IS BEGIN IF INSERTING THEN NULL; END IF; END;~\
";

#[test]
fn the_least_rule_is_told(rt: HostRuntime) -> Result<(), Fail> {
    all_are_found(&rt, rt.alloc(), LEAST)
}
