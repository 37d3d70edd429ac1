//! Which crossedition triggers fire, in which order, and in which edition their bodies run: own.

use crate::definitions::{definition_of, edition, first_row, name, planned, release};
use ebr_ast::{Op, Origin, Timing};
use ebr_base::{Bytes, EditionNo, NoMemory};
use ebr_cross::Catalogue;
use ebr_fire::{Firing, crossing};
use std::alloc::Global;
use std::rt::HostRuntime;
use std::test::Fail;

/// Definitions, and what an INSERT into T fires before its rows, by where it comes from: a row of a definition has no answer.
static CROSSING: &str = "\
- @ 1 @ CREATE TABLE t (id NUMBER(9) PRIMARY KEY)~\
- @ 1 @ CREATE EDITION v2~\
- @ 2 @ CREATE EDITION v3~\
- @ 1 @ CREATE TRIGGER o BEFORE INSERT ON t FOR EACH ROW BEGIN NULL; END;~\
- @ 3 @ CREATE TRIGGER up3 BEFORE INSERT ON t FOR EACH ROW FORWARD CROSSEDITION BEGIN NULL; END;~\
- @ 2 @ CREATE TRIGGER back2 BEFORE INSERT ON t FOR EACH ROW REVERSE CROSSEDITION BEGIN NULL; END;~\
- @ 1 @ CREATE TRIGGER back1 BEFORE INSERT ON t FOR EACH ROW REVERSE CROSSEDITION BEGIN NULL; END;~\
BACK1:1;BACK2:2;UP3:3; @ 2 @ PLAIN~\
UP3:3; @ 2 @ FORWARD~\
BACK1:1; @ 2 @ REVERSE~\
";

/// Carries out a definition; where it is refused, the test fails with want of memory.
fn define(alloc: Global, c: &mut Catalogue, e: EditionNo, text: &str) -> Result<(), NoMemory> {
    let what = definition_of(alloc, text)?;
    let made = planned(alloc, c, e, what.get())?;
    let carried = c.carry_out(alloc, &made);
    release(made);
    carried
}

fn origin(word: &str) -> Origin {
    match word {
        "PLAIN" => Origin::Plain,
        "FORWARD" => Origin::Forward,
        _ => Origin::Reverse,
    }
}

/// The names of triggers, each with the edition in which it runs.
fn printed(alloc: Global, firings: &[Firing]) -> Result<Bytes, NoMemory> {
    let mut out = Bytes::new(alloc);
    for firing in firings {
        out.extend(firing.key.name.as_slice())?;
        let edition = format!(in alloc; ":{};", firing.edition.0)?;
        out.extend(edition.as_bytes())?;
    }
    Ok(out)
}

fn answered(alloc: Global, c: &Catalogue, e: EditionNo, from: &str) -> Result<Bytes, NoMemory> {
    let table = name(alloc, "T")?;
    let firings = crossing(
        alloc,
        c,
        e,
        &table,
        Op::Insert,
        Timing::Before,
        origin(from),
    )?;
    printed(alloc, firings.as_slice())
}

/// What a row finds where it finds something else than it says.
fn row_fault(
    alloc: Global,
    c: &mut Catalogue,
    wanted: &str,
    e: EditionNo,
    text: &str,
) -> Result<Option<Bytes>, NoMemory> {
    if wanted == "-" {
        define(alloc, c, e, text)?;
        return Ok(None);
    }
    let answer = answered(alloc, c, e, text)?;
    if answer.as_slice() == wanted.as_bytes() {
        return Ok(None);
    }
    Ok(Some(answer))
}

fn fault_among(alloc: Global, c: &mut Catalogue, table: &str) -> Result<Option<String>, NoMemory> {
    let mut rest = table;
    for _row in 0..table.len() {
        let Some((wanted, digit, text, rows)) = first_row(rest) else {
            return Ok(None);
        };
        if let Some(found) = row_fault(alloc, c, wanted, edition(digit), text)? {
            return Ok(Some(format!(in alloc; "{digit} @ {text}: {found:?}")?));
        }
        rest = rows;
    }
    Ok(None)
}

/// What the first row of a table finds that finds something else than it says, from a catalogue in which nothing is defined.
fn first_fault(alloc: Global, table: &str) -> Result<Option<String>, NoMemory> {
    let mut c = Catalogue::new(alloc)?;
    let fault = fault_among(alloc, &mut c, table);
    release(c);
    fault
}

#[test]
fn crossedition_triggers_fire_by_direction(rt: HostRuntime) -> Result<(), Fail> {
    assert_eq!(&rt; first_fault(rt.alloc(), CROSSING)?, None);
    Ok(())
}
