//! The books of several editions, after definitions in each of them, as Oracle Database Development Guide 19c, Using
//! Edition-Based Redefinition, has what an edition sees. How definitions are stamped is own.

ghost use Rattle.std.specs.Prelude.{IfOk};
ghost use Rattle.ebr_cross.specs.Following.{MayFollow};
ghost use Rattle.ebr_units.specs.Living.{IsKept};

use crate::definitions::{definition_of, edition, first_row, name, planned, release};
use ebr_base::{Bytes, Class, EditionNo, NoMemory};
use ebr_code::CodeBook;
use ebr_cross::{Catalogue, CatalogueRecord};
use ebr_units::Units;
use std::alloc::Global;
use std::rt::HostRuntime;
use std::test::Fail;

/// What the books of editions 1, 2 and 3 answer for H and P after a definition, the edition that it is made in, and its text.
/// Behind a name stand its stamp and `+` where it has a compiled unit, else `!`.
static DEFINITIONS: &str = "\
1 H1.1+;2 none;3 none; @ 1 @ CREATE PROCEDURE h IS BEGIN NULL; END;~\
1 H1.1+ P1.2+;2 none;3 none; @ 1 @ CREATE PROCEDURE p IS BEGIN h; END;~\
1 H1.1+ P1.2+;2 H1.1+ P1.2+;3 none; @ 1 @ CREATE EDITION v2~\
1 H1.1+ P1.2+;2 H2.1+ P1.2!;3 none; @ 2 @ CREATE OR REPLACE PROCEDURE h(n NUMBER) IS BEGIN NULL; END;~\
1 H1.1+ P1.2+;2 none;3 none; @ 1 @ DROP EDITION v2 CASCADE~\
";

/// A catalogue in which nothing is defined.
fn nothing_defined(alloc: Global) -> Result<Catalogue, NoMemory>
    ensures { IfOk result (λ c. IsKept c) }
{
    Catalogue::new(alloc)
}

/// Carries out what a record says.
fn carry_out(alloc: Global, c: &mut Catalogue, made: &CatalogueRecord) -> Result<(), NoMemory>
    requires kept { IsKept c.old }
    requires follows { MayFollow c.old made.now }
    ensures { IsKept c.new }
{
    c.carry_out(alloc, made)
}

/// Carries out what a record says, and has the books take notice of it.
fn follow(
    alloc: Global,
    c: &mut Catalogue,
    units: &mut Units,
    made: &CatalogueRecord,
) -> Result<(), NoMemory>
    requires kept { IsKept c.old }
    requires follows { MayFollow c.old made.now }
    ensures { IsKept c.new }
{
    carry_out(alloc, c, made)?;
    units.after_ddl(c, made);
    Ok(())
}

fn define(
    alloc: Global,
    c: &mut Catalogue,
    units: &mut Units,
    e: EditionNo,
    text: &str,
) -> Result<(), NoMemory>
    requires { IsKept c.old }
    ensures { IsKept c.new }
{
    let what = definition_of(alloc, text)?;
    let made = planned(alloc, c, e, what.get())?;
    let followed = follow(alloc, c, units, &made);
    release(made);
    followed
}

fn mark(valid: bool) -> &'static str {
    if valid { "+" } else { "!" }
}

/// What a book answers for a name in an edition.
fn answered<B: CodeBook>(
    alloc: Global,
    book: &B,
    e: EditionNo,
    text: &str,
    out: &mut Bytes,
) -> Result<(), NoMemory> {
    let name = name(alloc, text)?;
    let Some(stamp) = book.stamp(e, Class::Unit, &name) else {
        return Ok(());
    };
    let valid = mark(book.unit(e, Class::Unit, &name).is_some());
    let (edition, count) = (stamp.edition.0, stamp.count);
    let line = format!(in alloc; " {text}{edition}.{count}{valid}")?;
    out.extend(line.as_bytes())
}

fn both_names<B: CodeBook>(
    alloc: Global,
    book: &B,
    e: EditionNo,
    out: &mut Bytes,
) -> Result<(), NoMemory> {
    answered(alloc, book, e, "H", out)?;
    answered(alloc, book, e, "P", out)
}

/// What the books that are made together answer in a living edition.
fn together(
    alloc: Global,
    c: &Catalogue,
    units: &mut Units,
    e: EditionNo,
    out: &mut Bytes,
) -> Result<(), NoMemory>
    requires { IsKept c.now }
{
    units.make_all(alloc, c)?;
    both_names(alloc, units, e, out)
}

/// What the books answer in an edition.
fn in_edition(
    alloc: Global,
    c: &Catalogue,
    units: &mut Units,
    e: EditionNo,
    out: &mut Bytes,
) -> Result<(), NoMemory>
    requires { IsKept c.now }
{
    if !c.chain.lives(e) {
        return out.extend(b" none");
    }
    together(alloc, c, units, e, out)
}

/// What the books of editions 1, 2 and 3 answer.
fn in_editions(
    alloc: Global,
    c: &Catalogue,
    units: &mut Units,
    out: &mut Bytes,
) -> Result<(), NoMemory>
    requires { IsKept c.now }
{
    for before in 0..3 {
        let e = EditionNo(before + 1);
        let number = format!(in alloc; "{}", e.0)?;
        out.extend(number.as_bytes())?;
        in_edition(alloc, c, units, e, out)?;
        out.push(b';')?;
    }
    Ok(())
}

/// What the books answer after the first definition of a table behind which they answer something else than its row says.
fn fault_among(
    alloc: Global,
    c: &mut Catalogue,
    units: &mut Units,
    table: &str,
) -> Result<Option<String>, NoMemory>
    requires { IsKept c.old }
{
    let mut rest = table;
    for _row in 0..table.len() {
        let Some((wanted, digit, text, rows)) = first_row(rest) else {
            return Ok(None);
        };
        define(alloc, c, units, edition(digit), text)?;
        let mut found = Bytes::new(alloc);
        in_editions(alloc, c, units, &mut found)?;
        if found.as_slice() != wanted.as_bytes() {
            return Ok(Some(format!(in alloc; "after {text}: {found:?}")?));
        }
        rest = rows;
    }
    Ok(None)
}

/// The fault, from a catalogue in which nothing is defined.
fn fault(alloc: Global) -> Result<Option<String>, NoMemory> {
    let mut c = nothing_defined(alloc)?;
    let mut units = Units::new(alloc);
    let fault = fault_among(alloc, &mut c, &mut units, DEFINITIONS);
    release(c);
    release(units);
    fault
}

#[test]
fn all_books_together_follow_definitions(rt: HostRuntime) -> Result<(), Fail> {
    assert_eq!(&rt; fault(rt.alloc())?, None);
    Ok(())
}
