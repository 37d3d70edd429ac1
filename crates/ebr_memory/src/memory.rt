//! Writes to the memory of the running subprogram.

ghost use Rattle.std.specs.Prelude.{◌≡◌, IfOk, OnOk};
ghost use Rattle.ebr_run.specs.Cursors as spec;
ghost use Rattle.ebr_run.specs.Cursors.{Closed};
ghost use Rattle.ebr_run.specs.Packages.{at, put};
ghost use Rattle.ebr_memory.specs.Levels.{with_top};
ghost use Rattle.ebr_memory.specs.Rows.{fetched_of};

use crate::cursor::{Cursor, Fetched, closed_attribute};
use crate::levels::Levels;
use ebr_ast::Attribute;
use ebr_base::{CloneIn, NoMemory, Value};
use ebr_code::Fault;
use ebr_sqlcheck::ValueType;
use std::alloc::Global;

/// Puts a value into a variable; those before it that have none yet become NULL.
#[tactic(auto, using(crate::proofs::Places::put_filled))]
pub fn put_variable(
    variables: &mut Levels<Value>,
    place: usize,
    value: Value,
) -> Result<(), NoMemory>
    ensures { OnOk result (variables.new ≡ with_top (put Value.Null place value variables.old.top) variables.old) }
{
    'places: for _turn in 0..u64::MAX {
        if place < variables.len() {
            variables.set(place, value);
            return Ok(());
        }
        variables.push(Value::Null)?;
    }
    Err(NoMemory)
}

/// Puts what is handled into its place.
#[tactic(auto, using(crate::proofs::Places::put_filled))]
pub fn put_fault(
    alloc: Global,
    faults: &mut Levels<Fault>,
    place: usize,
    fault: &Fault,
) -> Result<(), NoMemory>
    ensures { OnOk result (faults.new ≡ with_top (put fault.now place fault.now faults.old.top) faults.old) }
{
    'places: for _turn in 0..u64::MAX {
        if place < faults.len() {
            faults.set(place, fault.clone_in(alloc)?);
            return Ok(());
        }
        faults.push(fault.clone_in(alloc)?)?;
    }
    Err(NoMemory)
}

/// Puts a cursor into its place; those before it that aren't there yet are closed.
#[tactic(auto, using(crate::proofs::Places::put_filled))]
pub fn put_cursor(
    cursors: &mut Levels<Cursor>,
    place: usize,
    cursor: Cursor,
) -> Result<(), NoMemory>
    ensures { OnOk result (cursors.new ≡ with_top (put Closed place cursor cursors.old.top) cursors.old) }
{
    'places: for _turn in 0..u64::MAX {
        if place < cursors.len() {
            cursors.set(place, cursor);
            return Ok(());
        }
        cursors.push(Cursor::closed())?;
    }
    Err(NoMemory)
}

/// Whether a cursor is open.
pub fn is_open(cursors: &Levels<Cursor>, place: usize) -> bool
    ensures { result ≡ spec.is_open (at Closed place cursors.now.top) }
{
    match cursors.get(place) {
        Some(cursor) => cursor.is_open(),
        None => false,
    }
}

/// An attribute of a cursor; none where the cursor has to be open for it.
pub fn cursor_attribute(
    cursors: &Levels<Cursor>,
    place: usize,
    attribute: Attribute,
) -> Result<Option<Value>, NoMemory>
    ensures { IfOk result (λ value. value ≡ spec.attribute_of attribute (at Closed place cursors.now.top)) }
{
    match cursors.get(place) {
        Some(cursor) => cursor.attribute(attribute),
        None => Ok(closed_attribute(attribute)),
    }
}

/// Fetches from a cursor.
pub fn fetch(
    alloc: Global,
    cursors: &mut Levels<Cursor>,
    place: usize,
    types: &[Option<ValueType>],
) -> Result<Fetched, NoMemory>
    ensures given { IfOk result (λ given. fetched_of given ≡ spec.fetched types.now (at Closed place cursors.old.top)) }
    ensures moved { OnOk result (cursors.new ≡ with_top (put Closed place (spec.after_fetch (at Closed place cursors.old.top)) cursors.old.top) cursors.old) }
{
    let mut cursor = taken(cursors, place);
    let given = cursor.fetch(alloc, types)?;
    put_cursor(cursors, place, cursor)?;
    Ok(given)
}

/// Takes a cursor out of its place, into which one is to be put again.
fn taken(cursors: &mut Levels<Cursor>, place: usize) -> Cursor
    ensures taken { result ≡ at Closed place cursors.old.top }
    ensures others { (c : spec.Cursor) → with_top (put Closed place c cursors.new.top) cursors.new ≡ with_top (put Closed place c cursors.old.top) cursors.old }
{
    if place < cursors.len() {
        cursors.replace(place, Cursor::closed())
    } else {
        Cursor::closed()
    }
}
