//! Names as operands.

ghost use Rattle.std.specs.Prelude.{◌≡◌, ◌++◌, None, Some, IfOk, OnOk};
ghost use Rattle.ebr_code.specs.Codes as spec;
ghost use Rattle.ebr_run.specs.Scope as scope;
ghost use Rattle.ebr_places.specs.Lent.{lent};
ghost use Rattle.ebr_exprcode.specs.Named.{place_of};
ghost use Rattle.ebr_exprcode.specs.inside.Callees as inside;

use crate::held::without;
use crate::operators::act;
use ebr_ast::{Attribute, Path, RowImage};
use ebr_base::{Class, CloneIn, List, Name, NoMemory, ObjectKey};
use ebr_code::{Callee, Instruction, Location, Operation, Reference};
use ebr_places::{Around, Denoted, applied, meant, plain};
use std::alloc::Global;

/// Refers to the package of a variable or a cursor, if it is a package's.
pub fn refer(
    alloc: Global,
    location: &Location,
    out: &mut List<Instruction>,
) -> Result<(), NoMemory>
    ensures { OnOk result (out.new ≡ out.old ++ spec.refer_code location.now) }
{
    match location {
        Location::Own(_) => Ok(()),
        Location::Member(package, _) => {
            let copy = package.clone_in(alloc)?;
            act(out, Operation::Refer(Reference::Data, copy))
        }
    }
}

pub fn load(alloc: Global, location: Location, out: &mut List<Instruction>) -> Result<(), NoMemory>
    ensures { OnOk result (out.new ≡ out.old ++ spec.load_code location) }
{
    refer(alloc, &location, out)?;
    act(out, Operation::Load(location))
}

/// Refers to the package of a subprogram, if it is a package's.
fn refer_unit(
    alloc: Global,
    class: Class,
    name: &Name,
    out: &mut List<Instruction>,
) -> Result<(), NoMemory>
    ensures { OnOk result (out.new ≡ out.old ++ spec.refer_unit class name.now) }
{
    match class {
        Class::Body => {
            let copy = name.clone_in(alloc)?;
            act(out, Operation::Refer(Reference::Other, copy))
        }
        Class::Unit | Class::Trigger => Ok(()),
    }
}

pub fn call(alloc: Global, callee: Callee, out: &mut List<Instruction>) -> Result<(), NoMemory>
    ensures { OnOk result (out.new ≡ out.old ++ spec.call_code callee) }
{
    refer_unit(alloc, callee.unit.class, &callee.unit.name, out)?;
    act(out, Operation::Call(callee))
}

/// Calls what is at a place of a unit, with so many arguments and values that it gives back.
pub fn call_at(
    alloc: Global,
    unit: &ObjectKey,
    place: usize,
    arguments: usize,
    results: usize,
    out: &mut List<Instruction>,
) -> Result<(), NoMemory>
    ensures { OnOk result (out.new ≡ out.old ++ spec.call_code (scope.callee unit.now place arguments results)) }
{
    let callee = Callee {
        unit: unit.clone_in(alloc)?,
        place,
        arguments,
        results,
    };
    call(alloc, callee, out)
}

/// What a name stands for as an operand.
fn denoted(alloc: Global, found: &Denoted<'_>, out: &mut List<Instruction>) -> Result<(), NoMemory>
    ensures { OnOk result ((env : scope.Env) → out.new ≡ out.old ++ spec.name_code (Some (lent found.now)) env) }
{
    match found {
        Denoted::Variable(location, _) => {
            let copy = location.clone_in(alloc)?;
            load(alloc, copy, out)
        }
        Denoted::Subprogram(unit, place, _) => call_at(alloc, unit, *place, 0, 1, out),
        Denoted::Exception(_, _) | Denoted::Cursor(_, _, _) | Denoted::Record(_) => act(
            out,
            Operation::Broken,
        ),
    }
}

/// A name as an operand.
pub fn name(
    alloc: Global,
    path: &Path,
    around: &Around<'_>,
    out: &mut List<Instruction>,
) -> Result<(), NoMemory>
    ensures { OnOk result (out.new ≡ out.old ++ spec.name_code (scope.meant around.now path.now) around.now) }
{
    match meant(alloc, around, path)? {
        Some(found) => {
            let done = denoted(alloc, &found, out);
            without(found, done)
        }
        None => act(out, Operation::Broken),
    }
}

/// What is called, with so many arguments and values that it gives back; none where it is no subprogram.
fn callee_of(
    alloc: Global,
    found: &Denoted<'_>,
    arguments: usize,
    results: usize,
) -> Result<Option<Callee>, NoMemory>
    ensures { IfOk result (λ callee. callee ≡ inside.callee_of (Some (lent found.now)) arguments results) }
{
    match found {
        Denoted::Subprogram(unit, place, _) => Ok(Some(Callee {
            unit: unit.clone_in(alloc)?,
            place: *place,
            arguments,
            results,
        })),
        Denoted::Variable(_, _)
        | Denoted::Exception(_, _)
        | Denoted::Cursor(_, _, _)
        | Denoted::Record(_) => Ok(None),
    }
}

/// What a function's call with so many arguments calls.
pub fn function(
    alloc: Global,
    path: &Path,
    arguments: usize,
    around: &Around<'_>,
) -> Result<Option<Callee>, NoMemory>
    ensures { IfOk result (λ callee. callee ≡ inside.callee_of (scope.applied around.now path.now) arguments 1) }
{
    match applied(alloc, around, path)? {
        Some(found) => {
            let callee = callee_of(alloc, &found, arguments, 1);
            without(found, callee)
        }
        None => Ok(None),
    }
}

/// `:NEW.c` or `:OLD.c`, with the place of the column.
pub fn column(
    out: &mut List<Instruction>,
    image: RowImage,
    place: Option<usize>,
) -> Result<(), NoMemory>
    ensures { OnOk result (out.new ≡ out.old ++ spec.image_code image place) }
{
    match place {
        Some(place) => act(out, Operation::LoadColumn(image, place)),
        None => act(out, Operation::Broken),
    }
}

/// The place of a cursor; none where it is no cursor.
fn place_of(alloc: Global, found: &Denoted<'_>) -> Result<Option<Location>, NoMemory>
    ensures { IfOk result (λ place. place ≡ place_of (Some (lent found.now))) }
{
    match found {
        Denoted::Cursor(place, _, _) => Ok(Some(place.clone_in(alloc)?)),
        Denoted::Variable(_, _)
        | Denoted::Exception(_, _)
        | Denoted::Record(_)
        | Denoted::Subprogram(_, _, _) => Ok(None),
    }
}

/// The place of the cursor of a name.
pub fn cursor_place(
    alloc: Global,
    name: &Name,
    around: &Around<'_>,
) -> Result<Option<Location>, NoMemory>
    ensures { IfOk result (λ place. place ≡ place_of (scope.meant_at around.now name.now None)) }
{
    match plain(alloc, around, name)? {
        Some(found) => {
            let place = place_of(alloc, &found);
            without(found, place)
        }
        None => Ok(None),
    }
}

fn cursor_attribute(
    alloc: Global,
    name: &Name,
    what: Attribute,
    around: &Around<'_>,
    out: &mut List<Instruction>,
) -> Result<(), NoMemory>
    ensures { OnOk result (out.new ≡ out.old ++ spec.cursor_code what (scope.meant_at around.now name.now None)) }
{
    match cursor_place(alloc, name, around)? {
        Some(place) => {
            refer(alloc, &place, out)?;
            act(out, Operation::Attribute(place, what))
        }
        None => act(out, Operation::Broken),
    }
}

/// An attribute of a cursor, or without a name of the last SQL statement.
pub fn attribute(
    alloc: Global,
    cursor: &Option<Name>,
    what: Attribute,
    around: &Around<'_>,
    out: &mut List<Instruction>,
) -> Result<(), NoMemory>
    ensures { OnOk result (out.new ≡ out.old ++ spec.attribute_code cursor.now what around.now) }
{
    match cursor {
        None => act(out, Operation::Affected(what)),
        Some(name) => cursor_attribute(alloc, name, what, around, out),
    }
}
