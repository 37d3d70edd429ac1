//! Targets of values.

ghost use Rattle.std.specs.Prelude.{◌≡◌, ◌++◌, map, Some, IfOk, OnOk};
ghost use Rattle.ebr_run.specs.Scope as scope;
ghost use Rattle.ebr_run.specs.Statements as run;
ghost use Rattle.ebr_run.specs.Values.{known_of};
ghost use Rattle.ebr_code.specs.Codes as spec;
ghost use Rattle.ebr_places.specs.Lent.{lent};
ghost use Rattle.ebr_exprcode.specs.Placed.{placed};

use crate::held::without;
use crate::names::refer;
use crate::operators::act;
use ebr_ast::{Path, Target};
use ebr_base::{CloneIn, ColType, List, Name, NoMemory};
use ebr_code::{Instruction, Location, Operation, VariableType};
use ebr_places::{Around, Denoted, meant};
use ebr_sqlcheck::ValueType;
use std::alloc::Global;

/// What is assigned to: a variable, the column of `:NEW` at a place, or nothing that takes a value.
#[derive(Drop)]
pub enum Place {
    Stored(Location, Option<VariableType>),
    New(usize, VariableType),
    Nowhere,
}

fn variable_place(alloc: Global, found: &Denoted<'_>) -> Result<Place, NoMemory>
    ensures { IfOk result (λ place. placed place ≡ run.variable_place (Some (lent found.now))) }
{
    match found {
        Denoted::Variable(location, ty) => Ok(Place::Stored(location.clone_in(alloc)?, *ty)),
        Denoted::Exception(_, _)
        | Denoted::Cursor(_, _, _)
        | Denoted::Record(_)
        | Denoted::Subprogram(_, _, _) => Ok(Place::Nowhere),
    }
}

/// A name as a target.
pub fn name_place(alloc: Global, path: &Path, around: &Around<'_>) -> Result<Place, NoMemory>
    ensures { IfOk result (λ place. placed place ≡ run.variable_place (scope.meant around.now path.now)) }
{
    match meant(alloc, around, path)? {
        Some(found) => {
            let place = variable_place(alloc, &found);
            without(found, place)
        }
        None => Ok(Place::Nowhere),
    }
}

/// `:NEW.c` as a target.
pub fn new_place(name: &Name, around: &Around<'_>) -> Place
    ensures { placed result ≡ run.new_place around.now name.now }
{
    match (around.column_place(name), around.column(name)) {
        (Some(at), Some(column)) => Place::New(at, VariableType::Plain(column.ty)),
        (Some(_), None) | (None, Some(_)) | (None, None) => Place::Nowhere,
    }
}

pub fn target_place(alloc: Global, it: &Target, around: &Around<'_>) -> Result<Place, NoMemory>
    ensures { IfOk result (λ place. placed place ≡ run.target_place around.now it.now) }
{
    match it {
        Target::Name(path) => name_place(alloc, path, around),
        Target::New(name) => Ok(new_place(name, around)),
    }
}

/// The places of targets.
pub fn target_places(
    alloc: Global,
    list: &List<Target>,
    around: &Around<'_>,
) -> Result<List<Place>, NoMemory>
    ensures { IfOk result (λ places. map placed places ≡ map (run.target_place around.now) list.now) }
{
    let mut places = List::new(alloc);
    for it in list.as_slice() {
        places.push(target_place(alloc, it, around)?)?;
    }
    Ok(places)
}

/// The topmost operand to a variable.
fn assign(
    alloc: Global,
    location: &Location,
    ty: Option<VariableType>,
    out: &mut List<Instruction>,
) -> Result<(), NoMemory>
    ensures { OnOk result (out.new ≡ out.old ++ spec.store_code (run.Stored location.now ty)) }
{
    refer(alloc, location, out)?;
    let copy = location.clone_in(alloc)?;
    act(out, Operation::Assign(copy, ty))
}

/// The topmost operand to a target.
pub fn store(alloc: Global, place: &Place, out: &mut List<Instruction>) -> Result<(), NoMemory>
    ensures { OnOk result (out.new ≡ out.old ++ spec.store_code (placed place.now)) }
{
    match place {
        Place::Stored(location, ty) => assign(alloc, location, *ty, out),
        Place::New(at, ty) => act(out, Operation::AssignNew(*at, *ty)),
        Place::Nowhere => act(out, Operation::Broken),
    }
}

/// Operands to targets, the topmost one to the first.
pub fn stores(
    alloc: Global,
    places: &List<Place>,
    out: &mut List<Instruction>,
) -> Result<(), NoMemory>
    ensures { OnOk result (out.new ≡ out.old ++ spec.stores_code (map placed places.now)) }
{
    for place in places.as_slice() {
        store(alloc, place, out)?;
    }
    Ok(())
}

fn column_type(ty: ColType) -> ValueType
    ensures { Some result ≡ known_of (Some (VariableType.Plain ty)) }
{
    match ty {
        ColType::Num(_) => ValueType::Number,
        ColType::Text(_) => ValueType::Text,
    }
}

fn known(ty: VariableType) -> Option<ValueType>
    ensures { result ≡ known_of (Some ty) }
{
    match ty {
        VariableType::Plain(ty) => Some(column_type(ty)),
        VariableType::Boolean => Some(ValueType::Boolean),
        VariableType::Unknown => None,
    }
}

fn variable_type(ty: Option<VariableType>) -> Option<ValueType>
    ensures { result ≡ known_of ty }
{
    match ty {
        Some(ty) => known(ty),
        None => None,
    }
}

/// The type of what a target takes, as far as it is known.
fn place_type(place: &Place) -> Option<ValueType>
    ensures { result ≡ run.place_type (placed place.now) }
{
    match place {
        Place::Stored(_, ty) => variable_type(*ty),
        Place::New(_, ty) => known(*ty),
        Place::Nowhere => None,
    }
}

/// The types of what targets take.
pub fn place_types(alloc: Global, places: &List<Place>) -> Result<List<Option<ValueType>>, NoMemory>
    ensures { IfOk result (λ types. types ≡ map run.place_type (map placed places.now)) }
{
    let mut types = List::new(alloc);
    for place in places.as_slice() {
        types.push(place_type(place))?;
    }
    Ok(types)
}
