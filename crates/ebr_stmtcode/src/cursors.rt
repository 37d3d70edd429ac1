//! Cursors.

ghost use Rattle.std.specs.Prelude.{◌≡◌, ◌∷◌, ◌++◌, [], None, Some, false, map, IfOk, OnOk, option_map};
ghost use Rattle.ebr_code.specs.declared.instruction.Instruction.{Do};
ghost use Rattle.ebr_code.specs.declared.instruction.Operation.TheVariants as does;
ghost use Rattle.ebr_run.specs.Scope as scope;
ghost use Rattle.ebr_run.specs.Statements as run;
ghost use Rattle.ebr_code.specs.Codes as spec;
ghost use Rattle.ebr_places.specs.Lent.{lent, bound};
ghost use Rattle.ebr_exprcode.specs.Placed.{placed};
ghost use Rattle.ebr_stmtcode.specs.inside.Sources.{source};

use crate::held::without;
use crate::leaving::none;
use crate::sql::request;
use ebr_ast::{CursorStmt, Query, SqlTree, Target};
use ebr_base::{CloneIn, List, Name, NoMemory, Shared, both};
use ebr_code::{Code, Instruction, Location, Lookup, Operation};
use ebr_exprcode::{Place, act, cursor_place, place_types, refer, stores, target_places};
use ebr_places::{Around, Bound, Denoted, plain};
use ebr_scope::Field;
use ebr_sqlcheck::ValueType;
use std::alloc::Global;

/// Where rows come from: the cursor's place, whether a loop declares it, its query, and its columns.
#[derive(Drop)]
pub struct Source {
    pub location: Location,
    pub own: bool,
    pub query: Bound<Query>,
    pub fields: Option<Shared<List<Field>>>,
}

/// The declared cursor at a place.
fn source_at(
    alloc: Global,
    location: &Location,
    query: &Bound<Query>,
    fields: &Option<Shared<List<Field>>>,
) -> Result<Shared<Source>, NoMemory>
    ensures { IfOk result (λ s. source s ≡ record { location = location.now; own = false; query = bound query.now; fields = fields.now }) }
{
    let (query, fields) = both(alloc, query, fields)?;
    let location = location.clone_in(alloc)?;
    Ok(Shared::new(
        alloc,
        Source {
            location,
            own: false,
            query,
            fields,
        },
    )?)
}

fn source_in(alloc: Global, found: &Denoted<'_>) -> Result<Option<Shared<Source>>, NoMemory>
    ensures { IfOk result (λ s. option_map source s ≡ run.cursor_source (Some (lent found.now))) }
{
    match found {
        Denoted::Cursor(location, query, fields) => {
            Ok(Some(source_at(alloc, location, query, fields)?))
        }
        Denoted::Variable(_, _)
        | Denoted::Exception(_, _)
        | Denoted::Record(_)
        | Denoted::Subprogram(_, _, _) => Ok(None),
    }
}

/// The cursor of a name.
pub fn cursor_source(
    alloc: Global,
    name: &Name,
    around: &Around<'_>,
) -> Result<Option<Shared<Source>>, NoMemory>
    ensures { IfOk result (λ found. option_map source found ≡ run.cursor_source (scope.meant_at around.now name.now None)) }
{
    match plain(alloc, around, name)? {
        Some(found) => {
            let made = source_in(alloc, &found);
            without(found, made)
        }
        None => Ok(None),
    }
}

/// Opens a cursor with its query.
pub fn open_source(
    alloc: Global,
    location: &Location,
    query: &Bound<Query>,
    out: &mut List<Instruction>,
) -> Result<(), NoMemory>
    ensures { OnOk result (out.new ≡ out.old ++ spec.open_code location.now (bound query.now)) }
{
    refer(alloc, location, out)?;
    let copy = location.clone_in(alloc)?;
    act(out, Operation::Open(copy))?;
    let tree = query.tree.clone_in(alloc)?;
    let stmt = Shared::new(alloc, SqlTree::Query(tree))?;
    let copy = location.clone_in(alloc)?;
    request(alloc, stmt, query.binds.get(), Lookup::Open(copy), out)
}

fn fetch(
    alloc: Global,
    location: &Location,
    types: List<Option<ValueType>>,
    out: &mut List<Instruction>,
) -> Result<(), NoMemory>
    ensures { OnOk result (out.new ≡ out.old ++ (spec.refer_code location.now ++ Do (does.Fetch location.now types) ∷ [])) }
{
    refer(alloc, location, out)?;
    let copy = location.clone_in(alloc)?;
    act(out, Operation::Fetch(copy, types))
}

/// Fetches a row, and what is done with it, and where there is none.
pub fn fetch_row(
    alloc: Global,
    location: &Location,
    types: List<Option<ValueType>>,
    row: Code,
    none: Code,
    out: &mut List<Instruction>,
) -> Result<(), NoMemory>
    ensures { OnOk result (out.new ≡ out.old ++ spec.fetch_code location.now types row none) }
{
    fetch(alloc, location, types, out)?;
    out.push(Instruction::If(row, none))
}

fn open_named(
    alloc: Global,
    name: &Name,
    around: &Around<'_>,
    out: &mut List<Instruction>,
) -> Result<(), NoMemory>
    ensures { OnOk result (out.new ≡ out.old ++ spec.open_of (scope.meant_at around.now name.now None)) }
{
    match cursor_source(alloc, name, around)? {
        Some(found) => open_source(alloc, &found.get().location, &found.get().query, out),
        None => act(out, Operation::Broken),
    }
}

/// A row's values to targets.
fn row_of(alloc: Global, places: &List<Place>) -> Result<Code, NoMemory>
    ensures { IfOk result (λ code. code ≡ spec.stores_code (map placed places.now)) }
{
    let mut row = List::new(alloc);
    stores(alloc, places, &mut row)?;
    Ok(Shared::new(alloc, row)?)
}

/// Fetches into targets.
fn fetch_into(
    alloc: Global,
    location: &Location,
    targets: &List<Target>,
    around: &Around<'_>,
    out: &mut List<Instruction>,
) -> Result<(), NoMemory>
    ensures { OnOk result (out.new ≡ out.old ++ spec.fetch_code location.now (map run.place_type (map (run.target_place around.now) targets.now)) (spec.stores_code (map (run.target_place around.now) targets.now)) []) }
{
    let places = target_places(alloc, targets, around)?;
    let row = row_of(alloc, &places)?;
    let types = place_types(alloc, &places)?;
    let none = none(alloc)?;
    fetch_row(alloc, location, types, row, none, out)
}

fn fetch_named(
    alloc: Global,
    name: &Name,
    targets: &List<Target>,
    around: &Around<'_>,
    out: &mut List<Instruction>,
) -> Result<(), NoMemory>
    ensures { OnOk result (out.new ≡ out.old ++ spec.fetch_of (scope.meant_at around.now name.now None) (map (run.target_place around.now) targets.now)) }
{
    match cursor_place(alloc, name, around)? {
        Some(location) => fetch_into(alloc, &location, targets, around, out),
        None => act(out, Operation::Broken),
    }
}

fn close_named(
    alloc: Global,
    name: &Name,
    around: &Around<'_>,
    out: &mut List<Instruction>,
) -> Result<(), NoMemory>
    ensures { OnOk result (out.new ≡ out.old ++ spec.close_of (scope.meant_at around.now name.now None)) }
{
    match cursor_place(alloc, name, around)? {
        Some(location) => {
            refer(alloc, &location, out)?;
            act(out, Operation::Close(location))
        }
        None => act(out, Operation::Broken),
    }
}

/// Adds the code of a statement on a cursor.
pub fn cursor_statement(
    alloc: Global,
    it: &CursorStmt,
    around: &Around<'_>,
    out: &mut List<Instruction>,
) -> Result<(), NoMemory>
    ensures { OnOk result (out.new ≡ out.old ++ spec.cursor_statement it.now around.now) }
{
    match it {
        CursorStmt::Open(name) => open_named(alloc, name, around, out),
        CursorStmt::Fetch(name, targets) => fetch_named(alloc, name, targets, around, out),
        CursorStmt::Close(name) => close_named(alloc, name, around, out),
    }
}
