//! Loops over rows.

ghost use Rattle.std.specs.Prelude.{◌≡◌, ◌+◌, ◌∷◌, ◌++◌, [], Some, map, IfOk, OnOk, option_map};
ghost use Rattle.ebr_ast.specs.declared.statement.RowsFrom.TheVariants as from;
ghost use Rattle.ebr_code.specs.declared.instruction.Instruction.{Do, Loop, Closing};
ghost use Rattle.ebr_code.specs.declared.instruction.Operation.TheVariants as does;
ghost use Rattle.ebr_run.specs.Scope as scope;
ghost use Rattle.ebr_run.specs.Statements as run;
ghost use Rattle.ebr_code.specs.Codes as spec;
ghost use Rattle.ebr_places.specs.Lent.{bound};
ghost use Rattle.ebr_stmtcode.specs.inside.Sources.{source, types_of};

use crate::cursors::{Source, cursor_source, fetch_row, open_source};
use crate::leaving::only;
use ebr_ast::{Query, RowsFrom};
use ebr_base::{CloneIn, List, NoMemory, Shared};
use ebr_binds::query;
use ebr_code::{Code, Instruction, Location, Operation};
use ebr_exprcode::act;
use ebr_places::Around;
use ebr_scope::Field;
use ebr_sqlcheck::ValueType;
use std::alloc::Global;

fn query_source(alloc: Global, q: &Query, around: &Around<'_>) -> Result<Shared<Source>, NoMemory>
    ensures { IfOk result (λ s. Some (source s) ≡ run.source_of (from.Query q.now) around.now) }
{
    let fields = around.fields(alloc, q)?;
    let query = query(alloc, around, q)?;
    Ok(Shared::new(
        alloc,
        Source {
            location: Location::Own(around.cursors()),
            own: true,
            query,
            fields,
        },
    )?)
}

/// Where a loop's rows come from.
pub fn source_of(
    alloc: Global,
    from: &RowsFrom,
    around: &Around<'_>,
) -> Result<Option<Shared<Source>>, NoMemory>
    ensures { IfOk result (λ s. option_map source s ≡ run.source_of from.now around.now) }
{
    match from {
        RowsFrom::Cursor(name) => cursor_source(alloc, name, around),
        RowsFrom::Query(q) => Ok(Some(query_source(alloc, q.get(), around)?)),
    }
}

fn known_fields(fields: &Option<Shared<List<Field>>>) -> &[Field]
    ensures { result.now ≡ scope.known_fields fields.now }
{
    match fields {
        Some(fields) => fields.get().as_slice(),
        None => &[],
    }
}

/// The types of columns, as far as they are known.
fn field_types(alloc: Global, fields: &[Field]) -> Result<List<Option<ValueType>>, NoMemory>
    ensures { IfOk result (λ types. types ≡ map run.field_type fields.now) }
{
    let mut types = List::new(alloc);
    for field in fields.iter() {
        types.push(field.ty)?;
    }
    Ok(types)
}

fn sum(a: usize, b: usize) -> Result<usize, NoMemory>
    ensures { IfOk result (λ c. c ≡ a + b) }
{
    match a.checked_add(b) {
        Some(c) => Ok(c),
        None => Err(NoMemory),
    }
}

/// A row's values to the variables from a place on.
fn store_fields(
    alloc: Global,
    first: usize,
    types: &List<Option<ValueType>>,
) -> Result<List<Instruction>, NoMemory>
    ensures { IfOk result (λ code. code ≡ spec.fields_code first types.now) }
{
    let mut code = List::new(alloc);
    for (at, _) in types.as_slice().iter().enumerate() {
        let variable = sum(first, at)?;
        act(&mut code, Operation::Assign(Location::Own(variable), None))?;
    }
    Ok(code)
}

/// The head of a loop over rows.
fn row_head(alloc: Global, from: &Source, variable: usize) -> Result<Code, NoMemory>
    ensures { IfOk result (λ code. code ≡ spec.fetch_code from.now.location (types_of from.now) (spec.fields_code variable (types_of from.now)) (Do does.Exit ∷ [])) }
{
    let types = field_types(alloc, known_fields(&from.fields))?;
    let row = store_fields(alloc, variable, &types)?;
    let row = Shared::new(alloc, row)?;
    let none = only(alloc, Operation::Exit)?;
    let mut code = List::new(alloc);
    fetch_row(alloc, &from.location, types, row, none, &mut code)?;
    Ok(Shared::new(alloc, code)?)
}

/// The code of one loop.
fn only_loop(alloc: Global, head: Code, body: Code) -> Result<Code, NoMemory>
    ensures { IfOk result (λ code. code ≡ Loop head body ∷ []) }
{
    let mut code = List::new(alloc);
    code.push(Instruction::Loop(head, body))?;
    Ok(Shared::new(alloc, code)?)
}

/// Closes a cursor when its code has ended.
fn closing(
    alloc: Global,
    location: &Location,
    code: Code,
    out: &mut List<Instruction>,
) -> Result<(), NoMemory>
    ensures { OnOk result (out.new ≡ out.old ++ Closing location.now code ∷ []) }
{
    let location = location.clone_in(alloc)?;
    out.push(Instruction::Closing(location, code))
}

/// Closes the cursor of a loop over rows at first, where the loop declares it.
fn declare(alloc: Global, from: &Source, out: &mut List<Instruction>) -> Result<(), NoMemory>
    ensures { OnOk result (out.new ≡ out.old ++ spec.declared_code from.now.own from.now.location) }
{
    if !from.own {
        return Ok(());
    }
    let location = from.location.clone_in(alloc)?;
    act(out, Operation::Reset(location))
}

/// A loop over rows, whose record's fields are the variables from a place on.
pub fn rows_loop(
    alloc: Global,
    from: &Source,
    variable: usize,
    body: Code,
    out: &mut List<Instruction>,
) -> Result<(), NoMemory>
    ensures { OnOk result (out.new ≡ out.old ++ (spec.declared_code from.now.own from.now.location ++ (spec.open_code from.now.location (bound from.now.query) ++ Closing from.now.location (Loop (spec.fetch_code from.now.location (types_of from.now) (spec.fields_code variable (types_of from.now)) (Do does.Exit ∷ [])) body ∷ []) ∷ []))) }
{
    declare(alloc, from, out)?;
    open_source(alloc, &from.location, &from.query, out)?;
    let head = row_head(alloc, from, variable)?;
    let code = only_loop(alloc, head, body)?;
    closing(alloc, &from.location, code, out)
}
