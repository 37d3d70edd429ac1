//! Calls of procedures.

ghost use Rattle.std.specs.Prelude.{◌≡◌, ◌++◌, [], drop, map, Some, IfOk, OnOk};
ghost use Rattle.ebr_run.specs.Scope as scope;
ghost use Rattle.ebr_run.specs.Statements as run;
ghost use Rattle.ebr_expr.specs.Operators.{builtin_at};
ghost use Rattle.ebr_code.specs.Codes as spec;
ghost use Rattle.ebr_exprcode.specs.inside.Arguments as inside;
ghost use Rattle.ebr_places.specs.Lent.{lent};
ghost use Rattle.ebr_exprcode.specs.Placed.{placed};

use crate::expressions::expression;
use crate::held::without;
use crate::names::call_at;
use crate::operators::act;
use crate::targets::{Place, name_place, new_place, stores};
use ebr_ast::{Expr, Head, Mode, Parameter, Path, RowImage};
use ebr_base::{List, Name, NoMemory, ObjectKey, Shared, Value};
use ebr_code::{Instruction, Operation};
use ebr_expr::builtin;
use ebr_places::{Around, Denoted, applied, called};
use ebr_scope::is_out;
use std::alloc::Global;

fn image_place(image: RowImage, name: &Name, around: &Around<'_>) -> Place
    ensures { placed result ≡ inside.image_place around.now image name.now }
{
    match image {
        RowImage::New => new_place(name, around),
        RowImage::Old => Place::Nowhere,
    }
}

/// What an argument hands a value back to.
fn argument_place(alloc: Global, e: &Expr, around: &Around<'_>) -> Result<Place, NoMemory>
    ensures { IfOk result (λ place. placed place ≡ run.argument_place around.now e.now) }
{
    match e {
        Expr::Name(path) => name_place(alloc, path, around),
        Expr::Row(image, name) => Ok(image_place(*image, name, around)),
        Expr::Number(_)
        | Expr::Text(_)
        | Expr::Null
        | Expr::Boolean(_)
        | Expr::Call(_, _)
        | Expr::Quotient(_, _)
        | Expr::SqlCode
        | Expr::Firing(_)
        | Expr::Attribute(_, _)
        | Expr::Plus(_)
        | Expr::Minus(_)
        | Expr::Product(_, _)
        | Expr::Sum(_, _)
        | Expr::Compare(_, _, _)
        | Expr::IsNull(_, _)
        | Expr::Between(_, _, _, _)
        | Expr::In(_, _, _)
        | Expr::Like(_, _, _)
        | Expr::Not(_)
        | Expr::And(_, _)
        | Expr::Or(_, _)
        | Expr::Place(_)
        | Expr::Bind(_) => Ok(Place::Nowhere),
    }
}

/// The parameters behind the first one.
fn rest_of(parameters: &[Parameter]) -> &[Parameter]
    ensures { result.now ≡ drop 1 parameters.now }
{
    match parameters.split_first() {
        None => parameters,
        Some((_, rest)) => rest,
    }
}

/// The mode of the first parameter.
fn first_mode(parameters: &[Parameter]) -> Option<Mode>
    ensures { result ≡ inside.first_mode parameters.now }
{
    match parameters.split_first() {
        None => None,
        Some((first, _)) => first.mode,
    }
}

/// Adds what an argument hands a value back to, if its parameter has one.
fn add_out(
    alloc: Global,
    e: &Expr,
    mode: Option<Mode>,
    around: &Around<'_>,
    places: &mut List<Place>,
) -> Result<(), NoMemory>
    ensures { OnOk result (map placed places.new ≡ map placed places.old ++ inside.out_of mode around.now e.now) }
{
    if is_out(mode) {
        places.push(argument_place(alloc, e, around)?)
    } else {
        Ok(())
    }
}

/// What the arguments of a call hand values back to.
fn outs(
    alloc: Global,
    list: &List<Shared<Expr>>,
    parameters: &[Parameter],
    around: &Around<'_>,
) -> Result<List<Place>, NoMemory>
    ensures { IfOk result (λ places. map placed places ≡ run.outs around.now list.now parameters.now) }
{
    let mut places = List::new(alloc);
    let mut rest = parameters;
    for e in list.as_slice() {
        add_out(alloc, e.get(), first_mode(rest), around, &mut places)?;
        rest = rest_of(rest);
    }
    Ok(places)
}

/// An argument for a parameter.
fn passed(
    alloc: Global,
    mode: Option<Mode>,
    e: &Expr,
    around: &Around<'_>,
    out: &mut List<Instruction>,
) -> Result<(), NoMemory>
    ensures { OnOk result (out.new ≡ out.old ++ spec.passed_code mode e.now around.now) }
{
    match mode {
        Some(Mode::Out) => act(out, Operation::Push(Value::Null)),
        None | Some(Mode::In) | Some(Mode::InOut) => expression(alloc, e, around, out),
    }
}

/// Arguments in order, each for its parameter.
fn arguments(
    alloc: Global,
    list: &List<Shared<Expr>>,
    parameters: &[Parameter],
    around: &Around<'_>,
    out: &mut List<Instruction>,
) -> Result<(), NoMemory>
    ensures { OnOk result (out.new ≡ out.old ++ spec.listed (spec.arguments_code list.now parameters.now) around.now) }
{
    let mut rest = parameters;
    for e in list.as_slice() {
        passed(alloc, first_mode(rest), e.get(), around, out)?;
        rest = rest_of(rest);
    }
    Ok(())
}

/// A call of a procedure.
fn procedure(
    alloc: Global,
    unit: &ObjectKey,
    place: usize,
    head: &Head,
    list: &List<Shared<Expr>>,
    around: &Around<'_>,
    out: &mut List<Instruction>,
) -> Result<(), NoMemory>
    ensures { OnOk result (out.new ≡ out.old ++ spec.procedure_code unit.now place (spec.arguments_code list.now head.now.parameters) (run.outs around.now list.now head.now.parameters) around.now) }
{
    let parameters = head.parameters.as_slice();
    arguments(alloc, list, parameters, around, out)?;
    let places = outs(alloc, list, parameters, around)?;
    call_at(alloc, unit, place, list.len(), places.len(), out)?;
    stores(alloc, &places, out)
}

/// A call of what a name stands for.
fn call_of(
    alloc: Global,
    found: &Denoted<'_>,
    list: &List<Shared<Expr>>,
    around: &Around<'_>,
    out: &mut List<Instruction>,
) -> Result<(), NoMemory>
    ensures { OnOk result (out.new ≡ out.old ++ spec.call_of_code (Some (lent found.now)) list.now around.now) }
{
    match found {
        Denoted::Subprogram(unit, place, head) => procedure(
            alloc, unit, *place, *head, list, around, out,
        ),
        Denoted::Variable(_, _)
        | Denoted::Exception(_, _)
        | Denoted::Cursor(_, _, _)
        | Denoted::Record(_) => act(out, Operation::Broken),
    }
}

/// A call without arguments.
fn call_plainly(
    alloc: Global,
    path: &Path,
    around: &Around<'_>,
    out: &mut List<Instruction>,
) -> Result<(), NoMemory>
    ensures { OnOk result (out.new ≡ out.old ++ spec.call_of_code (scope.called around.now path.now) [] around.now) }
{
    match called(alloc, around, path)? {
        Some(found) => {
            let done = call_of(alloc, &found, &List::new(alloc), around, out);
            without(found, done)
        }
        None => act(out, Operation::Broken),
    }
}

/// A call with arguments of what isn't built in.
fn call_with(
    alloc: Global,
    path: &Path,
    list: &List<Shared<Expr>>,
    around: &Around<'_>,
    out: &mut List<Instruction>,
) -> Result<(), NoMemory>
    ensures { OnOk result (out.new ≡ out.old ++ spec.call_of_code (scope.applied around.now path.now) list.now around.now) }
{
    match applied(alloc, around, path)? {
        Some(found) => {
            let done = call_of(alloc, &found, list, around, out);
            without(found, done)
        }
        None => act(out, Operation::Broken),
    }
}

/// A call with arguments; a built-in function is no procedure.
fn call_unless_builtin(
    alloc: Global,
    path: &Path,
    list: &List<Shared<Expr>>,
    around: &Around<'_>,
    out: &mut List<Instruction>,
) -> Result<(), NoMemory>
    ensures { OnOk result (out.new ≡ out.old ++ spec.call_of_code (run.unless_builtin (builtin_at path.now.name path.now.member) (scope.applied around.now path.now)) list.now around.now) }
{
    match builtin(path) {
        Some(_) => act(out, Operation::Broken),
        None => call_with(alloc, path, list, around, out),
    }
}

/// Adds the code of a call statement.
pub fn call_statement(
    alloc: Global,
    path: &Path,
    list: &Option<List<Shared<Expr>>>,
    around: &Around<'_>,
    out: &mut List<Instruction>,
) -> Result<(), NoMemory>
    ensures { OnOk result (out.new ≡ out.old ++ spec.call_statement path.now list.now around.now) }
{
    match list {
        None => call_plainly(alloc, path, around, out),
        Some(list) => call_unless_builtin(alloc, path, list, around, out),
    }
}
