//! Units of one subprogram.

ghost use Rattle.std.specs.Prelude.{◌≡◌, map, None, Some, IfOk, OnOk, option_map};
ghost use Rattle.std.specs.List.{list_any};
ghost use Rattle.ebr_ast.specs.Views.{unit_key};
ghost use Rattle.ebr_run.specs.Scope as scope;
ghost use Rattle.ebr_run.specs.Units as run;
ghost use Rattle.ebr_code.specs.Codes as codes;
ghost use Rattle.ebr_code.specs.Units as spec;

use crate::held::without;
use ebr_ast::{Block, Decl, Head, Mode, ParameterType, Subprogram};
use ebr_base::{Class, CloneIn, List, Name, NoMemory, ObjectKey, Shared};
use ebr_code::{Code, Parameter, Unit, VariableType};
use ebr_places::{Around, parameter_type};
use ebr_scope::{Seen, is_out};
use ebr_stmtcode::block;
use std::alloc::Global;

fn takes_value(mode: Option<Mode>) -> bool
    ensures { result ≡ run.takes_value mode }
{
    match mode {
        Some(Mode::Out) => false,
        None | Some(Mode::In) | Some(Mode::InOut) => true,
    }
}

fn parameter(alloc: Global, seen: &Seen<'_>, it: &ebr_ast::Parameter) -> Result<Parameter, NoMemory>
    ensures { IfOk result (λ p. p ≡ spec.parameter_code seen.now.view it.now) }
{
    let ty = parameter_type(alloc, seen, &it.ty)?;
    Ok(Parameter {
        ty,
        takes: takes_value(it.mode),
        gives: is_out(it.mode),
    })
}

fn parameters(
    alloc: Global,
    seen: &Seen<'_>,
    list: &List<ebr_ast::Parameter>,
) -> Result<List<Parameter>, NoMemory>
    ensures { IfOk result (λ found. found ≡ map (spec.parameter_code seen.now.view) list.now) }
{
    let mut found = List::new(alloc);
    for it in list.as_slice() {
        found.push(parameter(alloc, seen, it)?)?;
    }
    Ok(found)
}

fn is_autonomous(it: &Decl) -> bool
    ensures { result ≡ run.is_autonomous it.now }
{
    match it {
        Decl::Autonomous => true,
        Decl::Variable { .. }
        | Decl::Cursor(_, _)
        | Decl::Exception(_)
        | Decl::ExceptionInit(_, _) => false,
    }
}

fn any_autonomous(list: &[Decl]) -> bool
    ensures { result ≡ list_any run.is_autonomous list.now }
{
    list.iter().any(|it| is_autonomous(it))
}

/// Whether a block is an autonomous transaction.
pub fn alone(it: &Block) -> bool
    ensures { result ≡ run.alone it.now }
{
    any_autonomous(it.declarations.as_slice())
}

/// The type of what a subprogram gives.
fn result_type(
    alloc: Global,
    seen: &Seen<'_>,
    ty: &Option<ParameterType>,
) -> Result<Option<VariableType>, NoMemory>
    ensures { IfOk result (λ given. given ≡ option_map (scope.parameter_type seen.now.view) ty.now) }
{
    match ty {
        Some(ty) => Ok(Some(parameter_type(alloc, seen, ty)?)),
        None => Ok(None),
    }
}

/// The code of a block where it stands.
pub fn block_of<'a>(alloc: Global, it: &'a Block, around: &mut Around<'a>) -> Result<Code, NoMemory>
    ensures code { IfOk result (λ code. code ≡ codes.block_code it.now around.old) }
    ensures around { OnOk result (around.new ≡ around.old) }
{
    let mut code = List::new(alloc);
    block(alloc, it, around, &mut code)?;
    Ok(Shared::new(alloc, code)?)
}

/// The code of a subprogram's body behind its parameters.
fn behind_parameters<'a>(
    alloc: Global,
    head: &'a Head,
    body: &'a Block,
    gives: Option<VariableType>,
    around: &mut Around<'a>,
) -> Result<Code, NoMemory>
    ensures code { IfOk result (λ code. code ≡ codes.block_code body.now (record (scope.with_parameters head.now.parameters around.old) { result = gives })) }
    ensures around { OnOk result (around.new ≡ record (scope.with_parameters head.now.parameters around.old) { result = gives }) }
{
    around.add_parameters(alloc, head.parameters.as_slice())?;
    around.set_result(gives);
    block_of(alloc, body, around)
}

/// The code of a subprogram's body, whose parameters are its first variables.
fn body_of<'a>(
    alloc: Global,
    head: &'a Head,
    body: &'a Block,
    around: &mut Around<'a>,
) -> Result<Code, NoMemory>
    ensures code { IfOk result (λ code. code ≡ codes.block_code body.now (run.within_subprogram head.now around.old)) }
    ensures around { OnOk result (around.new ≡ around.old) }
{
    let gives = result_type(alloc, around.seen(), &head.result)?;
    let outer = around.result();
    let mark = around.mark();
    let frame = around.enter_frame();
    let code = behind_parameters(alloc, head, body, gives, around);
    around.set_result(outer);
    around.back(&mark);
    around.leave_frame(frame);
    code
}

/// A procedure or a function where it stands.
pub fn subprogram<'a>(
    alloc: Global,
    it: &'a Subprogram,
    around: &mut Around<'a>,
) -> Result<ebr_code::Subprogram, NoMemory>
    ensures subprogram { IfOk result (λ s. s ≡ spec.subprogram_code around.old it.now) }
    ensures around { OnOk result (around.new ≡ around.old) }
{
    let code = body_of(alloc, &it.head, &it.body, around)?;
    let parameters = parameters(alloc, around.seen(), &it.head.parameters)?;
    Ok(ebr_code::Subprogram {
        parameters,
        function: it.head.result.is_some(),
        autonomous: alone(&it.body),
        code,
    })
}

/// A unit of one subprogram.
fn of_one(alloc: Global, subprogram: ebr_code::Subprogram) -> Result<Unit, NoMemory>
    ensures { IfOk result (λ unit. unit ≡ spec.of_one subprogram) }
{
    let mut subprograms = List::new(alloc);
    subprograms.push(subprogram)?;
    Ok(Unit {
        subprograms,
        initial: None,
    })
}

/// The unit of a block where it stands.
pub fn block_unit<'a>(
    alloc: Global,
    it: &'a Block,
    around: &mut Around<'a>,
) -> Result<Unit, NoMemory>
    ensures { IfOk result (λ unit. unit ≡ spec.of_one (spec.block_unit around.old it.now)) }
{
    let code = block_of(alloc, it, around)?;
    of_one(
        alloc,
        ebr_code::Subprogram {
            parameters: List::new(alloc),
            function: false,
            autonomous: alone(it),
            code,
        },
    )
}

/// The key of an object of a name.
pub fn key_of(alloc: Global, class: Class, name: &Name) -> Result<ObjectKey, NoMemory>
    ensures { IfOk result (λ key. key ≡ record { class = class; name = name.now }) }
{
    let name = name.clone_in(alloc)?;
    Ok(ObjectKey { class, name })
}

/// The unit of a procedure or a function where it stands.
fn alone_unit<'a>(
    alloc: Global,
    it: &'a Subprogram,
    around: &mut Around<'a>,
) -> Result<Unit, NoMemory>
    ensures { IfOk result (λ unit. unit ≡ spec.of_one (spec.subprogram_code around.old it.now)) }
{
    let found = subprogram(alloc, it, around)?;
    of_one(alloc, found)
}

/// The unit of a procedure or a function.
pub fn subprogram_unit<'a>(
    alloc: Global,
    it: &'a Subprogram,
    seen: &'a Seen<'a>,
) -> Result<Unit, NoMemory>
    ensures { IfOk result (λ unit. unit ≡ spec.of_one (spec.subprogram_code (run.outside seen.now.view (Some (unit_key it.now.head.name))) it.now)) }
{
    let key = key_of(alloc, Class::Unit, &it.head.name)?;
    let mut around = Around::outside(alloc, seen, Some(key));
    let unit = alone_unit(alloc, it, &mut around);
    without(around, unit)
}

/// The unit of a block that a session runs.
pub fn plain_block<'a>(alloc: Global, it: &'a Block, seen: &'a Seen<'a>) -> Result<Unit, NoMemory>
    ensures { IfOk result (λ unit. unit ≡ spec.of_one (spec.block_unit (run.outside seen.now.view None) it.now)) }
{
    let mut around = Around::outside(alloc, seen, None);
    let unit = block_unit(alloc, it, &mut around);
    without(around, unit)
}
