//! Declarations.

ghost use Rattle.std.specs.Prelude.{◌≡◌, ◌∷◌, ◌++◌, [], OnOk};
ghost use Rattle.ebr_validity.specs.Sites as site;
ghost use Rattle.ebr_validity.specs.Statements as spec;
ghost use Rattle.ebr_validity.specs.Units as units;
ghost use Rattle.ebr_scope.specs.Declarations as declared;
ghost use Rattle.ebr_rules.specs.Noted.{noted};
ghost use Rattle.ebr_scope.specs.Lent.{env};

use ebr_ast::{Decl, DeclaredType, Expr, Head, Parameter, ParameterType};
use ebr_base::{Name, NoMemory, Shared};
use ebr_rules::{expression, must, query};
use ebr_scope::{Meaning, Place, Scopes, column_type_of, declared_type, parameter_type, variable};
use ebr_sqlcheck::alike;
use std::alloc::Global;

/// A type's size is from 1 to the greatest one.
fn sized(size: u64, greatest: u64, least: &mut Option<u8>)
    ensures { least.new ≡ noted (site.Sized size greatest ∷ []) least.old }
{
    must(least, 5, 1 <= size && size <= greatest);
}

/// `n.m%TYPE` names a column.
fn of_column(n: &Name, m: &Name, place: &Place<'_>, least: &mut Option<u8>)
    ensures { least.new ≡ noted (site.OfColumn (declared.column_type_of place.now.seen.now.view n.now m.now) ∷ []) least.old }
{
    must(least, 5, column_type_of(place.seen, n, m).is_some());
}

fn size(ty: &DeclaredType, place: &Place<'_>, least: &mut Option<u8>)
    ensures { least.new ≡ noted (spec.size_sites ty.now (env place.now [])) least.old }
{
    match ty {
        DeclaredType::Number(Some(size)) => sized(*size, 18, least),
        DeclaredType::Varchar2(size) => sized(*size, 32767, least),
        DeclaredType::OfColumn(n, m) => of_column(n, m, place, least),
        DeclaredType::Number(None) | DeclaredType::Integer | DeclaredType::Boolean => {}
    }
}

/// The value of a variable, or that it has none.
fn initial(
    constant: bool,
    ty: &DeclaredType,
    value: &Option<Shared<Expr>>,
    place: &Place<'_>,
    known: &Scopes<'_>,
    least: &mut Option<u8>,
)
    ensures { least.new ≡ noted (spec.initial constant (declared.declared_type place.now.seen.now.view ty.now) value.now (env place.now known.now)) least.old }
{
    match value {
        None => must(least, 6, !constant),
        Some(e) => {
            let typed = expression(e.get(), place, known, least);
            must(least, 4, alike(declared_type(place.seen, ty), typed.ty));
        }
    }
}

/// Judges a declaration, and makes its name known.
pub fn declaration<'a>(
    alloc: Global,
    it: &'a Decl,
    place: &Place<'a>,
    known: &mut Scopes<'a>,
    least: &mut Option<u8>,
) -> Result<(), NoMemory>
    ensures least { OnOk result (least.new ≡ noted (spec.decl_sites it.now (env place.now known.old)) least.old) }
    ensures known { OnOk result (known.new ≡ spec.with_decl it.now (env place.now known.old)) }
{
    match it {
        Decl::Variable {
            name,
            constant,
            ty,
            initial: value,
        } => {
            size(ty, place, least);
            initial(*constant, ty, value, place, known, least);
            known.add(name, variable(*constant, declared_type(place.seen, ty)))
        }
        Decl::Exception(name) => known.add(name, Meaning::Exception),
        Decl::Cursor(name, q) => {
            let fields = query(alloc, q.get(), place, known, least)?;
            known.add_with(name, Meaning::Cursor, fields)
        }
        Decl::ExceptionInit(_, _) | Decl::Autonomous => Ok(()),
    }
}

/// Judges declarations, each of which is known from there on.
pub fn declarations<'a>(
    alloc: Global,
    list: &'a [Decl],
    place: &Place<'a>,
    known: &mut Scopes<'a>,
    least: &mut Option<u8>,
) -> Result<(), NoMemory>
    ensures least { OnOk result (least.new ≡ noted (spec.decls_sites list.now (env place.now known.old)) least.old) }
    ensures known { OnOk result (known.new ≡ spec.with_decls list.now (env place.now known.old)) }
{
    for it in list {
        declaration(alloc, it, place, known, least)?;
    }
    Ok(())
}

// ---- heads

fn parameter_size(ty: &ParameterType, place: &Place<'_>, least: &mut Option<u8>)
    ensures { least.new ≡ noted (units.type_sites ty.now (env place.now [])) least.old }
{
    match ty {
        ParameterType::OfColumn(n, m) => of_column(n, m, place, least),
        ParameterType::Number
        | ParameterType::Integer
        | ParameterType::Varchar2
        | ParameterType::Boolean => {}
    }
}

fn parameter_sizes(parameters: &[Parameter], place: &Place<'_>, least: &mut Option<u8>)
    ensures { least.new ≡ noted (units.parameter_sites parameters.now (env place.now [])) least.old }
{
    for parameter in parameters {
        parameter_size(&parameter.ty, place, least);
    }
}

fn result_size(ty: &Option<ParameterType>, place: &Place<'_>, least: &mut Option<u8>)
    ensures { least.new ≡ noted (units.result_sites ty.now (env place.now [])) least.old }
{
    if let Some(ty) = ty {
        parameter_size(ty, place, least);
    }
}

/// The types in a head.
pub fn head_types(head: &Head, place: &Place<'_>, least: &mut Option<u8>)
    ensures { least.new ≡ noted (units.parameter_sites head.now.parameters (env place.now []) ++ units.result_sites head.now.result (env place.now [])) least.old }
{
    parameter_sizes(head.parameters.as_slice(), place, least);
    result_size(&head.result, place, least);
}

/// Makes the parameters of a subprogram known.
pub fn add_parameters<'a>(
    list: &'a [Parameter],
    place: &Place<'a>,
    known: &mut Scopes<'a>,
) -> Result<(), NoMemory>
    ensures { OnOk result (known.new ≡ declared.with_parameters place.now.seen.now.view list.now known.old) }
{
    for parameter in list {
        let ty = parameter_type(place.seen, &parameter.ty);
        known.add(&parameter.name, Meaning::Parameter(parameter.mode, ty))?;
    }
    Ok(())
}
