//! The types of variables.

ghost use Rattle.std.specs.Prelude.{◌≡◌, IfOk, option_map};
ghost use Rattle.std.specs.Option.{option_copied};
ghost use Rattle.ebr_names.specs.Columns.{column_named};
ghost use Rattle.ebr_scope.specs.Declarations.{column_of};
ghost use Rattle.ebr_run.specs.Scope as spec;

use ebr_ast::{DeclaredType, ParameterType};
use ebr_base::{ColType, Name, NoMemory, Stop};
use ebr_names::{ViewColumn, columns};
use ebr_run::VariableType;
use ebr_scope::Seen;
use ebr_sqlcheck::ValueType;
use std::alloc::Global;

/// The column of a name.
pub fn column_among<'a>(columns: &'a [ViewColumn], name: &Name) -> Option<&'a ViewColumn>
    ensures { option_copied result ≡ column_named name.now columns.now }
{
    columns.iter().find(|column| *name == column.name)
}

/// The type of a column of an editioning view or a table.
fn of_column(alloc: Global, seen: &Seen<'_>, n: &Name, m: &Name) -> Result<VariableType, NoMemory>
    ensures { IfOk result (λ ty. ty ≡ spec.of_column (column_of seen.now.view n.now m.now)) }
{
    match columns(alloc, seen.get(), n) {
        Ok(found) => match column_among(found.as_slice(), m) {
            Some(column) => Ok(VariableType::Plain(column.ty)),
            None => Ok(VariableType::Unknown),
        },
        Err(Stop::Raised(_)) => Ok(VariableType::Unknown),
        Err(Stop::NoMemory) => Err(NoMemory),
    }
}

/// The digits of a number's type.
fn digits(size: Option<u64>) -> u8
    ensures { result ≡ spec.digits size }
{
    match size {
        Some(size) => { if size <= 18 { size as u8 } else { 18 } }
        None => 18,
    }
}

/// The length of a text's type.
fn length(size: u64) -> u16
    ensures { result ≡ spec.at_most 32767 size }
{
    if size <= 32767 { size as u16 } else { 32767 }
}

/// The type of a declared variable.
pub fn declared_type(
    alloc: Global,
    seen: &Seen<'_>,
    ty: &DeclaredType,
) -> Result<VariableType, NoMemory>
    ensures { IfOk result (λ found. found ≡ spec.declared_type seen.now.view ty.now) }
{
    match ty {
        DeclaredType::Number(size) => Ok(VariableType::Plain(ColType::Num(digits(*size)))),
        DeclaredType::Integer => Ok(VariableType::Plain(ColType::Num(18))),
        DeclaredType::Varchar2(size) => Ok(VariableType::Plain(ColType::Text(length(*size)))),
        DeclaredType::Boolean => Ok(VariableType::Boolean),
        DeclaredType::OfColumn(n, m) => of_column(alloc, seen, n, m),
    }
}

/// The type of a parameter or of a result.
pub fn parameter_type(
    alloc: Global,
    seen: &Seen<'_>,
    ty: &ParameterType,
) -> Result<VariableType, NoMemory>
    ensures { IfOk result (λ found. found ≡ spec.parameter_type seen.now.view ty.now) }
{
    match ty {
        ParameterType::Number | ParameterType::Integer => {
            Ok(VariableType::Plain(ColType::Num(18)))
        }
        ParameterType::Varchar2 => Ok(VariableType::Plain(ColType::Text(32767))),
        ParameterType::Boolean => Ok(VariableType::Boolean),
        ParameterType::OfColumn(n, m) => of_column(alloc, seen, n, m),
    }
}

/// A type that bounds no value.
pub fn unbounded(ty: Option<ValueType>) -> Option<VariableType>
    ensures { result ≡ option_map spec.unbounded ty }
{
    match ty? {
        ValueType::Number => Some(VariableType::Plain(ColType::Num(18))),
        ValueType::Text => Some(VariableType::Plain(ColType::Text(32767))),
        ValueType::Boolean => Some(VariableType::Boolean),
    }
}
