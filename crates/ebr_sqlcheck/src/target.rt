//! The columns that an INSERT or an UPDATE names.

ghost use Rattle.std.specs.Prelude.{◌≡◌, map};
ghost use Rattle.std.specs.List.{list_any};
ghost use Rattle.std.specs.Option.{option_copied};
ghost use Rattle.std.specs.Str.{bytes_eq};
ghost use Rattle.ebr_names.specs.Columns.{column_named};
ghost use Rattle.ebr_sqlcheck.specs.Checked.{must_be_there};
ghost use Rattle.ebr_sqlcheck.specs.Targets as spec;
ghost use Rattle.ebr_sqlcheck.specs.Statements.{set_column};

use crate::relation::find_column;
use crate::value_type::{ValueType, type_of_column};
use crate::verdict::{MISCOUNTED, must, must_be_there};
use ebr_ast::Assignment;
use ebr_base::{Code, Name};
use ebr_names::ViewColumn;

/// Whether a column is there, and, where it is, not among those named before it.
fn target(columns: &[ViewColumn], name: &Name, is_named: bool) -> Result<(), Code>
    ensures { result ≡ spec.target columns.now is_named name.now }
{
    is_column(columns, name)?;
    must(MISCOUNTED, !is_named)
}

fn is_column(columns: &[ViewColumn], name: &Name) -> Result<(), Code>
    ensures { result ≡ must_be_there (column_named name.now columns.now) }
{
    must_be_there(find_column(columns, name))
}

fn is_among(names: &[Name], name: &Name) -> bool
    ensures { result ≡ list_any (bytes_eq name.now) names.now }
{
    names.iter().any(|other| *name == *other)
}

fn is_set(sets: &[Assignment], name: &Name) -> bool
    ensures { result ≡ list_any (bytes_eq name.now) (map set_column sets.now) }
{
    for set in sets {
        if *name == set.column {
            return true;
        }
    }
    false
}

/// The columns that an INSERT names: each is there (ORA-00904), and none is twice there (EBR-0019).
pub fn targets(columns: &[ViewColumn], names: &[Name]) -> Result<(), Code>
    ensures { result ≡ spec.targets columns.now names.now }
{
    for (at, name) in names.iter().enumerate() {
        target(columns, name, is_among(&names[..at], name))?;
    }
    Ok(())
}

/// The same of the columns that an UPDATE sets.
pub fn set_targets(columns: &[ViewColumn], sets: &[Assignment]) -> Result<(), Code>
    ensures { result ≡ spec.targets columns.now (map set_column sets.now) }
{
    for (at, set) in sets.iter().enumerate() {
        target(columns, &set.column, is_set(&sets[..at], &set.column))?;
    }
    Ok(())
}

/// Whether an INSERT has as many values as columns (EBR-0019): those that it names, or all where it names none.
pub fn values_for_targets(columns: &[ViewColumn], names: &[Name], count: usize) -> Result<(), Code>
    ensures { result ≡ spec.values_for_targets columns.now names.now count }
{
    must(MISCOUNTED, count == target_count(columns, names))
}

fn target_count(columns: &[ViewColumn], names: &[Name]) -> usize
    ensures { result ≡ spec.target_count columns.now names.now }
{
    if names.is_empty() {
        columns.len()
    } else {
        names.len()
    }
}

/// The type of the column that the value at a place of an INSERT is for.
pub fn target_type(columns: &[ViewColumn], names: &[Name], at: usize) -> Option<ValueType>
    ensures { result ≡ spec.target_type columns.now names.now at }
{
    if names.is_empty() {
        column_type(columns.get(at))
    } else {
        listed_type(columns, names.get(at))
    }
}

fn listed_type(columns: &[ViewColumn], name: Option<&Name>) -> Option<ValueType>
    ensures { result ≡ spec.named_type columns.now (option_copied name.entry) }
{
    match name {
        Some(name) => named_type(columns, name),
        None => None,
    }
}

/// The type of the column of a name.
pub fn named_type(columns: &[ViewColumn], name: &Name) -> Option<ValueType>
    ensures { result ≡ spec.column_type (column_named name.now columns.now) }
{
    column_type(find_column(columns, name))
}

fn column_type(column: Option<&ViewColumn>) -> Option<ValueType>
    ensures { result ≡ spec.column_type (option_copied column.entry) }
{
    match column {
        Some(column) => Some(type_of_column(column.ty)),
        None => None,
    }
}
