//! The types of columns that `%TYPE` names.

ghost use Rattle.std.specs.Prelude.{◌≡◌, slice_get};
ghost use Rattle.std.specs.Option.{option_copied};
ghost use Rattle.ebr_base.specs.Keys.{table_named};
ghost use Rattle.ebr_names.specs.Columns as definitions;
ghost use Rattle.ebr_sqlcheck.specs.Targets.{column_type};
ghost use Rattle.ebr_scope.specs.Declarations as spec;

use crate::place::Seen;
use ebr_ast::{DeclaredType, EditioningView, ParameterType, UnitTree, ViewItem};
use ebr_base::{Class, Column, Name, TableDef};
use ebr_names::{object, table};
use ebr_sqlcheck::{ValueType, type_of_column};

/// The type of the column m of the editioning view or table n; none where there is no such column. It takes no memory.
#[tactic(auto, unfolding(crate::specs::Declarations::column_type_of))]
pub fn column_type_of(seen: &Seen<'_>, n: &Name, m: &Name) -> Option<ValueType>
    ensures { result ≡ spec.column_type_of seen.now.view n.now m.now }
{
    let v = seen.get();
    match object(v, Class::Unit, n) {
        Some(object) => of_unit(seen, &object.tree, m),
        None => of_table(table(v, n), m),
    }
}

fn of_unit(seen: &Seen<'_>, tree: &UnitTree, m: &Name) -> Option<ValueType>
    ensures { result ≡ column_type (spec.column_among (definitions.unit_columns seen.now.view.tables tree.now) m.now) }
{
    match tree {
        UnitTree::View(view) => of_view(seen, view.get(), m),
        _ => None,
    }
}

fn of_table(def: Option<&TableDef>, m: &Name) -> Option<ValueType>
    ensures { result ≡ column_type (spec.column_among (definitions.columns_of_table (option_copied def.entry)) m.now) }
{
    match def {
        Some(def) => in_table(def.columns.as_slice(), m),
        None => None,
    }
}

/// The type of a table's column.
fn in_table(columns: &[Column], m: &Name) -> Option<ValueType>
    ensures { result ≡ column_type (definitions.column_named m.now (definitions.table_columns 0 columns.now)) }
{
    for column in columns {
        if *m == column.name {
            return Some(type_of_column(column.ty));
        }
    }
    None
}

fn of_view(seen: &Seen<'_>, view: &EditioningView, m: &Name) -> Option<ValueType>
    ensures { result ≡ column_type (spec.column_among (definitions.mapped view.now (table_named view.now.table seen.now.view.tables)) m.now) }
{
    match table(seen.get(), &view.table) {
        Some(base) => in_view(view, base.columns.as_slice(), m),
        None => None,
    }
}

/// The type of a view's column over the columns of its base, which must have all columns of the view.
fn in_view(view: &EditioningView, base: &[Column], m: &Name) -> Option<ValueType>
    ensures { result ≡ column_type (spec.column_among (definitions.view_columns (definitions.table_columns 0 base.now) view.now.names 0 view.now.items) m.now) }
{
    let mut found = None;
    for (at, item) in view.items.as_slice().iter().enumerate() {
        let ty = in_table(base, &item.column)?;
        if found.is_none() && *m == *item_name(view.names.as_slice(), at, item) {
            found = Some(ty);
        }
    }
    found
}

/// The name of the view's column at a place: the listed one, or else the item's alias, or else its column's own.
fn item_name<'a>(names: &'a [Name], at: usize, item: &'a ViewItem) -> &'a Name
    ensures { result.now ≡ definitions.item_name (slice_get names.now at) item.now }
{
    if let Some(name) = names.get(at) {
        return name;
    }
    match &item.alias {
        Some(alias) => alias,
        None => &item.column,
    }
}

/// The type that a declaration has.
pub fn declared_type(seen: &Seen<'_>, ty: &DeclaredType) -> Option<ValueType>
    ensures { result ≡ spec.declared_type seen.now.view ty.now }
{
    match ty {
        DeclaredType::Number(_) | DeclaredType::Integer => Some(ValueType::Number),
        DeclaredType::Varchar2(_) => Some(ValueType::Text),
        DeclaredType::Boolean => Some(ValueType::Boolean),
        DeclaredType::OfColumn(n, m) => column_type_of(seen, n, m),
    }
}

/// The type of a parameter or of a result.
pub fn parameter_type(seen: &Seen<'_>, ty: &ParameterType) -> Option<ValueType>
    ensures { result ≡ spec.parameter_type seen.now.view ty.now }
{
    match ty {
        ParameterType::Number | ParameterType::Integer => Some(ValueType::Number),
        ParameterType::Varchar2 => Some(ValueType::Text),
        ParameterType::Boolean => Some(ValueType::Boolean),
        ParameterType::OfColumn(n, m) => column_type_of(seen, n, m),
    }
}

/// What a function gives.
pub fn result_type(seen: &Seen<'_>, ty: &Option<ParameterType>) -> Option<ValueType>
    ensures { result ≡ spec.result_type seen.now.view ty.now }
{
    match ty {
        Some(ty) => parameter_type(seen, ty),
        None => None,
    }
}
