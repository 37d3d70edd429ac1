//! The columns behind a name.

ghost use Rattle.std.specs.Prelude.{◌≡◌, slice_get, option_map, IfOk};
ghost use Rattle.ebr_base.specs.Answers.{Answers};
ghost use Rattle.ebr_base.specs.Keys.{table_named};
ghost use Rattle.ebr_ast.specs.Views.{IsInOrder};
ghost use Rattle.ebr_names.specs.Columns.{table_columns, column_named, item_name, item_column, view_columns, mapped, unit_columns, columns_of_table, columns_named};

use crate::lookup::{object, table};
use ebr_ast::{EditionView, EditioningView, UnitTree, ViewItem};
use ebr_base::{Class, CloneIn, Code, ColType, Column, List, Name, NoMemory, Stop};
use std::alloc::Global;

/// A column of a table, or of an editioning view, which is its base's column under another name.
#[derive(Drop)]
pub struct ViewColumn {
    pub name: Name,
    /// Its place among the columns of the table, counted from 0.
    pub place: u16,
    pub ty: ColType,
}

/// The columns of a table, or those that an editioning view selects, with their places in its base as they are now.
///
/// Refused: ORA-00942 where the name means neither an editioning view nor a table, or the view's base isn't a table;
/// ORA-00904 where the base has lost a column. It finds no memory where a place is above 65,535.
///
/// Oracle Database Development Guide 19c, Using Edition-Based Redefinition, Editioning Views.
pub fn columns(alloc: Global, v: &EditionView, n: &Name) -> Result<List<ViewColumn>, Stop>
    requires { IsInOrder v.now }
    ensures { Answers result (columns_named v.now n.now) }
{
    match object(v, Class::Unit, n) {
        Some(object) => unit_columns(alloc, v, &object.tree),
        None => named_table(alloc, v, n),
    }
}

/// The columns behind an object of class Unit.
fn unit_columns(alloc: Global, v: &EditionView, tree: &UnitTree) -> Result<List<ViewColumn>, Stop>
    ensures { Answers result (unit_columns v.now.tables tree.now) }
{
    match tree {
        UnitTree::View(view) => mapped(alloc, v, view.get()),
        _ => Err(Stop::Raised(Code::Ora(942))),
    }
}

fn named_table(alloc: Global, v: &EditionView, n: &Name) -> Result<List<ViewColumn>, Stop>
    ensures { Answers result (columns_of_table (table_named n.now v.now.tables)) }
{
    match table(v, n) {
        Some(def) => Ok(table_columns(alloc, def.columns.as_slice())?),
        None => Err(Stop::Raised(Code::Ora(942))),
    }
}

/// The columns of a table.
fn table_columns(alloc: Global, columns: &[Column]) -> Result<List<ViewColumn>, NoMemory>
    ensures { IfOk result (λ found. found ≡ table_columns 0 columns.now) }
{
    let mut found = List::new(alloc);
    for (place, column) in columns.iter().enumerate() {
        found.push(column_at(alloc, &column.name, place, column.ty)?)?;
    }
    Ok(found)
}

/// A column under a name; it finds no memory where the place is above 65,535.
fn column_at(alloc: Global, name: &Name, place: usize, ty: ColType) -> Result<ViewColumn, NoMemory>
    ensures { IfOk result (λ column. column ≡ record { name = name.now; place = place; ty = ty }) }
{
    if place > 65535 {
        return Err(NoMemory);
    }
    let name = name.clone_in(alloc)?;
    Ok(ViewColumn {
        name,
        place: place as u16,
        ty,
    })
}

/// The columns of an editioning view, mapped to its base, which is looked up among tables alone.
fn mapped(alloc: Global, v: &EditionView, view: &EditioningView) -> Result<List<ViewColumn>, Stop>
    ensures { Answers result (mapped view.now (table_named view.now.table v.now.tables)) }
{
    match table(v, &view.table) {
        Some(base) => view_columns(alloc, view, base.columns.as_slice()),
        None => Err(Stop::Raised(Code::Ora(942))),
    }
}

fn view_columns(
    alloc: Global,
    view: &EditioningView,
    columns: &[Column],
) -> Result<List<ViewColumn>, Stop>
    ensures { Answers result (view_columns (table_columns 0 columns.now) view.now.names 0 view.now.items) }
{
    let mut found = List::new(alloc);
    for (at, item) in view.items.as_slice().iter().enumerate() {
        let name = item_name(view.names.as_slice(), at, item);
        found.push(item_column(alloc, columns, name, &item.column)?)?;
    }
    Ok(found)
}

/// The name of the view's column at a place: the listed one, or else the item's alias, or else its column's own.
fn item_name<'a>(names: &'a [Name], at: usize, item: &'a ViewItem) -> &'a Name
    ensures { result.now ≡ item_name (slice_get names.now at) item.now }
{
    if let Some(name) = names.get(at) {
        return name;
    }
    match &item.alias {
        Some(alias) => alias,
        None => &item.column,
    }
}

/// The column of a table that an item selects, under a name.
fn item_column(
    alloc: Global,
    columns: &[Column],
    name: &Name,
    column: &Name,
) -> Result<ViewColumn, Stop>
    ensures { Answers result (item_column name.now (column_named column.now (table_columns 0 columns.now))) }
{
    match find_column(columns, column) {
        Some((place, ty)) => Ok(column_at(alloc, name, place, ty)?),
        None => Err(Stop::Raised(Code::Ora(904))),
    }
}

/// The place and the type of the column of a name.
fn find_column(columns: &[Column], name: &Name) -> Option<(usize, ColType)>
    ensures { result ≡ option_map (λ (c : ViewColumn). (c.place, c.ty)) (column_named name.now (table_columns 0 columns.now)) }
{
    for (place, column) in columns.iter().enumerate() {
        if *name == column.name {
            return Some((place, column.ty));
        }
    }
    None
}
