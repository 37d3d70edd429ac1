//! The columns and the key of a table, off the tree of CREATE TABLE.

ghost use Rattle.std.specs.Prelude.{◌≡◌, ◌≤◌, ◌<◌, ◌^◌, not, length, map, count_by, option_map, IfOk};
ghost use Rattle.std.specs.List.{list_any};
ghost use Rattle.std.specs.Str.{bytes_eq};
ghost use Rattle.ebr_tables.specs.Definitions.{has_repetition};
ghost use Rattle.ebr_columns.specs.Columns as spec;
ghost use Rattle.ebr_columns.specs.inside.Repetition.{IsDistinct};

use ebr_ast::{ColumnConstraint, ColumnTree, DeclaredType};
use ebr_base::{CloneIn, ColType, Column, List, Name, NoMemory, TableDef, TableId};
use indexmap::IndexSet;
use std::alloc::Global;

/// The type of a column; none where no column has it.
pub fn column_type(ty: &DeclaredType) -> Option<ColType>
    ensures { result ≡ spec.column_type ty.now }
{
    match ty {
        DeclaredType::Number(None) | DeclaredType::Integer => Some(ColType::Num(18)),
        DeclaredType::Number(Some(digits)) => number_of_digits(*digits),
        DeclaredType::Varchar2(bytes) => text_of_bytes(*bytes),
        DeclaredType::Boolean | DeclaredType::OfColumn(..) => None,
    }
}

fn number_of_digits(digits: u64) -> Option<ColType>
    ensures { result ≡ spec.number_of_digits digits }
{
    if 1 <= digits && digits <= 18 {
        Some(ColType::Num(digits as u8))
    } else {
        None
    }
}

fn text_of_bytes(bytes: u64) -> Option<ColType>
    ensures { result ≡ spec.text_of_bytes bytes }
{
    if 1 <= bytes && bytes <= 4000 {
        Some(ColType::Text(bytes as u16))
    } else {
        None
    }
}

fn is_primary(constraint: ColumnConstraint) -> bool
    ensures { result ≡ spec.is_primary constraint }
{
    match constraint {
        ColumnConstraint::PrimaryKey => true,
        ColumnConstraint::NotNull => false,
    }
}

fn is_not_null(constraint: ColumnConstraint) -> bool
    ensures { result ≡ spec.is_not_null constraint }
{
    match constraint {
        ColumnConstraint::NotNull => true,
        ColumnConstraint::PrimaryKey => false,
    }
}

fn is_primary_column(column: &ColumnTree) -> bool
    ensures { result ≡ spec.is_primary_column column.now }
{
    has_primary(column.constraints.as_slice())
}

fn has_primary(constraints: &[ColumnConstraint]) -> bool
    ensures { result ≡ list_any spec.is_primary constraints.now }
{
    constraints.iter().any(|constraint| is_primary(*constraint))
}

fn has_not_null(constraints: &[ColumnConstraint]) -> bool
    ensures { result ≡ list_any spec.is_not_null constraints.now }
{
    constraints
        .iter()
        .any(|constraint| is_not_null(*constraint))
}

/// The names of the columns.
pub fn column_names(alloc: Global, columns: &[ColumnTree]) -> Result<List<Name>, NoMemory>
    ensures { IfOk result (λ names. names ≡ spec.column_names columns.now) }
{
    let mut names = List::new(alloc);
    for column in columns {
        names.push(column.name.clone_in(alloc)?)?;
    }
    Ok(names)
}

/// The names of the columns with PRIMARY KEY behind them.
fn keys_behind(alloc: Global, columns: &[ColumnTree]) -> Result<List<Name>, NoMemory>
    ensures { IfOk result (λ names. names ≡ spec.keys_behind columns.now) }
{
    let mut names = List::new(alloc);
    for column in columns {
        if is_primary_column(column) {
            names.push(column.name.clone_in(alloc)?)?;
        }
    }
    Ok(names)
}

/// The names of the key's columns, in its order.
pub fn key_names(
    alloc: Global,
    columns: &[ColumnTree],
    key: &[Name],
) -> Result<List<Name>, NoMemory>
    ensures { IfOk result (λ names. names ≡ spec.key_names columns.now key.now) }
{
    let mut names = keys_behind(alloc, columns)?;
    for name in key {
        names.push(name.clone_in(alloc)?)?;
    }
    Ok(names)
}

/// Whether a table is bad (EBR-0029), by the names of its columns and of its key's columns.
#[tactic(auto, unfolding(crate::specs::Columns::is_bad_table))]
pub fn is_bad_table(
    alloc: Global,
    columns: &[ColumnTree],
    key: &[Name],
    names: &[Name],
    key_names: &[Name],
) -> Result<bool, NoMemory>
    requires names { names.now ≡ spec.column_names columns.now }
    requires key_names { key_names.now ≡ spec.key_names columns.now key.now }
    ensures { IfOk result (λ bad. bad ≡ spec.is_bad_table columns.now key.now) }
{
    let Some(set) = distinct(alloc, names)? else {
        return Ok(true);
    };
    if has_bad_type(columns) || has_two_primary_keys(columns, key, key_names) {
        return Ok(true);
    }
    is_bad_key(alloc, &set, names, key_names)
}

fn has_bad_type(columns: &[ColumnTree]) -> bool
    ensures { result ≡ spec.has_bad_type columns.now }
{
    columns.iter().any(|column| is_bad_type(&column.ty))
}

fn is_bad_type(ty: &DeclaredType) -> bool
    ensures { result ≡ spec.is_bad_type ty.now }
{
    column_type(ty).is_none()
}

fn has_two_primary_keys(columns: &[ColumnTree], key: &[Name], key_names: &[Name]) -> bool
    requires { key_names.now ≡ spec.key_names columns.now key.now }
    ensures { result ≡ spec.has_two_primary_keys columns.now key.now }
{
    let behind = key_names.len() - key.len();
    primary_keys(behind, key) > 1 || has_two_keys_somewhere(columns)
}

/// How many primary keys so many columns and the clause of the table make together.
fn primary_keys(count: usize, key: &[Name]) -> usize
    requires { count < 2 ^ 63 }
    ensures { result ≡ spec.primary_keys count key.now }
{
    match key {
        [] => count,
        [_, ..] => count + 1,
    }
}

fn has_two_keys_somewhere(columns: &[ColumnTree]) -> bool
    ensures { result ≡ list_any spec.has_two_keys columns.now }
{
    columns.iter().any(|column| has_two_keys(column))
}

fn has_two_keys(column: &ColumnTree) -> bool
    ensures { result ≡ spec.has_two_keys column.now }
{
    primary_count(column.constraints.as_slice()) > 1
}

fn primary_count(constraints: &[ColumnConstraint]) -> usize
    ensures { result ≡ count_by spec.is_primary constraints.now }
{
    let mut count = 0;
    for constraint in constraints {
        if is_primary(*constraint) {
            count += 1;
        }
    }
    count
}

/// Whether a key names a column twice or one that isn't there, by the set of the columns' names.
fn is_bad_key(
    alloc: Global,
    set: &IndexSet<Name>,
    columns: &[Name],
    key: &[Name],
) -> Result<bool, NoMemory>
    requires { set.now.keys ≡ columns.now }
    ensures { IfOk result (λ bad. bad ≡ spec.is_bad_key columns.now key.now) }
{
    if distinct(alloc, key)?.is_none() {
        return Ok(true);
    }
    Ok(names_another(set, key))
}

/// Whether one of the key's names is that of no column.
fn names_another(columns: &IndexSet<Name>, key: &[Name]) -> bool
    ensures { result ≡ list_any (λ name. not (spec.is_among columns.now.keys name)) key.now }
{
    key.iter().any(|name| !has_name(columns, name))
}

fn has_name(names: &IndexSet<Name>, name: &Name) -> bool
    ensures { result ≡ spec.is_among names.now.keys name.now }
{
    names.contains(name)
}

/// The names as a set, in their order; none where one stands twice.
fn distinct(alloc: Global, names: &[Name]) -> Result<Option<IndexSet<Name>>, NoMemory>
    ensures { IfOk result (λ found. IsDistinct names.now (option_map (λ set. set.keys) found)) }
{
    let mut set = IndexSet::new(alloc);
    for name in names {
        if !set.insert(name.clone_in(alloc)?)? {
            return Ok(None);
        }
    }
    Ok(Some(set))
}

/// Whether a name stands among others.
fn is_among(names: &[Name], name: &Name) -> bool
    ensures { result ≡ spec.is_among names.now name.now }
{
    names.iter().any(|other| *name == *other)
}

/// Whether a name stands twice. Its work is quadratic in the number of different names.
pub fn repeats_a_name(names: &[Name]) -> bool
    ensures { result ≡ has_repetition bytes_eq names.now }
{
    let mut left = names;
    while let Some((first, rest)) = left.split_first() {
        if is_among(rest, first) {
            return true;
        }
        left = rest;
    }
    false
}

/// The place of a column: how many stand before it.
fn place_of(columns: &[Name], name: &Name) -> usize
    ensures place { result ≡ spec.place_of columns.now name.now }
    ensures within { result ≤ length columns.now }
{
    columns
        .iter()
        .take_while(|column| *name != **column)
        .count()
}

/// The columns of a table. Those of its key aren't made NOT NULL yet.
fn columns_of(alloc: Global, columns: &[ColumnTree]) -> Result<List<Column>, NoMemory>
    ensures { IfOk result (λ made. made ≡ map spec.column_of columns.now) }
{
    let mut made = List::new(alloc);
    for column in columns {
        made.push(column_of(alloc, column)?)?;
    }
    Ok(made)
}

fn column_of(alloc: Global, column: &ColumnTree) -> Result<Column, NoMemory>
    ensures { IfOk result (λ made. made ≡ spec.column_of column.now) }
{
    Ok(Column {
        name: column.name.clone_in(alloc)?,
        ty: column_type(&column.ty).unwrap_or(ColType::Num(18)),
        not_null: has_not_null(column.constraints.as_slice()),
    })
}

/// The places of the key's columns.
fn places_of(alloc: Global, columns: &[Name], key: &[Name]) -> Result<List<u16>, NoMemory>
    requires { length columns.now ≤ 64 }
    ensures { IfOk result (λ places. places ≡ map (spec.place_of columns.now) key.now) }
{
    let mut places = List::new(alloc);
    for name in key {
        places.push(place_of(columns, name) as u16)?;
    }
    Ok(places)
}

/// The table that CREATE TABLE defines, before it has an id and its key's columns are NOT NULL, by the names of its columns
/// and of its key's columns.
#[tactic(auto, unfolding(crate::specs::Columns::table_of))]
pub fn table_of(
    alloc: Global,
    name: &Name,
    columns: &[ColumnTree],
    key: &[Name],
    names: &[Name],
    key_names: &[Name],
) -> Result<TableDef, NoMemory>
    requires few { length columns.now ≤ 64 }
    requires names { names.now ≡ spec.column_names columns.now }
    requires key_names { key_names.now ≡ spec.key_names columns.now key.now }
    ensures { IfOk result (λ def. def ≡ spec.table_of name.now columns.now key.now) }
{
    let columns = columns_of(alloc, columns)?;
    let key = places_of(alloc, names, key_names)?;
    Ok(TableDef {
        id: TableId(0),
        name: name.clone_in(alloc)?,
        columns,
        key,
    })
}
