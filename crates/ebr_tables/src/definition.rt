//! Which definitions of tables are allowed, and how they are kept.

ghost use Rattle.std.specs.Prelude.{◌≡◌, nat_eq, nat_le, IfOk};
ghost use Rattle.std.specs.List.{list_any};
ghost use Rattle.std.specs.Str.{bytes_eq};
ghost use Rattle.ebr_tables.specs.Definitions.{has_repetition, same_name, is_bad_size, is_bad_key, is_bad_table, is_bad_column, with_key_not_null};

use ebr_base::{CloneIn, ColType, Column, List, Name, NoMemory, TableDef};
use std::alloc::Global;

/// Whether a definition is bad (EBR-0029): a column named twice, a NUMBER of a size outside 1 to 18, a VARCHAR2 of
/// one outside 1 to 4,000, or a key that names a column twice or a place where there is no column.
///
/// A column of BOOLEAN or of another column's type, and a second primary key, are bad too, but no `TableDef` holds
/// one: who reads the statement tests them.
pub fn is_bad_table(def: &TableDef) -> bool
    ensures { result ≡ is_bad_table def.now }
{
    repeats_a_name(def.columns.as_slice())
        || has_bad_size(def.columns.as_slice())
        || is_bad_key(def.columns.len(), def.key.as_slice())
}

/// Whether one more column is bad (EBR-0029): its name is there already, or its size is out of its bounds.
pub fn is_bad_column(columns: &[Column], column: &Column) -> bool
    ensures { result ≡ is_bad_column columns.now column.now }
{
    has_column(columns, &column.name) || is_bad_size(column.ty)
}

fn has_column(columns: &[Column], name: &Name) -> bool
    ensures { result ≡ list_any (λ c. bytes_eq name.now c.name) columns.now }
{
    columns.iter().any(|column| *name == column.name)
}

/// Whether a column is named twice. Its work is quadratic in the number of columns.
fn repeats_a_name(columns: &[Column]) -> bool
    ensures { result ≡ has_repetition same_name columns.now }
{
    let mut left = columns;
    while let Some((first, rest)) = left.split_first() {
        if has_column(rest, &first.name) {
            return true;
        }
        left = rest;
    }
    false
}

fn has_bad_size(columns: &[Column]) -> bool
    ensures { result ≡ list_any (λ c. is_bad_size c.ty) columns.now }
{
    columns.iter().any(|column| is_bad_size(column.ty))
}

fn is_bad_size(ty: ColType) -> bool
    ensures { result ≡ is_bad_size ty }
{
    match ty {
        ColType::Num(digits) => !(1 <= digits && digits <= 18),
        ColType::Text(bytes) => !(1 <= bytes && bytes <= 4000),
    }
}

fn is_bad_key(columns: usize, key: &[u16]) -> bool
    ensures { result ≡ is_bad_key columns key.now }
{
    repeats_a_place(key) || has_place_from(columns, key)
}

fn has_place_from(columns: usize, key: &[u16]) -> bool
    ensures { result ≡ list_any (nat_le columns) key.now }
{
    key.iter().any(|place| columns <= usize::from(*place))
}

/// Whether a place stands in the key twice. Its work is quadratic in the number of places.
fn repeats_a_place(key: &[u16]) -> bool
    ensures { result ≡ has_repetition nat_eq key.now }
{
    let mut left = key;
    while let Some((first, rest)) = left.split_first() {
        if has_place(rest, usize::from(*first)) {
            return true;
        }
        left = rest;
    }
    false
}

fn has_place(key: &[u16], place: usize) -> bool
    ensures { result ≡ list_any (nat_eq place) key.now }
{
    key.iter().any(|other| place == usize::from(*other))
}

/// A copy of the columns, NOT NULL where the key has their place.
pub fn with_key_not_null(
    alloc: Global,
    columns: &[Column],
    key: &[u16],
) -> Result<List<Column>, NoMemory>
    ensures { IfOk result (λ kept. kept ≡ with_key_not_null key.now 0 columns.now) }
{
    let mut kept = List::new(alloc);
    for (place, column) in columns.iter().enumerate() {
        kept.push(Column {
            name: column.name.clone_in(alloc)?,
            ty: column.ty,
            not_null: column.not_null || has_place(key, place),
        })?;
    }
    Ok(kept)
}
