//! Whether what rows become suits the tables that live.

ghost use Rattle.std.specs.Prelude.{◌≡◌};
ghost use Rattle.std.specs.List.{list_all};
ghost use Rattle.ebr_integrity.specs.Commits as spec;
ghost use Rattle.ebr_recovery.specs.inside.Plans.{suits};

use ebr_base::{Change, Column, Value};
use ebr_tables::Tables;
use ebr_value::{Place, fits};

/// Whether each change is of a table that lives, and what the row becomes fits the table's columns.
pub fn all_suit(tables: &Tables, changes: &[Change]) -> bool
    ensures { result ≡ list_all (suits tables.now.living) changes.now }
{
    changes.iter().all(|c| suits(tables, c))
}

fn suits(tables: &Tables, c: &Change) -> bool
    ensures { result ≡ suits tables.now.living c.now }
{
    let Some(table) = tables.find_id(c.row.table) else {
        return false;
    };
    match &c.values {
        Some(values) => fit_columns(table.columns.as_slice(), values.get().as_slice()),
        None => true,
    }
}

/// Whether there are as many values as columns, each of which fits its column.
fn fit_columns(columns: &[Column], values: &[Value]) -> bool
    ensures { result ≡ spec.fit_columns columns.now values.now }
{
    let mut left = columns;
    let mut taken = values;
    while let Some((column, others)) = left.split_first() {
        let Some((value, rest)) = taken.split_first() else {
            return false;
        };
        if !fits_column(column, value) {
            return false;
        }
        left = others;
        taken = rest;
    }
    taken.is_empty()
}

/// Whether a column takes a value: NULL unless it is NOT NULL, a number of few enough digits, or a text of few enough bytes.
fn fits_column(column: &Column, v: &Value) -> bool
    ensures { result ≡ spec.fits_column column.now v.now }
{
    match v {
        Value::Null => !column.not_null,
        _ => fits(v, &column.ty, Place::Sql).is_none(),
    }
}
