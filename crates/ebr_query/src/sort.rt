//! The rows of a query in the order of ORDER BY, by their numbers.

ghost use Rattle.std.specs.Prelude.{◌≡◌, map, IfOk};
ghost use Rattle.ebr_base.specs.Answers.{Answers};
ghost use Rattle.ebr_query.specs.Rows as rows;
ghost use Rattle.ebr_query.specs.Results as spec;
ghost use Rattle.ebr_query.specs.inside.Numbers.{StandsFor, row_numbered, rows_numbered, keyed_row};

use crate::order::{KeyedRow, in_order};
use crate::product::row_numbered;
use crate::row::SeenRow;
use ebr_ast::SortKey;
use ebr_base::{List, NoMemory, Stop, Value};
use ebr_expr::{Row, eval};
use std::alloc::Global;

/// The keys of a row.
fn keys_of(
    alloc: Global,
    keys: &[SortKey],
    row: &Row<'_, '_>,
    binds: &[Value],
) -> Result<List<Value>, Stop>
    ensures { Answers result (spec.keys_of keys.now binds.now row.now) }
{
    let mut values = List::new(alloc);
    for key in keys {
        values.push(eval(alloc, key.key.get(), row, binds)?)?;
    }
    Ok(values)
}

/// The rows with these numbers, with their keys.
fn keyed(
    alloc: Global,
    sources: &[List<SeenRow<'_>>],
    size: usize,
    keys: &[SortKey],
    binds: &[Value],
    numbers: &[usize],
) -> Result<List<KeyedRow>, Stop>
    requires { size ≡ rows.product_size sources.now }
    ensures { StandsFor (keyed_row sources.now) result (spec.all (map (spec.keyed keys.now binds.now) (rows_numbered sources.now numbers.now))) }
{
    let mut found = List::new(alloc);
    for n in numbers {
        let row = row_numbered(alloc, sources, size, *n)?;
        let values = keys_of(alloc, keys, &row, binds)?;
        found.push(KeyedRow {
            keys: values,
            at: *n,
        })?;
    }
    Ok(found)
}

/// Which of the keys are in descending order.
fn directions(alloc: Global, keys: &[SortKey]) -> Result<List<bool>, NoMemory>
    ensures { IfOk result (λ all. all ≡ map (λ (k : SortKey). k.descending) keys.now) }
{
    let mut all = List::new(alloc);
    for key in keys {
        all.push(key.descending)?;
    }
    Ok(all)
}

/// The numbers of rows.
fn numbers_of(alloc: Global, rows: &[KeyedRow]) -> Result<List<usize>, NoMemory>
    ensures { IfOk result (λ all. all ≡ map (λ (k : KeyedRow). k.at) rows.now) }
{
    let mut all = List::new(alloc);
    for row in rows {
        all.push(row.at)?;
    }
    Ok(all)
}

/// The numbers of these rows in the order of their keys, by which they stay as they are where there is none.
pub fn ordered(
    alloc: Global,
    sources: &[List<SeenRow<'_>>],
    size: usize,
    keys: &[SortKey],
    binds: &[Value],
    numbers: List<usize>,
) -> Result<List<usize>, Stop>
    requires { size ≡ rows.product_size sources.now }
    ensures { StandsFor (row_numbered sources.now) result (spec.ordered keys.now binds.now (rows_numbered sources.now numbers)) }
{
    if keys.is_empty() {
        return Ok(numbers);
    }
    let rows = keyed(alloc, sources, size, keys, binds, numbers.as_slice())?;
    let directions = directions(alloc, keys)?;
    let sorted = in_order(rows.into_vec(), directions.as_slice())?;
    Ok(numbers_of(alloc, sorted.as_slice())?)
}
