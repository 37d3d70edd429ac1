//! The tests of a row's columns.

ghost use Rattle.std.specs.Prelude.{◌≡◌};
ghost use Rattle.ebr_dml.specs.Tests as spec;

use crate::value::value_at;
use ebr_base::{Code, Column, TableDef, Value};
use ebr_value::{Place, fits};

fn is_null(v: &Value) -> bool
    ensures { result ≡ spec.is_null v.now }
{
    match v {
        Value::Null => true,
        _ => false,
    }
}

/// What refuses a value in a column: NULL where it takes none, and then ORA-12899 or ORA-01438.
fn column_refusal(missing: Code, column: &Column, value: &Value) -> Option<Code>
    ensures { result ≡ spec.column_refusal missing column.now value.now }
{
    if column.not_null && is_null(value) {
        return Some(missing);
    }
    fits(value, &column.ty, Place::Sql)
}

/// The first code that refuses a value in its column, column after column.
pub fn columns_refusal(missing: Code, table: &TableDef, values: &[Value]) -> Option<Code>
    ensures { result ≡ spec.columns_refusal missing table.now values.now }
{
    for (at, column) in table.columns.as_slice().iter().enumerate() {
        let value = value_at(values, at);
        let refusal = column_refusal(missing, column, value.get());
        if refusal.is_some() {
            return refusal;
        }
    }
    None
}
