//! Whether rows fit what takes them.

ghost use Rattle.std.specs.Prelude.{◌≡◌};
ghost use Rattle.ebr_run.specs.Cursors as spec;
ghost use Rattle.ebr_memory.specs.Rows as fit;

use ebr_base::{List, Value};
use ebr_sqlcheck::{ValueType, alike, type_of_value};

/// Whether the first row fits.
pub fn first_fits(types: &List<Option<ValueType>>, rows: &List<List<Value>>) -> bool
    ensures { result ≡ fit.first_fits types.now rows.now }
{
    match rows.get(0) {
        Some(row) => row_fits(types.as_slice(), row.as_slice()),
        None => false,
    }
}

/// Whether a row has a value for each type, and each is of its type.
pub fn row_fits(types: &[Option<ValueType>], row: &[Value]) -> bool
    ensures { result ≡ spec.row_fits types.now row.now }
{
    let mut left = types;
    for value in row {
        match left.split_first() {
            Some((ty, rest)) => {
                if !alike(*ty, type_of_value(value)) {
                    return false;
                }
                left = rest;
            }
            None => return false,
        }
    }
    match left.split_first() {
        Some(_) => false,
        None => true,
    }
}
