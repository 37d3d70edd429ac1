//! Rows that a statement takes.

use ebr_base::{List, RowNo, Shared, Value};

/// A row that a statement takes, with its values as they were seen at its start.
#[derive(Drop)]
pub struct Taken {
    /// The row's number; the row that an INSERT adds has none.
    pub row: Option<RowNo>,
    pub values: Shared<List<Value>>,
}
