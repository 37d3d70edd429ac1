//! What a statement gives, step by step.

use ebr_base::{List, Value};

/// A row of a statement before its triggers, or its end. Rows have a value for each column of the table.
#[derive(Drop)]
pub enum DmlStep {
    /// The row as it was, and as it is to become, for BEFORE triggers.
    Before { old: List<Value>, new: List<Value> },
    /// The row as it was, and as it has become, for AFTER triggers.
    After { old: List<Value>, new: List<Value> },
    /// All rows are changed; there were so many.
    Finished(u64),
}
