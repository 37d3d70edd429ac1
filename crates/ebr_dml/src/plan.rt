//! What a statement changes, and how.

use ebr_base::{List, Shared, TableDef};
use ebr_exprtree::Expr;

/// What a statement changes, with columns told by their places in the table, counted from 0.
#[derive(Drop)]
pub struct Plan {
    pub table: TableDef,
    /// The columns of its source, as the table or editioning view has them; an INSERT has no source.
    pub source: List<u16>,
    /// WHERE, over the columns of its source.
    pub filter: Option<Shared<Expr>>,
    pub work: Work,
}

/// What becomes of a row.
#[derive(Drop)]
pub enum Work {
    /// Columns of a row, or of a new one, get values.
    Set(List<Setting>),
    Remove,
}

/// A column, and the expression that gives its value.
#[derive(Drop)]
pub struct Setting {
    pub place: u16,
    pub value: Shared<Expr>,
}
