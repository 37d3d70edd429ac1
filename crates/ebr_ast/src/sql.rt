//! SQL statements.

use crate::query::Query;
use ebr_base::{List, Name, Shared};
use ebr_exprtree::Expr;

/// A statement that reads or changes rows.
#[derive(Drop)]
pub enum SqlTree {
    Query(Shared<Query>),
    Insert(Shared<Insert>),
    Update(Shared<Update>),
    Delete(Shared<Delete>),
    /// `APPLY TRIGGER n` (own).
    Apply(Name),
}

/// `INSERT INTO table (columns) VALUES (values)`; without columns it is all of them.
#[derive(Drop)]
pub struct Insert {
    pub table: Name,
    pub columns: List<Name>,
    pub values: List<Shared<Expr>>,
}

/// `UPDATE table alias SET sets WHERE filter`.
#[derive(Drop)]
pub struct Update {
    pub table: Name,
    pub alias: Option<Name>,
    pub sets: List<Assignment>,
    pub filter: Option<Shared<Expr>>,
}

/// `column = value`.
#[derive(Drop)]
pub struct Assignment {
    pub column: Name,
    pub value: Shared<Expr>,
}

/// `DELETE FROM table alias WHERE filter`.
#[derive(Drop)]
pub struct Delete {
    pub table: Name,
    pub alias: Option<Name>,
    pub filter: Option<Shared<Expr>>,
}

/// A statement that ends a transaction or goes back in it.
#[derive(Drop)]
pub enum Transaction {
    Commit,
    Rollback,
    /// `ROLLBACK TO SAVEPOINT n`.
    RollbackTo(Name),
    Savepoint(Name),
}
