//! Syntax trees of SQL and PL/SQL, and what an edition sees of the catalogue.
//!
//! What is used above: the types, and the contracts of `PackageItems` and `Subprograms`, whose look-ups by name give what going
//! through the list would. A tree is copied by its `Shared`.
//!
//! That these are made and copied with ample memory is tested alone (the cases).
#![tactic(auto)]

mod definition;
mod kinds;
mod notes;
mod package;
mod query;
mod sql;
mod statement;
mod unit;
mod view;

pub use definition::{ColumnConstraint, ColumnTree, Definition, ObjectKind, Statement};
pub use ebr_exprtree::{Addend, AdditiveOperator, Attribute, Comparison, Expr, Op, Path, RowImage};
pub use kinds::{Origin, Timing};
pub use package::{PackageItems, Subprograms};
pub use query::{Aggregate, Item, ItemKind, Query, SelectList, SortKey, Source};
pub use sql::{Assignment, Delete, Insert, SqlTree, Transaction, Update};
pub use statement::{
    Block, Branch, Caught, CursorStmt, Decl, DeclaredType, Handler, Range, Rows, RowsFrom, SqlStmt,
    Stmt, Target,
};
pub use unit::{
    Direction, EditioningView, Head, Mode, PackageBody, PackageItem, Parameter, ParameterType,
    Subprogram, Trigger, UnitTree, ViewItem,
};
pub use view::{EditionView, Object};
