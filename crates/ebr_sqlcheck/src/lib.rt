//! The checks of a SQL statement against what an edition sees.
//!
//! What is used above: `check_sql` finds what `checked_with` of `specs/Statements.antt` says, for a statement of a session.
//! For a statement inside a unit, `Variables` tells what a name is that is no column, and `check_query`, `check_insert`,
//! `check_update` and `check_delete` are `query_check` and so on; `relations` tells the sources of a query, `Relations` finds
//! them by name, `column_meant` tells which column a name is, `has_aggregate` whether a list has an aggregate, and `typed` the
//! type of an expression.
//!
//! That calls succeed with ample memory is tested alone (`ebr_parsetests`, and the cases).
#![tactic(auto)]

mod aggregate;
mod change;
mod check;
mod function;
mod lookup;
mod mention;
mod query;
mod relation;
mod target;
mod typing;
mod value_type;
mod variables;
mod verdict;

pub use aggregate::has_aggregate;
pub use change::{check_delete, check_insert, check_update};
pub use check::{check_sql, check_tree};
pub use function::{builtin_type, taken, takes_any_type, takes_count};
pub use lookup::{Relations, Start, column_meant};
pub use mention::names_in;
pub use query::check_query;
pub use relation::{Meant, Relation, only_relation, relations};
pub use target::named_type;
pub use typing::{adds, compares, sum_type, typed};
pub use value_type::{
    ValueType, alike, first_known, is_plain, type_in, type_of_column, type_of_text, type_of_value,
};
pub use variables::{Binds, Variables};
