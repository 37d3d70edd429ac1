//! The checks of a statement.

ghost use Rattle.ebr_base.specs.Answers.{Answers};
ghost use Rattle.ebr_ast.specs.Views.{IsInOrder};
ghost use Rattle.ebr_sqlcheck.specs.Statements as spec;

use crate::change::{check_delete, check_insert, check_update};
use crate::query::check_query;
use crate::variables::{Binds, Variables};
use ebr_ast::{EditionView, SqlTree};
use ebr_base::{Stop, Value};
use std::alloc::Global;

/// The checks of a session's statement against what an edition sees. Each bind has its value's type, and no name but a
/// column is known.
///
/// The code is that of the first fault of the first check that finds one, as `check_query`, `check_insert`,
/// `check_update` and `check_delete` list them; APPLY TRIGGER has nothing to check here.
pub fn check_sql(alloc: Global, v: &EditionView, s: &SqlTree, binds: &[Value]) -> Result<(), Stop>
    requires { IsInOrder v.now }
    // Nothing is refused exactly where no check finds a fault, unless memory runs out.
    ensures { Answers result (spec.checked_with v.now binds.now s.now) }
{
    check_tree(alloc, v, s, &Binds { values: binds })
}

/// The same checks, where it is told what names are that are no columns.
pub fn check_tree<V: Variables>(
    alloc: Global,
    v: &EditionView,
    s: &SqlTree,
    others: &V,
) -> Result<(), Stop>
    requires { IsInOrder v.now }
    ensures { Answers result (spec.checked v.now (V.others others.now) s.now) }
{
    match s {
        SqlTree::Query(query) => check_query(alloc, v, query.get(), others),
        SqlTree::Insert(insert) => check_insert(alloc, v, insert.get(), others),
        SqlTree::Update(update) => check_update(alloc, v, update.get(), others),
        SqlTree::Delete(delete) => check_delete(alloc, v, delete.get(), others),
        SqlTree::Apply(_) => Ok(()),
    }
}
