//! The binds of a statement.

ghost use Rattle.std.specs.Prelude.{◌≡◌, ◌++◌, length, IfOk, OnOk};
ghost use Rattle.ebr_places.specs.Lent.{bound};
ghost use Rattle.ebr_run.specs.Binds as spec;
ghost use Rattle.ebr_sqlcheck.specs.Sources.{relations_of};
ghost use Rattle.ebr_sqlcheck.specs.Statements.{only_relation};
ghost use Rattle.ebr_binds.specs.inside.Changes as changes;

use crate::copy::sources;
use crate::expressions::expressions;
use crate::parts::{keys, maybe, select_list, sets};
use ebr_ast::{Delete, Insert, Query, Update};
use ebr_base::{CloneIn, List, Name, NoMemory, Shared, Stop, both};
use ebr_places::{Around, Bound};
use ebr_run::Bind;
use ebr_sqlcheck::{Relation, Relations, only_relation, relations};
use std::alloc::Global;

/// The sources of a query; none where one of them isn't there.
fn query_relations<'q>(
    alloc: Global,
    around: &Around<'_>,
    q: &'q Query,
) -> Result<List<Relation<'q>>, NoMemory>
    ensures { IfOk result (λ relations. relations ≡ spec.or_none (relations_of around.now.view q.now.sources)) }
{
    match relations(alloc, around.seen().get(), q.sources.as_slice()) {
        Ok(found) => Ok(found),
        Err(Stop::Raised(_)) => Ok(List::new(alloc)),
        Err(Stop::NoMemory) => Err(NoMemory),
    }
}

/// The table of a change as its one source; none where it isn't there.
fn table_relation<'t>(
    alloc: Global,
    around: &Around<'_>,
    table: &'t Name,
    alias: &'t Option<Name>,
) -> Result<List<Relation<'t>>, NoMemory>
    ensures { IfOk result (λ relations. relations ≡ spec.or_no_relation (only_relation around.now.view table.now alias.now)) }
{
    let mut found = List::new(alloc);
    match only_relation(alloc, around.seen().get(), table, alias) {
        Ok(relation) => found.push(relation)?,
        Err(Stop::Raised(_)) => {}
        Err(Stop::NoMemory) => return Err(NoMemory),
    }
    Ok(found)
}

/// A statement and its binds.
fn with_binds<T: Drop>(
    alloc: Global,
    tree: Shared<T>,
    binds: List<Bind>,
) -> Result<Bound<T>, NoMemory>
    ensures { IfOk result (λ b. bound b ≡ record { tree = tree; binds = binds }) }
{
    let binds = Shared::new(alloc, binds)?;
    Ok(Bound { tree, binds })
}

/// A query over its sources.
fn query_over(
    alloc: Global,
    q: &Query,
    relations: &Relations<'_, '_>,
    around: &Around<'_>,
    binds: &mut List<Bind>,
) -> Result<Shared<Query>, NoMemory>
    ensures tree { IfOk result (λ tree. tree ≡ (spec.bound_over q.now relations.now around.now (length binds.old)).tree) }
    ensures binds { OnOk result (binds.new ≡ binds.old ++ (spec.bound_over q.now relations.now around.now (length binds.old)).binds) }
{
    let sources = sources(alloc, &q.sources)?;
    let list = select_list(alloc, &q.list, relations, around, binds)?;
    let filter = maybe(alloc, &q.filter, relations, around, binds)?;
    let order = keys(alloc, &q.order, relations, around, binds)?;
    Shared::new(
        alloc,
        Query {
            list,
            sources,
            filter,
            order,
            for_update: q.for_update,
        },
    )
}

/// A query with its binds.
pub fn query(alloc: Global, around: &Around<'_>, q: &Query) -> Result<Bound<Query>, NoMemory>
    ensures { IfOk result (λ b. bound b ≡ spec.bound_query around.now q.now) }
{
    let found = query_relations(alloc, around, q)?;
    let relations = Relations::of(alloc, found.as_slice())?;
    let mut binds = List::new(alloc);
    let tree = query_over(alloc, q, &relations, around, &mut binds)?;
    with_binds(alloc, tree, binds)
}

/// An INSERT with its binds. No source has a column in its values.
pub fn insert(alloc: Global, around: &Around<'_>, i: &Insert) -> Result<Bound<Insert>, NoMemory>
    ensures { IfOk result (λ b. bound b ≡ spec.bound_insert around.now i.now) }
{
    let (table, columns) = both(alloc, &i.table, &i.columns)?;
    let mut binds = List::new(alloc);
    let none = Relations::none();
    let values = expressions(alloc, &i.values, &none, around, &mut binds)?;
    let tree = Shared::new(
        alloc,
        Insert {
            table,
            columns,
            values,
        },
    )?;
    with_binds(alloc, tree, binds)
}

/// An UPDATE of a table that is its one source.
fn update_over(
    alloc: Global,
    u: &Update,
    relations: &Relations<'_, '_>,
    around: &Around<'_>,
    binds: &mut List<Bind>,
) -> Result<Shared<Update>, NoMemory>
    ensures tree { IfOk result (λ tree. tree ≡ (changes.update_over u.now relations.now around.now (length binds.old)).tree) }
    ensures binds { OnOk result (binds.new ≡ binds.old ++ (changes.update_over u.now relations.now around.now (length binds.old)).binds) }
{
    let (table, alias) = both(alloc, &u.table, &u.alias)?;
    let sets = sets(alloc, &u.sets, relations, around, binds)?;
    let filter = maybe(alloc, &u.filter, relations, around, binds)?;
    Shared::new(
        alloc,
        Update {
            table,
            alias,
            sets,
            filter,
        },
    )
}

/// An UPDATE with its binds.
pub fn update(alloc: Global, around: &Around<'_>, u: &Update) -> Result<Bound<Update>, NoMemory>
    ensures { IfOk result (λ b. bound b ≡ spec.bound_update around.now u.now) }
{
    let found = table_relation(alloc, around, &u.table, &u.alias)?;
    let relations = Relations::of(alloc, found.as_slice())?;
    let mut binds = List::new(alloc);
    let tree = update_over(alloc, u, &relations, around, &mut binds)?;
    with_binds(alloc, tree, binds)
}

/// A DELETE from a table that is its one source.
fn delete_over(
    alloc: Global,
    d: &Delete,
    relations: &Relations<'_, '_>,
    around: &Around<'_>,
    binds: &mut List<Bind>,
) -> Result<Shared<Delete>, NoMemory>
    ensures tree { IfOk result (λ tree. tree ≡ (changes.delete_over d.now relations.now around.now (length binds.old)).tree) }
    ensures binds { OnOk result (binds.new ≡ binds.old ++ (changes.delete_over d.now relations.now around.now (length binds.old)).binds) }
{
    let (table, alias) = both(alloc, &d.table, &d.alias)?;
    let filter = maybe(alloc, &d.filter, relations, around, binds)?;
    Shared::new(
        alloc,
        Delete {
            table,
            alias,
            filter,
        },
    )
}

/// A DELETE with its binds.
pub fn delete(alloc: Global, around: &Around<'_>, d: &Delete) -> Result<Bound<Delete>, NoMemory>
    ensures { IfOk result (λ b. bound b ≡ spec.bound_delete around.now d.now) }
{
    let found = table_relation(alloc, around, &d.table, &d.alias)?;
    let relations = Relations::of(alloc, found.as_slice())?;
    let mut binds = List::new(alloc);
    let tree = delete_over(alloc, d, &relations, around, &mut binds)?;
    with_binds(alloc, tree, binds)
}
