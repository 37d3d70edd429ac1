//! The binds of the parts of a statement.

ghost use Rattle.std.specs.Prelude.{◌≡◌, ◌++◌, length, map, IfOk, OnOk};
ghost use Rattle.ebr_run.specs.Binds as spec;

use crate::expressions::expression;
use ebr_ast::{Aggregate, Assignment, Expr, Item, ItemKind, SelectList, SortKey};
use ebr_base::{CloneIn, List, NoMemory, Shared};
use ebr_places::Around;
use ebr_run::Bind;
use ebr_sqlcheck::Relations;
use std::alloc::Global;

/// An expression that may not be there.
pub fn maybe(
    alloc: Global,
    e: &Option<Shared<Expr>>,
    relations: &Relations<'_, '_>,
    around: &Around<'_>,
    binds: &mut List<Bind>,
) -> Result<Option<Shared<Expr>>, NoMemory>
    ensures tree { IfOk result (λ tree. tree ≡ (spec.bound_maybe e.now relations.now around.now (length binds.old)).tree) }
    ensures binds { OnOk result (binds.new ≡ binds.old ++ (spec.bound_maybe e.now relations.now around.now (length binds.old)).binds) }
{
    match e {
        Some(e) => Ok(Some(expression(alloc, e, relations, around, binds)?)),
        None => Ok(None),
    }
}

fn aggregate(
    alloc: Global,
    aggregate: &Aggregate,
    relations: &Relations<'_, '_>,
    around: &Around<'_>,
    binds: &mut List<Bind>,
) -> Result<Aggregate, NoMemory>
    ensures tree { IfOk result (λ tree. tree ≡ (spec.bound_aggregate aggregate.now relations.now around.now (length binds.old)).tree) }
    ensures binds { OnOk result (binds.new ≡ binds.old ++ (spec.bound_aggregate aggregate.now relations.now around.now (length binds.old)).binds) }
{
    match aggregate {
        Aggregate::CountRows => Ok(Aggregate::CountRows),
        Aggregate::Count(e) => Ok(Aggregate::Count(expression(
            alloc, e, relations, around, binds,
        )?)),
        Aggregate::Sum(e) => Ok(Aggregate::Sum(expression(alloc, e, relations, around, binds)?)),
        Aggregate::Min(e) => Ok(Aggregate::Min(expression(alloc, e, relations, around, binds)?)),
        Aggregate::Max(e) => Ok(Aggregate::Max(expression(alloc, e, relations, around, binds)?)),
    }
}

fn item_kind(
    alloc: Global,
    kind: &ItemKind,
    relations: &Relations<'_, '_>,
    around: &Around<'_>,
    binds: &mut List<Bind>,
) -> Result<ItemKind, NoMemory>
    ensures tree { IfOk result (λ tree. tree ≡ (spec.bound_kind kind.now relations.now around.now (length binds.old)).tree) }
    ensures binds { OnOk result (binds.new ≡ binds.old ++ (spec.bound_kind kind.now relations.now around.now (length binds.old)).binds) }
{
    match kind {
        ItemKind::Expr(e) => Ok(ItemKind::Expr(expression(alloc, e, relations, around, binds)?)),
        ItemKind::Aggregate(a) => Ok(ItemKind::Aggregate(aggregate(
            alloc, a, relations, around, binds,
        )?)),
    }
}

fn item(
    alloc: Global,
    item: &Item,
    relations: &Relations<'_, '_>,
    around: &Around<'_>,
    binds: &mut List<Bind>,
) -> Result<Item, NoMemory>
    ensures tree { IfOk result (λ tree. tree ≡ (spec.bound_item relations.now around.now item.now (length binds.old)).tree) }
    ensures binds { OnOk result (binds.new ≡ binds.old ++ (spec.bound_item relations.now around.now item.now (length binds.old)).binds) }
{
    let alias = item.alias.clone_in(alloc)?;
    let what = item_kind(alloc, &item.what, relations, around, binds)?;
    Ok(Item { what, alias })
}

fn items(
    alloc: Global,
    list: &List<Item>,
    relations: &Relations<'_, '_>,
    around: &Around<'_>,
    binds: &mut List<Bind>,
) -> Result<List<Item>, NoMemory>
    ensures trees { IfOk result (λ trees. trees ≡ (spec.bind_all (map (spec.bound_item relations.now around.now) list.now) (length binds.old)).tree) }
    ensures binds { OnOk result (binds.new ≡ binds.old ++ (spec.bind_all (map (spec.bound_item relations.now around.now) list.now) (length binds.old)).binds) }
{
    let mut bound = List::new(alloc);
    for next in list.as_slice() {
        let item = item(alloc, next, relations, around, binds)?;
        bound.push(item)?;
    }
    Ok(bound)
}

/// What a query gives.
pub fn select_list(
    alloc: Global,
    list: &SelectList,
    relations: &Relations<'_, '_>,
    around: &Around<'_>,
    binds: &mut List<Bind>,
) -> Result<SelectList, NoMemory>
    ensures tree { IfOk result (λ tree. tree ≡ (spec.bound_list list.now relations.now around.now (length binds.old)).tree) }
    ensures binds { OnOk result (binds.new ≡ binds.old ++ (spec.bound_list list.now relations.now around.now (length binds.old)).binds) }
{
    match list {
        SelectList::All => Ok(SelectList::All),
        SelectList::Items(list) => Ok(SelectList::Items(items(
            alloc, list, relations, around, binds,
        )?)),
    }
}

/// The keys of ORDER BY.
pub fn keys(
    alloc: Global,
    list: &List<SortKey>,
    relations: &Relations<'_, '_>,
    around: &Around<'_>,
    binds: &mut List<Bind>,
) -> Result<List<SortKey>, NoMemory>
    ensures trees { IfOk result (λ trees. trees ≡ (spec.bind_all (map (spec.bound_key relations.now around.now) list.now) (length binds.old)).tree) }
    ensures binds { OnOk result (binds.new ≡ binds.old ++ (spec.bind_all (map (spec.bound_key relations.now around.now) list.now) (length binds.old)).binds) }
{
    let mut bound = List::new(alloc);
    for next in list.as_slice() {
        let key = expression(alloc, &next.key, relations, around, binds)?;
        bound.push(SortKey {
            key,
            descending: next.descending,
        })?;
    }
    Ok(bound)
}

fn set(
    alloc: Global,
    set: &Assignment,
    relations: &Relations<'_, '_>,
    around: &Around<'_>,
    binds: &mut List<Bind>,
) -> Result<Assignment, NoMemory>
    ensures tree { IfOk result (λ tree. tree ≡ (spec.bound_set relations.now around.now set.now (length binds.old)).tree) }
    ensures binds { OnOk result (binds.new ≡ binds.old ++ (spec.bound_set relations.now around.now set.now (length binds.old)).binds) }
{
    let column = set.column.clone_in(alloc)?;
    let value = expression(alloc, &set.value, relations, around, binds)?;
    Ok(Assignment { column, value })
}

/// The assignments of an UPDATE.
pub fn sets(
    alloc: Global,
    list: &List<Assignment>,
    relations: &Relations<'_, '_>,
    around: &Around<'_>,
    binds: &mut List<Bind>,
) -> Result<List<Assignment>, NoMemory>
    ensures trees { IfOk result (λ trees. trees ≡ (spec.bind_all (map (spec.bound_set relations.now around.now) list.now) (length binds.old)).tree) }
    ensures binds { OnOk result (binds.new ≡ binds.old ++ (spec.bind_all (map (spec.bound_set relations.now around.now) list.now) (length binds.old)).binds) }
{
    let mut bound = List::new(alloc);
    for next in list.as_slice() {
        let set = set(alloc, next, relations, around, binds)?;
        bound.push(set)?;
    }
    Ok(bound)
}
