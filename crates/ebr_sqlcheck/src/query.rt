//! The checks of a query.

ghost use Rattle.std.specs.Prelude.{◌≡◌, map};
ghost use Rattle.ebr_base.specs.Answers.{Answers};
ghost use Rattle.ebr_ast.specs.Views.{IsInOrder};
ghost use Rattle.ebr_sqlcheck.specs.Checked.{each};
ghost use Rattle.ebr_sqlcheck.specs.Names.{names_in};
ghost use Rattle.ebr_sqlcheck.specs.Operands.{typed};
ghost use Rattle.ebr_sqlcheck.specs.Statements as spec;

use crate::aggregate::stands;
use crate::lookup::Relations;
use crate::mention::names_in;
use crate::relation::relations;
use crate::typing::{must_fit, typed, wants};
use crate::value_type::{ValueType, is_plain};
use crate::variables::Variables;
use crate::verdict::answer;
use ebr_ast::{Aggregate, EditionView, Expr, Item, ItemKind, Query, SelectList, SortKey};
use ebr_base::{Code, Shared, Stop};
use std::alloc::Global;

/// The checks of a query, in this order (own): its sources (ORA-00942, ORA-00904, EBR-0018); the names in its expressions
/// (ORA-00904, EBR-0018); types (ORA-00932, ORA-00904); aggregates and FOR UPDATE (EBR-0017).
///
/// Oracle Database SQL Language Reference 19c, SELECT.
pub fn check_query<V: Variables>(
    alloc: Global,
    v: &EditionView,
    q: &Query,
    others: &V,
) -> Result<(), Stop>
    requires { IsInOrder v.now }
    ensures { Answers result (spec.query_check v.now (V.others others.now) q.now) }
{
    let list = relations(alloc, v, q.sources.as_slice())?;
    let relations = Relations::of(alloc, list.as_slice())?;
    answer(query_over(q, &relations, others))
}

fn query_over<V: Variables>(
    q: &Query,
    relations: &Relations<'_, '_>,
    others: &V,
) -> Result<(), Code>
    ensures { result ≡ spec.query_over (V.others others.now) q.now relations.now }
{
    query_names(q, relations, others)?;
    query_types(q, relations, others)?;
    stands(q)
}

fn query_names<V: Variables>(
    q: &Query,
    relations: &Relations<'_, '_>,
    others: &V,
) -> Result<(), Code>
    ensures { result ≡ spec.query_names relations.now (V.others others.now) q.now }
{
    list_names(&q.list, relations, others)?;
    filter_names(&q.filter, relations, others)?;
    key_names(q.order.as_slice(), relations, others)
}

fn list_names<V: Variables>(
    list: &SelectList,
    relations: &Relations<'_, '_>,
    others: &V,
) -> Result<(), Code>
    ensures { result ≡ spec.list_names relations.now (V.others others.now) list.now }
{
    match list {
        SelectList::All => Ok(()),
        SelectList::Items(items) => item_names(items.as_slice(), relations, others),
    }
}

fn item_names<V: Variables>(
    items: &[Item],
    relations: &Relations<'_, '_>,
    others: &V,
) -> Result<(), Code>
    ensures { result ≡ each (map (λ (i : Item). spec.kind_names relations.now (V.others others.now) i.what) items.now) }
{
    for item in items {
        kind_names(&item.what, relations, others)?;
    }
    Ok(())
}

fn kind_names<V: Variables>(
    kind: &ItemKind,
    relations: &Relations<'_, '_>,
    others: &V,
) -> Result<(), Code>
    ensures { result ≡ spec.kind_names relations.now (V.others others.now) kind.now }
{
    match kind {
        ItemKind::Expr(e) => names_in(e.get(), relations, others),
        ItemKind::Aggregate(aggregate) => aggregate_names(aggregate, relations, others),
    }
}

fn aggregate_names<V: Variables>(
    aggregate: &Aggregate,
    relations: &Relations<'_, '_>,
    others: &V,
) -> Result<(), Code>
    ensures { result ≡ spec.aggregate_names relations.now (V.others others.now) aggregate.now }
{
    match aggregate {
        Aggregate::CountRows => Ok(()),
        Aggregate::Count(e) => names_in(e.get(), relations, others),
        Aggregate::Sum(e) => names_in(e.get(), relations, others),
        Aggregate::Min(e) => names_in(e.get(), relations, others),
        Aggregate::Max(e) => names_in(e.get(), relations, others),
    }
}

/// The names in WHERE, where it is there.
pub fn filter_names<V: Variables>(
    filter: &Option<Shared<Expr>>,
    relations: &Relations<'_, '_>,
    others: &V,
) -> Result<(), Code>
    ensures { result ≡ spec.when (names_in relations.now (V.others others.now)) filter.now }
{
    match filter {
        Some(e) => names_in(e.get(), relations, others),
        None => Ok(()),
    }
}

fn key_names<V: Variables>(
    keys: &[SortKey],
    relations: &Relations<'_, '_>,
    others: &V,
) -> Result<(), Code>
    ensures { result ≡ each (map (λ (k : SortKey). names_in relations.now (V.others others.now) k.key) keys.now) }
{
    for key in keys {
        names_in(key.key.get(), relations, others)?;
    }
    Ok(())
}

fn query_types<V: Variables>(
    q: &Query,
    relations: &Relations<'_, '_>,
    others: &V,
) -> Result<(), Code>
    ensures { result ≡ spec.query_types relations.now (V.others others.now) q.now }
{
    list_types(&q.list, relations, others)?;
    filter_type(&q.filter, relations, others)?;
    key_types(q.order.as_slice(), relations, others)
}

fn list_types<V: Variables>(
    list: &SelectList,
    relations: &Relations<'_, '_>,
    others: &V,
) -> Result<(), Code>
    ensures { result ≡ spec.list_types relations.now (V.others others.now) list.now }
{
    match list {
        SelectList::All => Ok(()),
        SelectList::Items(items) => item_types(items.as_slice(), relations, others),
    }
}

fn item_types<V: Variables>(
    items: &[Item],
    relations: &Relations<'_, '_>,
    others: &V,
) -> Result<(), Code>
    ensures { result ≡ each (map (λ (i : Item). spec.kind_type relations.now (V.others others.now) i.what) items.now) }
{
    for item in items {
        kind_type(&item.what, relations, others)?;
    }
    Ok(())
}

fn kind_type<V: Variables>(
    kind: &ItemKind,
    relations: &Relations<'_, '_>,
    others: &V,
) -> Result<(), Code>
    ensures { result ≡ spec.kind_type relations.now (V.others others.now) kind.now }
{
    match kind {
        ItemKind::Expr(e) => plain(e.get(), relations, others),
        ItemKind::Aggregate(aggregate) => aggregate_type(aggregate, relations, others),
    }
}

fn aggregate_type<V: Variables>(
    aggregate: &Aggregate,
    relations: &Relations<'_, '_>,
    others: &V,
) -> Result<(), Code>
    ensures { result ≡ spec.aggregate_type relations.now (V.others others.now) aggregate.now }
{
    match aggregate {
        Aggregate::CountRows => Ok(()),
        Aggregate::Count(e) => any_type(e.get(), relations, others),
        Aggregate::Sum(e) => wants(ValueType::Number, e.get(), relations, others),
        Aggregate::Min(e) => plain(e.get(), relations, others),
        Aggregate::Max(e) => plain(e.get(), relations, others),
    }
}

/// An expression that isn't BOOLEAN, which has no place in a list, and no order.
#[tactic(auto, unfolding(crate::specs::Statements::plain))]
fn plain<V: Variables>(e: &Expr, relations: &Relations<'_, '_>, others: &V) -> Result<(), Code>
    ensures { result ≡ spec.plain (typed relations.now (V.others others.now) e.now) }
{
    let ty = typed(e, relations, others)?;
    must_fit(is_plain(ty))
}

/// An expression of any type.
#[tactic(auto, unfolding(crate::specs::Statements::any_type))]
fn any_type<V: Variables>(e: &Expr, relations: &Relations<'_, '_>, others: &V) -> Result<(), Code>
    ensures { result ≡ spec.any_type (typed relations.now (V.others others.now) e.now) }
{
    typed(e, relations, others)?;
    Ok(())
}

/// WHERE is BOOLEAN, where it is there.
pub fn filter_type<V: Variables>(
    filter: &Option<Shared<Expr>>,
    relations: &Relations<'_, '_>,
    others: &V,
) -> Result<(), Code>
    ensures { result ≡ spec.when (spec.condition relations.now (V.others others.now)) filter.now }
{
    match filter {
        Some(e) => wants(ValueType::Boolean, e.get(), relations, others),
        None => Ok(()),
    }
}

fn key_types<V: Variables>(
    keys: &[SortKey],
    relations: &Relations<'_, '_>,
    others: &V,
) -> Result<(), Code>
    ensures { result ≡ each (map (λ (k : SortKey). spec.plain (typed relations.now (V.others others.now) k.key)) keys.now) }
{
    for key in keys {
        plain(key.key.get(), relations, others)?;
    }
    Ok(())
}
