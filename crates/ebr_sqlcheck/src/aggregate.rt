//! Where aggregates and FOR UPDATE stand.

ghost use Rattle.std.specs.Prelude.{◌≡◌};
ghost use Rattle.std.specs.List.{list_all, list_any};
ghost use Rattle.ebr_sqlcheck.specs.Aggregates as spec;

use crate::verdict::{MISPLACED, must};
use ebr_ast::{Item, ItemKind, Query, SelectList, Source};
use ebr_base::Code;

fn is_aggregate(item: &Item) -> bool
    ensures { result ≡ spec.is_aggregate item.now }
{
    match &item.what {
        ItemKind::Expr(_) => false,
        ItemKind::Aggregate(_) => true,
    }
}

/// Whether an aggregate stands in a list.
pub fn has_aggregate(list: &SelectList) -> bool
    ensures { result ≡ spec.has_aggregate list.now }
{
    match list {
        SelectList::All => false,
        SelectList::Items(items) => any_aggregate(items.as_slice()),
    }
}

fn any_aggregate(items: &[Item]) -> bool
    ensures { result ≡ list_any spec.is_aggregate items.now }
{
    items.iter().any(|item| is_aggregate(item))
}

fn all_aggregates(list: &SelectList) -> bool
    ensures { result ≡ spec.all_aggregates list.now }
{
    match list {
        SelectList::All => false,
        SelectList::Items(items) => each_aggregate(items.as_slice()),
    }
}

fn each_aggregate(items: &[Item]) -> bool
    ensures { result ≡ list_all spec.is_aggregate items.now }
{
    items.iter().all(|item| is_aggregate(item))
}

/// Whether the one source is an editioning view or a table.
fn is_one_table(sources: &[Source]) -> bool
    ensures { result ≡ spec.is_one_table sources.now }
{
    match sources {
        [Source::Named { .. }] => true,
        _ => false,
    }
}

fn aggregates_stand(q: &Query) -> bool
    ensures { result ≡ spec.aggregates_stand q.now }
{
    !has_aggregate(&q.list) || (all_aggregates(&q.list) && q.order.is_empty() && !q.for_update)
}

fn lock_stands(q: &Query) -> bool
    ensures { result ≡ spec.lock_stands q.now }
{
    !q.for_update || is_one_table(q.sources.as_slice())
}

/// Whether aggregates and FOR UPDATE stand where they may (EBR-0017): where one item is an aggregate, all are, and there is
/// no ORDER BY and no FOR UPDATE; FOR UPDATE has one source that isn't DUAL.
pub fn stands(q: &Query) -> Result<(), Code>
    ensures { result ≡ spec.stands q.now }
{
    must(MISPLACED, aggregates_stand(q))?;
    must(MISPLACED, lock_stands(q))
}
