//! The names in a statement of SQL that stands in code.

ghost use Rattle.std.specs.Prelude.{◌≡◌, [], map};
ghost use Rattle.ebr_validity.specs.Embedded as spec;
ghost use Rattle.ebr_rules.specs.inside.Terms as inside;
ghost use Rattle.ebr_rules.specs.Noted.{noted};
ghost use Rattle.ebr_scope.specs.Lent.{env};

use crate::expressions::{fires, images};
use crate::verdict::must;
use ebr_ast::{
    Addend, Aggregate, Assignment, Expr, Item, ItemKind, Path, Query, SelectList, SortKey, Update,
};
use ebr_base::{List, Shared};
use ebr_expr::builtin;
use ebr_fields::image_type;
use ebr_scope::{Place, Scopes, meant, variable_type};
use ebr_sqlcheck::{Meant, Relations, column_meant};

/// A name: it is a column, and else a variable.
fn name(
    path: &Path,
    relations: &Relations<'_, '_>,
    place: &Place<'_>,
    known: &Scopes<'_>,
    least: &mut Option<u8>,
)
    ensures { least.new ≡ noted (spec.name_sites path.now relations.now (env place.now known.now)) least.old }
{
    match column_meant(relations, path) {
        Meant::Nothing => must(
            least,
            2,
            variable_type(meant(place.seen, known, path)).is_some(),
        ),
        Meant::Column(_) | Meant::Several => {}
    }
}

/// Judges the names in an expression.
#[cycle(mentions)]
pub fn mentions(
    e: &Expr,
    relations: &Relations<'_, '_>,
    place: &Place<'_>,
    known: &Scopes<'_>,
    least: &mut Option<u8>,
)
    ensures { least.new ≡ noted (spec.mentions e.now relations.now (env place.now known.now)) least.old }
{
    match e {
        Expr::Name(path) => name(path, relations, place, known, least),
        Expr::Call(path, operands) => {
            must(least, 2, builtin(path).is_some());
            all_mentions(operands, relations, place, known, least);
        }
        Expr::Row(_, column) => images(image_type(column, place), place, least),
        Expr::Firing(_) => {
            must(least, 2, false);
            fires(place, least);
        }
        Expr::SqlCode | Expr::Attribute(_, _) => must(least, 2, false),
        Expr::Place(_) | Expr::Bind(_) => must(least, 12, false),
        Expr::Plus(a) | Expr::Minus(a) | Expr::Not(a) | Expr::IsNull(a, _) => {
            mentions(a.get(), relations, place, known, least);
        }
        Expr::Quotient(a, b) | Expr::Compare(_, a, b) | Expr::Like(a, b, _) => {
            mentions(a.get(), relations, place, known, least);
            mentions(b.get(), relations, place, known, least);
        }
        Expr::Between(x, a, b, _) => {
            mentions(x.get(), relations, place, known, least);
            mentions(a.get(), relations, place, known, least);
            mentions(b.get(), relations, place, known, least);
        }
        Expr::Product(a, more) | Expr::In(a, more, _) | Expr::And(a, more) | Expr::Or(a, more) => {
            mentions(a.get(), relations, place, known, least);
            all_mentions(more, relations, place, known, least);
        }
        Expr::Sum(a, more) => {
            mentions(a.get(), relations, place, known, least);
            term_mentions(more, relations, place, known, least);
        }
        Expr::Number(_) => {}
        Expr::Text(_) => {}
        Expr::Null => {}
        Expr::Boolean(_) => {}
    }
}

#[cycle(mentions)]
fn all_mentions(
    list: &List<Shared<Expr>>,
    relations: &Relations<'_, '_>,
    place: &Place<'_>,
    known: &Scopes<'_>,
    least: &mut Option<u8>,
)
    ensures { least.new ≡ noted (spec.each (map spec.mentions list.now) relations.now (env place.now known.now)) least.old }
{
    for e in list.as_slice() {
        mentions(e.get(), relations, place, known, least);
    }
}

#[cycle(mentions)]
fn term_mentions(
    terms: &List<Addend>,
    relations: &Relations<'_, '_>,
    place: &Place<'_>,
    known: &Scopes<'_>,
    least: &mut Option<u8>,
)
    ensures { least.new ≡ noted (spec.each (map inside.mentions_in_term terms.now) relations.now (env place.now known.now)) least.old }
{
    for addend in terms.as_slice() {
        mentions(addend.term.get(), relations, place, known, least);
    }
}

/// The names in an expression that may not be there.
pub fn when(
    e: &Option<Shared<Expr>>,
    relations: &Relations<'_, '_>,
    place: &Place<'_>,
    known: &Scopes<'_>,
    least: &mut Option<u8>,
)
    ensures { least.new ≡ noted (spec.when e.now relations.now (env place.now known.now)) least.old }
{
    if let Some(e) = e {
        mentions(e.get(), relations, place, known, least);
    }
}

fn in_aggregate(
    aggregate: &Aggregate,
    relations: &Relations<'_, '_>,
    place: &Place<'_>,
    known: &Scopes<'_>,
    least: &mut Option<u8>,
)
    ensures { least.new ≡ noted (spec.in_aggregate aggregate.now relations.now (env place.now known.now)) least.old }
{
    match aggregate {
        Aggregate::CountRows => {}
        Aggregate::Count(e) | Aggregate::Sum(e) | Aggregate::Min(e) | Aggregate::Max(e) => {
            mentions(e.get(), relations, place, known, least);
        }
    }
}

fn in_item(
    item: &Item,
    relations: &Relations<'_, '_>,
    place: &Place<'_>,
    known: &Scopes<'_>,
    least: &mut Option<u8>,
)
    ensures { least.new ≡ noted (spec.in_item item.now relations.now (env place.now known.now)) least.old }
{
    match &item.what {
        ItemKind::Expr(e) => mentions(e.get(), relations, place, known, least),
        ItemKind::Aggregate(aggregate) => in_aggregate(aggregate, relations, place, known, least),
    }
}

fn in_list(
    list: &SelectList,
    relations: &Relations<'_, '_>,
    place: &Place<'_>,
    known: &Scopes<'_>,
    least: &mut Option<u8>,
)
    ensures { least.new ≡ noted (spec.in_list list.now relations.now (env place.now known.now)) least.old }
{
    match list {
        SelectList::All => {}
        SelectList::Items(items) => in_items(items.as_slice(), relations, place, known, least),
    }
}

fn in_items(
    items: &[Item],
    relations: &Relations<'_, '_>,
    place: &Place<'_>,
    known: &Scopes<'_>,
    least: &mut Option<u8>,
)
    ensures { least.new ≡ noted (spec.each (map spec.in_item items.now) relations.now (env place.now known.now)) least.old }
{
    for item in items {
        in_item(item, relations, place, known, least);
    }
}

fn in_keys(
    keys: &[SortKey],
    relations: &Relations<'_, '_>,
    place: &Place<'_>,
    known: &Scopes<'_>,
    least: &mut Option<u8>,
)
    ensures { least.new ≡ noted (spec.each (map spec.in_key keys.now) relations.now (env place.now known.now)) least.old }
{
    for key in keys {
        mentions(key.key.get(), relations, place, known, least);
    }
}

/// The names in a query.
#[tactic(auto, using(crate::proofs::Laws::noted_append))]
pub fn in_query(
    q: &Query,
    relations: &Relations<'_, '_>,
    place: &Place<'_>,
    known: &Scopes<'_>,
    least: &mut Option<u8>,
)
    ensures { least.new ≡ noted (spec.in_query q.now relations.now (env place.now known.now)) least.old }
{
    in_list(&q.list, relations, place, known, least);
    when(&q.filter, relations, place, known, least);
    in_keys(q.order.as_slice(), relations, place, known, least);
}

/// The names in the values of an INSERT, where no source has a column.
pub fn in_values(
    values: &[Shared<Expr>],
    place: &Place<'_>,
    known: &Scopes<'_>,
    least: &mut Option<u8>,
)
    ensures { least.new ≡ noted (spec.each (map spec.mentions values.now) [] (env place.now known.now)) least.old }
{
    let none = Relations::none();
    for e in values {
        mentions(e.get(), &none, place, known, least);
    }
}

fn in_sets(
    sets: &[Assignment],
    relations: &Relations<'_, '_>,
    place: &Place<'_>,
    known: &Scopes<'_>,
    least: &mut Option<u8>,
)
    ensures { least.new ≡ noted (spec.each (map spec.in_assignment sets.now) relations.now (env place.now known.now)) least.old }
{
    for set in sets {
        mentions(set.value.get(), relations, place, known, least);
    }
}

/// The names in an UPDATE.
#[tactic(auto, using(crate::proofs::Laws::noted_append))]
pub fn in_update(
    u: &Update,
    relations: &Relations<'_, '_>,
    place: &Place<'_>,
    known: &Scopes<'_>,
    least: &mut Option<u8>,
)
    ensures { least.new ≡ noted (spec.in_update u.now relations.now (env place.now known.now)) least.old }
{
    in_sets(u.sets.as_slice(), relations, place, known, least);
    when(&u.filter, relations, place, known, least);
}
