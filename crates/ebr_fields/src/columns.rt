//! The columns of a query in code: the fields of a record that takes its rows.

ghost use Rattle.std.specs.Prelude.{◌≡◌, ◌++◌, Some, map, flat_map, OnOk, IfOk};
ghost use Rattle.std.specs.Option.{option_or, option_copied};
ghost use Rattle.ebr_exprtree.specs.declared.expression.Expr.{out-Expr};
ghost use Rattle.ebr_sqlcheck.specs.Sources.{relations_of};
ghost use Rattle.ebr_fields.specs.Columns as rows;
ghost use Rattle.ebr_scope.specs.Lent.{env};

use crate::around::Around;
use ebr_ast::{Aggregate, Expr, Item, ItemKind, Path, Query, SelectList};
use ebr_base::{CloneIn, List, Name, NoMemory, Shared, Stop};
use ebr_scope::{Field, Place, Scopes};
use ebr_sqlcheck::{
    Meant, Relation, Relations, ValueType, column_meant, relations, type_of_column, typed,
};
use std::alloc::Global;

/// The type of an item, as far as it is known.
fn item_type(
    e: &Expr,
    relations: &Relations<'_, '_>,
    place: &Place<'_>,
    known: &Scopes<'_>,
) -> Option<ValueType>
    ensures { result ≡ rows.item_type relations.now (env place.now known.now) e.now }
{
    match typed(e, relations, &Around { place, known }) {
        Ok(ty) => ty,
        Err(_) => None,
    }
}

fn aggregate_type(
    aggregate: &Aggregate,
    relations: &Relations<'_, '_>,
    place: &Place<'_>,
    known: &Scopes<'_>,
) -> Option<ValueType>
    ensures { result ≡ rows.aggregate_type relations.now (env place.now known.now) aggregate.now }
{
    match aggregate {
        Aggregate::CountRows | Aggregate::Count(_) | Aggregate::Sum(_) => Some(ValueType::Number),
        Aggregate::Min(e) | Aggregate::Max(e) => item_type(e.get(), relations, place, known),
    }
}

fn kind_type(
    kind: &ItemKind,
    relations: &Relations<'_, '_>,
    place: &Place<'_>,
    known: &Scopes<'_>,
) -> Option<ValueType>
    ensures { result ≡ rows.kind_type relations.now (env place.now known.now) kind.now }
{
    match kind {
        ItemKind::Expr(e) => item_type(e.get(), relations, place, known),
        ItemKind::Aggregate(aggregate) => aggregate_type(aggregate, relations, place, known),
    }
}

/// `n` and `s.n` have the name n.
fn column_part(path: &Path) -> &Name
    ensures { result.now ≡ rows.column_part path.now.name path.now.member }
{
    match &path.member {
        Some(member) => member,
        None => &path.name,
    }
}

/// The name of an item that is a column.
fn column_name<'e>(e: &'e Expr, relations: &Relations<'_, '_>) -> Option<&'e Name>
    ensures { option_copied result ≡ rows.form_name relations.now (out-Expr e.now) }
{
    match e {
        Expr::Name(path) => match column_meant(relations, path) {
            Meant::Nothing => None,
            Meant::Column(_) | Meant::Several => Some(column_part(path)),
        },
        _ => None,
    }
}

/// An item's alias, or else the name of its column.
fn field_name<'i>(item: &'i Item, relations: &Relations<'_, '_>) -> Option<&'i Name>
    ensures { option_copied result ≡ option_or item.now.alias (rows.kind_name relations.now item.now.what) }
{
    if let Some(alias) = &item.alias {
        return Some(alias);
    }
    match &item.what {
        ItemKind::Expr(e) => column_name(e.get(), relations),
        ItemKind::Aggregate(_) => None,
    }
}

fn copied(alloc: Global, name: Option<&Name>) -> Result<Option<Name>, NoMemory>
    ensures { IfOk result (λ copy. copy ≡ option_copied name.entry) }
{
    match name {
        Some(name) => Ok(Some(name.clone_in(alloc)?)),
        None => Ok(None),
    }
}

fn item_field(
    alloc: Global,
    item: &Item,
    relations: &Relations<'_, '_>,
    place: &Place<'_>,
    known: &Scopes<'_>,
) -> Result<Field, NoMemory>
    ensures { IfOk result (λ field. field ≡ rows.item_field relations.now (env place.now known.now) item.now) }
{
    let ty = kind_type(&item.what, relations, place, known);
    let name = copied(alloc, field_name(item, relations))?;
    Ok(Field { name, ty })
}

fn item_fields(
    alloc: Global,
    items: &[Item],
    relations: &Relations<'_, '_>,
    place: &Place<'_>,
    known: &Scopes<'_>,
) -> Result<List<Field>, NoMemory>
    ensures { IfOk result (λ fields. fields ≡ map (rows.item_field relations.now (env place.now known.now)) items.now) }
{
    let mut fields = List::new(alloc);
    for item in items {
        fields.push(item_field(alloc, item, relations, place, known)?)?;
    }
    Ok(fields)
}

/// Adds the columns of a source.
fn add_columns(
    alloc: Global,
    relation: &Relation<'_>,
    fields: &mut List<Field>,
) -> Result<(), NoMemory>
    ensures { OnOk result (fields.new ≡ fields.old ++ rows.relation_fields relation.now) }
{
    for column in relation.columns() {
        let name = copied(alloc, Some(&column.name))?;
        fields.push(Field {
            name,
            ty: Some(type_of_column(column.ty)),
        })?;
    }
    Ok(())
}

/// The columns of all sources.
fn all_fields(alloc: Global, relations: &[Relation<'_>]) -> Result<List<Field>, NoMemory>
    ensures { IfOk result (λ fields. fields ≡ flat_map rows.relation_fields relations.now) }
{
    let mut fields = List::new(alloc);
    for relation in relations {
        add_columns(alloc, relation, &mut fields)?;
    }
    Ok(fields)
}

/// The columns of a query over its sources.
pub fn list_fields(
    alloc: Global,
    list: &SelectList,
    relations: &Relations<'_, '_>,
    place: &Place<'_>,
    known: &Scopes<'_>,
) -> Result<List<Field>, NoMemory>
    ensures { IfOk result (λ fields. fields ≡ rows.list_fields relations.now (env place.now known.now) list.now) }
{
    match list {
        SelectList::All => all_fields(alloc, relations.as_slice()),
        SelectList::Items(items) => item_fields(alloc, items.as_slice(), relations, place, known),
    }
}

fn fields_over(
    alloc: Global,
    list: &SelectList,
    relations: &[Relation<'_>],
    place: &Place<'_>,
    known: &Scopes<'_>,
) -> Result<Option<Shared<List<Field>>>, NoMemory>
    ensures { IfOk result (λ fields. fields ≡ Some (rows.list_fields relations.now (env place.now known.now) list.now)) }
{
    let relations = Relations::of(alloc, relations)?;
    let fields = list_fields(alloc, list, &relations, place, known)?;
    Ok(Some(Shared::new(alloc, fields)?))
}

/// The columns of a query: none where a source has no columns.
#[tactic(auto, unfolding(crate::specs::Columns::fields_of))]
pub fn fields(
    alloc: Global,
    q: &Query,
    place: &Place<'_>,
    known: &Scopes<'_>,
) -> Result<Option<Shared<List<Field>>>, NoMemory>
    ensures { IfOk result (λ fields. fields ≡ rows.fields_of (env place.now known.now) q.now) }
{
    match relations(alloc, place.seen.get(), q.sources.as_slice()) {
        Ok(relations) => fields_over(alloc, &q.list, relations.as_slice(), place, known),
        Err(Stop::Raised(_)) => Ok(None),
        Err(Stop::NoMemory) => Err(NoMemory),
    }
}
