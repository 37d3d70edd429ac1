//! Statements of SQL in code.

ghost use Rattle.std.specs.Prelude.{◌≡◌, ◌∷◌, ◌++◌, [], Some, OnOk, IfOk};
ghost use Rattle.ebr_base.specs.Answers.{Answers};
ghost use Rattle.ebr_names.specs.Columns.{columns_named};
ghost use Rattle.ebr_sqlcheck.specs.Checked.{Checked};
ghost use Rattle.ebr_sqlcheck.specs.Sources.{relations_of};
ghost use Rattle.ebr_sqlcheck.specs.Statements.{only_relation};
ghost use Rattle.ebr_validity.specs.Sites as site;
ghost use Rattle.ebr_validity.specs.Embedded as spec;
ghost use Rattle.ebr_fields.specs.Columns as rows;
ghost use Rattle.ebr_rules.specs.Noted.{noted};
ghost use Rattle.ebr_scope.specs.Lent.{env};

use crate::mention::{in_query, in_update, in_values, when};
use crate::verdict::must;
use ebr_ast::{Delete, Expr, Insert, Query, Update};
use ebr_base::{List, NoMemory, Shared, Stop};
use ebr_fields::{Around, list_fields};
use ebr_names::columns;
use ebr_scope::{Field, Place, Scopes};
use ebr_sqlcheck::{
    Relation, Relations, check_delete, check_insert, check_query, check_update, only_relation,
    relations,
};
use std::alloc::Global;
use std::slice;

/// What the checks of a statement found.
fn judged(found: Result<(), Stop>, least: &mut Option<u8>) -> Result<(), NoMemory>
    ensures { (checked : Checked) → Answers found checked → OnOk result (least.new ≡ noted (site.Sql checked ∷ []) least.old) }
{
    match found {
        Ok(()) => Ok(()),
        Err(Stop::Raised(_)) => {
            must(least, 3, false);
            Ok(())
        }
        Err(Stop::NoMemory) => Err(NoMemory),
    }
}

/// What the checks of a query find.
#[tactic(auto, unfolding(ebr_validity::specs::Embedded::query_found))]
fn query_found(alloc: Global, q: &Query, place: &Place<'_>, known: &Scopes<'_>) -> Result<(), Stop>
    ensures { Answers result (spec.query_found q.now (env place.now known.now)) }
{
    check_query(alloc, place.seen.get(), q, &Around { place, known })
}

/// What the checks of an INSERT find.
#[tactic(auto, unfolding(ebr_validity::specs::Embedded::insert_found))]
fn insert_found(
    alloc: Global,
    i: &Insert,
    place: &Place<'_>,
    known: &Scopes<'_>,
) -> Result<(), Stop>
    ensures { Answers result (spec.insert_found i.now (env place.now known.now)) }
{
    check_insert(alloc, place.seen.get(), i, &Around { place, known })
}

/// What the checks of an UPDATE find.
#[tactic(auto, unfolding(ebr_validity::specs::Embedded::update_found))]
fn update_found(
    alloc: Global,
    u: &Update,
    place: &Place<'_>,
    known: &Scopes<'_>,
) -> Result<(), Stop>
    ensures { Answers result (spec.update_found u.now (env place.now known.now)) }
{
    check_update(alloc, place.seen.get(), u, &Around { place, known })
}

/// What the checks of a DELETE find.
#[tactic(auto, unfolding(ebr_validity::specs::Embedded::delete_found))]
fn delete_found(
    alloc: Global,
    d: &Delete,
    place: &Place<'_>,
    known: &Scopes<'_>,
) -> Result<(), Stop>
    ensures { Answers result (spec.delete_found d.now (env place.now known.now)) }
{
    check_delete(alloc, place.seen.get(), d, &Around { place, known })
}

// ---- queries

/// The names in a query whose sources have columns, and its own columns.
fn query_over(
    alloc: Global,
    q: &Query,
    relations: &[Relation<'_>],
    place: &Place<'_>,
    known: &Scopes<'_>,
    least: &mut Option<u8>,
) -> Result<Option<Shared<List<Field>>>, NoMemory>
    ensures least { OnOk result (least.new ≡ noted (spec.in_query q.now relations.now (env place.now known.now)) least.old) }
    ensures fields { IfOk result (λ fields. fields ≡ Some (rows.list_fields relations.now (env place.now known.now) q.now.list)) }
{
    let relations = Relations::of(alloc, relations)?;
    in_query(q, &relations, place, known, least);
    let fields = list_fields(alloc, &q.list, &relations, place, known)?;
    Ok(Some(Shared::new(alloc, fields)?))
}

fn query_columns(
    alloc: Global,
    q: &Query,
    place: &Place<'_>,
    known: &Scopes<'_>,
    least: &mut Option<u8>,
) -> Result<Option<Shared<List<Field>>>, NoMemory>
    ensures least { OnOk result (least.new ≡ noted (spec.over (spec.in_query q.now) (env place.now known.now) (relations_of place.now.seen.now.view q.now.sources)) least.old) }
    ensures fields { IfOk result (λ fields. fields ≡ rows.fields_over (env place.now known.now) q.now.list (relations_of place.now.seen.now.view q.now.sources)) }
{
    match relations(alloc, place.seen.get(), q.sources.as_slice()) {
        Ok(relations) => query_over(alloc, q, relations.as_slice(), place, known, least),
        Err(Stop::Raised(_)) => Ok(None),
        Err(Stop::NoMemory) => Err(NoMemory),
    }
}

/// Judges a query, and tells its columns: none where a source has no columns.
#[tactic(auto, unfolding(ebr_fields::specs::Columns::fields_of))]
pub fn query(
    alloc: Global,
    q: &Query,
    place: &Place<'_>,
    known: &Scopes<'_>,
    least: &mut Option<u8>,
) -> Result<Option<Shared<List<Field>>>, NoMemory>
    ensures least { OnOk result (least.new ≡ noted (spec.query_sites q.now (env place.now known.now)) least.old) }
    ensures fields { IfOk result (λ fields. fields ≡ rows.fields_of (env place.now known.now) q.now) }
{
    judged(query_found(alloc, q, place, known), least)?;
    query_columns(alloc, q, place, known, least)
}

// ---- changes

fn insert_names(
    alloc: Global,
    i: &Insert,
    place: &Place<'_>,
    known: &Scopes<'_>,
    least: &mut Option<u8>,
) -> Result<(), NoMemory>
    ensures { OnOk result (least.new ≡ noted (spec.values_over i.now (env place.now known.now) (columns_named place.now.seen.now.view i.now.table)) least.old) }
{
    match columns(alloc, place.seen.get(), &i.table) {
        Ok(_) => {
            in_values(i.values.as_slice(), place, known, least);
            Ok(())
        }
        Err(Stop::Raised(_)) => Ok(()),
        Err(Stop::NoMemory) => Err(NoMemory),
    }
}

/// Judges an INSERT.
pub fn insert(
    alloc: Global,
    i: &Insert,
    place: &Place<'_>,
    known: &Scopes<'_>,
    least: &mut Option<u8>,
) -> Result<(), NoMemory>
    ensures { OnOk result (least.new ≡ noted (spec.insert_sites i.now (env place.now known.now)) least.old) }
{
    judged(insert_found(alloc, i, place, known), least)?;
    insert_names(alloc, i, place, known, least)
}

/// The names in an UPDATE of what is its one source.
fn update_over(
    alloc: Global,
    u: &Update,
    relation: &Relation<'_>,
    place: &Place<'_>,
    known: &Scopes<'_>,
    least: &mut Option<u8>,
) -> Result<(), NoMemory>
    ensures { OnOk result (least.new ≡ noted (spec.in_update u.now (relation.now ∷ []) (env place.now known.now)) least.old) }
{
    let relations = Relations::of(alloc, slice::from_ref(relation))?;
    in_update(u, &relations, place, known, least);
    Ok(())
}

fn update_names(
    alloc: Global,
    u: &Update,
    place: &Place<'_>,
    known: &Scopes<'_>,
    least: &mut Option<u8>,
) -> Result<(), NoMemory>
    ensures { OnOk result (least.new ≡ noted (spec.over_one (spec.in_update u.now) (env place.now known.now) (only_relation place.now.seen.now.view u.now.table u.now.alias)) least.old) }
{
    match only_relation(alloc, place.seen.get(), &u.table, &u.alias) {
        Ok(relation) => update_over(alloc, u, &relation, place, known, least),
        Err(Stop::Raised(_)) => Ok(()),
        Err(Stop::NoMemory) => Err(NoMemory),
    }
}

/// Judges an UPDATE.
pub fn update(
    alloc: Global,
    u: &Update,
    place: &Place<'_>,
    known: &Scopes<'_>,
    least: &mut Option<u8>,
) -> Result<(), NoMemory>
    ensures { OnOk result (least.new ≡ noted (spec.update_sites u.now (env place.now known.now)) least.old) }
{
    judged(update_found(alloc, u, place, known), least)?;
    update_names(alloc, u, place, known, least)
}

/// The names in a DELETE from what is its one source.
fn delete_over(
    alloc: Global,
    d: &Delete,
    relation: &Relation<'_>,
    place: &Place<'_>,
    known: &Scopes<'_>,
    least: &mut Option<u8>,
) -> Result<(), NoMemory>
    ensures { OnOk result (least.new ≡ noted (spec.when d.now.filter (relation.now ∷ []) (env place.now known.now)) least.old) }
{
    let relations = Relations::of(alloc, slice::from_ref(relation))?;
    when(&d.filter, &relations, place, known, least);
    Ok(())
}

fn delete_names(
    alloc: Global,
    d: &Delete,
    place: &Place<'_>,
    known: &Scopes<'_>,
    least: &mut Option<u8>,
) -> Result<(), NoMemory>
    ensures { OnOk result (least.new ≡ noted (spec.over_one (spec.when d.now.filter) (env place.now known.now) (only_relation place.now.seen.now.view d.now.table d.now.alias)) least.old) }
{
    match only_relation(alloc, place.seen.get(), &d.table, &d.alias) {
        Ok(relation) => delete_over(alloc, d, &relation, place, known, least),
        Err(Stop::Raised(_)) => Ok(()),
        Err(Stop::NoMemory) => Err(NoMemory),
    }
}

/// Judges a DELETE.
pub fn delete(
    alloc: Global,
    d: &Delete,
    place: &Place<'_>,
    known: &Scopes<'_>,
    least: &mut Option<u8>,
) -> Result<(), NoMemory>
    ensures { OnOk result (least.new ≡ noted (spec.delete_sites d.now (env place.now known.now)) least.old) }
{
    judged(delete_found(alloc, d, place, known), least)?;
    delete_names(alloc, d, place, known, least)
}
