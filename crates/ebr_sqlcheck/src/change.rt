//! The checks of INSERT, UPDATE and DELETE.

ghost use Rattle.std.specs.Prelude.{◌≡◌, [], map};
ghost use Rattle.ebr_base.specs.Answers.{Answers};
ghost use Rattle.ebr_ast.specs.Views.{IsInOrder};
ghost use Rattle.ebr_sqlcheck.specs.Checked.{each};
ghost use Rattle.ebr_sqlcheck.specs.Names.{names_in};
ghost use Rattle.ebr_sqlcheck.specs.Operands.{typed};
ghost use Rattle.ebr_sqlcheck.specs.Statements as spec;

use crate::lookup::Relations;
use crate::mention::names_in;
use crate::query::{filter_names, filter_type};
use crate::relation::only_relation;
use crate::target::{named_type, set_targets, target_type, targets, values_for_targets};
use crate::typing::{must_fit, typed};
use crate::value_type::{ValueType, alike};
use crate::variables::Variables;
use crate::verdict::answer;
use ebr_ast::{Assignment, Delete, EditionView, Expr, Insert, Update};
use ebr_base::{Code, Name, Shared, Stop};
use ebr_names::{ViewColumn, columns};
use std::alloc::Global;
use std::slice;

/// The checks of an INSERT, in this order (own): its table or view (ORA-00942, ORA-00904); the columns that it names
/// (ORA-00904, EBR-0019), and that it has a value for each (EBR-0019); the names in its values (ORA-00904), among which no
/// column is; types (ORA-00932, ORA-00904).
///
/// Oracle Database SQL Language Reference 19c, INSERT.
pub fn check_insert<V: Variables>(
    alloc: Global,
    v: &EditionView,
    i: &Insert,
    others: &V,
) -> Result<(), Stop>
    requires { IsInOrder v.now }
    ensures { Answers result (spec.insert_check v.now (V.others others.now) i.now) }
{
    let columns = columns(alloc, v, &i.table)?;
    answer(insert_over(i, columns.as_slice(), others))
}

fn insert_over<V: Variables>(i: &Insert, columns: &[ViewColumn], others: &V) -> Result<(), Code>
    ensures { result ≡ spec.insert_over (V.others others.now) i.now columns.now }
{
    let names = i.columns.as_slice();
    targets(columns, names)?;
    values_for_targets(columns, names, i.values.len())?;
    value_names(i.values.as_slice(), others)?;
    values(columns, names, i.values.as_slice(), others)
}

/// The names in an INSERT's values, where no column is known.
fn value_names<V: Variables>(list: &[Shared<Expr>], others: &V) -> Result<(), Code>
    ensures { result ≡ each (map (names_in [] (V.others others.now)) list.now) }
{
    let none = Relations::none();
    for e in list {
        names_in(e.get(), &none, others)?;
    }
    Ok(())
}

/// The values of an INSERT, each for its column.
fn values<V: Variables>(
    columns: &[ViewColumn],
    names: &[Name],
    list: &[Shared<Expr>],
    others: &V,
) -> Result<(), Code>
    ensures { result ≡ spec.values_from columns.now names.now (V.others others.now) 0 list.now }
{
    let none = Relations::none();
    for (at, e) in list.iter().enumerate() {
        assigned(target_type(columns, names, at), e.get(), &none, others)?;
    }
    Ok(())
}

/// A value for a column of a type.
#[tactic(auto, unfolding(crate::specs::Statements::assigned))]
fn assigned<V: Variables>(
    wanted: Option<ValueType>,
    e: &Expr,
    relations: &Relations<'_, '_>,
    others: &V,
) -> Result<(), Code>
    ensures { result ≡ spec.assigned wanted (typed relations.now (V.others others.now) e.now) }
{
    let ty = typed(e, relations, others)?;
    must_fit(alike(wanted, ty))
}

/// The checks of an UPDATE, in this order (own): its table or view (ORA-00942, ORA-00904); the columns that it sets
/// (ORA-00904, EBR-0019); the names in its expressions (ORA-00904), for which it is the one source; types (ORA-00932,
/// ORA-00904).
///
/// Oracle Database SQL Language Reference 19c, UPDATE.
pub fn check_update<V: Variables>(
    alloc: Global,
    v: &EditionView,
    u: &Update,
    others: &V,
) -> Result<(), Stop>
    requires { IsInOrder v.now }
    ensures { Answers result (spec.update_check v.now (V.others others.now) u.now) }
{
    let relation = only_relation(alloc, v, &u.table, &u.alias)?;
    let relations = Relations::of(alloc, slice::from_ref(&relation))?;
    answer(update_over(u, relation.columns(), &relations, others))
}

#[tactic(auto, unfolding(crate::specs::Statements::update_over))]
fn update_over<V: Variables>(
    u: &Update,
    columns: &[ViewColumn],
    relations: &Relations<'_, '_>,
    others: &V,
) -> Result<(), Code>
    ensures { result ≡ spec.update_over (V.others others.now) u.now columns.now relations.now }
{
    set_targets(columns, u.sets.as_slice())?;
    update_names(u, relations, others)?;
    update_types(u, columns, relations, others)
}

#[tactic(auto, unfolding(crate::specs::Statements::update_names))]
fn update_names<V: Variables>(
    u: &Update,
    relations: &Relations<'_, '_>,
    others: &V,
) -> Result<(), Code>
    ensures { result ≡ spec.update_names (V.others others.now) u.now relations.now }
{
    set_names(u.sets.as_slice(), relations, others)?;
    filter_names(&u.filter, relations, others)
}

#[tactic(auto, unfolding(crate::specs::Statements::update_types))]
fn update_types<V: Variables>(
    u: &Update,
    columns: &[ViewColumn],
    relations: &Relations<'_, '_>,
    others: &V,
) -> Result<(), Code>
    ensures { result ≡ spec.update_types (V.others others.now) u.now columns.now relations.now }
{
    set_types(columns, u.sets.as_slice(), relations, others)?;
    filter_type(&u.filter, relations, others)
}

fn set_names<V: Variables>(
    sets: &[Assignment],
    relations: &Relations<'_, '_>,
    others: &V,
) -> Result<(), Code>
    ensures { result ≡ each (map (λ (a : Assignment). names_in relations.now (V.others others.now) a.value) sets.now) }
{
    for set in sets {
        names_in(set.value.get(), relations, others)?;
    }
    Ok(())
}

fn set_types<V: Variables>(
    columns: &[ViewColumn],
    sets: &[Assignment],
    relations: &Relations<'_, '_>,
    others: &V,
) -> Result<(), Code>
    ensures { result ≡ each (map (spec.set_type columns.now relations.now (V.others others.now)) sets.now) }
{
    for set in sets {
        assigned(
            named_type(columns, &set.column),
            set.value.get(),
            relations,
            others,
        )?;
    }
    Ok(())
}

/// The checks of a DELETE, in this order (own): its table or view (ORA-00942, ORA-00904); the names in WHERE (ORA-00904),
/// for which it is the one source; types (ORA-00932, ORA-00904).
///
/// Oracle Database SQL Language Reference 19c, DELETE.
pub fn check_delete<V: Variables>(
    alloc: Global,
    v: &EditionView,
    d: &Delete,
    others: &V,
) -> Result<(), Stop>
    requires { IsInOrder v.now }
    ensures { Answers result (spec.delete_check v.now (V.others others.now) d.now) }
{
    let relation = only_relation(alloc, v, &d.table, &d.alias)?;
    let relations = Relations::of(alloc, slice::from_ref(&relation))?;
    answer(delete_over(d, &relations, others))
}

#[tactic(auto, unfolding(crate::specs::Statements::delete_over))]
fn delete_over<V: Variables>(
    d: &Delete,
    relations: &Relations<'_, '_>,
    others: &V,
) -> Result<(), Code>
    ensures { result ≡ spec.delete_over (V.others others.now) d.now relations.now }
{
    filter_names(&d.filter, relations, others)?;
    filter_type(&d.filter, relations, others)
}
