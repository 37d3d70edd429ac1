//! The plan of a statement, against what an edition sees.

ghost use Rattle.std.specs.Prelude.{◌≡◌, ◌∷◌, [], map, IfOk};
ghost use Rattle.std.specs.Option.{option_copied};
ghost use Rattle.ebr_base.specs.Answers.{Answers};
ghost use Rattle.ebr_base.specs.declared.code.Code.TheVariants.{Ora};
ghost use Rattle.ebr_base.specs.Keys.{table_named};
ghost use Rattle.ebr_ast.specs.Views.{IsInOrder};
ghost use Rattle.ebr_names.specs.Columns.{column_named};
ghost use Rattle.ebr_query.specs.Seen.{table_of};
ghost use Rattle.ebr_query.specs.Results.{all};
ghost use Rattle.ebr_dml.specs.Plans as spec;

use crate::plan::{Plan, Setting, Work};
use ebr_ast::{Assignment, Delete, EditionView, Insert, SqlTree, UnitTree, Update};
use ebr_base::{Class, CloneIn, Code, List, Name, NoMemory, Shared, Stop, TableDef};
use ebr_exprtree::Expr;
use ebr_names::{ViewColumn, columns, object, table};
use ebr_query::{placed, placed_filter, table_of};
use ebr_sqlcheck::{Relation, Relations, only_relation};
use std::alloc::Global;
use std::slice;

/// A column that isn't there.
const NOT_THERE: Stop = Stop::Raised(Code::Ora(904));

/// A table that isn't there.
const NO_TABLE: Stop = Stop::Raised(Code::Ora(942));

/// A trigger that isn't there.
const NO_TRIGGER: Stop = Stop::Raised(Code::Ora(4043));

/// A trigger whose table isn't there.
const INVALID_TRIGGER: Stop = Stop::Raised(Code::Ora(4098));

/// The places of columns in the table.
fn places(alloc: Global, columns: &[ViewColumn]) -> Result<List<u16>, NoMemory>
    ensures { IfOk result (λ places. places ≡ spec.places_of columns.now) }
{
    let mut places = List::new(alloc);
    for column in columns {
        places.push(column.place)?;
    }
    Ok(places)
}

/// The column of a name.
fn find_column<'c>(columns: &'c [ViewColumn], name: &Name) -> Option<&'c ViewColumn>
    ensures { option_copied result ≡ column_named name.now columns.now }
{
    columns.iter().find(|column| *name == column.name)
}

/// The place in the table of the column of a name.
fn place_named(columns: &[ViewColumn], name: &Name) -> Result<u16, Stop>
    ensures { Answers result (spec.place_named columns.now name.now) }
{
    match find_column(columns, name) {
        Some(column) => Ok(column.place),
        None => Err(NOT_THERE),
    }
}

/// The places of the columns that an INSERT names.
fn named_places(alloc: Global, columns: &[ViewColumn], names: &[Name]) -> Result<List<u16>, Stop>
    ensures { Answers result (all (map (spec.place_named columns.now) names.now)) }
{
    let mut places = List::new(alloc);
    for name in names {
        places.push(place_named(columns, name)?)?;
    }
    Ok(places)
}

/// The places of the columns that an INSERT sets.
fn insert_places(alloc: Global, columns: &[ViewColumn], names: &[Name]) -> Result<List<u16>, Stop>
    ensures { Answers result (spec.insert_places columns.now names.now) }
{
    if names.is_empty() {
        return Ok(places(alloc, columns)?);
    }
    named_places(alloc, columns, names)
}

/// The values of an INSERT, each for its column.
fn settings(
    alloc: Global,
    places: &[u16],
    list: &List<Shared<Expr>>,
) -> Result<List<Setting>, NoMemory>
    ensures { IfOk result (λ sets. sets ≡ spec.settings places.now list.now) }
{
    let mut sets = List::new(alloc);
    for (at, place) in places.iter().enumerate() {
        let Some(value) = list.get(at) else {
            return Ok(sets);
        };
        let value = value.clone_in(alloc)?;
        sets.push(Setting {
            place: *place,
            value,
        })?;
    }
    Ok(sets)
}

/// A plan for a table.
fn planned(
    alloc: Global,
    table: TableDef,
    source: List<u16>,
    filter: Option<Shared<Expr>>,
    work: Work,
) -> Result<Shared<Plan>, NoMemory>
    ensures { IfOk result (λ plan. plan ≡ record { table = table; source = source; filter = filter; work = work }) }
{
    Shared::new(
        alloc,
        Plan {
            table,
            source,
            filter,
            work,
        },
    )
}

/// A copy of the table behind a name.
fn table_behind(alloc: Global, v: &EditionView, name: &Name) -> Result<TableDef, Stop>
    requires { IsInOrder v.now }
    ensures { Answers result (spec.there (Ora 942) (table_of v.now name.now)) }
{
    match table_of(v, name) {
        Some(table) => Ok(table.clone_in(alloc)?),
        None => Err(NO_TABLE),
    }
}

/// A plan for the table behind a name.
fn over(
    alloc: Global,
    v: &EditionView,
    name: &Name,
    source: List<u16>,
    filter: Option<Shared<Expr>>,
    work: Work,
) -> Result<Shared<Plan>, Stop>
    requires { IsInOrder v.now }
    ensures { Answers result (spec.over v.now name.now source filter work) }
{
    let table = table_behind(alloc, v, name)?;
    Ok(planned(alloc, table, source, filter, work)?)
}

fn insert_plan(alloc: Global, v: &EditionView, i: &Insert) -> Result<Shared<Plan>, Stop>
    requires { IsInOrder v.now }
    ensures { Answers result (spec.insert_plan v.now i.now) }
{
    let columns = columns(alloc, v, &i.table)?;
    let places = insert_places(alloc, columns.as_slice(), i.columns.as_slice())?;
    let sets = settings(alloc, places.as_slice(), &i.values)?;
    over(alloc, v, &i.table, List::new(alloc), None, Work::Set(sets))
}

/// A column with its new value.
fn set_of(
    alloc: Global,
    relation: &Relation<'_>,
    relations: &Relations<'_, '_>,
    a: &Assignment,
) -> Result<Setting, Stop>
    requires { relations.now ≡ relation.now ∷ [] }
    ensures { Answers result (spec.set_of relation.now a.now) }
{
    let place = place_named(relation.columns(), &a.column)?;
    let value = placed(alloc, &a.value, relations)?;
    Ok(Setting { place, value })
}

fn sets_of(
    alloc: Global,
    relation: &Relation<'_>,
    relations: &Relations<'_, '_>,
    list: &[Assignment],
) -> Result<List<Setting>, Stop>
    requires { relations.now ≡ relation.now ∷ [] }
    ensures { Answers result (all (map (spec.set_of relation.now) list.now)) }
{
    let mut sets = List::new(alloc);
    for a in list {
        sets.push(set_of(alloc, relation, relations, a)?)?;
    }
    Ok(sets)
}

fn update_over(
    alloc: Global,
    v: &EditionView,
    u: &Update,
    relation: &Relation<'_>,
) -> Result<Shared<Plan>, Stop>
    requires { IsInOrder v.now }
    ensures { Answers result (spec.update_over v.now u.now relation.now) }
{
    let relations = Relations::of(alloc, slice::from_ref(relation))?;
    let sets = sets_of(alloc, relation, &relations, u.sets.as_slice())?;
    let filter = placed_filter(alloc, &u.filter, &relations)?;
    let source = places(alloc, relation.columns())?;
    over(alloc, v, &u.table, source, filter, Work::Set(sets))
}

fn delete_over(
    alloc: Global,
    v: &EditionView,
    d: &Delete,
    relation: &Relation<'_>,
) -> Result<Shared<Plan>, Stop>
    requires { IsInOrder v.now }
    ensures { Answers result (spec.delete_over v.now d.now relation.now) }
{
    let relations = Relations::of(alloc, slice::from_ref(relation))?;
    let filter = placed_filter(alloc, &d.filter, &relations)?;
    let source = places(alloc, relation.columns())?;
    over(alloc, v, &d.table, source, filter, Work::Remove)
}

fn update_plan(alloc: Global, v: &EditionView, u: &Update) -> Result<Shared<Plan>, Stop>
    requires { IsInOrder v.now }
    ensures { Answers result (spec.update_plan v.now u.now) }
{
    let relation = only_relation(alloc, v, &u.table, &u.alias)?;
    update_over(alloc, v, u, &relation)
}

fn delete_plan(alloc: Global, v: &EditionView, d: &Delete) -> Result<Shared<Plan>, Stop>
    requires { IsInOrder v.now }
    ensures { Answers result (spec.delete_plan v.now d.now) }
{
    let relation = only_relation(alloc, v, &d.table, &d.alias)?;
    delete_over(alloc, v, d, &relation)
}

/// A copy of the table of a trigger.
fn tree_table(alloc: Global, v: &EditionView, tree: &UnitTree) -> Result<TableDef, Stop>
    ensures { Answers result (spec.tree_table v.now.tables tree.now) }
{
    match tree {
        UnitTree::Trigger(trigger) => named_table(alloc, v, &trigger.get().on),
        _ => Err(NO_TRIGGER),
    }
}

/// A copy of the table of a name.
fn named_table(alloc: Global, v: &EditionView, name: &Name) -> Result<TableDef, Stop>
    ensures { Answers result (spec.there (Ora 4098) (table_named name.now v.now.tables)) }
{
    match table(v, name) {
        Some(table) => Ok(table.clone_in(alloc)?),
        None => Err(INVALID_TRIGGER),
    }
}

/// A copy of the table of the trigger of a name.
fn trigger_table(alloc: Global, v: &EditionView, name: &Name) -> Result<TableDef, Stop>
    requires { IsInOrder v.now }
    ensures { Answers result (spec.trigger_table v.now name.now) }
{
    match object(v, Class::Trigger, name) {
        Some(object) => tree_table(alloc, v, &object.tree),
        None => Err(NO_TRIGGER),
    }
}

fn apply_plan(alloc: Global, v: &EditionView, name: &Name) -> Result<Shared<Plan>, Stop>
    requires { IsInOrder v.now }
    ensures { Answers result (spec.apply_plan v.now name.now) }
{
    let table = trigger_table(alloc, v, name)?;
    let source = List::new(alloc);
    let work = Work::Set(List::new(alloc));
    Ok(planned(alloc, table, source, None, work)?)
}

/// What a statement does.
///
/// Refused, as its checks refuse it: ORA-00942 and ORA-00904 for a table, a view or a column that isn't there. APPLY TRIGGER is
/// ORA-04043 where there is no such trigger, and ORA-04098 where its table isn't there. A query is ORA-00900.
pub fn plan_of(alloc: Global, v: &EditionView, s: &SqlTree) -> Result<Shared<Plan>, Stop>
    requires { IsInOrder v.now }
    ensures { Answers result (spec.plan_of v.now s.now) }
{
    match s {
        SqlTree::Query(_) => Err(Stop::Raised(Code::Ora(900))),
        SqlTree::Insert(i) => insert_plan(alloc, v, i.get()),
        SqlTree::Update(u) => update_plan(alloc, v, u.get()),
        SqlTree::Delete(d) => delete_plan(alloc, v, d.get()),
        SqlTree::Apply(name) => apply_plan(alloc, v, name),
    }
}
