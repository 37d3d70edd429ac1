//! The tables that statements read and write.

ghost use Rattle.std.specs.Prelude.{◌≡◌, ◌++◌, map, IfOk, OnOk};
ghost use Rattle.std.specs.List.{filter_map, list_any};
ghost use Rattle.ebr_ast.specs.Views.{IsInOrder};
ghost use Rattle.ebr_ast.specs.declared.sql.SqlTree.TheVariants as sql;
ghost use Rattle.ebr_dml.specs.Plans.{tree_table};
ghost use Rattle.ebr_locks.specs.Locks as locks;
ghost use Rattle.ebr_exec.specs.Places as places;
ghost use Rattle.ebr_bodies.specs.Statements as spec;

use crate::site::Under;
use ebr_ast::{EditionView, Source, SqlTree, UnitTree};
use ebr_base::{Class, List, Name, NoMemory, TableId, TxId};
use ebr_names::{object, table};
use ebr_query::table_of;
use std::alloc::Global;

/// The tables that a statement reads or writes.
pub fn tables_of(alloc: Global, v: &EditionView, s: &SqlTree) -> Result<List<TableId>, NoMemory>
    requires { IsInOrder v.now }
    ensures { IfOk result (λ tables. tables ≡ spec.tables_of v.now s.now) }
{
    match s {
        SqlTree::Query(query) => sources(alloc, v, query.get().sources.as_slice()),
        SqlTree::Insert(insert) => one(alloc, named_table(v, &insert.get().table)),
        SqlTree::Update(update) => one(alloc, named_table(v, &update.get().table)),
        SqlTree::Delete(delete) => one(alloc, named_table(v, &delete.get().table)),
        SqlTree::Apply(name) => one(alloc, trigger_table(v, name)),
    }
}

fn one(alloc: Global, table: Option<TableId>) -> Result<List<TableId>, NoMemory>
    ensures { IfOk result (λ tables. tables ≡ places.one table) }
{
    let mut tables = List::new(alloc);
    add(&mut tables, table)?;
    Ok(tables)
}

/// Adds a table, where there is one.
fn add(tables: &mut List<TableId>, table: Option<TableId>) -> Result<(), NoMemory>
    ensures { OnOk result (tables.new ≡ tables.old ++ places.one table) }
{
    match table {
        Some(table) => tables.push(table),
        None => Ok(()),
    }
}

fn named_table(v: &EditionView, name: &Name) -> Option<TableId>
    requires { IsInOrder v.now }
    ensures { result ≡ places.named_table v.now name.now }
{
    match table_of(v, name) {
        Some(def) => Some(def.id),
        None => None,
    }
}

/// The tables of the sources of a query.
fn sources(alloc: Global, v: &EditionView, from: &[Source]) -> Result<List<TableId>, NoMemory>
    requires { IsInOrder v.now }
    ensures { IfOk result (λ tables. tables ≡ filter_map (places.source_table v.now) from.now) }
{
    let mut tables = List::new(alloc);
    for source in from {
        add(&mut tables, source_table(v, source))?;
    }
    Ok(tables)
}

fn source_table(v: &EditionView, source: &Source) -> Option<TableId>
    requires { IsInOrder v.now }
    ensures { result ≡ places.source_table v.now source.now }
{
    match source {
        Source::Dual => None,
        Source::Named { name, .. } => named_table(v, name),
    }
}

/// The table of a trigger, where both are there.
fn trigger_table(v: &EditionView, name: &Name) -> Option<TableId>
    requires { IsInOrder v.now }
    ensures { places.one result ≡ spec.tables_of v.now (sql.Apply name.now) }
{
    match object(v, Class::Trigger, name) {
        Some(object) => table_behind(v, &object.tree),
        None => None,
    }
}

/// The table behind ON, of a trigger.
fn table_behind(v: &EditionView, tree: &UnitTree) -> Option<TableId>
    ensures { places.one result ≡ spec.written_by (tree_table v.now.tables tree.now) }
{
    match tree {
        UnitTree::Trigger(trigger) => match table(v, &trigger.get().on) {
            Some(def) => Some(def.id),
            None => None,
        },
        _ => None,
    }
}

/// Whether a statement of this transaction around it is changing one of these tables.
pub fn is_mutating(t: TxId, changing: &[Under], tables: &[TableId]) -> bool
    ensures { result ≡ list_any (places.is_changing t tables.now) changing.now }
{
    changing.iter().any(|under| is_changing(t, tables, under))
}

fn is_changing(t: TxId, tables: &[TableId], under: &Under) -> bool
    ensures { result ≡ places.is_changing t tables.now under.now }
{
    same_tx(under.tx, t) && is_among(tables, under.table)
}

fn same_tx(a: TxId, b: TxId) -> bool
    ensures { result ≡ locks.same_tx a b }
{
    a.session.0 == b.session.0 && a.depth == b.depth
}

fn is_among(tables: &[TableId], table: TableId) -> bool
    ensures { result ≡ list_any (places.is_table table) tables.now }
{
    tables.iter().any(|other| table.0 == other.0)
}

/// The tables under change, and these with them, which a statement of this transaction changes.
pub fn with_tables(
    alloc: Global,
    changing: &[Under],
    t: TxId,
    tables: &[TableId],
) -> Result<List<Under>, NoMemory>
    ensures { IfOk result (λ all. all ≡ changing.now ++ map (spec.under t) tables.now) }
{
    let mut all = copied(alloc, changing)?;
    for table in tables {
        all.push(Under {
            table: *table,
            tx: t,
        })?;
    }
    Ok(all)
}

fn copied(alloc: Global, changing: &[Under]) -> Result<List<Under>, NoMemory>
    ensures { IfOk result (λ copy. copy ≡ changing.now) }
{
    let mut copy = List::new(alloc);
    for under in changing {
        copy.push(same(under))?;
    }
    Ok(copy)
}

fn same(under: &Under) -> Under
    ensures { result ≡ under.now }
{
    Under {
        table: under.table,
        tx: under.tx,
    }
}
