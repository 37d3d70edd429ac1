//! Statements of SQL.

ghost use Rattle.std.specs.Prelude.{◌≡◌, ◌∷◌, ◌++◌, [], map, IfOk, OnOk};
ghost use Rattle.ebr_code.specs.declared.instruction.Lookup.TheVariants as lookup;
ghost use Rattle.ebr_code.specs.declared.instruction.Instruction.{Do};
ghost use Rattle.ebr_code.specs.declared.instruction.Operation.TheVariants as does;
ghost use Rattle.ebr_run.specs.Binds.{bound_query};
ghost use Rattle.ebr_run.specs.Statements as run;
ghost use Rattle.ebr_code.specs.Codes as spec;
ghost use Rattle.ebr_places.specs.Lent.{bound};
ghost use Rattle.ebr_exprcode.specs.Placed.{placed};

use ebr_ast::{Query, RowImage, SqlStmt, SqlTree, Target, Transaction};
use ebr_base::{CloneIn, List, NoMemory, Shared};
use ebr_binds::{delete, insert, query, update};
use ebr_code::{Bind, Instruction, Lookup, Operation};
use ebr_exprcode::{Place, act, load, place_types, stores, target_places};
use ebr_places::{Around, Bound};
use std::alloc::Global;

fn bind(alloc: Global, it: &Bind, out: &mut List<Instruction>) -> Result<(), NoMemory>
    ensures { OnOk result (out.new ≡ out.old ++ spec.bind_code it.now) }
{
    match it {
        Bind::Variable(location) => {
            let copy = location.clone_in(alloc)?;
            load(alloc, copy, out)
        }
        Bind::New(at) => act(out, Operation::LoadColumn(RowImage::New, *at)),
        Bind::Old(at) => act(out, Operation::LoadColumn(RowImage::Old, *at)),
    }
}

fn binds(alloc: Global, list: &List<Bind>, out: &mut List<Instruction>) -> Result<(), NoMemory>
    ensures { OnOk result (out.new ≡ out.old ++ spec.binds_code list.now) }
{
    for it in list.as_slice() {
        bind(alloc, it, out)?;
    }
    Ok(())
}

/// A statement behind its binds, and what is done with the answer.
pub fn request(
    alloc: Global,
    stmt: Shared<SqlTree>,
    list: &List<Bind>,
    lookup: Lookup,
    out: &mut List<Instruction>,
) -> Result<(), NoMemory>
    ensures { OnOk result (out.new ≡ out.old ++ spec.request_code stmt list.now lookup) }
{
    binds(alloc, list, out)?;
    let lookup = Shared::new(alloc, lookup)?;
    act(
        out,
        Operation::Sql {
            stmt,
            binds: list.len(),
            lookup,
        },
    )
}

/// SELECT INTO.
fn select(
    alloc: Global,
    q: Bound<Query>,
    places: &List<Place>,
    out: &mut List<Instruction>,
) -> Result<(), NoMemory>
    ensures { OnOk result (out.new ≡ out.old ++ spec.select_code (bound q) (map placed places.now)) }
{
    let stmt = Shared::new(alloc, SqlTree::Query(q.tree))?;
    let types = place_types(alloc, places)?;
    request(alloc, stmt, q.binds.get(), Lookup::Row(types), out)?;
    stores(alloc, places, out)?;
    act(out, Operation::Affect(1))
}

fn select_into(
    alloc: Global,
    q: &Query,
    targets: &List<Target>,
    around: &Around<'_>,
    out: &mut List<Instruction>,
) -> Result<(), NoMemory>
    ensures { OnOk result (out.new ≡ out.old ++ spec.select_code (bound_query around.now q.now) (map (run.target_place around.now) targets.now)) }
{
    let places = target_places(alloc, targets, around)?;
    let q = query(alloc, around, q)?;
    select(alloc, q, &places, out)
}

/// A statement that changes rows.
fn change(
    alloc: Global,
    tree: SqlTree,
    list: &List<Bind>,
    out: &mut List<Instruction>,
) -> Result<(), NoMemory>
    ensures { OnOk result (out.new ≡ out.old ++ spec.request_code tree list.now lookup.Count) }
{
    let stmt = Shared::new(alloc, tree)?;
    request(alloc, stmt, list, Lookup::Count, out)
}

fn copy_of(alloc: Global, it: &Transaction) -> Result<Transaction, NoMemory>
    ensures { IfOk result (λ copy. copy ≡ it.now) }
{
    match it {
        Transaction::Commit => Ok(Transaction::Commit),
        Transaction::Rollback => Ok(Transaction::Rollback),
        Transaction::RollbackTo(name) => Ok(Transaction::RollbackTo(name.clone_in(alloc)?)),
        Transaction::Savepoint(name) => Ok(Transaction::Savepoint(name.clone_in(alloc)?)),
    }
}

fn transact(alloc: Global, it: &Transaction, out: &mut List<Instruction>) -> Result<(), NoMemory>
    ensures { OnOk result (out.new ≡ out.old ++ Do (does.Transact it.now) ∷ []) }
{
    let copy = copy_of(alloc, it)?;
    act(out, Operation::Transact(copy))
}

/// Adds the code of a statement of SQL.
pub fn sql(
    alloc: Global,
    it: &SqlStmt,
    around: &Around<'_>,
    out: &mut List<Instruction>,
) -> Result<(), NoMemory>
    ensures { OnOk result (out.new ≡ out.old ++ spec.sql_code it.now around.now) }
{
    match it {
        SqlStmt::SelectInto(q, targets) => select_into(alloc, q.get(), targets, around, out),
        SqlStmt::Insert(i) => {
            let b = insert(alloc, around, i.get())?;
            change(alloc, SqlTree::Insert(b.tree), b.binds.get(), out)
        }
        SqlStmt::Update(u) => {
            let b = update(alloc, around, u.get())?;
            change(alloc, SqlTree::Update(b.tree), b.binds.get(), out)
        }
        SqlStmt::Delete(d) => {
            let b = delete(alloc, around, d.get())?;
            change(alloc, SqlTree::Delete(b.tree), b.binds.get(), out)
        }
        SqlStmt::Transaction(it) => transact(alloc, it, out),
    }
}
