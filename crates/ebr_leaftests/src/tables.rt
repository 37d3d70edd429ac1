//! Tables: that `create` succeeds with ample memory, of which the server calls the parts.

use crate::answers::{is, release};
use ebr_base::{ColType, Column, List, Name, NoMemory, Stop, TableDef, TableId};
use ebr_tables::Tables;
use std::alloc::Global;
use std::test::Fail;

/// A name; where the bytes spell none, the test fails with want of memory.
fn name(alloc: Global, bytes: &[u8]) -> Result<Name, NoMemory> {
    Name::of(alloc, bytes)?.ok_or(NoMemory)
}

/// A table of one column, which is its key.
fn table(alloc: Global) -> Result<TableDef, NoMemory> {
    let mut key = List::new(alloc);
    key.push(0u16)?;
    let mut columns = List::new(alloc);
    columns.push(Column {
        name: name(alloc, b"id")?,
        ty: ColType::Num(9),
        not_null: false,
    })?;
    Ok(TableDef {
        id: TableId(0),
        name: name(alloc, b"t")?,
        columns,
        key,
    })
}

fn create(tables: &mut Tables, def: Result<TableDef, NoMemory>) -> Result<u32, Stop> {
    Ok(tables.create(def?)?.0)
}

fn table_goes(alloc: Global) -> Result<bool, NoMemory> {
    let mut tables = Tables::new(alloc)?;
    let goes = is(create(&mut tables, table(alloc)), Ok(1));
    release(tables);
    Ok(goes)
}

#[test]
fn a_table_is_made(rt: HostRuntime) -> Result<(), Fail> {
    assert!(rt; table_goes(rt.alloc())?);
    Ok(())
}
