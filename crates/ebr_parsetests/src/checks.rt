//! What no text of a statement spells: a bind past the list of binds, and a place of a row.
//!
//! That the checks of a statement refuse them, by ORA-00904, is own.

use crate::sample_view::seen;
use ebr_ast::{Item, ItemKind, Query, SelectList, Source, SqlTree};
use ebr_base::{Bytes, Code, List, NoMemory, Shared, Stop};
use ebr_exprtree::Expr;
use ebr_names::is_in_order;
use ebr_sqlcheck::check_sql;
use std::alloc::Global;
use std::test::Fail;

fn text_of_code(alloc: Global, code: Code) -> Result<Bytes, NoMemory> {
    let mut text = Bytes::new(alloc);
    code.append_to(&mut text)?;
    Ok(text)
}

fn printed(alloc: Global, found: Result<(), Stop>) -> Result<Bytes, NoMemory> {
    match found {
        Ok(()) => Bytes::from_slice(alloc, b"OK"),
        Err(Stop::Raised(code)) => text_of_code(alloc, code),
        Err(Stop::NoMemory) => Err(NoMemory),
    }
}

/// `SELECT e FROM dual`
fn query_of(alloc: Global, e: Shared<Expr>) -> Result<SqlTree, NoMemory> {
    let what = ItemKind::Expr(e);
    let mut items = List::new(alloc);
    items.push(Item { what, alias: None })?;
    let mut sources = List::new(alloc);
    sources.push(Source::Dual)?;
    Ok(SqlTree::Query(Shared::new(
        alloc,
        Query {
            list: SelectList::Items(items),
            sources,
            filter: None,
            order: List::new(alloc),
            for_update: false,
        },
    )?))
}

/// What a query of an expression is refused for, where there are no binds.
fn refusal(alloc: Global, e: Shared<Expr>) -> Result<Bytes, NoMemory> {
    let v = seen(alloc, &[])?;
    if !is_in_order(&v) {
        return Err(NoMemory);
    }
    let statement = query_of(alloc, e)?;
    printed(alloc, check_sql(alloc, &v, &statement, &[]))
}

#[test]
fn binds_and_places_that_are_not_there_are_refused(rt: HostRuntime) -> Result<(), Fail> {
    let bind = refusal(rt.alloc(), Shared::new(rt.alloc(), Expr::Bind(0))?)?;
    assert!(rt; bind.as_slice() == "ORA-00904".as_bytes());
    let place = refusal(rt.alloc(), Shared::new(rt.alloc(), Expr::Place(0))?)?;
    assert!(rt; place.as_slice() == "ORA-00904".as_bytes());
    Ok(())
}
