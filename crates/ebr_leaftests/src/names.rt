//! What a unit declares to others: that `header` succeeds with ample memory, which the server doesn't call.

use ebr_ast::{Decl, EditionView, Head, Object, PackageItem, PackageItems, UnitTree};
use ebr_base::{Bytes, Class, EditionNo, List, Name, NoMemory, ObjectKey, Shared, Stamp, TableDef};
use ebr_names::{Header, header, is_in_order};
use ebr_shared_list::SharedList;
use std::alloc::Global;
use std::test::Fail;

/// Both values. It is generic so that what it drops where there is no memory is dropped by one call.
fn pair<A: Drop, B: Drop>(
    a: Result<A, NoMemory>,
    b: Result<B, NoMemory>,
) -> Result<(A, B), NoMemory> {
    let a = a?;
    Ok((a, b?))
}

/// A list of both values.
fn two<T: Drop>(
    alloc: Global,
    a: Result<T, NoMemory>,
    b: Result<T, NoMemory>,
) -> Result<List<T>, NoMemory> {
    let mut list = List::new(alloc);
    list.push(a?)?;
    list.push(b?)?;
    Ok(list)
}

/// A name; where the text spells none, the test fails with want of memory.
fn name(alloc: Global, text: &str) -> Result<Name, NoMemory> {
    Name::of(alloc, text.as_bytes())?.ok_or(NoMemory)
}

fn head(alloc: Global, text: &str) -> Result<Head, NoMemory> {
    Ok(Head {
        name: name(alloc, text)?,
        parameters: List::new(alloc),
        result: None,
    })
}

fn head_item(alloc: Global, text: &str) -> Result<PackageItem, NoMemory> {
    Ok(PackageItem::Head(head(alloc, text)?))
}

fn exception_item(alloc: Global, text: &str) -> Result<PackageItem, NoMemory> {
    Ok(PackageItem::Decl(Decl::Exception(name(alloc, text)?)))
}

fn package_items(alloc: Global) -> Result<Shared<PackageItems>, NoMemory> {
    let items = two(alloc, head_item(alloc, "BUMP"), exception_item(alloc, "E"))?;
    PackageItems::shared(alloc, items)
}

/// A specification with the procedure BUMP and the exception E.
fn package(alloc: Global, text: &str) -> Result<UnitTree, NoMemory> {
    let (name, items) = pair(name(alloc, text), package_items(alloc))?;
    Ok(UnitTree::Package(name, items))
}

/// A value behind a pointer. It is generic so that what it drops where there is no memory is dropped by one call.
fn shared<T: Drop>(alloc: Global, value: Result<T, NoMemory>) -> Result<Shared<T>, NoMemory> {
    Ok(Shared::new(alloc, value?)?)
}

fn object(alloc: Global) -> Result<Object, NoMemory> {
    let text = shared(alloc, Ok(Bytes::new(alloc)))?;
    let (name, tree) = pair(name(alloc, "CNT"), package(alloc, "CNT"))?;
    Ok(Object {
        key: ObjectKey {
            class: Class::Unit,
            name,
        },
        text,
        tree,
        stamp: Stamp {
            edition: EditionNo(1),
            count: 1,
        },
        enabled: true,
    })
}

fn objects(alloc: Global) -> Result<SharedList<Shared<Object>>, NoMemory> {
    let mut objects = List::new(alloc);
    objects.push(shared(alloc, object(alloc))?)?;
    SharedList::from_slice(alloc, objects.as_slice())
}

fn no_tables(alloc: Global) -> Result<Shared<List<TableDef>>, NoMemory> {
    Shared::new(alloc, List::new(alloc))
}

/// What the edition sees.
fn seen(alloc: Global) -> Result<EditionView, NoMemory> {
    let (objects, tables) = pair(objects(alloc), no_tables(alloc))?;
    Ok(EditionView {
        edition: EditionNo(1),
        objects,
        tables,
    })
}

fn key(alloc: Global, text: &str) -> Result<ObjectKey, NoMemory> {
    Ok(ObjectKey {
        class: Class::Unit,
        name: name(alloc, text)?,
    })
}

fn has_both(header: &Header<'_>) -> bool {
    header.heads.len() == 1 && header.decls.len() == 1
}

/// Whether a head and a declaration are told. The edition has to be in order, else the test fails with want of memory.
fn declares(alloc: Global, key: &ObjectKey, v: &EditionView) -> Result<bool, NoMemory> {
    if !is_in_order(v) {
        return Err(NoMemory);
    }
    match header(alloc, v, key)? {
        Some(found) => Ok(has_both(&found)),
        None => Ok(false),
    }
}

fn package_declares(alloc: Global) -> Result<bool, NoMemory> {
    declares(alloc, &key(alloc, "CNT")?, &seen(alloc)?)
}

#[test]
fn a_package_declares_its_procedure_and_its_exception(rt: HostRuntime) -> Result<(), Fail> {
    assert!(rt; package_declares(rt.alloc())?);
    Ok(())
}
