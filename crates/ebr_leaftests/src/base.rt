//! What no clause says: that trees may stand in lists, boxes and shared parts, and how they and lists print themselves.

use ebr_base::{Boxed, Bytes, List, NoMemory, Shared, both, rest_from};
use std::alloc::Global;
use std::test::Fail;

/// A tree that reaches itself through a list, a box and a shared part.
#[derive(Debug, Drop)]
enum Tree {
    Leaf(u8),
    Minus(Boxed<Tree>),
    Not(Shared<Tree>),
    Sum(List<Tree>),
}

fn sample(alloc: Global) -> Result<List<Tree>, NoMemory> {
    let leaf = Tree::Not(Shared::new(alloc, Tree::Leaf(2))?);
    let mut parts = List::new(alloc);
    parts.push(Tree::Minus(Boxed::new(alloc, leaf)?))?;
    parts.push(Tree::Sum(List::new(alloc)))?;
    Ok(parts)
}

#[test]
fn trees_print_themselves(rt: HostRuntime) -> Result<(), Fail> {
    let alloc = rt.alloc();
    let tree = Tree::Sum(sample(alloc)?);
    let text = format!(in alloc; "{tree:?}")?;
    assert!(rt;
        text.as_str() == "Sum([Minus(Not(Leaf(2))), Sum([])])",
        "{text}"
    );
    Ok(())
}

fn two_texts(alloc: Global) -> Result<List<Bytes>, NoMemory> {
    let mut list = List::new(alloc);
    list.push(Bytes::from_slice(alloc, b"one")?)?;
    list.push(Bytes::from_slice(alloc, b"t\n\"")?)?;
    Ok(list)
}

/// How a list, what stands behind its first element, and a shared number print themselves.
fn printed(alloc: Global) -> Result<Bytes, NoMemory> {
    let shared = Shared::new(alloc, 7u16)?;
    let (list, shared) = both(alloc, &two_texts(alloc)?, &shared)?;
    if list.is_empty() {
        return Err(NoMemory);
    }
    let rest = rest_from(list.as_slice(), 1);
    let text = format!(in alloc; "{list:?} {rest:?} {shared:?}")?;
    Bytes::from_slice(alloc, text.as_bytes())
}

#[test]
fn lists_print_themselves(rt: HostRuntime) -> Result<(), Fail> {
    let wanted = b"[\"one\", \"t\\x0a\"\"] [\"t\\x0a\"\"] 7";
    let text = printed(rt.alloc())?;
    assert!(rt; text.as_slice() == wanted.as_slice(), "{text:?}");
    Ok(())
}
