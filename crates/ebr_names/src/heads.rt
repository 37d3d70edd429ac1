//! What a unit declares to others: its text up to its body.

ghost use Rattle.std.specs.Prelude.{◌≡◌, [], ◌∷◌, map, IfOk};
ghost use Rattle.std.specs.List.{filter_map};
ghost use Rattle.ebr_names.specs.Headers.{head_in, declaration_in, header_of, lent};

use ebr_ast::{Decl, Head, PackageItem, Subprogram, UnitTree};
use ebr_base::{List, NoMemory};
use std::alloc::Global;

/// The heads of subprograms and the declarations that stand in a unit's text up to its body, each in order. They are lent
/// by the unit.
#[derive(Drop)]
pub struct Header<'a> {
    pub heads: List<&'a Head>,
    pub decls: List<&'a Decl>,
}

/// What stands in a unit's text up to its body.
pub fn header_of<'a>(alloc: Global, tree: &'a UnitTree) -> Result<Header<'a>, NoMemory>
    ensures { IfOk result (λ header. lent header ≡ header_of tree.now) }
{
    match tree {
        UnitTree::Subprogram(unit) => subprogram_header(alloc, unit.get()),
        UnitTree::Package(_, items) => package_header(alloc, items.get().as_slice()),
        _ => Ok(Header {
            heads: List::new(alloc),
            decls: List::new(alloc),
        }),
    }
}

fn subprogram_header<'a>(alloc: Global, unit: &'a Subprogram) -> Result<Header<'a>, NoMemory>
    ensures { IfOk result (λ header. lent header ≡ record { heads = unit.now.head ∷ []; decls = [] }) }
{
    let mut heads = List::new(alloc);
    heads.push(&unit.head)?;
    Ok(Header {
        heads,
        decls: List::new(alloc),
    })
}

fn package_header<'a>(alloc: Global, items: &'a [PackageItem]) -> Result<Header<'a>, NoMemory>
    ensures { IfOk result (λ header. lent header ≡ record { heads = filter_map head_in items.now; decls = filter_map declaration_in items.now }) }
{
    let heads = heads_in(alloc, items)?;
    Ok(Header {
        heads,
        decls: declarations_in(alloc, items)?,
    })
}

fn heads_in<'a>(alloc: Global, items: &'a [PackageItem]) -> Result<List<&'a Head>, NoMemory>
    ensures { IfOk result (λ heads. map (λ b. b.now) heads ≡ filter_map head_in items.now) }
{
    let mut heads = List::new(alloc);
    for item in items {
        if let PackageItem::Head(head) = item {
            heads.push(head)?;
        }
    }
    Ok(heads)
}

fn declarations_in<'a>(alloc: Global, items: &'a [PackageItem]) -> Result<List<&'a Decl>, NoMemory>
    ensures { IfOk result (λ decls. map (λ b. b.now) decls ≡ filter_map declaration_in items.now) }
{
    let mut decls = List::new(alloc);
    for item in items {
        if let PackageItem::Decl(declaration) = item {
            decls.push(declaration)?;
        }
    }
    Ok(decls)
}
