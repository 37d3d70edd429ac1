//! The codes that EXCEPTION_INIT gives exceptions.

ghost use Rattle.std.specs.Prelude.{◌≡◌, IfOk, OnOk};
ghost use Rattle.std.specs.List.{filter_map};
ghost use Rattle.ebr_run.specs.Scope as spec;
ghost use Rattle.ebr_places.specs.inside.Codes as inside;

use crate::members::declaration_in;
use ebr_ast::{Decl, PackageItem};
use ebr_base::{CloneIn, Name, NoMemory};
use indexmap::IndexMap;
use std::alloc::Global;
use std::marker::Model;

/// Declarations, which contracts see as their list, with the codes that exceptions have among them. The tree lends them.
#[derive(Drop)]
pub struct Codes<'a> {
    among: Among<'a>,
    codes: IndexMap<Name, u64>,
}

/// Declarations, or the items of a package that they stand among.
#[derive(Clone, Copy)]
enum Among<'a> {
    Declarations(&'a [Decl]),
    Items(&'a [PackageItem]),
}

impl<'a> Model for Codes<'a> {
    ghost use Rattle.std.specs.Prelude.{List};
    ghost use Rattle.std.specs.Coded.{coded_list};
    ghost use Rattle.ebr_ast.specs.declared.statement.Decl.{Decl as Declared};
    ghost use Rattle.ebr_ast.specs.contracts.statement.Decl as d;
    ghost use Rattle.ebr_places.specs.inside.Codes.{listed, HasCodes};

    ghost Value = { List Declared };

    ghost coded = { coded_list d.the_row.coded };

    ghost view = { λ s. listed s.among };

    ghost invariant = { λ s. HasCodes (listed s.among) s.codes.entries };
}

impl<'a> Codes<'a> {
    /// The declarations of a list.
    pub fn of(alloc: Global, list: &'a [Decl]) -> Result<Codes<'a>, NoMemory>
        ensures { IfOk result (λ codes. codes ≡ list.now) }
    {
        let codes = codes_of(alloc, list)?;
        Ok(Codes {
            among: Among::Declarations(list),
            codes,
        })
    }

    /// The declarations of a package's specification.
    pub fn of_items(alloc: Global, items: &'a [PackageItem]) -> Result<Codes<'a>, NoMemory>
        ensures { IfOk result (λ codes. codes ≡ filter_map spec.declaration_in items.now) }
    {
        let codes = codes_of_items(alloc, items)?;
        Ok(Codes {
            among: Among::Items(items),
            codes,
        })
    }

    /// The code that an exception has among them; of two the last counts.
    pub fn code(&self, name: &Name) -> Option<u64>
        ensures { result ≡ spec.code_given name.now self.now }
    {
        match self.codes.get(name) {
            Some(code) => Some(*code),
            None => None,
        }
    }
}

fn codes_of(alloc: Global, list: &[Decl]) -> Result<IndexMap<Name, u64>, NoMemory>
    ensures { IfOk result (λ codes. inside.HasCodes list.now codes.entries) }
{
    let mut codes = IndexMap::new(alloc);
    for declaration in list {
        note(&mut codes, declaration)?;
    }
    Ok(codes)
}

fn codes_of_items(alloc: Global, items: &[PackageItem]) -> Result<IndexMap<Name, u64>, NoMemory>
    ensures { IfOk result (λ codes. inside.HasCodes (filter_map spec.declaration_in items.now) codes.entries) }
{
    let mut codes = IndexMap::new(alloc);
    for item in items {
        note_item(&mut codes, item)?;
    }
    Ok(codes)
}

fn note_item(codes: &mut IndexMap<Name, u64>, item: &PackageItem) -> Result<(), NoMemory>
    ensures { OnOk result (inside.Notes (inside.given_by item.now) codes.old.entries codes.new.entries) }
{
    match declaration_in(item) {
        Some(declaration) => note(codes, declaration),
        None => Ok(()),
    }
}

/// Notes the code that a declaration gives an exception, in the place of an earlier one.
fn note(codes: &mut IndexMap<Name, u64>, declaration: &Decl) -> Result<(), NoMemory>
    ensures { OnOk result (inside.Notes (λ n. inside.declared_code n declaration.now) codes.old.entries codes.new.entries) }
{
    match declaration {
        Decl::ExceptionInit(name, code) => put(codes, name, *code),
        Decl::Variable { .. } | Decl::Exception(_) | Decl::Cursor(_, _) | Decl::Autonomous => Ok(
            (),
        ),
    }
}

fn put(codes: &mut IndexMap<Name, u64>, name: &Name, code: u64) -> Result<(), NoMemory>
    ensures { OnOk result (inside.Notes (inside.of_name name.now code) codes.old.entries codes.new.entries) }
{
    let alloc = *codes.allocator();
    let key = name.clone_in(alloc)?;
    codes.insert(key, code)?;
    Ok(())
}
