//! Subprograms and packages.

ghost use Rattle.std.specs.Prelude.{◌≡◌, Some, List as Sequence};
ghost use Rattle.ebr_lexer.specs.declared.token.Token.{Token};
ghost use Rattle.ebr_grammar.specs.Forms.{sees};
ghost use Rattle.ebr_grammar.specs.Outcome.{Reads};
ghost use Rattle.ebr_grammar.specs.Reading.{with_first};
ghost use Rattle.ebr_plparse.specs.Productions as productions;
ghost use Rattle.ebr_plparse.specs.Productions.{reads_by};
ghost use Rattle.ebr_plparse.specs.Packages as grammar;

use crate::heads::read_head;
use ebr_ast::{
    Block, Decl, PackageBody, PackageItem, PackageItems, Subprogram, Subprograms, UnitTree,
};
use ebr_base::{List, Name, Shared};
use ebr_grammar::{Kind, ReadStop, Tokens, shared};
use ebr_stmtparse::{Initial, read_body, read_declaration, read_initial};
use std::alloc::Global;

/// What a package's body holds.
#[derive(Drop)]
pub struct BodyMembers {
    pub declarations: List<Decl>,
    pub subprograms: Subprograms,
    pub initial: Initial,
}

fn is_or_as(tokens: &mut Tokens<'_>) -> Result<(), ReadStop>
    ensures { Reads (reads_by productions.is_or_as tokens.old) result tokens.new }
{
    if tokens.eat(Kind::Is) {
        return Ok(());
    }
    tokens.expect(Kind::As)?;
    Ok(())
}

/// A subprogram's body, with IS or AS before it.
fn given_body(alloc: Global, tokens: &mut Tokens<'_>) -> Result<Block, ReadStop>
    ensures { Reads (reads_by grammar.given_body tokens.old) result tokens.new }
{
    is_or_as(tokens)?;
    let body = read_body(alloc, tokens)?;
    Ok(body)
}

/// A procedure or a function with its body.
fn subprogram(alloc: Global, tokens: &mut Tokens<'_>) -> Result<Subprogram, ReadStop>
    ensures { Reads (reads_by grammar.subprogram tokens.old) result tokens.new }
{
    let head = read_head(alloc, tokens)?;
    let body = given_body(alloc, tokens)?;
    Ok(Subprogram { head, body })
}

/// A subprogram with its body, behind its pointer.
pub fn read_shared_subprogram(
    alloc: Global,
    tokens: &mut Tokens<'_>,
) -> Result<Shared<Subprogram>, ReadStop>
    ensures { Reads (reads_by grammar.subprogram tokens.old) result tokens.new }
{
    let found = subprogram(alloc, tokens)?;
    shared(alloc, found)
}

/// A package's end, with a name or without.
fn unit_end(alloc: Global, tokens: &mut Tokens<'_>) -> Result<(), ReadStop>
    ensures { Reads (reads_by grammar.unit_end tokens.old) result tokens.new }
{
    tokens.expect(Kind::End)?;
    let _name = tokens.maybe_name(alloc)?;
    tokens.expect(Kind::Semicolon)?;
    Ok(())
}

/// Whether a declaration begins here.
fn sees_declaration(tokens: &Tokens<'_>) -> bool
    ensures { result ≡ sees grammar.declaration_begins tokens.now }
{
    tokens.sees_any(&[Kind::Pragma, Kind::Cursor]) || tokens.sees_name()
}

/// Whether an item of a package's specification begins here.
fn sees_item(tokens: &Tokens<'_>) -> bool
    ensures { result ≡ sees grammar.item_begins tokens.now }
{
    tokens.sees_any(&[Kind::Procedure, Kind::Function]) || sees_declaration(tokens)
}

fn package_item(alloc: Global, tokens: &mut Tokens<'_>) -> Result<PackageItem, ReadStop>
    ensures { Reads (reads_by grammar.package_item tokens.old) result tokens.new }
{
    if tokens.sees_any(&[Kind::Procedure, Kind::Function]) {
        let head = read_head(alloc, tokens)?;
        tokens.expect(Kind::Semicolon)?;
        Ok(PackageItem::Head(head))
    } else {
        Ok(PackageItem::Decl(read_declaration(alloc, tokens)?))
    }
}

fn package_items(alloc: Global, tokens: &mut Tokens<'_>) -> Result<List<PackageItem>, ReadStop>
    ensures { Reads (reads_by grammar.package_items tokens.old) result tokens.new }
{
    let mut found = List::new(alloc);
    for _turn in 0..tokens.left() {
        if !sees_item(tokens) {
            return Ok(found);
        }
        let next = package_item(alloc, tokens)?;
        found.push(next)?;
    }
    Ok(found)
}

/// What stands behind a package's name and IS or AS.
fn specification_rest(
    alloc: Global,
    tokens: &mut Tokens<'_>,
    name: Name,
) -> Result<UnitTree, ReadStop>
    ensures { Reads (with_first name (reads_by grammar.specification_rest tokens.old)) result tokens.new }
{
    let items = package_items(alloc, tokens)?;
    unit_end(alloc, tokens)?;
    Ok(UnitTree::Package(name, PackageItems::shared(alloc, items)?))
}

/// What stands behind a package's name.
fn specification(alloc: Global, tokens: &mut Tokens<'_>, name: Name) -> Result<UnitTree, ReadStop>
    ensures { Reads (with_first name (reads_by grammar.specification tokens.old)) result tokens.new }
{
    is_or_as(tokens)?;
    specification_rest(alloc, tokens, name)
}

fn declarations(alloc: Global, tokens: &mut Tokens<'_>) -> Result<List<Decl>, ReadStop>
    ensures { Reads (reads_by grammar.declarations tokens.old) result tokens.new }
{
    let mut found = List::new(alloc);
    for _turn in 0..tokens.left() {
        if !sees_declaration(tokens) {
            return Ok(found);
        }
        let next = read_declaration(alloc, tokens)?;
        found.push(next)?;
    }
    Ok(found)
}

fn subprograms(alloc: Global, tokens: &mut Tokens<'_>) -> Result<List<Subprogram>, ReadStop>
    ensures { Reads (reads_by grammar.subprograms tokens.old) result tokens.new }
{
    let mut found = List::new(alloc);
    for _turn in 0..tokens.left() {
        if !tokens.sees_any(&[Kind::Procedure, Kind::Function]) {
            return Ok(found);
        }
        let next = subprogram(alloc, tokens)?;
        found.push(next)?;
    }
    Ok(found)
}

/// Subprograms with what is noted of their names: what was read, before any tokens.
fn noted(alloc: Global, list: List<Subprogram>) -> Result<Subprograms, ReadStop>
    ensures { (ts : Sequence Token) → Reads (Some (list, ts)) result ts }
{
    Ok(Subprograms::of(alloc, list)?)
}

/// The subprograms of a package's body.
fn noted_subprograms(alloc: Global, tokens: &mut Tokens<'_>) -> Result<Subprograms, ReadStop>
    ensures { Reads (reads_by grammar.subprograms tokens.old) result tokens.new }
{
    let found = subprograms(alloc, tokens)?;
    noted(alloc, found)
}

/// The initial part of a package's body, which is empty where none stands there.
fn maybe_initial(alloc: Global, tokens: &mut Tokens<'_>) -> Result<Initial, ReadStop>
    ensures { Reads (reads_by grammar.maybe_initial tokens.old) result tokens.new }
{
    if tokens.sees(Kind::Begin) {
        let initial = read_initial(alloc, tokens)?;
        Ok(initial)
    } else {
        Ok(Initial {
            statements: List::new(alloc),
            handlers: List::new(alloc),
        })
    }
}

fn body_members(alloc: Global, tokens: &mut Tokens<'_>) -> Result<BodyMembers, ReadStop>
    ensures { Reads (reads_by grammar.body_members tokens.old) result tokens.new }
{
    let declarations = declarations(alloc, tokens)?;
    let subprograms = noted_subprograms(alloc, tokens)?;
    let initial = maybe_initial(alloc, tokens)?;
    Ok(BodyMembers {
        declarations,
        subprograms,
        initial,
    })
}

fn closed_members(alloc: Global, tokens: &mut Tokens<'_>) -> Result<BodyMembers, ReadStop>
    ensures { Reads (reads_by grammar.closed_members tokens.old) result tokens.new }
{
    let members = body_members(alloc, tokens)?;
    unit_end(alloc, tokens)?;
    Ok(members)
}

/// A package's body of its parts.
fn body_of(name: Name, members: BodyMembers) -> PackageBody
    ensures { result ≡ grammar.body_tree name members }
{
    PackageBody {
        name,
        declarations: members.declarations,
        subprograms: members.subprograms,
        statements: members.initial.statements,
        handlers: members.initial.handlers,
    }
}

/// What stands behind PACKAGE BODY.
fn package_body(alloc: Global, tokens: &mut Tokens<'_>) -> Result<Shared<PackageBody>, ReadStop>
    ensures { Reads (reads_by grammar.package_body tokens.old) result tokens.new }
{
    let name = tokens.name(alloc)?;
    is_or_as(tokens)?;
    let members = closed_members(alloc, tokens)?;
    shared(alloc, body_of(name, members))
}

/// What stands behind PACKAGE and the word BODY: the package BODY, or a package's body.
fn behind_body(alloc: Global, tokens: &mut Tokens<'_>, body: Name) -> Result<UnitTree, ReadStop>
    ensures { Reads (with_first body (reads_by grammar.behind_body tokens.old)) result tokens.new }
{
    if tokens.sees_any(&[Kind::Is, Kind::As]) {
        specification(alloc, tokens, body)
    } else {
        Ok(UnitTree::PackageBody(package_body(alloc, tokens)?))
    }
}

/// What stands behind PACKAGE.
pub fn read_any_package(alloc: Global, tokens: &mut Tokens<'_>) -> Result<UnitTree, ReadStop>
    ensures { Reads (reads_by grammar.any_package tokens.old) result tokens.new }
{
    if tokens.sees(Kind::Body) {
        let body = tokens.name_among(alloc, &[Kind::Body])?;
        behind_body(alloc, tokens, body)
    } else {
        let name = tokens.name_but(alloc, &[Kind::Body])?;
        specification(alloc, tokens, name)
    }
}
