//! What stands behind DROP.

ghost use Rattle.std.specs.Prelude.{◌≡◌};
ghost use Rattle.ebr_grammar.specs.Outcome.{Reads};
ghost use Rattle.ebr_ddlparse.specs.Definitions as spec;

use ebr_ast::{Definition, ObjectKind};
use ebr_base::Name;
use ebr_grammar::{Kind, ReadStop, Tokens};
use std::alloc::Global;

/// What stands behind DROP EDITION.
fn drop_edition(alloc: Global, tokens: &mut Tokens<'_>) -> Result<Definition, ReadStop>
    ensures { Reads (spec.reads_by spec.drop_edition tokens.old) result tokens.new }
{
    let name = tokens.name(alloc)?;
    let cascade = tokens.eat(Kind::Cascade);
    Ok(Definition::DropEdition { name, cascade })
}

/// What stands behind DROP with the object's kind.
fn drop_object(
    alloc: Global,
    tokens: &mut Tokens<'_>,
    kind: ObjectKind,
) -> Result<Definition, ReadStop>
    ensures { Reads (spec.reads_by (spec.drop_object kind) tokens.old) result tokens.new }
{
    let name = tokens.name(alloc)?;
    Ok(Definition::DropObject { kind, name })
}

/// The body of a package, or the package BODY where no name follows.
fn dropped_body(body: Name, name: Option<Name>) -> Definition
    ensures { result ≡ spec.dropped_body body name }
{
    match name {
        Some(name) => Definition::DropObject {
            kind: ObjectKind::PackageBody,
            name,
        },
        None => Definition::DropObject {
            kind: ObjectKind::Package,
            name: body,
        },
    }
}

/// What stands behind DROP PACKAGE.
fn drop_package(alloc: Global, tokens: &mut Tokens<'_>) -> Result<Definition, ReadStop>
    ensures { Reads (spec.reads_by spec.drop_package tokens.old) result tokens.new }
{
    if tokens.sees(Kind::Body) {
        let body = tokens.name_among(alloc, &[Kind::Body])?;
        let name = tokens.maybe_name(alloc)?;
        Ok(dropped_body(body, name))
    } else {
        let name = tokens.name_but(alloc, &[Kind::Body])?;
        Ok(Definition::DropObject {
            kind: ObjectKind::Package,
            name,
        })
    }
}

/// What stands behind DROP.
pub fn read_drop(alloc: Global, tokens: &mut Tokens<'_>) -> Result<Definition, ReadStop>
    ensures { Reads (spec.reads_by spec.dropped tokens.old) result tokens.new }
{
    if tokens.eat(Kind::Edition) {
        drop_edition(alloc, tokens)
    } else if tokens.eat(Kind::Table) {
        let name = tokens.name(alloc)?;
        Ok(Definition::DropTable(name))
    } else if tokens.eat(Kind::Procedure) {
        drop_object(alloc, tokens, ObjectKind::Procedure)
    } else if tokens.eat(Kind::Function) {
        drop_object(alloc, tokens, ObjectKind::Function)
    } else if tokens.eat(Kind::Package) {
        drop_package(alloc, tokens)
    } else if tokens.eat(Kind::Trigger) {
        drop_object(alloc, tokens, ObjectKind::Trigger)
    } else {
        tokens.expect(Kind::View)?;
        drop_object(alloc, tokens, ObjectKind::View)
    }
}
