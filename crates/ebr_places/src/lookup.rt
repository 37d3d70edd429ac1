//! What names in code stand for.

ghost use Rattle.std.specs.Prelude.{◌≡◌, Some, None, IfOk, option_map, option_and_then, find, map};
ghost use Rattle.std.specs.Option.{option_copied};
ghost use Rattle.ebr_scope.specs.Names as visible;
ghost use Rattle.ebr_run.specs.Scope as spec;
ghost use Rattle.ebr_places.specs.Lent.{lent};
ghost use Rattle.ebr_places.specs.Lent as inside;

use crate::around::Around;
use crate::denoted::{Denoted, Part};
use crate::exceptions::predefined;
use crate::kinds::unbounded;
use crate::members::{member, subprogram_of};
use ebr_ast::Path;
use ebr_base::{Class, CloneIn, Name, NoMemory};
use ebr_run::Location;
use ebr_scope::{Seen, visible_head};
use std::alloc::Global;

fn copy_of<'a>(alloc: Global, found: &Denoted<'a>) -> Result<Option<Denoted<'a>>, NoMemory>
    ensures { IfOk result (λ d. option_map lent d ≡ Some (lent found.now)) }
{
    Ok(Some(found.clone_in(alloc)?))
}

fn is_part(part: &Part, name: &Name) -> bool
    ensures { result ≡ spec.is_part name.now (inside.part part.now) }
{
    match &part.name {
        Some(named) => *name == *named,
        None => false,
    }
}

fn part_named<'b>(parts: &'b [Part], name: &Name) -> Option<&'b Part>
    ensures { option_copied result ≡ find (λ p. spec.is_part name.now (inside.part p)) parts.now }
{
    parts.iter().find(|part| is_part(part, name))
}

/// The variable of a field of a loop's record.
fn part_meant<'a>(parts: &[Part], name: &Name) -> Option<Denoted<'a>>
    ensures { option_map lent result ≡ option_map spec.part_variable (find (spec.is_part name.now) (map inside.part parts.now)) }
{
    match part_named(parts, name) {
        Some(part) => Some(Denoted::Variable(Location::Own(part.variable), unbounded(part.ty))),
        None => None,
    }
}

/// A field where what was found is a loop's record, and else a member of the visible package.
fn member_of<'a>(
    alloc: Global,
    seen: &Seen<'a>,
    found: &Denoted<'a>,
    n: &Name,
    m: &Name,
) -> Result<Option<Denoted<'a>>, NoMemory>
    ensures { IfOk result (λ d. option_map lent d ≡ spec.member_meant (Some (lent found.now)) seen.now.view n.now m.now) }
{
    match found {
        Denoted::Record(parts) => Ok(part_meant(parts.get().as_slice(), m)),
        Denoted::Variable(_, _)
        | Denoted::Exception(_, _)
        | Denoted::Cursor(_, _, _)
        | Denoted::Subprogram(_, _, _) => member(alloc, seen, n, m),
    }
}

/// `n.m`.
fn member_meant<'a>(
    alloc: Global,
    around: &Around<'a>,
    n: &Name,
    m: &Name,
) -> Result<Option<Denoted<'a>>, NoMemory>
    ensures { IfOk result (λ d. option_map lent d ≡ spec.member_meant (spec.innermost n.now around.now.scope) around.now.view n.now m.now) }
{
    match around.find(n) {
        Some(found) => member_of(alloc, around.seen(), found, n, m),
        None => member(alloc, around.seen(), n, m),
    }
}

fn visible_function<'a>(
    alloc: Global,
    seen: &Seen<'a>,
    name: &Name,
) -> Result<Option<Denoted<'a>>, NoMemory>
    ensures { IfOk result (λ d. option_map lent d ≡ option_and_then (spec.only_function name.now) (visible.visible_head seen.now.view name.now)) }
{
    match visible_head(seen, name) {
        Some(head) if head.result.is_some() => Ok(Some(subprogram_of(
            alloc,
            Class::Unit,
            name,
            0,
            head,
        )?)),
        _ => Ok(None),
    }
}

fn visible_procedure<'a>(
    alloc: Global,
    seen: &Seen<'a>,
    name: &Name,
) -> Result<Option<Denoted<'a>>, NoMemory>
    ensures { IfOk result (λ d. option_map lent d ≡ option_and_then (spec.only_procedure name.now) (visible.visible_head seen.now.view name.now)) }
{
    match visible_head(seen, name) {
        Some(head) if head.result.is_none() => Ok(Some(subprogram_of(
            alloc,
            Class::Unit,
            name,
            0,
            head,
        )?)),
        _ => Ok(None),
    }
}

fn visible_subprogram<'a>(
    alloc: Global,
    seen: &Seen<'a>,
    name: &Name,
) -> Result<Option<Denoted<'a>>, NoMemory>
    ensures { IfOk result (λ d. option_map lent d ≡ option_map (spec.alone name.now) (visible.visible_head seen.now.view name.now)) }
{
    match visible_head(seen, name) {
        Some(head) => Ok(Some(subprogram_of(alloc, Class::Unit, name, 0, head)?)),
        None => Ok(None),
    }
}

/// A name as an operand, a target or a cursor: what is declared, and last a function that the edition sees.
#[tactic(auto, unfolding(ebr_run::specs::Scope::meant_at))]
pub fn plain<'a>(
    alloc: Global,
    around: &Around<'a>,
    name: &Name,
) -> Result<Option<Denoted<'a>>, NoMemory>
    ensures { IfOk result (λ d. option_map lent d ≡ spec.meant_at around.now name.now None) }
{
    match around.find(name) {
        Some(found) => copy_of(alloc, found),
        None => visible_function(alloc, around.seen(), name),
    }
}

/// The same of `n` or `n.m`.
#[tactic(auto, unfolding(ebr_run::specs::Scope::meant_at))]
pub fn meant<'a>(
    alloc: Global,
    around: &Around<'a>,
    path: &Path,
) -> Result<Option<Denoted<'a>>, NoMemory>
    ensures { IfOk result (λ d. option_map lent d ≡ spec.meant around.now path.now) }
{
    match &path.member {
        None => plain(alloc, around, &path.name),
        Some(m) => member_meant(alloc, around, &path.name, m),
    }
}

/// A name in a call statement without arguments: what is declared, and last a procedure that the edition sees.
#[tactic(auto, unfolding(ebr_run::specs::Scope::called_at))]
pub fn called<'a>(
    alloc: Global,
    around: &Around<'a>,
    path: &Path,
) -> Result<Option<Denoted<'a>>, NoMemory>
    ensures { IfOk result (λ d. option_map lent d ≡ spec.called around.now path.now) }
{
    match &path.member {
        None => match around.find(&path.name) {
            Some(found) => copy_of(alloc, found),
            None => visible_procedure(alloc, around.seen(), &path.name),
        },
        Some(m) => member_meant(alloc, around, &path.name, m),
    }
}

/// A name with arguments that isn't built in: a subprogram of the enclosing package, and else of the edition.
#[tactic(auto, unfolding(ebr_run::specs::Scope::applied_at))]
pub fn applied<'a>(
    alloc: Global,
    around: &Around<'a>,
    path: &Path,
) -> Result<Option<Denoted<'a>>, NoMemory>
    ensures { IfOk result (λ d. option_map lent d ≡ spec.applied around.now path.now) }
{
    match &path.member {
        None => match around.subprogram(&path.name) {
            Some(found) => copy_of(alloc, found),
            None => visible_subprogram(alloc, around.seen(), &path.name),
        },
        Some(m) => member(alloc, around.seen(), &path.name, m),
    }
}

/// A name behind RAISE or WHEN: what is declared, and last an exception that has a name everywhere.
#[tactic(auto, unfolding(ebr_run::specs::Scope::raised_at))]
pub fn raised<'a>(
    alloc: Global,
    around: &Around<'a>,
    path: &Path,
) -> Result<Option<Denoted<'a>>, NoMemory>
    ensures { IfOk result (λ d. option_map lent d ≡ spec.raised around.now path.now) }
{
    match &path.member {
        None => match around.find(&path.name) {
            Some(found) => copy_of(alloc, found),
            None => Ok(predefined(&path.name)),
        },
        Some(m) => member_meant(alloc, around, &path.name, m),
    }
}
