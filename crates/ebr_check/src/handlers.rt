//! The handlers of a block.

ghost use Rattle.std.specs.Prelude.{◌≡◌, ◌&&◌, ◌∷◌, ◌++◌, [], None, map, IfOk, OnOk};
ghost use Rattle.ebr_scope.specs.Lent.{env};
ghost use Rattle.ebr_validity.specs.Sites as site;
ghost use Rattle.ebr_validity.specs.Rules as rules;
ghost use Rattle.ebr_validity.specs.Statements.{caught_in_full, full_name, in_full};
ghost use Rattle.ebr_rules.specs.Noted.{noted};
ghost use Rattle.ebr_check.specs.inside.Caught.{caught_of, as_path};

use crate::scope::are_fresh;
use ebr_ast::{Caught, Handler, Path};
use ebr_base::{List, Name, NoMemory};
use ebr_rules::must;
use ebr_scope::{Place, Scopes};
use std::alloc::Global;

fn is_others(caught: &Caught) -> bool
    ensures { result ≡ rules.is_others caught.now }
{
    match caught {
        Caught::Others => true,
        Caught::Named(_) => false,
    }
}

/// Whether OTHERS is the last handler, where it is there.
fn others_is_last(handlers: &[Handler]) -> bool
    ensures { result ≡ rules.others_is_last (map caught_of handlers.now) }
{
    let mut left = handlers;
    while let Some((first, rest)) = left.split_first() {
        if is_others(&first.caught) && !rest.is_empty() {
            return false;
        }
        left = rest;
    }
    true
}

/// Whether handlers stand, of whose exceptions it is known whether they are distinct.
fn stand(handlers: &[Handler], distinct: bool) -> bool
    ensures { result ≡ (rules.others_is_last (map caught_of handlers.now) && distinct) }
{
    others_is_last(handlers) && distinct
}

/// The full name of an exception, as a set holds it: `n` or `n.m`.
type Key<'a> = (&'a Name, Option<&'a Name>);

fn are_distinct(alloc: Global, paths: &[Key<'_>]) -> Result<bool, NoMemory>
    ensures { IfOk result (λ distinct. distinct ≡ rules.are_distinct_paths (map as_path paths.now)) }
{
    are_fresh(alloc, paths)
}

/// The full name of an exception that is named without a package.
fn full_plain<'a>(name: &'a Name, place: &Place<'a>, known: &Scopes<'a>) -> Key<'a>
    ensures { as_path result ≡ in_full name.now None (env place.now known.now).own known.now }
{
    match &place.own {
        Some(own) => {
            if known.is_outer(name, own.declares) {
                (own.name, Some(name))
            } else {
                (name, None)
            }
        }
        None => (name, None),
    }
}

/// The full name of an exception.
fn full<'a>(path: &'a Path, place: &Place<'a>, known: &Scopes<'a>) -> Key<'a>
    ensures { as_path result ≡ full_name (env place.now known.now) path.now }
{
    match &path.member {
        Some(member) => (&path.name, Some(member)),
        None => full_plain(&path.name, place, known),
    }
}

fn add_paths<'a>(
    caught: &'a Caught,
    place: &Place<'a>,
    known: &Scopes<'a>,
    paths: &mut List<Key<'a>>,
) -> Result<(), NoMemory>
    ensures { OnOk result (map as_path paths.new ≡ map as_path paths.old ++ rules.caught_paths (caught_in_full (env place.now known.now) caught.now)) }
{
    match caught {
        Caught::Others => Ok(()),
        Caught::Named(named) => add_all(named.as_slice(), place, known, paths),
    }
}

fn add_all<'a>(
    named: &'a [Path],
    place: &Place<'a>,
    known: &Scopes<'a>,
    paths: &mut List<Key<'a>>,
) -> Result<(), NoMemory>
    ensures { OnOk result (map as_path paths.new ≡ map as_path paths.old ++ map (full_name (env place.now known.now)) named.now) }
{
    for path in named {
        paths.push(full(path, place, known))?;
    }
    Ok(())
}

/// OTHERS is the last handler, and no exception is named twice.
pub fn handles<'a>(
    alloc: Global,
    handlers: &'a [Handler],
    place: &Place<'a>,
    known: &Scopes<'a>,
    least: &mut Option<u8>,
) -> Result<(), NoMemory>
    ensures { OnOk result (least.new ≡ noted (site.Handles (map (caught_in_full (env place.now known.now)) (map caught_of handlers.now)) ∷ []) least.old) }
{
    let mut paths = List::new(alloc);
    for handler in handlers {
        add_paths(&handler.caught, place, known, &mut paths)?;
    }
    let distinct = are_distinct(alloc, paths.as_slice())?;
    must(least, 8, stand(handlers, distinct));
    Ok(())
}
