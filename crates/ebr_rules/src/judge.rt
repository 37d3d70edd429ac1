//! The tests of names and values: each function judges one kind of place.

ghost use Rattle.std.specs.Prelude.{◌≡◌, ◌∷◌, [], option_map};
ghost use Rattle.std.specs.List.{list_all};
ghost use Rattle.std.specs.Option.{option_copied};
ghost use Rattle.ebr_validity.specs.Sites as site;
ghost use Rattle.ebr_scope.specs.Names as names;
ghost use Rattle.ebr_validity.specs.Rules as rules;
ghost use Rattle.ebr_validity.specs.Expressions as expressions;
ghost use Rattle.ebr_rules.specs.Noted.{noted};
ghost use Rattle.ebr_scope.specs.Lent.{lent};

use crate::verdict::must;
use ebr_ast::{Head, Parameter, Timing};
use ebr_scope::{Meaning, is_out, is_target};

/// Whether a head is that of a function.
pub fn is_function(head: &Head) -> bool
    ensures { result ≡ names.is_function head.now }
{
    head.result.is_some()
}

/// Whether all parameters hand no value back.
fn only_in(parameters: &[Parameter]) -> bool
    ensures { result ≡ list_all rules.takes_in parameters.now }
{
    parameters.iter().all(|parameter| !is_out(parameter.mode))
}

/// A name that stands for a function, with so many arguments.
fn function(head: &Head, count: usize, least: &mut Option<u8>)
    ensures { least.new ≡ noted (site.Applies (Some head.now) count ∷ []) least.old }
{
    must(least, 1, is_function(head));
    must(least, 4, head.parameters.len() == count);
    must(least, 7, only_in(head.parameters.as_slice()));
}

/// A name without arguments in an expression.
pub fn operand(meaning: Option<Meaning<'_>>, least: &mut Option<u8>)
    ensures { least.new ≡ noted (site.Operand (option_map lent meaning.entry) ∷ []) least.old }
{
    match meaning {
        Some(Meaning::Variable(_)) | Some(Meaning::Constant(_)) | Some(Meaning::Parameter(_, _)) =>
            {}
        Some(Meaning::Subprogram(head)) => function(head, 0, least),
        Some(Meaning::Exception) | Some(Meaning::Cursor) | Some(Meaning::Record) | None => {
            must(least, 1, false);
        }
    }
}

/// A name with so many arguments in an expression.
pub fn applies(head: Option<&Head>, count: usize, least: &mut Option<u8>)
    ensures { least.new ≡ noted (site.Applies (option_copied head.entry) count ∷ []) least.old }
{
    match head {
        Some(head) => function(head, count, least),
        None => must(least, 1, false),
    }
}

/// A call statement with so many arguments.
pub fn calls(meaning: Option<Meaning<'_>>, count: usize, least: &mut Option<u8>)
    ensures { least.new ≡ noted (site.Calls (option_map lent meaning.entry) count ∷ []) least.old }
{
    match meaning {
        Some(Meaning::Subprogram(head)) => {
            must(least, 1, !is_function(head));
            must(least, 4, head.parameters.len() == count);
        }
        Some(Meaning::Variable(_))
        | Some(Meaning::Constant(_))
        | Some(Meaning::Parameter(_, _))
        | Some(Meaning::Exception)
        | Some(Meaning::Cursor)
        | Some(Meaning::Record)
        | None => must(least, 1, false),
    }
}

fn is_exception(meaning: Option<Meaning<'_>>) -> bool
    ensures { result ≡ rules.is_exception (option_map lent meaning.entry) }
{
    match meaning {
        Some(Meaning::Exception) => true,
        Some(Meaning::Variable(_))
        | Some(Meaning::Constant(_))
        | Some(Meaning::Parameter(_, _))
        | Some(Meaning::Cursor)
        | Some(Meaning::Record)
        | Some(Meaning::Subprogram(_))
        | None => false,
    }
}

fn is_cursor(meaning: Option<Meaning<'_>>) -> bool
    ensures { result ≡ rules.is_cursor (option_map lent meaning.entry) }
{
    match meaning {
        Some(Meaning::Cursor) => true,
        Some(Meaning::Variable(_))
        | Some(Meaning::Constant(_))
        | Some(Meaning::Parameter(_, _))
        | Some(Meaning::Exception)
        | Some(Meaning::Record)
        | Some(Meaning::Subprogram(_))
        | None => false,
    }
}

/// An exception behind RAISE or WHEN.
pub fn raises(meaning: Option<Meaning<'_>>, least: &mut Option<u8>)
    ensures { least.new ≡ noted (site.Raises (option_map lent meaning.entry) ∷ []) least.old }
{
    must(least, 1, is_exception(meaning));
}

/// A name behind OPEN, FETCH, CLOSE or FOR.
pub fn cursors(meaning: Option<Meaning<'_>>, least: &mut Option<u8>)
    ensures { least.new ≡ noted (site.Cursors (option_map lent meaning.entry) ∷ []) least.old }
{
    match meaning {
        Some(_) => must(least, 9, is_cursor(meaning)),
        None => must(least, 1, false),
    }
}

/// An attribute of a cursor.
pub fn asks(meaning: Option<Meaning<'_>>, least: &mut Option<u8>)
    ensures { least.new ≡ noted (site.Asks (option_map lent meaning.entry) ∷ []) least.old }
{
    must(least, 1, is_cursor(meaning));
}

/// A target.
pub fn assigns(meaning: Option<Meaning<'_>>, least: &mut Option<u8>)
    ensures { least.new ≡ noted (site.Assigns (option_map lent meaning.entry) ∷ []) least.old }
{
    match meaning {
        Some(_) => must(least, 6, is_target(meaning)),
        None => must(least, 1, false),
    }
}

/// Whether a trigger fires behind the statement.
pub fn is_after(timing: Option<Timing>) -> bool
    ensures { result ≡ expressions.is_after timing }
{
    match timing {
        Some(Timing::After) => true,
        Some(Timing::Before) | None => false,
    }
}
