//! What names stand for, and what may stand where.

ghost use Rattle.std.specs.Prelude.{◌≡◌, option_map};
ghost use Rattle.ebr_scope.specs.Meanings as spec;
ghost use Rattle.ebr_scope.specs.Around.{variable_type};
ghost use Rattle.ebr_scope.specs.Lent.{lent};

use ebr_ast::{Head, Mode, Parameter};
use ebr_sqlcheck::ValueType;

/// What a name stands for; a type is none where it isn't known. It lends the head of a subprogram.
#[derive(Clone, Copy)]
pub enum Meaning<'a> {
    Variable(Option<ValueType>),
    /// A constant, the variable of a loop, or a field of its record.
    Constant(Option<ValueType>),
    Parameter(Option<Mode>, Option<ValueType>),
    Exception,
    Cursor,
    /// The record of a loop over rows.
    Record,
    Subprogram(&'a Head),
}

/// Whether a parameter hands a value back.
pub fn is_out(mode: Option<Mode>) -> bool
    ensures { result ≡ spec.is_out mode }
{
    match mode {
        Some(Mode::Out) | Some(Mode::InOut) => true,
        Some(Mode::In) | None => false,
    }
}

/// The type of what has a value and is no function.
pub fn variable_type(meaning: Option<Meaning<'_>>) -> Option<Option<ValueType>>
    ensures { result ≡ variable_type (option_map lent meaning.entry) }
{
    match meaning {
        Some(Meaning::Variable(ty)) => Some(ty),
        Some(Meaning::Constant(ty)) => Some(ty),
        Some(Meaning::Parameter(_, ty)) => Some(ty),
        Some(Meaning::Exception)
        | Some(Meaning::Cursor)
        | Some(Meaning::Record)
        | Some(Meaning::Subprogram(_))
        | None => None,
    }
}

/// Whether it may be assigned: a variable, and an OUT or IN OUT parameter.
pub fn is_target(meaning: Option<Meaning<'_>>) -> bool
    ensures { result ≡ spec.is_target (option_map lent meaning.entry) }
{
    match meaning {
        Some(Meaning::Variable(_)) => true,
        Some(Meaning::Parameter(mode, _)) => is_out(mode),
        Some(Meaning::Constant(_))
        | Some(Meaning::Exception)
        | Some(Meaning::Cursor)
        | Some(Meaning::Record)
        | Some(Meaning::Subprogram(_))
        | None => false,
    }
}
