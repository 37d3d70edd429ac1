//! Operands of expressions.

ghost use Rattle.std.specs.Prelude.{◌≡◌, Ok};
ghost use Rattle.ebr_base.specs.Answers.{Answers};

use ebr_base::{CloneIn, Stop, Value};
use std::alloc::Global;
use std::borrow::Cow;
use std::marker::Model;

/// A value that is lent by a row or by binds, or was made, which contracts see as the value.
#[derive(Drop)]
pub struct Operand<'a> {
    held: Cow<'a, Value>,
}

impl<'a> Model for Operand<'a> {
    ghost use Rattle.ebr_base.specs.declared.value.Value.{Value as Held};
    ghost use Rattle.std.specs.Cow.{cow_value};

    ghost Value = { Held };

    ghost view = { λ o. cow_value o.held };
}

impl<'a> Operand<'a> {
    /// A value that is lent.
    pub fn lent(value: &'a Value) -> Operand<'a>
        ensures { result ≡ value.now }
    {
        Operand {
            held: Cow::Borrowed(value),
        }
    }

    /// A value that was made.
    pub fn made(value: Value) -> Operand<'a>
        ensures { result ≡ value }
    {
        Operand {
            held: Cow::Owned(value),
        }
    }

    /// The value.
    pub fn get(&self) -> &Value
        ensures { result.now ≡ self.now }
    {
        &self.held
    }

    /// The value as one's own.
    pub fn own(self, alloc: Global) -> Result<Value, Stop>
        ensures { Answers result (Ok self.entry) }
    {
        match self.held {
            Cow::Borrowed(value) => Ok(value.clone_in(alloc)?),
            Cow::Owned(value) => Ok(value),
        }
    }
}
