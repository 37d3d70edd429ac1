//! What is told of an expression.

use ebr_sqlcheck::ValueType;

/// What is told of an expression: its type, as far as it is known, and whether it may be assigned.
#[derive(Clone, Copy)]
pub struct Typed {
    pub ty: Option<ValueType>,
    pub target: bool,
}
