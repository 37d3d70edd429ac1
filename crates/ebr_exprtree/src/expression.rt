//! Expressions.

use crate::op::Op;
use ebr_base::{Bytes, List, Name, Shared};

/// `n` or `n.m`.
#[derive(Debug, Drop)]
pub struct Path {
    pub name: Name,
    pub member: Option<Name>,
}

#[derive(Clone, Copy, Debug, PartialEq, Eq)]
pub enum Comparison {
    Equal,
    NotEqual,
    Less,
    LessOrEqual,
    Greater,
    GreaterOrEqual,
}

/// An operator between the terms of a sum.
#[derive(Clone, Copy, Debug, PartialEq, Eq)]
pub enum AdditiveOperator {
    Add,
    Subtract,
    Concatenate,
}

/// The row before a trigger's statement, or the row after it.
#[derive(Clone, Copy, Debug, PartialEq, Eq)]
pub enum RowImage {
    New,
    Old,
}

/// What is asked of a cursor.
#[derive(Clone, Copy, Debug, PartialEq, Eq)]
pub enum Attribute {
    Found,
    NotFound,
    RowCount,
    IsOpen,
}

/// An expression.
///
/// Operands of one level stand in a list, the first by itself, so that a tree is no deeper than its
/// parentheses are nested. A list of further operands isn't empty: one operand alone is its own
/// tree, and parentheses leave the tree of what they hold.
///
/// A tree is always held behind a `Shared`, so that a copy of it is another holder of the same tree.
#[cycle(expression)]
#[derive(Debug, Drop)]
pub enum Expr {
    /// A number as it is written, without a sign.
    Number(u64),
    /// A string's content; without a byte it is NULL.
    Text(Bytes),
    Null,
    Boolean(bool),
    /// A name that stands without arguments.
    Name(Path),
    /// A name with its arguments, of which there may be none.
    Call(Path, List<Shared<Expr>>),
    /// `TRUNC(a / b)`.
    Quotient(Shared<Expr>, Shared<Expr>),
    /// `:NEW.n` or `:OLD.n`.
    Row(RowImage, Name),
    SqlCode,
    /// `INSERTING`, `UPDATING` or `DELETING`.
    Firing(Op),
    /// `n%FOUND` and the like; without a name it is of the last SQL statement, as in `SQL%FOUND`.
    Attribute(Option<Name>, Attribute),
    Plus(Shared<Expr>),
    Minus(Shared<Expr>),
    Product(Shared<Expr>, List<Shared<Expr>>),
    Sum(Shared<Expr>, List<Addend>),
    Compare(Comparison, Shared<Expr>, Shared<Expr>),
    /// `a IS NULL`, or `a IS NOT NULL` where negated.
    IsNull(Shared<Expr>, bool),
    /// `a BETWEEN b AND c`, or `a NOT BETWEEN b AND c` where negated.
    Between(Shared<Expr>, Shared<Expr>, Shared<Expr>, bool),
    /// `a IN (..)`, or `a NOT IN (..)` where negated.
    In(Shared<Expr>, List<Shared<Expr>>, bool),
    /// `a LIKE b`, or `a NOT LIKE b` where negated.
    Like(Shared<Expr>, Shared<Expr>, bool),
    Not(Shared<Expr>),
    And(Shared<Expr>, List<Shared<Expr>>),
    Or(Shared<Expr>, List<Shared<Expr>>),
    /// The value at a place of the row, counted from 0. No text spells it.
    Place(u32),
    /// The value at a place of the binds, counted from 0. No text spells it.
    Bind(u32),
}

/// A further term of a sum, with the operator before it.
#[cycle(expression)]
#[derive(Debug, Drop)]
pub struct Addend {
    pub operator: AdditiveOperator,
    pub term: Shared<Expr>,
}
