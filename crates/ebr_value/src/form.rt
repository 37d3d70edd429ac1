//! The forms of expressions that values are computed by.

/// Where a form is computed. It decides the limit of joined texts and which code a fault has.
#[derive(Clone, Copy, Debug, PartialEq, Eq)]
pub enum Place {
    /// In a SQL statement.
    Sql,
    /// In PL/SQL code.
    Code,
}

/// An operator of two operands.
#[derive(Clone, Copy, Debug, PartialEq, Eq)]
pub enum BinOp {
    /// `a + b`
    Add,
    /// `a - b`
    Subtract,
    /// `a * b`
    Multiply,
    /// `TRUNC(a / b)`
    Quotient,
    /// `x || y`
    Concatenate,
    /// `x = y`
    Equal,
    /// `x <> y`
    NotEqual,
    /// `x < y`
    Less,
    /// `x <= y`
    LessOrEqual,
    /// `x > y`
    Greater,
    /// `x >= y`
    GreaterOrEqual,
    /// `x AND y`
    And,
    /// `x OR y`
    Or,
    /// `x LIKE y`
    Like,
}

/// A built-in function, or an operator that is no operator of two operands.
#[derive(Clone, Copy, Debug, PartialEq, Eq)]
pub enum Builtin {
    /// `-a`
    Negate,
    /// `NOT x`
    Not,
    /// `x IS NULL`
    IsNull,
    /// `MOD(a, b)`
    Mod,
    /// `ABS(a)`
    Abs,
    /// `SIGN(a)`
    Sign,
    /// `NVL(x, y)`
    Nvl,
    /// `UPPER(x)`
    Upper,
    /// `LOWER(x)`
    Lower,
    /// `LENGTH(x)`
    Length,
    /// `SUBSTR(x, p)` and `SUBSTR(x, p, c)`
    Substr,
    /// `INSTR(x, y)`
    Instr,
    /// `TO_CHAR(a)`
    ToChar,
    /// `TO_NUMBER(x)`
    ToNumber,
}
