//! What expressions give in statements of SQL.
//!
//! The crates above use the contract of `eval`: the answer is `Eval` of `specs/Evaluation.antt`, a value or the first code
//! that is raised, for the values of a row and of the binds. Operators and functions are those of `ebr_value`.
//!
//! Tests alone show that it succeeds where memory is ample (`ebr_parsetests`, and the cases).
#![tactic(auto)]

mod evaluate;
mod form;
mod operand;
mod operator;
mod row;
mod value;

pub use evaluate::eval;
pub use form::{call_with, with_list, with_operand, with_operands};
pub use operand::Operand;
pub use operator::{added_by, builtin, compared_by, decided};
pub use row::Row;
pub use value::unsigned;
