//! What operators and functions give, and codes that several of them raise.

use ebr_base::{Code, Value};

/// What an operator or a function gives: a value, or the code that it raises.
pub type Outcome = Result<Value, Code>;

/// An operand isn't of the type that the form takes, or there are too many or too few.
pub const WRONG_OPERANDS: Code = Code::Ora(932);
/// A number has more than 18 digits.
pub const OUT_OF_RANGE: Code = Code::Ora(1426);
/// A divisor is 0.
pub const ZERO_DIVISOR: Code = Code::Ora(1476);
