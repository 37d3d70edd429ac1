//! What checks find.

ghost use Rattle.std.specs.Prelude.{◌≡◌};
ghost use Rattle.ebr_base.specs.Answers.{Answers};
ghost use Rattle.ebr_sqlcheck.specs.Checked as spec;

use ebr_base::{Code, Stop};

/// A column or a function that isn't there.
pub const NOT_THERE: Code = Code::Ora(904);
/// An operand of another type than its operator takes, or too many or too few of them.
pub const WRONG_TYPE: Code = Code::Ora(932);
/// An aggregate or FOR UPDATE where it can't stand.
pub const MISPLACED: Code = Code::Ebr(17);
/// A name that two sources have.
pub const AMBIGUOUS: Code = Code::Ebr(18);
/// A column that is named twice, or columns that aren't as many as their values.
pub const MISCOUNTED: Code = Code::Ebr(19);

/// A condition, and the code where it doesn't hold.
pub fn must(code: Code, holds: bool) -> Result<(), Code>
    ensures { result ≡ spec.must code holds }
{
    if holds { Ok(()) } else { Err(code) }
}

/// Something that is to be there.
pub fn must_be_there<T: Copy>(found: Option<T>) -> Result<(), Code>
    ensures { result ≡ spec.must_be_there found }
{
    match found {
        Some(_) => Ok(()),
        None => Err(NOT_THERE),
    }
}

/// What was found, as an answer.
pub fn answer(found: Result<(), Code>) -> Result<(), Stop>
    ensures { Answers result found }
{
    match found {
        Ok(()) => Ok(()),
        Err(code) => Err(Stop::Raised(code)),
    }
}
