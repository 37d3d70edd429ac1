//! A value that is held while something is done with it.

ghost use Rattle.ebr_startup.specs.inside.Walk.{IsDone};

/// The value, where what was to be done with it was done. It is generic, so that the value is dropped by one call.
pub fn value_if_done<T: Drop, E: Drop>(value: T, done: Result<(), E>) -> Result<T, E>
    ensures { IsDone value done result }
{
    match done {
        Ok(()) => Ok(value),
        Err(e) => Err(e),
    }
}
