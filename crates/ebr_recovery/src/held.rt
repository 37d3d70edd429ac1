//! Values that are held while something is made of them. These functions are generic, so that what they drop is dropped by one call.

ghost use Rattle.std.specs.Prelude.{◌≡◌};
ghost use Rattle.ebr_recovery.specs.inside.Plans.{if_done};

use crate::fault::ListFault;

/// What was made, when a value that it was made with is no longer wanted.
pub fn without<T: Drop, R>(_held: T, made: R) -> R
    ensures { result ≡ made }
{
    made
}

/// A value, where what was done with it was done.
pub fn value_if_done<T: Drop>(held: T, done: Result<(), ListFault>) -> Result<T, ListFault>
    ensures { result ≡ if_done held done }
{
    match done {
        Ok(()) => Ok(held),
        Err(fault) => Err(fault),
    }
}
