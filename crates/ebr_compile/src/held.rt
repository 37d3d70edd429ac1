//! Values that are held while something is made. These functions are generic, so that what they drop is dropped by one call.

ghost use Rattle.std.specs.Prelude.{◌≡◌, true, IfOk, OnOk};
ghost use Rattle.std.specs.Result.{is_ok};

use ebr_base::NoMemory;

/// What was made, when a value that it was made with is no longer wanted.
pub fn without<T: Drop, R>(_held: T, made: R) -> R
    ensures { result ≡ made }
{
    made
}

/// A value, where what was done with it was done.
pub fn value_if_done<T: Drop>(held: T, done: Result<(), NoMemory>) -> Result<T, NoMemory>
    ensures value { IfOk result (λ it. it ≡ held) }
    ensures done { OnOk result (is_ok done ≡ true) }
{
    match done {
        Ok(()) => Ok(held),
        Err(e) => Err(e),
    }
}

/// Drops a value.
pub fn release<T: Drop>(_held: T) {}
