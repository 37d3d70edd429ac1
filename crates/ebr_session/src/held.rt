//! Values that are held while something is made. These functions are generic, so that what they drop is dropped by one call.

ghost use Rattle.std.specs.Prelude.{◌≡◌, IfOk, IsErr, IsOk, OnErr, OnOk};

use ebr_base::{CloneIn, NoMemory};
use std::alloc::Global;

/// Puts another value in a place.
pub fn put<T: Drop>(place: &mut T, value: T)
    ensures { place.new ≡ value }
{
    *place = value;
}

/// A value with a copy.
pub fn twice<T: CloneIn>(alloc: Global, value: T) -> Result<(T, T), NoMemory>
    ensures { IfOk result (λ pair. pair ≡ (value, value)) }
{
    let copy = value.clone_in(alloc)?;
    Ok((value, copy))
}

/// The value, where something else was done.
pub fn value_if_done<T: Drop>(value: T, done: Result<(), NoMemory>) -> Result<T, NoMemory>
    ensures value { IfOk result (λ v. v ≡ value) }
    ensures done { OnOk result (IsOk done) }
    ensures failed { OnErr result (IsErr done) }
{
    match done {
        Ok(()) => Ok(value),
        Err(why) => Err(why),
    }
}
