//! What calls answer, against what is wanted.

use ebr_base::{Code, Stop};

/// Whether a call answers a number or raises a code as wanted; want of memory is never wanted.
pub fn is(answer: Result<u32, Stop>, wanted: Result<u32, Code>) -> bool {
    match answer {
        Ok(number) => wanted == Ok(number),
        Err(Stop::Raised(code)) => wanted == Err(code),
        Err(Stop::NoMemory) => false,
    }
}

/// Drops a value. It is generic so that for its caller the drop is one call.
pub fn release<T: Drop>(_value: T) {}
