//! The words of the command line.

use ebr_base::{Bytes, List, NoMemory};
use std::env::{Env, FillError};

/// How many bytes the first room for a word has.
const FIRST_ROOM: usize = 256;

/// The words after the program's name, as bytes.
pub fn words<R: Env + AllocGlobal>(rt: &R) -> Result<List<Bytes>, NoMemory> {
    let mut words = List::new(rt.alloc());
    for at in 1..usize::MAX {
        let Some(word) = word_at(rt, at)? else {
            break;
        };
        words.push(word)?;
    }
    Ok(words)
}

/// The word at a place, where there is one. The room for it is doubled until it fits.
fn word_at<R: Env + AllocGlobal>(rt: &R, at: usize) -> Result<Option<Bytes>, NoMemory> {
    let mut room = Vec::new(rt.alloc());
    let mut size = FIRST_ROOM;
    for _ in 0..usize::BITS {
        room.resize(size, 0u8)?;
        match rt.arg(at, room.as_mut_slice()) {
            Ok(n) => return Ok(Some(Bytes::from_slice(rt.alloc(), &room[..n])?)),
            Err(FillError::NotPresent) => return Ok(None),
            Err(FillError::TooLong) => size = size.saturating_mul(2),
        }
    }
    Err(NoMemory)
}
