//! The words of the command line, as bytes of any length.

use ebr_outside::words;
use std::alloc::Global;
use std::env::{Env, FillError};
use std::test::Fail;

const LONG: [u8; 1000] = [b'x'; 1000];

/// The words of a command line, the program's name first.
fn word_at(at: usize) -> Option<&'static [u8]> {
    match at {
        0 => Some(b"ebrd"),
        1 => Some(b"try"),
        2 => Some(b"\xff"),
        3 => Some(b""),
        4 => Some(&LONG),
        _ => None,
    }
}

/// A process with that command line.
#[derive(Drop)]
struct Process {
    rt: HostRuntime,
}

impl Alloc for Process {
    type A = Global;

    fn alloc(&self) -> Global {
        self.rt.alloc()
    }
}

impl Env for Process {
    fn arg(&self, i: usize, buf: &mut [u8]) -> Result<usize, FillError> {
        let Some(word) = word_at(i) else {
            return Err(FillError::NotPresent);
        };
        if word.len() > buf.len() {
            return Err(FillError::TooLong);
        }
        buf[..word.len()].copy_from_slice(word);
        Ok(word.len())
    }

    fn var(&self, _name: &str, _buf: &mut [u8]) -> Result<usize, FillError> {
        Err(FillError::NotPresent)
    }

    fn var_at(&self, _i: usize, _buf: &mut [u8]) -> Result<usize, FillError> {
        Err(FillError::NotPresent)
    }
}

#[test]
fn words_are_bytes_of_any_length(rt: HostRuntime) -> Result<(), Fail> {
    let process = Process { rt };
    let found = words(&process)?;
    assert_eq!(rt; found.len(), 4);
    for (i, word) in found.as_slice().iter().enumerate() {
        assert_eq!(rt; Some(word.as_slice()), word_at(i + 1));
    }
    Ok(())
}
