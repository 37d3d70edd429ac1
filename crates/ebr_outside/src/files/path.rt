//! What a word of a command line says of a file.

use crate::files::file_number::FileNumber;
use ebr_base::Bytes;
use std::fs::Metadata;
use std::io::ErrorKind;
use std::{fs, io};

/// The path that a word is.
pub fn path_of(word: &Bytes) -> io::Result<&str> {
    match str::from_utf8(word.as_slice()) {
        Ok(path) => Ok(path),
        Err(_) => Err(ErrorKind::InvalidFilename.into()),
    }
}

/// The number of the file that a path names. It opens nothing.
pub fn number_at(rt: &HostRuntime, path: &str) -> io::Result<FileNumber> {
    Ok(FileNumber::of(&fs::metadata(rt, path)?))
}

/// Whether a word names the file, as far as the system tells.
pub fn names(rt: &HostRuntime, word: &Bytes, file: FileNumber) -> bool {
    match number_of(rt, word) {
        Ok(number) => number == file,
        Err(_) => false,
    }
}

/// The number of the file that a word names.
fn number_of(rt: &HostRuntime, word: &Bytes) -> io::Result<FileNumber> {
    number_at(rt, path_of(word)?)
}

/// Fails where this is the metadata of a folder, a device, a FIFO or a socket.
pub fn test_regular(metadata: &Metadata) -> io::Result<()> {
    if metadata.is_file() {
        Ok(())
    } else {
        Err(ErrorKind::InvalidInput.into())
    }
}
