//! Opens the files of sources.

use crate::files::file_number::FileNumber;
use crate::files::in_use::InUse;
use crate::files::path::path_of;
use ebr_base::Bytes;
use std::fs::File;
use std::io;

/// Opens the file that a word names for reading. It fails where that is the standard output.
pub fn open_source(rt: &HostRuntime, in_use: &InUse, word: &Bytes) -> io::Result<File> {
    let file = File::open(rt, path_of(word)?)?;
    in_use.test_source(FileNumber::of(&file.metadata()?))?;
    Ok(file)
}
