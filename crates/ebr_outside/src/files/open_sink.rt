//! Makes the files of sinks.

use crate::files::file_number::FileNumber;
use crate::files::in_use::InUse;
use crate::files::path::path_of;
use ebr_base::Bytes;
use std::fs::File;
use std::io;

/// Makes the file that a word names, or empties it, for writing. It is emptied only where it has no other use and nobody else has it
/// locked; the lock on it is held until the file is dropped.
pub fn open_sink(rt: &HostRuntime, in_use: &mut InUse, word: &Bytes) -> io::Result<File> {
    let path = path_of(word)?;
    let file = File::options().write(true).create(true).open(rt, path)?;
    let metadata = file.metadata()?;
    in_use.test_sink(rt, &metadata)?;
    if metadata.is_file() {
        empty(&file)?;
    }
    in_use.add_sink(FileNumber::of(&metadata))?;
    Ok(file)
}

/// Locks a file and empties it.
fn empty(file: &File) -> io::Result<()> {
    file.try_lock()?;
    file.set_len(0)
}
