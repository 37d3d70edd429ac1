//! Opens the files of disks.

use crate::files::file_number::FileNumber;
use crate::files::in_use::InUse;
use crate::files::path::{path_of, test_regular};
use ebr_base::Bytes;
use std::fs::{File, OpenOptions, TryLockError};
use std::io::ErrorKind;
use std::path::{Path, PathBuf};
use std::{fs, io};

/// The most links that are followed from a path, one behind the other, as Linux has it.
const MAX_LINKS: usize = 40;

/// Opens the file that a word names for reading and writing, or makes it, and locks it until it is dropped. It fails where the file
/// isn't a regular one, has another use, or is locked.
pub fn open_disk(rt: &HostRuntime, in_use: &InUse, word: &Bytes) -> io::Result<File> {
    let path = path_of(word)?;
    let file = if is_blank(rt, path)? {
        open_blank(rt, path)?
    } else {
        for_writing().open(rt, path)?
    };
    test_disk(rt, in_use, word, &file)?;
    file.try_lock()?;
    Ok(file)
}

/// Opens the file that a word names for reading alone, under a shared lock where the system has one. It fails where there is no such
/// file, where it isn't a regular one or has another use, and where it is locked for writing.
pub fn open_disk_to_read(rt: &HostRuntime, in_use: &InUse, word: &Bytes) -> io::Result<File> {
    let path = path_of(word)?;
    test_regular(&fs::metadata(rt, path)?)?;
    let file = File::open(rt, path)?;
    test_disk(rt, in_use, word, &file)?;
    match file.try_lock_shared() {
        Err(TryLockError::WouldBlock) => Err(ErrorKind::WouldBlock.into()),
        _ => Ok(file),
    }
}

/// Fails where the open file of a disk isn't a regular one, or has another use.
fn test_disk(rt: &HostRuntime, in_use: &InUse, word: &Bytes, file: &File) -> io::Result<()> {
    let metadata = file.metadata()?;
    test_regular(&metadata)?;
    in_use.test_disk(rt, word, FileNumber::of(&metadata))
}

/// How a file is opened for reading and writing that must be there.
fn for_writing() -> OpenOptions {
    let mut options = File::options();
    options.read(true).write(true);
    options
}

/// Whether a path names an empty file, or none. It opens nothing, so that no FIFO is waited for, and fails where the file isn't a
/// regular one.
fn is_blank(rt: &HostRuntime, path: &str) -> io::Result<bool> {
    match fs::metadata(rt, path) {
        Ok(metadata) => {
            test_regular(&metadata)?;
            Ok(metadata.len() == 0)
        }
        Err(error) if error.kind() == ErrorKind::NotFound => Ok(true),
        Err(error) => Err(error),
    }
}

/// Opens an empty file, or makes it, and brings its entry in its folder to the device. The folder is synced before, too: where that
/// can't be done, no file is made.
fn open_blank(rt: &HostRuntime, path: &str) -> io::Result<File> {
    let folder = folder_of(rt, path)?;
    folder.sync_all()?;
    let file = for_writing().create(true).open(rt, path)?;
    folder.sync_all()?;
    Ok(file)
}

/// Opens the folder in which the file of a path stands, or will stand.
fn folder_of(rt: &HostRuntime, path: &str) -> io::Result<File> {
    let file = behind_links(rt, path)?;
    match file.parent() {
        Some(folder) if !folder.as_str().is_empty() => File::open(rt, folder),
        _ => File::open(rt, "."),
    }
}

/// The path to which the links lead that begin at a path.
fn behind_links(rt: &HostRuntime, path: &str) -> io::Result<PathBuf> {
    let mut at = Path::new(path).to_path_buf(rt.alloc())?;
    for _ in 0..MAX_LINKS {
        if !at.is_symlink(rt) {
            return Ok(at);
        }
        at = target_of(rt, &at)?;
    }
    Err(ErrorKind::FilesystemLoop.into())
}

/// The path to which a link leads.
fn target_of(rt: &HostRuntime, link: &PathBuf) -> io::Result<PathBuf> {
    let target = link.read_link(rt)?;
    match link.parent() {
        Some(folder) => Ok(folder.join(rt.alloc(), &target)?),
        None => Ok(target),
    }
}
