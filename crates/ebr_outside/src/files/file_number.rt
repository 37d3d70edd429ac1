//! Which file of the system an open one is.

use std::fs::Metadata;
use std::os::unix::fs::MetadataExt;

/// The device on which a file stands, and its number there: two paths name one file where these are equal.
#[derive(Clone, Copy, PartialEq, Eq)]
pub struct FileNumber {
    device: u64,
    inode: u64,
}

impl FileNumber {
    /// The number of the file that has this metadata.
    pub fn of(metadata: &Metadata) -> FileNumber {
        FileNumber {
            device: metadata.dev(),
            inode: metadata.ino(),
        }
    }
}
