//! A file that is read in order.

ghost use Rattle.std.specs.Prelude.{◌≡◌, ◌<◌, ◌≤◌, length, IfOk, OnOk, OnErr, None};

use crate::source::{Failed, Source};
use ebr_base::Bytes;
use ebr_faults::one_more;
use std::fs::File;
use std::io::Read;
use std::marker::Model;

/// A file of the system as a source. It tells no bytes: what a file holds is not claimed.
#[derive(Drop)]
pub struct FileSource {
    word: Bytes,
    file: File,
    faults: u64,
}

impl Model for FileSource {
    ghost use Rattle.ebr_outside.specs.Files.{StreamState};

    ghost Value = { StreamState };

    ghost view = { λ s. record { word = s.word; faults = s.faults } };
}

impl FileSource {
    ghost use Rattle.ebr_outside.specs.Files.{stream_of};

    /// The file that was opened for a word, from where it stands.
    pub fn new(word: Bytes, file: File) -> FileSource
        ensures { result ≡ stream_of word }
    {
        FileSource {
            word,
            file,
            faults: 0,
        }
    }
}

impl Source for FileSource {
    ghost use Rattle.ebr_outside.specs.Files.{stream_failed};

    ghost word = { λ s. s.word };

    ghost left = { λ s. None };

    ghost faults = { λ s. s.faults };

    /// Reads once from the system. Each error of it is a fault.
    fn read(&mut self, into: &mut [u8]) -> Result<usize, Failed>
        requires { 0 < length into.old }
        ensures within { IfOk result (λ n. n ≤ length into.old) }
        ensures ok { OnOk result (self.new ≡ self.old) }
        ensures err { OnErr result (self.new ≡ stream_failed self.old) }
    {
        match self.file.read(into) {
            Ok(n) => Ok(n),
            Err(_) => {
                self.faults = one_more(self.faults);
                Err(Failed)
            }
        }
    }
}
