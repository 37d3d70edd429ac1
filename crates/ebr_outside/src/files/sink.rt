//! A file that is written in order.

ghost use Rattle.std.specs.Prelude.{◌≡◌, ◌<◌, ◌≤◌, length, IfOk, OnOk, OnErr, None};

use crate::sink::Sink;
use crate::source::Failed;
use ebr_base::Bytes;
use ebr_faults::one_more;
use std::fs::File;
use std::io::Write;
use std::marker::Model;

/// A file of the system as a sink. It tells no bytes: what becomes of those that the system took is
/// not claimed.
#[derive(Drop)]
pub struct FileSink {
    word: Bytes,
    file: File,
    faults: u64,
}

impl Model for FileSink {
    ghost use Rattle.ebr_outside.specs.Files.{StreamState};

    ghost Value = { StreamState };

    ghost view = { λ s. record { word = s.word; faults = s.faults } };
}

impl FileSink {
    ghost use Rattle.ebr_outside.specs.Files.{stream_of};

    /// The file that was opened for a word, from where it stands.
    pub fn new(word: Bytes, file: File) -> FileSink
        ensures { result ≡ stream_of word }
    {
        FileSink {
            word,
            file,
            faults: 0,
        }
    }
}

impl Sink for FileSink {
    ghost use Rattle.ebr_outside.specs.Files.{stream_failed};

    ghost word = { λ s. s.word };

    ghost held = { λ s. None };

    ghost faults = { λ s. s.faults };

    /// Writes once to the system. Each error of it is a fault, and so is a write that took no byte.
    fn write(&mut self, bytes: &[u8]) -> Result<usize, Failed>
        requires { 0 < length bytes.now }
        ensures some { IfOk result (λ n. (0 < n) × (n ≤ length bytes.now)) }
        ensures ok { OnOk result (self.new ≡ self.old) }
        ensures err { OnErr result (self.new ≡ stream_failed self.old) }
    {
        match self.file.write(bytes) {
            Ok(n) if n > 0 => Ok(n),
            _ => {
                self.faults = one_more(self.faults);
                Err(Failed)
            }
        }
    }
}
