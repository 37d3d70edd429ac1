//! The files that a process uses beside the one that it opens.

use crate::files::file_number::FileNumber;
use crate::files::path::names;
use ebr_base::{Bytes, List, NoMemory};
use std::alloc::Global;
use std::fs::Metadata;
use std::io::ErrorKind;
use std::{fs, io};

/// The file of the system that is the standard output of a process.
const OUT: &str = "/proc/self/fd/1";

/// What is behind a script's word in the word of its sink.
const SINK: &[u8] = b".out";

/// The files that the words of a command line behind the first name, the sinks, and the standard output.
#[derive(Drop)]
pub struct InUse {
    words: List<Bytes>,
    sinks: Vec<FileNumber>,
    out: Option<FileNumber>,
}

impl InUse {
    /// The words of a command line, and no sinks yet.
    pub fn new(rt: &HostRuntime, words: List<Bytes>) -> InUse {
        InUse {
            words,
            sinks: Vec::new(rt.alloc()),
            out: out_number(rt),
        }
    }

    /// Whether the command only reads its disk.
    pub fn only_reads_disk(&self) -> bool {
        match self.words.as_slice() {
            [command, _] => command.as_slice() == b"dump".as_slice(),
            _ => false,
        }
    }

    /// Whether the standard output is a file that a word names, or the sink of a script.
    pub fn has_out(&self, rt: &HostRuntime) -> bool {
        let words = self.words.as_slice();
        match self.out {
            Some(out) => is_named(rt, words, out) || is_sink_named(rt, words, out),
            None => false,
        }
    }

    /// Fails where the file of a source is the standard output.
    pub fn test_source(&self, file: FileNumber) -> io::Result<()> {
        test_free(!self.is_out(file))
    }

    /// Fails where the file of the disk of a word is the standard output, a sink, or one that another word names.
    pub fn test_disk(&self, rt: &HostRuntime, word: &Bytes, file: FileNumber) -> io::Result<()> {
        let words = self.words.as_slice();
        let used = self.sinks.contains(&file) || is_named_besides(rt, words, word, file);
        test_free(!used && !self.is_out(file))
    }

    /// Fails where the file of a sink is the standard output, another sink, or one that a word names. A device may be several sinks.
    pub fn test_sink(&self, rt: &HostRuntime, metadata: &Metadata) -> io::Result<()> {
        let file = FileNumber::of(metadata);
        let written = metadata.is_file() && self.sinks.contains(&file);
        test_free(!written && !is_named(rt, self.words.as_slice(), file) && !self.is_out(file))
    }

    /// Takes a file as a sink.
    pub fn add_sink(&mut self, file: FileNumber) -> io::Result<()> {
        self.sinks.push(file)?;
        Ok(())
    }

    fn is_out(&self, file: FileNumber) -> bool {
        match self.out {
            Some(out) => out == file,
            None => false,
        }
    }
}

/// Fails where a file isn't free.
fn test_free(is_free: bool) -> io::Result<()> {
    if is_free {
        Ok(())
    } else {
        Err(ErrorKind::AlreadyExists.into())
    }
}

/// The number of the standard output, where it is a regular file and the system tells.
fn out_number(rt: &HostRuntime) -> Option<FileNumber> {
    match fs::metadata(rt, OUT) {
        Ok(metadata) if metadata.is_file() => Some(FileNumber::of(&metadata)),
        _ => None,
    }
}

/// Whether a word of a command line, behind the first, names the file.
fn is_named(rt: &HostRuntime, words: &[Bytes], file: FileNumber) -> bool {
    words.iter().skip(1).any(|word| names(rt, word, file))
}

/// The same of a word but this one.
fn is_named_besides(rt: &HostRuntime, words: &[Bytes], own: &Bytes, file: FileNumber) -> bool {
    let mut others = words.iter().skip(1);
    others.any(|word| word != own && names(rt, word, file))
}

/// Whether the sink of a script's word names the file.
fn is_sink_named(rt: &HostRuntime, words: &[Bytes], file: FileNumber) -> bool {
    let mut scripts = words.iter().skip(first_script(words));
    scripts.any(|script| sink_names(rt, script, file))
}

/// The place of the first script that has a sink; behind all words where none has.
fn first_script(words: &[Bytes]) -> usize {
    match words {
        [command, ..] if command.as_slice() == b"run".as_slice() => 2,
        [command, ..] if command.as_slice() == b"rehearse".as_slice() => 3,
        _ => words.len(),
    }
}

/// Whether the sink of a script names the file; not where there is no memory for its word.
fn sink_names(rt: &HostRuntime, script: &Bytes, file: FileNumber) -> bool {
    match sink_word(rt.alloc(), script) {
        Ok(word) => names(rt, &word, file),
        Err(NoMemory) => false,
    }
}

/// The word of a script's sink.
fn sink_word(alloc: Global, script: &Bytes) -> Result<Bytes, NoMemory> {
    let mut word = Bytes::from_slice(alloc, script.as_slice())?;
    word.extend(SINK)?;
    Ok(word)
}
