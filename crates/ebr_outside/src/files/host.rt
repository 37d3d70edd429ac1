//! The host of a process.

ghost use Rattle.std.specs.Prelude.{◌≡◌, IfOk, OnOk, IsErrOf, None};
ghost use Rattle.ebr_faults.specs.Faults.{one_more};

use crate::files::disk::FileDisk;
use crate::files::in_use::InUse;
use crate::files::open_disk::{open_disk, open_disk_to_read};
use crate::files::open_sink::open_sink;
use crate::files::open_source::open_source;
use crate::files::out::OutSink;
use crate::files::sink::FileSink;
use crate::files::source::FileSource;
use crate::gate::OpenGate;
use crate::host::{Host, HostErr};
use ebr_base::{Bytes, CloneIn, List};
use ebr_faults::one_more;
use std::fs::File;
use std::io::{self, ErrorKind};
use std::marker::Model;

/// Opens and makes the files of the system, and reports to the standard output. It tells no bytes and no calls:
/// what files there are, and what they hold, is not claimed.
///
/// A word that isn't UTF-8 is a fault of each call, and so is each error of the system but want of memory. So is a file that is the
/// standard output, where the system tells it.
#[derive(Drop)]
pub struct FileHost {
    rt: HostRuntime,
    in_use: InUse,
    faults: u64,
    reports: u64,
    placeholders: [Option<File>; 3],
}

impl Model for FileHost {
    ghost use Rattle.ebr_outside.specs.Files.{OpenerState};

    ghost Value = { OpenerState };

    ghost view = { λ h. record { faults = h.faults; reports = h.reports } };
}

impl FileHost {
    ghost use Rattle.ebr_outside.specs.Files.{no_calls, opener_failed};

    /// The host of this process. The words of its command line behind the first may name files, and no sink is made of one of
    /// these. Where the words are `dump` and another one, disks are only read.
    pub fn new(rt: HostRuntime, words: List<Bytes>) -> FileHost
        ensures { result ≡ no_calls }
    {
        let placeholders = [placeholder(&rt), placeholder(&rt), placeholder(&rt)];
        FileHost {
            rt,
            in_use: InUse::new(&rt, words),
            faults: 0,
            reports: 0,
            placeholders,
        }
    }

    /// Why a call failed. It is counted, but for want of memory.
    fn failed(&mut self, error: io::Error) -> HostErr
        ensures failed { result ≡ HostErr.Failed → self.new ≡ opener_failed self.old }
        ensures no_memory { result ≡ HostErr.NoMemory → self.new ≡ self.old }
    {
        if error.kind() == ErrorKind::OutOfMemory {
            return HostErr::NoMemory;
        }
        self.faults = one_more(self.faults);
        HostErr::Failed
    }

    /// Opens the file of a disk: for reading alone, where the command does no more.
    fn open_disk(&self, word: &Bytes) -> io::Result<File> {
        if self.in_use.only_reads_disk() {
            open_disk_to_read(&self.rt, &self.in_use, word)
        } else {
            open_disk(&self.rt, &self.in_use, word)
        }
    }
}

impl Host for FileHost {
    type Source = FileSource;

    type Sink = FileSink;

    type Report = OutSink;

    type Disk = FileDisk;

    type Gate = OpenGate;

    ghost use Rattle.ebr_outside.specs.Files.{no_faults, opener_failed, stream_of};

    ghost bytes = { λ h w. None };

    ghost disk_bytes = { λ h w. None };

    ghost disk_of_bytes = { λ h w. tt };

    ghost calls = { λ h. None };

    ghost faults = { λ h. h.faults };

    ghost reports = { λ h. h.reports };

    /// Opens the file whose path the word is, from the current folder on. The standard output stays as it is, and is a fault.
    fn source(&mut self, word: &Bytes) -> Result<FileSource, HostErr>
        ensures fresh { IfOk result (λ s. s ≡ stream_of word.now) }
        ensures ok { OnOk result (self.new ≡ self.old) }
        ensures failed { IsErrOf result HostErr.Failed → self.new ≡ opener_failed self.old }
        ensures no_memory { IsErrOf result HostErr.NoMemory → self.new ≡ self.old }
    {
        let own = word.clone_in(self.rt.alloc())?;
        match open_source(&self.rt, &self.in_use, word) {
            Ok(file) => Ok(FileSource::new(own, file)),
            Err(error) => Err(self.failed(error)),
        }
    }

    /// Makes the file whose path the word is, from the current folder on, or empties it. A regular file is locked until the sink is
    /// dropped. One that is locked already stays as it is and is a fault; so does one that a word of the command line names, by
    /// whatever path, one that is a sink already, and the standard output.
    fn sink(&mut self, word: &Bytes) -> Result<FileSink, HostErr>
        ensures fresh { IfOk result (λ s. s ≡ stream_of word.now) }
        ensures ok { OnOk result (self.new ≡ self.old) }
        ensures failed { IsErrOf result HostErr.Failed → self.new ≡ opener_failed self.old }
        ensures no_memory { IsErrOf result HostErr.NoMemory → self.new ≡ self.old }
    {
        let own = word.clone_in(self.rt.alloc())?;
        match open_sink(&self.rt, &mut self.in_use, word) {
            Ok(file) => Ok(FileSink::new(own, file)),
            Err(error) => Err(self.failed(error)),
        }
    }

    /// Opens the file whose path the word is, from the current folder on, and makes it where there is none; the folder of an empty
    /// one is synced. The file is locked until the disk is dropped. One that is locked already stays as it is, and is a fault; so is
    /// one that isn't regular, that is a sink or the standard output, or that another word of the command line names, by whatever
    /// path. No file is made where its folder can't be synced.
    ///
    /// Where the command is `dump` the file is opened for reading alone, under a lock that others may have for reading too, and where
    /// there is none it is a fault.
    fn disk(&mut self, word: &Bytes) -> Result<FileDisk, HostErr>
        ensures fresh { IfOk result (λ d. d ≡ no_faults) }
        ensures ok { OnOk result (self.new ≡ self.old) }
        ensures failed { IsErrOf result HostErr.Failed → self.new ≡ opener_failed self.old }
        ensures no_memory { IsErrOf result HostErr.NoMemory → self.new ≡ self.old }
    {
        match self.open_disk(word) {
            Ok(file) => Ok(FileDisk::new(file)),
            Err(error) => Err(self.failed(error)),
        }
    }

    /// The standard output. Where it is a file that a word of the command line behind the first names, or the sink of a script, each
    /// write of it fails, so that the file stays as it is.
    fn report(&mut self) -> OutSink
        ensures fresh { result ≡ no_faults }
        ensures counted { self.new ≡ record self.old { reports = one_more self.old.reports } }
    {
        self.reports = one_more(self.reports);
        if self.in_use.has_out(&self.rt) {
            OutSink::failing()
        } else {
            OutSink::new(self.rt)
        }
    }

    /// It is always open.
    fn gate(&self) -> &OpenGate {
        &OpenGate
    }
}

/// A file that takes the number of a standard stream that the process was begun without. So no sink is made with the number of
/// the standard output, where the report would be written into it.
fn placeholder(rt: &HostRuntime) -> Option<File> {
    File::open(rt, "/dev/null").ok()
}
