//! The files of a host in memory, and the calls that were made for them.

ghost use Rattle.std.specs.Prelude.{◌≡◌, [], false, ◌⊎◌, IsTrue, IsErr, IsErrOf, IsNone, IsSomeAnd, IfOk, OnOk};
ghost use Rattle.std.specs.Option.{option_copied};
ghost use Rattle.ebr_faults.specs.Faults.{one_more};
ghost use Rattle.ebr_outside.specs.Memory.{disk_of, failing_writes, file_of, source_of};
ghost use Rattle.ebr_outside.specs.declared.host_call.HostMethod.TheVariants as method;

use crate::host::HostErr;
use crate::host_call::{HostCall, HostMethod};
use crate::memory::disk::MemDisk;
use crate::memory::fail::{Calls, Fail};
use crate::memory::host::MemFile;
use crate::memory::sink::MemSink;
use crate::memory::source::MemSource;
use ebr_base::{Bytes, CloneIn, List, NoMemory};
use ebr_faults::one_more;
use std::alloc::Global;
use std::marker::Model;
use std::mem;

/// Files, and the calls that were made for them. Of two files for one word the first counts.
#[derive(Drop)]
pub(crate) struct Files {
    alloc: Global,
    files: List<MemFile>,
    report: List<Fail>,
    reports: u64,
    calls: Calls,
    made: List<HostCall>,
}

impl Model for Files {
    ghost use Rattle.ebr_outside.specs.Memory.{HostState};

    ghost Value = { HostState };

    ghost view = { λ h. record { files = h.files; report = h.report; reports = h.reports; calls = h.calls; made = h.made } };
}

impl Files {
    ghost use Rattle.ebr_outside.specs.Calls.{fails_next, none_made};
    ghost use Rattle.ebr_outside.specs.Memory.{called, failed};

    /// No call was made yet.
    pub(crate) fn new(
        alloc: Global,
        files: List<MemFile>,
        report: List<Fail>,
        failing: List<Fail>,
    ) -> Files
        ensures { result ≡ record { files = files; report = report; reports = 0; calls = none_made failing; made = [] } }
    {
        Files {
            alloc,
            files,
            report,
            reports: 0,
            calls: Calls::new(failing),
            made: List::new(alloc),
        }
    }

    /// The calls of `source`, `sink` and `disk` in order, but for those that found no memory.
    pub(crate) fn calls(&self) -> &[HostCall]
        ensures { result.now ≡ self.now.made }
    {
        self.made.as_slice()
    }

    /// Makes a call: it is counted and told, and fails where it is named, and where `there` is false.
    fn call(&mut self, method: HostMethod, word: &Bytes, there: bool) -> Result<(), HostErr>
        ensures named { IsTrue (fails_next self.old.calls) → IsErr result }
        ensures there { there ≡ false → IsErr result }
        ensures fails { IsErrOf result HostErr.Failed → IsTrue (fails_next self.old.calls) ⊎ (there ≡ false) }
        ensures ok { OnOk result (self.new ≡ called self.old method word.now) }
        ensures failed { IsErrOf result HostErr.Failed → self.new ≡ failed self.old method word.now }
        ensures no_memory { IsErrOf result HostErr.NoMemory → self.new ≡ self.old }
    {
        let failed = !there || self.calls.fails_next();
        let word = word.clone_in(self.alloc)?;
        self.made.push(HostCall {
            method,
            word,
            failed,
        })?;
        self.calls.count(failed);
        if failed {
            return Err(HostErr::Failed);
        }
        Ok(())
    }

    /// A source of the bytes behind a word. `Failed` comes where this call is named or no file has the word.
    pub(crate) fn source(&mut self, word: &Bytes) -> Result<MemSource, HostErr>
        ensures named { IsTrue (fails_next self.old.calls) → IsErr result }
        ensures fails { IsErrOf result HostErr.Failed
            → IsTrue (fails_next self.old.calls) ⊎ IsNone (file_of self.old.files word.now) }
        ensures made { IfOk result (λ s. IsSomeAnd (file_of self.old.files word.now)
            (λ file. s ≡ record { word = word.now; left = file.bytes; calls = none_made file.source })) }

        // What becomes of the host.
        ensures ok { OnOk result (self.new ≡ called self.old method.Source word.now) }
        ensures failed { IsErrOf result HostErr.Failed → self.new ≡ failed self.old method.Source word.now }
        ensures no_memory { IsErrOf result HostErr.NoMemory → self.new ≡ self.old }
    {
        match source_of(self.alloc, self.files.as_slice(), word.as_slice())? {
            Some(source) => {
                self.call(HostMethod::Source, word, true)?;
                Ok(source)
            }
            None => {
                self.call(HostMethod::Source, word, false)?;
                Err(HostErr::Failed)
            }
        }
    }

    /// An empty sink, which fails at the writes that the first file of the word names, and at none where
    /// no file has the word. `Failed` comes only where this call is named.
    pub(crate) fn sink(&mut self, word: &Bytes) -> Result<MemSink, HostErr>
        ensures named { IsTrue (fails_next self.old.calls) → IsErr result }
        ensures fails { IsErrOf result HostErr.Failed → IsTrue (fails_next self.old.calls) }
        ensures made { IfOk result (λ s.
            s ≡ record { word = word.now; held = []; calls = none_made (failing_writes self.old.files word.now) }) }

        // What becomes of the host.
        ensures ok { OnOk result (self.new ≡ called self.old method.Sink word.now) }
        ensures failed { IsErrOf result HostErr.Failed → self.new ≡ failed self.old method.Sink word.now }
        ensures no_memory { IsErrOf result HostErr.NoMemory → self.new ≡ self.old }
    {
        let failing = failing_writes(self.alloc, self.files.as_slice(), word.as_slice())?;
        let own = word.clone_in(self.alloc)?;
        self.call(HostMethod::Sink, word, true)?;
        Ok(MemSink::for_word(self.alloc, own, failing))
    }

    /// A disk of the bytes behind a word, empty where no file has the word. `Failed` comes only where this call is named.
    pub(crate) fn disk(&mut self, word: &Bytes) -> Result<MemDisk, HostErr>
        ensures named { IsTrue (fails_next self.old.calls) → IsErr result }
        ensures fails { IsErrOf result HostErr.Failed → IsTrue (fails_next self.old.calls) }
        ensures made { IfOk result (λ d. d ≡ disk_of self.old.files word.now) }

        // What becomes of the host.
        ensures ok { OnOk result (self.new ≡ called self.old method.Disk word.now) }
        ensures failed { IsErrOf result HostErr.Failed → self.new ≡ failed self.old method.Disk word.now }
        ensures no_memory { IsErrOf result HostErr.NoMemory → self.new ≡ self.old }
    {
        let disk = disk_of(self.alloc, self.files.as_slice(), word.as_slice())?;
        self.call(HostMethod::Disk, word, true)?;
        Ok(disk)
    }

    /// An empty sink. The first report fails at the writes that the host was made with, and a later
    /// one at none.
    pub(crate) fn report(&mut self) -> MemSink
        ensures made { result ≡ record { word = []; held = []; calls = none_made self.old.report } }
        ensures spent { self.new ≡ record self.old { report = []; reports = one_more self.old.reports } }
    {
        let failing = mem::replace(&mut self.report, List::new(self.alloc));
        self.reports = one_more(self.reports);
        MemSink::new(self.alloc, failing)
    }
}

/// The first file of a word.
fn file_of<'a>(files: &'a [MemFile], word: &[u8]) -> Option<&'a MemFile>
    ensures { option_copied result ≡ file_of files.now word.now }
{
    files.iter().find(|file| file.word.as_slice() == word)
}

/// A source of the bytes behind a word, where a file has it.
fn source_of(alloc: Global, files: &[MemFile], word: &[u8]) -> Result<Option<MemSource>, NoMemory>
    ensures { IfOk result (λ source. source ≡ source_of files.now word.now) }
{
    match file_of(files, word) {
        Some(file) => {
            let bytes = file.bytes.clone_in(alloc)?;
            let failing = file.source.clone_in(alloc)?;
            let own = Bytes::from_slice(alloc, word)?;
            Ok(Some(MemSource::new(own, bytes, failing)))
        }
        None => Ok(None),
    }
}

/// Which writes fail of a sink that is made for a word.
fn failing_writes(alloc: Global, files: &[MemFile], word: &[u8]) -> Result<List<Fail>, NoMemory>
    ensures { IfOk result (λ failing. failing ≡ failing_writes files.now word.now) }
{
    match file_of(files, word) {
        Some(file) => file.sink.clone_in(alloc),
        None => Ok(List::new(alloc)),
    }
}

/// A disk of the bytes behind a word.
fn disk_of(alloc: Global, files: &[MemFile], word: &[u8]) -> Result<MemDisk, NoMemory>
    ensures { IfOk result (λ disk. disk ≡ disk_of files.now word.now) }
{
    match file_of(files, word) {
        Some(file) => {
            let bytes = file.bytes.clone_in(alloc)?;
            let failing = file.disk.clone_in(alloc)?;
            MemDisk::new(alloc, bytes, failing)
        }
        None => MemDisk::new(alloc, Bytes::new(alloc), List::new(alloc)),
    }
}
