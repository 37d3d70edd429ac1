//! A host in memory.

ghost use Rattle.std.specs.Prelude.{◌≡◌, [], ◌⊎◌, IsTrue, IsErr, IsErrOf, IsNone, IsSomeAnd, IfOk, OnOk, Some};
ghost use Rattle.ebr_faults.specs.Faults.{one_more};
ghost use Rattle.ebr_outside.specs.Memory.{file_of};
ghost use Rattle.ebr_outside.specs.declared.host_call.HostMethod.TheVariants as method;

use crate::gate::{Gate, OpenGate};
use crate::host::{Host, HostErr};
use crate::host_call::HostCall;
use crate::memory::disk::MemDisk;
use crate::memory::fail::Fail;
use crate::memory::files::Files;
use crate::memory::sink::MemSink;
use crate::memory::source::MemSource;
use ebr_base::{Bytes, List};
use std::alloc::Global;
use std::marker::Model;

/// A word and the bytes behind it.
#[derive(Debug, Drop)]
pub struct MemFile {
    pub word: Bytes,
    pub bytes: Bytes,
    /// Which reads fail of a source that is made for the word.
    pub source: List<Fail>,
    /// Which writes fail of a sink that is made for the word.
    pub sink: List<Fail>,
    /// Which calls fail of a disk that is opened for the word.
    pub disk: List<Fail>,
}

/// Files as a host that tells their bytes. Of two files for one word the first counts.
#[derive(Drop)]
pub struct MemHost<G: Gate = OpenGate> {
    files: Files,
    gate: G,
}

impl<G: Gate> Model for MemHost<G> {
    ghost use Rattle.ebr_outside.specs.Memory.{HostState};

    ghost Value = { HostState };

    ghost view = { λ h. h.files };
}

impl<G: Gate> MemHost<G> {
    ghost use Rattle.ebr_outside.specs.Calls.{none_made};

    /// A host of these files. The calls of `source`, `sink` and `disk`, counted together, that `failing`
    /// names fail, and of its first report the writes that `report` names. The sessions of a run pass the gate.
    pub fn new(
        alloc: Global,
        files: List<MemFile>,
        report: List<Fail>,
        failing: List<Fail>,
        gate: G,
    ) -> MemHost<G>
        ensures { result ≡ record { files = files; report = report; reports = 0; calls = none_made failing; made = [] } }
    {
        MemHost {
            files: Files::new(alloc, files, report, failing),
            gate,
        }
    }

    /// The calls of `source`, `sink` and `disk` in order, but for those that found no memory.
    pub fn calls(&self) -> &[HostCall]
        ensures { result.now ≡ self.now.made }
    {
        self.files.calls()
    }
}

impl<G: Gate> Host for MemHost<G> {
    type Source = MemSource;

    type Sink = MemSink;

    type Report = MemSink;

    type Disk = MemDisk;

    type Gate = G;

    ghost use Rattle.ebr_outside.specs.Calls.{fails_next, none_made};
    ghost use Rattle.ebr_outside.specs.Memory.{bytes_of, called, disk_bytes_of, disk_of, failed, failing_writes};
    ghost use Rattle.ebr_outside.specs.inside.DiskOfBytes.{disk_of_bytes};

    ghost bytes = { λ h w. bytes_of h.files w };

    ghost disk_bytes = { λ h w. Some (disk_bytes_of h.files w) };

    ghost disk_of_bytes = { λ h w. disk_of_bytes h.files w };

    ghost calls = { λ h. Some h.made };

    ghost faults = { λ h. h.calls.faults };

    ghost reports = { λ h. h.reports };

    /// A source of the bytes behind a word. `Failed` comes where this call is named or no file has the word.
    fn source(&mut self, word: &Bytes) -> Result<MemSource, HostErr>
        ensures named { IsTrue (fails_next self.old.calls) → IsErr result }
        ensures fails { IsErrOf result HostErr.Failed
            → IsTrue (fails_next self.old.calls) ⊎ IsNone (file_of self.old.files word.now) }
        ensures made { IfOk result (λ s. IsSomeAnd (file_of self.old.files word.now)
            (λ file. s ≡ record { word = word.now; left = file.bytes; calls = none_made file.source })) }

        // What becomes of the host.
        ensures ok { OnOk result (self.new ≡ called self.old method.Source word.now) }
        ensures failed { IsErrOf result HostErr.Failed → self.new ≡ failed self.old method.Source word.now }
        ensures no_memory { IsErrOf result HostErr.NoMemory → self.new ≡ self.old }
    {
        self.files.source(word)
    }

    /// An empty sink, which fails at the writes that the first file of the word names, and at none where
    /// no file has the word. `Failed` comes only where this call is named.
    fn sink(&mut self, word: &Bytes) -> Result<MemSink, HostErr>
        ensures named { IsTrue (fails_next self.old.calls) → IsErr result }
        ensures fails { IsErrOf result HostErr.Failed → IsTrue (fails_next self.old.calls) }
        ensures made { IfOk result (λ s.
            s ≡ record { word = word.now; held = []; calls = none_made (failing_writes self.old.files word.now) }) }

        // What becomes of the host.
        ensures ok { OnOk result (self.new ≡ called self.old method.Sink word.now) }
        ensures failed { IsErrOf result HostErr.Failed → self.new ≡ failed self.old method.Sink word.now }
        ensures no_memory { IsErrOf result HostErr.NoMemory → self.new ≡ self.old }
    {
        self.files.sink(word)
    }

    /// A disk of the bytes behind a word, empty where no file has the word. `Failed` comes only where this call is named.
    fn disk(&mut self, word: &Bytes) -> Result<MemDisk, HostErr>
        ensures named { IsTrue (fails_next self.old.calls) → IsErr result }
        ensures fails { IsErrOf result HostErr.Failed → IsTrue (fails_next self.old.calls) }
        ensures made { IfOk result (λ d. d ≡ disk_of self.old.files word.now) }

        // What becomes of the host.
        ensures ok { OnOk result (self.new ≡ called self.old method.Disk word.now) }
        ensures failed { IsErrOf result HostErr.Failed → self.new ≡ failed self.old method.Disk word.now }
        ensures no_memory { IsErrOf result HostErr.NoMemory → self.new ≡ self.old }
    {
        self.files.disk(word)
    }

    /// An empty sink. The first report fails at the writes that the host was made with, and a later
    /// one at none.
    fn report(&mut self) -> MemSink
        ensures made { result ≡ record { word = []; held = []; calls = none_made self.old.report } }
        ensures spent { self.new ≡ record self.old { report = []; reports = one_more self.old.reports } }
    {
        self.files.report()
    }

    fn gate(&self) -> &G {
        &self.gate
    }
}
