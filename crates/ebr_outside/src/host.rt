//! What opens sources and disks, and makes sinks.

ghost use Rattle.std.specs.Prelude.{◌≡◌, ℕ, ◌≤◌, List, [], Option, Some, IfOk, IfSome, IsErrOf};
ghost use Rattle.ebr_faults.specs.Faults.{Rises, one_more};
ghost use Rattle.ebr_outside.specs.Disk.{HoldsJust};
ghost use Rattle.ebr_outside.specs.HostCalls.{calls_after};
ghost use Rattle.ebr_outside.specs.declared.host.HostErr.TheVariants as variants;
ghost use Rattle.ebr_outside.specs.declared.host_call.HostMethod.TheVariants as method;

use crate::disk::Disk;
use crate::gate::Gate;
use crate::sink::Sink;
use crate::source::Source;
use ebr_base::{Bytes, NoMemory};
use thiserror::Error;

/// Why a host opened nothing.
#[derive(Clone, Copy, Debug, PartialEq, Eq, Error)]
pub enum HostErr {
    /// The call failed; the host counted it.
    #[error("the host failed")]
    Failed,
    /// The allocator had no memory.
    #[error("out of memory")]
    NoMemory,
}

impl From<NoMemory> for HostErr {
    ghost from_gives = { λ _ error. error ≡ variants.NoMemory };

    fn from(_: NoMemory) -> HostErr {
        HostErr::NoMemory
    }
}

/// Gives what the words of a command line name.
pub trait Host {
    ghost use Rattle.ebr_outside.specs.declared.host_call.HostCall.{HostCall};

    type Source: Source;

    type Sink: Sink + Send;

    type Report: Sink;

    type Disk: Disk + Send;

    type Gate: Gate;

    /// The bytes behind a word, where the host tells them.
    ghost bytes: { Self → List ℕ → Option (List ℕ) };

    /// The bytes of the disk that a word names, where the host tells them.
    ghost disk_bytes: { Self → List ℕ → Option (List ℕ) };

    /// The calls of `source`, `sink` and `disk` in order, each with its word and whether it failed, where the host tells them. One that
    /// found no memory isn't among them.
    ghost calls: { Self → Option (List HostCall) };

    /// How many of the host's own calls have failed. It never falls, and stands still at its end,
    /// 2^64 - 1.
    ghost faults: { Self → ℕ };

    /// How many reports were made. It stands still at its end, 2^64 - 1.
    ghost reports: { Self → ℕ };

    /// Opens the source that a word names, at its first byte.
    ///
    /// `Failed` comes only where the host's count of faults rose in this call, or stands at its
    /// end.
    fn source(&mut self, word: &Bytes) -> Result<Self::Source, HostErr>
        ensures told { IfOk result (λ s.
            IfSome (bytes self.old word.now) (λ b. Self.Source.left s ≡ Some b)) }
        ensures fresh { IfOk result (λ s. Self.Source.faults s ≡ 0) }
        ensures asked { IfOk result (λ s. Self.Source.word s ≡ word.now) }
        ensures same { (w : List ℕ) → bytes self.new w ≡ bytes self.old w }
        ensures same_disks { (w : List ℕ) → disk_bytes self.new w ≡ disk_bytes self.old w }
        ensures called { calls self.new ≡ calls_after (calls self.old) method.Source word.now result }
        ensures same_reports { reports self.new ≡ reports self.old }
        ensures counted { faults self.old ≤ faults self.new }
        ensures failed { IsErrOf result HostErr.Failed
            → Rises (faults self.old) (faults self.new) };

    /// Makes the sink that a word names, with no bytes in it.
    ///
    /// `Failed` comes only where the host's count of faults rose in this call, or stands at its
    /// end.
    fn sink(&mut self, word: &Bytes) -> Result<Self::Sink, HostErr>
        ensures empty { IfOk result (λ s. IfSome (Self.Sink.held s) (λ h. h ≡ [])) }
        ensures fresh { IfOk result (λ s. Self.Sink.faults s ≡ 0) }
        ensures asked { IfOk result (λ s. Self.Sink.word s ≡ word.now) }
        ensures same { (w : List ℕ) → bytes self.new w ≡ bytes self.old w }
        ensures same_disks { (w : List ℕ) → disk_bytes self.new w ≡ disk_bytes self.old w }
        ensures called { calls self.new ≡ calls_after (calls self.old) method.Sink word.now result }
        ensures same_reports { reports self.new ≡ reports self.old }
        ensures counted { faults self.old ≤ faults self.new }
        ensures failed { IsErrOf result HostErr.Failed
            → Rises (faults self.old) (faults self.new) };

    /// Opens the disk that a word names. Where there is none, an empty one is made.
    ///
    /// `Failed` comes only where the host's count of faults rose in this call, or stands at its
    /// end.
    fn disk(&mut self, word: &Bytes) -> Result<Self::Disk, HostErr>
        ensures told { IfOk result (λ d.
            IfSome (disk_bytes self.old word.now) (λ b. HoldsJust (Self.Disk.as_medium d) b)) }
        ensures fresh { IfOk result (λ d. (Self.Disk.as_medium d).faults ≡ 0) }
        ensures same { (w : List ℕ) → bytes self.new w ≡ bytes self.old w }
        ensures same_disks { (w : List ℕ) → disk_bytes self.new w ≡ disk_bytes self.old w }
        ensures called { calls self.new ≡ calls_after (calls self.old) method.Disk word.now result }
        ensures same_reports { reports self.new ≡ reports self.old }
        ensures counted { faults self.old ≤ faults self.new }
        ensures failed { IsErrOf result HostErr.Failed
            → Rises (faults self.old) (faults self.new) };

    /// Makes the sink for the report, with no bytes in it, and counts it.
    fn report(&mut self) -> Self::Report
        ensures empty { IfSome (Self.Report.held result) (λ h. h ≡ []) }
        ensures fresh { Self.Report.faults result ≡ 0 }
        ensures same { (w : List ℕ) → bytes self.new w ≡ bytes self.old w }
        ensures same_disks { (w : List ℕ) → disk_bytes self.new w ≡ disk_bytes self.old w }
        ensures reported { reports self.new ≡ one_more (reports self.old) }
        ensures same_calls { calls self.new ≡ calls self.old }
        ensures counted { faults self.old ≤ faults self.new };

    /// The gate that the sessions of a run pass.
    fn gate(&self) -> &Self::Gate;

    /// The bytes behind a word are those of its disk.
    ghost disk_of_bytes: { (host : Self) (w : List ℕ) → IfSome (bytes host w) (λ b. disk_bytes host w ≡ Some b) };
}
