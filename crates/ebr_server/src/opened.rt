//! Opens what the words of a command name: a source or a disk.

ghost use Rattle.std.specs.Prelude.{◌≡◌, ◌<◌, ◌≤◌, ◌⊎◌, ℕ, List, [], ◌∷◌, false, None, Some, length, IfErr, IfOk, IfSome, IsSomeAnd, OnOk};
ghost use Rattle.ebr_faults.specs.Faults.{Rises};
ghost use Rattle.ebr_server.specs.Disks.{IsEntry};
ghost use Rattle.ebr_server.specs.Program.{CallsInOrder, IsReadFault, disk_at, fault_at, journal_place, own_fault, source_at, word_at};
ghost use Rattle.ebr_server.specs.inside.Opened.{Fails, OpensNone, WasRead, with_steps};

use crate::exit::ExitCode;
use crate::read::{MAX_SCRIPT, ReadErr, read_bytes};
use ebr_base::{Bytes, List};
use ebr_outside::{Host, HostErr};
use std::alloc::Global;

/// The place of a journal's word.
const JOURNAL: u32 = 1;

/// Why a run ends before its sessions begin.
#[derive(Drop)]
pub struct Halt<C> {
    pub code: ExitCode,
    /// The source whose read failed.
    pub source: Option<C>,
}

/// A run that ends so, where no read has failed.
pub fn without_source<C: Drop>(code: ExitCode) -> Halt<C>
    ensures code { result.code ≡ code }
    ensures source { result.source ≡ None }
{
    Halt { code, source: None }
}

/// A run that ends before its sessions begin, the sinks that were made, and the disk, where it was opened.
#[derive(Drop)]
pub struct Stop<C, S, D> {
    pub halt: Halt<C>,
    pub sinks: List<S>,
    pub disk: Option<D>,
}

/// A run that ends so before a sink was made.
pub fn without_sinks<C: Drop, S: Drop, D: Drop>(alloc: Global, halt: Halt<C>) -> Stop<C, S, D>
    ensures halt { result.halt ≡ halt }
    ensures sinks { result.sinks ≡ [] }
    ensures disk { result.disk ≡ None }
{
    Stop {
        halt,
        sinks: List::new(alloc),
        disk: None,
    }
}

/// Why the sessions of scripts don't run, and the sinks that were made for them.
#[derive(Drop)]
pub struct Unused<S> {
    pub code: ExitCode,
    pub sinks: Vec<S>,
}

/// A run that ends so before a disk was opened.
pub fn with_sinks<C: Drop, S: Drop, D: Drop>(unused: Unused<S>) -> Stop<C, S, D>
    ensures code { result.halt.code ≡ unused.code }
    ensures source { result.halt.source ≡ None }
    ensures sinks { result.sinks ≡ unused.sinks.items }
    ensures disk { result.disk ≡ None }
{
    let Unused { code, sinks } = unused;
    Stop {
        halt: without_source(code),
        sinks: List::from_vec(sinks),
        disk: None,
    }
}

/// Why a disk came to nothing, and the disk.
#[derive(Drop)]
pub struct Fruitless<D> {
    pub code: ExitCode,
    pub disk: D,
}

/// A run that ends so, with the sinks that were made.
pub fn with_disk<C: Drop, S: Drop, D: Drop>(fruitless: Fruitless<D>, sinks: Vec<S>) -> Stop<C, S, D>
    ensures code { result.halt.code ≡ fruitless.code }
    ensures source { result.halt.source ≡ None }
    ensures sinks { result.sinks ≡ sinks.items }
    ensures disk { result.disk ≡ Some fruitless.disk }
{
    let Fruitless { code, disk } = fruitless;
    Stop {
        halt: without_source(code),
        sinks: List::from_vec(sinks),
        disk: Some(disk),
    }
}

/// Opens the disk of the journal's word.
pub fn open_disk<H: Host>(words: &[Bytes], host: &mut H) -> Result<H::Disk, ExitCode>
    requires some { 2 ≤ length words.now }
    ensures entry { IfOk result (λ disk. IsEntry H.Disk.as_medium (H.disk_bytes host.old (word_at words.now journal_place)) disk) }
    ensures fails { IfErr result (λ code. OpensNone (Rises (H.faults host.old) (H.faults host.new)) code) }
    ensures counted { H.faults host.old ≤ H.faults host.new }
    ensures opened { OnOk result (H.calls host.new ≡ with_steps (H.calls host.old) (disk_at words.now journal_place ∷ [])) }
    ensures called { IfErr result (λ code. CallsInOrder (H.calls host.old) (H.calls host.new) (disk_at words.now journal_place ∷ []) (fault_at code) [] false) }
    ensures reports { H.reports host.new ≡ H.reports host.old }
{
    match host.disk(&words[JOURNAL as usize]) {
        Ok(disk) => Ok(disk),
        Err(HostErr::Failed) => Err(ExitCode::HostFault { word: JOURNAL }),
        Err(HostErr::NoMemory) => Err(ExitCode::NoMemory),
    }
}

/// Reads the bytes behind a word.
pub fn read_word<H: Host>(
    alloc: Global,
    words: &[Bytes],
    word: u32,
    host: &mut H,
) -> Result<Bytes, Halt<H::Source>>
    requires within { word < length words.now }
    ensures read { IfOk result (λ text. WasRead (H.bytes host.old) words.now word text) }
    ensures fails { IfErr result (λ halt. Fails (H.bytes host.old) words.now word (Rises (H.faults host.old) (H.faults host.new) ⊎ IsSomeAnd halt.source (λ s. 0 < H.Source.faults s)) halt.code) }
    ensures source { IfErr result (λ halt. IfSome halt.source (λ s. IsReadFault halt.code words.now (H.Source.word s) × (0 < H.Source.faults s))) }
    ensures same { (w : List ℕ) → H.bytes host.new w ≡ H.bytes host.old w }
    ensures same_disks { (w : List ℕ) → H.disk_bytes host.new w ≡ H.disk_bytes host.old w }
    ensures counted { H.faults host.old ≤ H.faults host.new }
    ensures opened { OnOk result (H.calls host.new ≡ with_steps (H.calls host.old) (source_at words.now word ∷ [])) }
    ensures called { IfErr result (λ halt. CallsInOrder (H.calls host.old) (H.calls host.new) (source_at words.now word ∷ []) (own_fault halt.code halt.source) [] false) }
    ensures reports { H.reports host.new ≡ H.reports host.old }
{
    let mut source = match host.source(&words[word as usize]) {
        Ok(source) => source,
        Err(HostErr::Failed) => return Err(without_source(ExitCode::HostFault { word })),
        Err(HostErr::NoMemory) => return Err(without_source(ExitCode::NoMemory)),
    };
    match read_bytes(alloc, &mut source) {
        Ok(text) if text.len() > MAX_SCRIPT => Err(without_source(ExitCode::TooLong { word })),
        Ok(text) => Ok(text),
        Err(ReadErr::Failed) => Err(Halt {
            code: ExitCode::HostFault { word },
            source: Some(source),
        }),
        Err(ReadErr::NoMemory) => Err(without_source(ExitCode::NoMemory)),
    }
}
