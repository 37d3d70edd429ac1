//! Begins the sessions of scripts: reads these, and makes a sink for each session.

ghost use Rattle.std.specs.Prelude.{◌≡◌, ◌+◌, ◌-◌, ◌<◌, ◌≤◌, ◌⊎◌, ℕ, All, List, [], ◌∷◌, false, length, map, IfErr, IfOk, IfSome, IsSomeAnd, None, OnOk};
ghost use Rattle.ebr_faults.specs.Faults.{Rises};
ghost use Rattle.ebr_worker.specs.Runs.{IsUnwritten};
ghost use Rattle.ebr_words.specs.Words.{out_word};
ghost use Rattle.ebr_server.specs.Program.{AreJobs, AreScripts, CallsInOrder, IsReadFault, fault_at, out_words, own_fault, scripts_and_sinks, sink_at, source_at, steps_from, word_at};
ghost use Rattle.ebr_server.specs.inside.Opened.{AreBack, Fails, FailsFrom, MakesNone, ReadsMore, with_steps};

use crate::exit::ExitCode;
use crate::opened::{Halt, Stop, Unused, read_word, with_sinks, without_sinks, without_source};
use ebr_base::{Bytes, List, NoMemory};
use ebr_outside::{Host, HostErr};
use ebr_worker::{Sessions, sessions_of};
use std::alloc::Global;

/// What is behind a script's word in the word of its sink.
const OUT: &[u8] = b".out";

/// Reads the scripts from a place on, makes the sinks, and begins the sessions.
pub fn begin_sessions<H: Host>(
    alloc: Global,
    words: &[Bytes],
    first: u32,
    host: &mut H,
) -> Result<Sessions<H::Sink>, Stop<H::Source, H::Sink, H::Disk>>
    requires some { first ≤ length words.now }
    requires few { length words.now ≤ first + 32 }
    requires near { first ≤ 3 }
    ensures begun { IfOk result (λ jobs. AreJobs (H.bytes host.old) words.now first jobs) }
    ensures fails { IfErr result (λ stop. FailsFrom (H.bytes host.old) words.now first (Rises (H.faults host.old) (H.faults host.new) ⊎ IsSomeAnd stop.halt.source (λ s. 0 < H.Source.faults s)) stop.halt.code) }
    ensures source { IfErr result (λ stop. IfSome stop.halt.source (λ s. IsReadFault stop.halt.code words.now (H.Source.word s) × (0 < H.Source.faults s))) }
    ensures no_disk { IfErr result (λ stop. stop.disk ≡ None) }
    ensures unwritten { IfErr result (λ stop. All (IsUnwritten H.Sink.held H.Sink.faults) stop.sinks) }
    ensures same_disks { (w : List ℕ) → H.disk_bytes host.new w ≡ H.disk_bytes host.old w }
    ensures counted { H.faults host.old ≤ H.faults host.new }
    ensures opened { OnOk result (H.calls host.new ≡ with_steps (H.calls host.old) (scripts_and_sinks words.now first)) }
    ensures called { IfErr result (λ stop. CallsInOrder (H.calls host.old) (H.calls host.new) (scripts_and_sinks words.now first) (own_fault stop.halt.code stop.halt.source) (map H.Sink.word stop.sinks) false) }
    ensures reports { H.reports host.new ≡ H.reports host.old }
{
    let scripts = match read_scripts(alloc, words, first, host) {
        Ok(scripts) => scripts,
        Err(halt) => return Err(without_sinks(alloc, halt)),
    };
    let sinks = match make_sinks(alloc, words, first, host) {
        Ok(sinks) => sinks,
        Err(unused) => return Err(with_sinks(unused)),
    };
    match sessions_of(alloc, scripts.as_slice(), sinks) {
        Ok(sessions) => Ok(sessions),
        Err(sinks) => Err(with_sinks(Unused {
            code: ExitCode::NoMemory,
            sinks,
        })),
    }
}

/// Reads the scripts of the words from a place on, in order.
fn read_scripts<H: Host>(
    alloc: Global,
    words: &[Bytes],
    first: u32,
    host: &mut H,
) -> Result<List<Bytes>, Halt<H::Source>>
    requires some { first ≤ length words.now }
    requires few { length words.now ≤ 35 }
    ensures read { IfOk result (λ scripts. AreScripts (H.bytes host.old) words.now first (length words.now) scripts) }
    ensures fails { IfErr result (λ halt. FailsFrom (H.bytes host.old) words.now first (Rises (H.faults host.old) (H.faults host.new) ⊎ IsSomeAnd halt.source (λ s. 0 < H.Source.faults s)) halt.code) }
    ensures source { IfErr result (λ halt. IfSome halt.source (λ s. IsReadFault halt.code words.now (H.Source.word s) × (0 < H.Source.faults s))) }
    ensures same { (w : List ℕ) → H.bytes host.new w ≡ H.bytes host.old w }
    ensures same_disks { (w : List ℕ) → H.disk_bytes host.new w ≡ H.disk_bytes host.old w }
    ensures counted { H.faults host.old ≤ H.faults host.new }
    ensures opened { OnOk result (H.calls host.new ≡ with_steps (H.calls host.old) (steps_from (source_at words.now) first (length words.now - first))) }
    ensures called { IfErr result (λ halt. CallsInOrder (H.calls host.old) (H.calls host.new) (steps_from (source_at words.now) first (length words.now - first)) (own_fault halt.code halt.source) [] false) }
    ensures reports { H.reports host.new ≡ H.reports host.old }
{
    let mut scripts = List::new(alloc);
    for word in first..words.len() as u32 {
        if let Err(halt) = read_more(alloc, words, word, host, &mut scripts) {
            return Err(halt);
        }
    }
    Ok(scripts)
}

/// Reads one more.
fn read_more<H: Host>(
    alloc: Global,
    words: &[Bytes],
    word: u32,
    host: &mut H,
    scripts: &mut List<Bytes>,
) -> Result<(), Halt<H::Source>>
    requires within { word < length words.now }
    ensures read { IfOk result (λ _. ReadsMore (H.bytes host.old) words.now word scripts.old scripts.new) }
    ensures fails { IfErr result (λ halt. Fails (H.bytes host.old) words.now word (Rises (H.faults host.old) (H.faults host.new) ⊎ IsSomeAnd halt.source (λ s. 0 < H.Source.faults s)) halt.code) }
    ensures source { IfErr result (λ halt. IfSome halt.source (λ s. IsReadFault halt.code words.now (H.Source.word s) × (0 < H.Source.faults s))) }
    ensures same { (w : List ℕ) → H.bytes host.new w ≡ H.bytes host.old w }
    ensures same_disks { (w : List ℕ) → H.disk_bytes host.new w ≡ H.disk_bytes host.old w }
    ensures counted { H.faults host.old ≤ H.faults host.new }
    ensures opened { OnOk result (H.calls host.new ≡ with_steps (H.calls host.old) (source_at words.now word ∷ [])) }
    ensures called { IfErr result (λ halt. CallsInOrder (H.calls host.old) (H.calls host.new) (source_at words.now word ∷ []) (own_fault halt.code halt.source) [] false) }
    ensures reports { H.reports host.new ≡ H.reports host.old }
{
    match read_word(alloc, words, word, host) {
        Ok(script) => match scripts.push(script) {
            Ok(()) => Ok(()),
            Err(NoMemory) => Err(without_source(ExitCode::NoMemory)),
        },
        Err(halt) => Err(halt),
    }
}

/// Makes the sinks of the scripts of the words from a place on, in order.
fn make_sinks<H: Host>(
    alloc: Global,
    words: &[Bytes],
    first: u32,
    host: &mut H,
) -> Result<Vec<H::Sink>, Unused<H::Sink>>
    requires some { first ≤ length words.now }
    requires few { length words.now ≤ 35 }
    ensures made { IfOk result (λ sinks. AreBack H.Sink.word H.Sink.held H.Sink.faults (out_words words.now first (length words.now - first)) sinks.items) }
    ensures fails { IfErr result (λ unused. MakesNone words.now first (Rises (H.faults host.old) (H.faults host.new)) unused.code) }
    ensures unwritten { IfErr result (λ unused. All (IsUnwritten H.Sink.held H.Sink.faults) unused.sinks.items) }
    ensures same { (w : List ℕ) → H.bytes host.new w ≡ H.bytes host.old w }
    ensures same_disks { (w : List ℕ) → H.disk_bytes host.new w ≡ H.disk_bytes host.old w }
    ensures counted { H.faults host.old ≤ H.faults host.new }
    ensures opened { OnOk result (H.calls host.new ≡ with_steps (H.calls host.old) (steps_from (sink_at words.now) first (length words.now - first))) }
    ensures called { IfErr result (λ unused. CallsInOrder (H.calls host.old) (H.calls host.new) (steps_from (sink_at words.now) first (length words.now - first)) (fault_at unused.code) (map H.Sink.word unused.sinks.items) false) }
    ensures reports { H.reports host.new ≡ H.reports host.old }
{
    let Ok(mut sinks) = Vec::with_capacity(alloc, words.len() - first as usize) else {
        return Err(Unused {
            code: ExitCode::NoMemory,
            sinks: Vec::new(alloc),
        });
    };
    for word in first..words.len() as u32 {
        let sink = match make_sink(alloc, words, first, word, host) {
            Ok(sink) => sink,
            Err(code) => return Err(Unused { code, sinks }),
        };
        sinks.push_reserved(sink);
    }
    Ok(sinks)
}

/// Makes the sink of a script's session.
fn make_sink<H: Host>(
    alloc: Global,
    words: &[Bytes],
    first: u32,
    word: u32,
    host: &mut H,
) -> Result<H::Sink, ExitCode>
    requires within { word < length words.now }
    requires behind { first ≤ word }
    ensures made { IfOk result (λ sink. IsUnwritten H.Sink.held H.Sink.faults sink) }
    ensures asked { IfOk result (λ sink. H.Sink.word sink ≡ out_word (word_at words.now word)) }
    ensures fails { IfErr result (λ code. MakesNone words.now first (Rises (H.faults host.old) (H.faults host.new)) code) }
    ensures same { (w : List ℕ) → H.bytes host.new w ≡ H.bytes host.old w }
    ensures same_disks { (w : List ℕ) → H.disk_bytes host.new w ≡ H.disk_bytes host.old w }
    ensures counted { H.faults host.old ≤ H.faults host.new }
    ensures opened { OnOk result (H.calls host.new ≡ with_steps (H.calls host.old) (sink_at words.now word ∷ [])) }
    ensures called { IfErr result (λ code. CallsInOrder (H.calls host.old) (H.calls host.new) (sink_at words.now word ∷ []) (fault_at code) [] false) }
    ensures reports { H.reports host.new ≡ H.reports host.old }
{
    let Ok(name) = out_word(alloc, words[word as usize].as_slice()) else {
        return Err(ExitCode::NoMemory);
    };
    match host.sink(&name) {
        Ok(sink) => Ok(sink),
        Err(HostErr::Failed) => Err(ExitCode::HostFault { word }),
        Err(HostErr::NoMemory) => Err(ExitCode::NoMemory),
    }
}

/// The word of the sink of a script's session.
fn out_word(alloc: Global, script: &[u8]) -> Result<Bytes, NoMemory>
    ensures { IfOk result (λ word. word ≡ out_word script.now) }
{
    let mut word = Bytes::from_slice(alloc, script)?;
    word.extend(OUT)?;
    Ok(word)
}
