//! Sources, sinks and hosts in memory, and those that are files and the standard output.

use crate::answers::release;
use ebr_base::{Bytes, List, NoMemory};
use ebr_outside::{
    Fail, Failed, FileHost, Host, HostCall, HostErr, HostMethod, MemFile, MemHost, MemSink,
    MemSource, OpenGate, Sink, Source,
};
use std::alloc::Global;

/// The call of this number fails, and with `onward` each later one.
pub fn failing(alloc: Global, at: u32, onward: bool) -> Result<List<Fail>, NoMemory> {
    let mut failing = List::new(alloc);
    failing.push(Fail { at, onward })?;
    Ok(failing)
}

/// A file of which the source fails at these reads.
pub fn file(
    alloc: Global,
    word: &[u8],
    bytes: &[u8],
    source: List<Fail>,
) -> Result<MemFile, NoMemory> {
    Ok(MemFile {
        word: Bytes::from_slice(alloc, word)?,
        bytes: Bytes::from_slice(alloc, bytes)?,
        source,
        sink: List::new(alloc),
        disk: List::new(alloc),
    })
}

/// The first bytes, at most four, of what a word names.
fn first_bytes<H: Host>(alloc: Global, host: &mut H, word: &[u8]) -> Result<Bytes, HostErr> {
    let word = Bytes::from_slice(alloc, word)?;
    let mut source = host.source(&word)?;
    let mut into = [0; 4];
    let Ok(n) = source.read(&mut into) else {
        return Err(HostErr::Failed);
    };
    Ok(Bytes::from_slice(alloc, &into[..n])?)
}

/// What a read answers, and what the buffer then holds.
static READS: [(Result<usize, Failed>, &[u8]); 4] = [
    (Ok(3), b"abc"),
    (Err(Failed), b"abc"),
    (Ok(2), b"dec"),
    (Ok(0), b"dec"),
];

fn reads(source: &mut MemSource) -> bool {
    let mut into = [b'-'; 3];
    for (answer, held) in &READS {
        if source.read(&mut into) != *answer || into.as_slice() != *held {
            return false;
        }
    }
    true
}

fn source_goes_on(alloc: Global) -> Result<bool, NoMemory> {
    let failing = failing(alloc, 2, false)?;
    let mut source = MemSource::new(
        Bytes::from_slice(alloc, b"word")?,
        Bytes::from_slice(alloc, b"abcde")?,
        failing,
    );
    let goes = reads(&mut source);
    release(source);
    Ok(goes)
}

#[test]
fn a_source_goes_on_after_a_failed_read(rt: HostRuntime) -> Result<(), std::test::Fail> {
    assert!(rt; source_goes_on(rt.alloc())?);
    Ok(())
}

/// Bytes, what their write answers, and what the sink then holds.
type Write = (&'static [u8], Result<usize, Failed>, &'static [u8]);

static WRITES: [Write; 4] = [
    (b"one ", Ok(4), b"one "),
    (b"two", Ok(3), b"one two"),
    (b"three", Err(Failed), b"one two"),
    (b"four", Err(Failed), b"one two"),
];

static LOST: [Write; 1] = [(b"lost", Err(Failed), b"")];

static KEPT: [Write; 1] = [(b"kept", Ok(4), b"kept")];

fn holds(sink: &MemSink, held: &[u8]) -> bool {
    sink.held() == held
}

fn writes_row(sink: &mut MemSink, row: &Write) -> bool {
    let (bytes, answer, held) = *row;
    !bytes.is_empty() && sink.write(bytes) == answer && holds(sink, held)
}

fn writes(sink: &mut MemSink, rows: &[Write]) -> bool {
    for row in rows {
        if !writes_row(sink, row) {
            return false;
        }
    }
    true
}

fn sink_keeps(alloc: Global) -> Result<bool, NoMemory> {
    let mut sink = MemSink::new(alloc, failing(alloc, 3, true)?);
    let keeps = writes(&mut sink, &WRITES);
    release(sink);
    Ok(keeps)
}

#[test]
fn a_sink_keeps_what_it_had_when_writes_fail_onward(
    rt: HostRuntime,
) -> Result<(), std::test::Fail> {
    assert!(rt; sink_keeps(rt.alloc())?);
    Ok(())
}

/// A word, and the first bytes of what it names; None where the host fails.
type Named = (&'static [u8], Option<&'static [u8]>);

fn is(bytes: &Bytes, wanted: Option<&[u8]>) -> bool {
    match wanted {
        Some(wanted) => bytes.as_slice() == wanted,
        None => false,
    }
}

/// Whether a word names these bytes, or the host fails.
fn names<H: Host>(alloc: Global, host: &mut H, row: &Named) -> bool {
    let (word, wanted) = *row;
    match first_bytes(alloc, host, word) {
        Ok(bytes) => is(&bytes, wanted),
        Err(HostErr::Failed) => wanted.is_none(),
        Err(HostErr::NoMemory) => false,
    }
}

fn all_name<H: Host>(alloc: Global, host: &mut H, rows: &[Named]) -> bool {
    for row in rows {
        if !names(alloc, host, row) {
            return false;
        }
    }
    true
}

fn files(alloc: Global) -> Result<List<MemFile>, NoMemory> {
    let mut files = List::new(alloc);
    files.push(file(alloc, b"a.sql", b"first", List::new(alloc))?)?;
    files.push(file(alloc, b"a.sql", b"second", List::new(alloc))?)?;
    files.push(file(alloc, b"b.sql", b"b", failing(alloc, 1, true)?)?)?;
    Ok(files)
}

/// A host with these files, whose first report and whose third call fail.
fn host(alloc: Global) -> Result<MemHost, NoMemory> {
    let files = files(alloc)?;
    let report = failing(alloc, 1, false)?;
    let failing = failing(alloc, 3, false)?;
    Ok(MemHost::new(alloc, files, report, failing, OpenGate))
}

static FILES: [Named; 5] = [
    (b"a.sql", Some(b"firs")),
    (b"a", None),
    (b"a.sql", None),
    (b"a.sql", Some(b"firs")),
    (b"b.sql", None),
];

fn host_names(alloc: Global) -> Result<bool, NoMemory> {
    let mut host = host(alloc)?;
    let names = all_name(alloc, &mut host, &FILES);
    release(host);
    Ok(names)
}

#[test]
fn a_host_gives_the_first_file_of_a_word(rt: HostRuntime) -> Result<(), std::test::Fail> {
    assert!(rt; host_names(rt.alloc())?);
    Ok(())
}

/// Whether the next report of a host takes the bytes so.
fn reports(host: &mut MemHost, rows: &[Write]) -> bool {
    let mut report = host.report();
    let reports = writes(&mut report, rows);
    release(report);
    reports
}

fn first_report_fails(alloc: Global) -> Result<bool, NoMemory> {
    let report = failing(alloc, 1, true)?;
    let files = List::new(alloc);
    let mut host = MemHost::new(alloc, files, report, List::new(alloc), OpenGate);
    let fails = reports(&mut host, &LOST) && reports(&mut host, &KEPT);
    release(host);
    Ok(fails)
}

#[test]
fn only_the_first_report_of_a_host_fails(rt: HostRuntime) -> Result<(), std::test::Fail> {
    assert!(rt; first_report_fails(rt.alloc())?);
    Ok(())
}

#[test]
fn a_refusal_of_a_host_is_printed_by_its_cause(rt: HostRuntime) -> Result<(), std::test::Fail> {
    let alloc = rt.alloc();
    let memory = HostErr::from(NoMemory);
    let text = format!(in alloc; "{}, {}", HostErr::Failed, memory)?;
    assert_eq!(rt; text.as_str(), "the host failed, out of memory");
    Ok(())
}

static SYSTEM: [Named; 6] = [
    (b"/dev/zero", Some(b"\0\0\0\0")),
    (b"/dev/null", Some(b"")),
    (b"/", None),
    (b"/dev/null/missing", None),
    (b"/dev/nul\0l", None),
    (b"\xff", None),
];

#[test]
fn files_that_cannot_be_read_are_faults(rt: HostRuntime) -> Result<(), std::test::Fail> {
    let mut host = FileHost::new(rt, List::new(rt.alloc()));
    assert!(rt; all_name(rt.alloc(), &mut host, &SYSTEM));
    Ok(())
}

/// Whether a sink takes the texts whole, one after the other.
fn takes<S: Sink>(sink: &mut S, texts: &[&[u8]]) -> bool {
    for text in texts {
        if text.is_empty() || sink.write(text) != Ok(text.len()) {
            return false;
        }
    }
    true
}

/// Whether the sink that a word names takes the texts whole.
fn sink_takes<H: Host>(
    alloc: Global,
    host: &mut H,
    word: &[u8],
    texts: &[&[u8]],
) -> Result<bool, HostErr> {
    let word = Bytes::from_slice(alloc, word)?;
    let mut sink = host.sink(&word)?;
    Ok(takes(&mut sink, texts))
}

/// A word, texts, and whether the word's sink takes them whole; None where the host fails.
type Made = (&'static [u8], &'static [&'static [u8]], Option<bool>);

fn makes<H: Host>(alloc: Global, host: &mut H, row: &Made) -> bool {
    let (word, texts, wanted) = *row;
    match sink_takes(alloc, host, word, texts) {
        Ok(taken) => wanted == Some(taken),
        Err(HostErr::Failed) => wanted.is_none(),
        Err(HostErr::NoMemory) => false,
    }
}

fn all_make<H: Host>(alloc: Global, host: &mut H, rows: &[Made]) -> bool {
    for row in rows {
        if !makes(alloc, host, row) {
            return false;
        }
    }
    true
}

/// A word without bytes, whose sink fails at this write.
fn failing_sink(alloc: Global, word: &[u8], at: u32, onward: bool) -> Result<MemFile, NoMemory> {
    let mut made = file(alloc, word, b"", List::new(alloc))?;
    made.sink.push(Fail { at, onward })?;
    Ok(made)
}

/// A host whose fourth call fails. Of two files for one word the first tells which writes fail.
fn sink_host(alloc: Global) -> Result<MemHost, NoMemory> {
    let mut files = List::new(alloc);
    files.push(failing_sink(alloc, b"a.out", 2, false)?)?;
    files.push(failing_sink(alloc, b"a.out", 1, true)?)?;
    let failing = failing(alloc, 4, false)?;
    Ok(MemHost::new(alloc, files, List::new(alloc), failing, OpenGate))
}

static SINKS: [Made; 2] = [
    (b"a.out", &[b"one"], Some(true)),
    (b"a.out", &[b"one", b"two"], Some(false)),
];

/// A source counts as a call too, so the next sink is the fourth.
static NO_SOURCE: Named = (b"b.out", None);

static SINKS_BEHIND: [Made; 2] = [
    (b"a.out", &[b"one"], None),
    (b"b.out", &[b"one", b"two"], Some(true)),
];

/// A call of a host: what it was asked for, of which word, and whether it failed.
type Told = (HostMethod, &'static [u8], bool);

/// The calls of all these rows.
static TOLD: [Told; 5] = [
    (HostMethod::Sink, b"a.out", false),
    (HostMethod::Sink, b"a.out", false),
    (HostMethod::Source, b"b.out", true),
    (HostMethod::Sink, b"a.out", true),
    (HostMethod::Sink, b"b.out", false),
];

/// Whether a host tells these calls.
fn tells(calls: &[HostCall], rows: &[Told]) -> bool {
    if calls.len() != rows.len() {
        return false;
    }
    for (at, call) in calls.iter().enumerate() {
        let (method, word, failed) = rows[at];
        if call.method != method || call.word.as_slice() != word || call.failed != failed {
            return false;
        }
    }
    true
}

fn host_makes(alloc: Global) -> Result<bool, NoMemory> {
    let mut host = sink_host(alloc)?;
    let made = all_make(alloc, &mut host, &SINKS)
        && names(alloc, &mut host, &NO_SOURCE)
        && all_make(alloc, &mut host, &SINKS_BEHIND)
        && tells(host.calls(), &TOLD);
    release(host);
    Ok(made)
}

#[test]
fn a_sink_fails_as_the_first_file_of_its_word_says_and_calls_are_told(
    rt: HostRuntime,
) -> Result<(), std::test::Fail> {
    assert!(rt; host_makes(rt.alloc())?);
    Ok(())
}

static SYSTEM_SINKS: [Made; 6] = [
    (b"/dev/null", &[b"one", b"two"], Some(true)),
    (b"/dev/full", &[b"one"], Some(false)),
    (b"/", &[], None),
    (b"/dev/null/missing", &[], None),
    (b"/dev/nul\0l", &[], None),
    (b"\xff", &[], None),
];

#[test]
fn files_that_cannot_be_made_are_faults(rt: HostRuntime) -> Result<(), std::test::Fail> {
    let mut host = FileHost::new(rt, List::new(rt.alloc()));
    assert!(rt; all_make(rt.alloc(), &mut host, &SYSTEM_SINKS));
    Ok(())
}

/// A file that is made, and what is read of it then; and the same made anew.
static WRITTEN: Made = (b"made.sql.out", &[b"ab", b"c"], Some(true));

static HELD: Named = (b"made.sql.out", Some(b"abc"));

static EMPTIED: Made = (b"made.sql.out", &[], Some(true));

static NOTHING: Named = (b"made.sql.out", Some(b""));

#[test]
fn a_file_that_is_made_anew_is_empty(rt: HostRuntime) -> Result<(), std::test::Fail> {
    let alloc = rt.alloc();
    let mut host = FileHost::new(rt, List::new(rt.alloc()));
    assert!(rt; makes(alloc, &mut host, &WRITTEN));
    assert!(rt; names(alloc, &mut host, &HELD));
    let mut host = FileHost::new(rt, List::new(alloc));
    assert!(rt; makes(alloc, &mut host, &EMPTIED));
    assert!(rt; names(alloc, &mut host, &NOTHING));
    Ok(())
}

#[test]
fn standard_output_takes_bytes(rt: HostRuntime) -> Result<(), std::test::Fail> {
    let mut report = FileHost::new(rt, List::new(rt.alloc())).report();
    assert_eq!(rt; report.write(b"\n"), Ok(1));
    Ok(())
}
