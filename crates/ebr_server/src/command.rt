//! The one call that the program makes.

ghost use Rattle.std.specs.Prelude.{◌≡◌, ◌≢◌, ◌<◌, ◌≤◌, ◌↔◌, ◌⊎◌, ℕ, List, [], length, Option, Some, None, IfSome, IsSome, IsSomeAnd, is_some};
ghost use Rattle.ebr_faults.specs.Faults.{Rises, one_more};
ghost use Rattle.ebr_order.specs.Order.{wrong_at};
ghost use Rattle.ebr_words.specs.Words.{command_of};
ghost use Rattle.ebr_words.specs.declared.words.Command.TheVariants.{Dump, Rehearse, Run, Try};
ghost use Rattle.ebr_startup.specs.Damage.{IsDamagedAt};
ghost use Rattle.ebr_worker.specs.Runs.{IsUnwritten};
ghost use Rattle.ebr_server.specs.Handed.{handed};
ghost use Rattle.ebr_server.specs.Program.{AllEnded, AllRight, CallsInOrder, DiskFails, EndsTold, IsComplete, IsLegal, IsLong, IsReadFault, IsSinkStop, LineFailed, Opens, OpensJournal, OrderWrong, Reads, Reported, Served, SinkFailed, SinkFails, StopsBad, StopsBy, StopsDamaged, journal_place, last_line, order_of_work, order_place, outside, own_fault, sessions_of, sinks_back, told_at};
ghost use Rattle.ebr_server.specs.inside.Opened.{ScriptServed};

use crate::exit::ExitCode;
use crate::journal::lines;
use crate::opened::{Halt, Stop, open_disk, read_word, with_disk, without_sinks, without_source};
use crate::over::Ended;
use crate::read::MAX_SCRIPT;
use crate::rehearsal::rehearsed;
use crate::report::{tell_ends, tell_lines, tell_replies, write_last_line};
use crate::threads::ran_in_threads;
use ebr_asks::Entry;
use ebr_base::{Bytes, List};
use ebr_outside::{Disk, Host, Sink};
use ebr_record::Record;
use ebr_report::SessionEnd;
use ebr_startup::{a_database_is_not_damaged, a_file_is_damaged_at_one_place};
use ebr_words::{Command, command_of};
use ebr_worker::run_alone;
use std::alloc::Global;
use std::sync::Wait;
use std::thread::Threads;

/// What a run hands back.
#[derive(Drop)]
pub struct Outcome<C, S, R, D> {
    pub code: ExitCode,
    /// The source whose read failed.
    pub source: Option<C>,
    pub report: R,
    /// What the sessions came to, in the order of their scripts; none where no session has begun. In `run` and
    /// `rehearse` each has its sink; that of `try` is the report.
    pub ends: List<SessionEnd<S>>,
    /// The sinks that were made for sessions, where none has begun: nothing is written in them.
    pub sinks: List<S>,
    /// The records with which the history began: those of the journal, where sessions ran over one.
    pub recovered: List<Record>,
    /// All asks in the order in which they were answered.
    pub history: List<Entry>,
    /// The journal's disk, where it was opened.
    pub disk: Option<D>,
}

/// A run that ends before its sessions begin.
fn stopped<C: Drop, S: Drop, R: Sink, D: Drop>(
    alloc: Global,
    words: &[Bytes],
    stop: Stop<C, S, D>,
    report: R,
) -> Outcome<C, S, R, D>
    requires empty { IsUnwritten R.held R.faults report }
    ensures code { result.code ≡ stop.halt.code }
    ensures source { result.source ≡ stop.halt.source }
    ensures sinks { result.sinks ≡ stop.sinks }
    ensures disk { result.disk ≡ stop.disk }
    ensures ends { result.ends ≡ [] }
    ensures recovered { result.recovered ≡ [] }
    ensures history { result.history ≡ [] }
    ensures failed { LineFailed stop.halt.code (R.faults result.report) }
    ensures report { IfSome (R.held result.report) (λ bytes. Reported (R.faults result.report) bytes [] (last_line stop.halt.code words.now)) }
{
    let Stop { halt, sinks, disk } = stop;
    let Halt { code, source } = halt;
    let mut report = report;
    let _ = write_last_line(&mut report, code, words);
    Outcome {
        code,
        source,
        report,
        ends: List::new(alloc),
        sinks,
        recovered: List::new(alloc),
        history: List::new(alloc),
        disk,
    }
}

/// A run that ends so before a disk was opened, where no read has failed.
fn stopped_by<C: Drop, S: Drop, R: Sink, D: Drop>(
    alloc: Global,
    words: &[Bytes],
    code: ExitCode,
    report: R,
) -> Outcome<C, S, R, D>
    requires empty { IsUnwritten R.held R.faults report }
    ensures code { result.code ≡ code }
    ensures source { result.source ≡ None }
    ensures sinks { result.sinks ≡ [] }
    ensures disk { result.disk ≡ None }
    ensures ends { result.ends ≡ [] }
    ensures recovered { result.recovered ≡ [] }
    ensures history { result.history ≡ [] }
    ensures failed { LineFailed code (R.faults result.report) }
    ensures report { IfSome (R.held result.report) (λ bytes. Reported (R.faults result.report) bytes [] (last_line code words.now)) }
{
    stopped(
        alloc,
        words,
        without_sinks(alloc, without_source(code)),
        report,
    )
}

/// The end of a session apart from its sink.
fn without_sink<S: Drop, R: Drop>(ended: SessionEnd<R>) -> (SessionEnd<S>, R)
    requires sink { IsSome ended.sink }
    ensures end { result.0 ≡ record { session = ended.session; requests = ended.requests; refused = ended.refused; end = ended.end; sink = None } }
    ensures sink { ended.sink ≡ Some result.1 }
{
    let SessionEnd {
        session,
        requests,
        refused,
        end,
        sink,
    } = ended;
    let end = SessionEnd {
        session,
        requests,
        refused,
        end,
        sink: None,
    };
    (end, sink.unwrap())
}

/// Runs a script as the one session of an empty database. The replies go to the report.
fn run_script<C: Drop, S: Drop, R: Sink, D: Disk>(
    alloc: Global,
    words: &[Bytes],
    script: &[u8],
    report: R,
) -> Outcome<C, S, R, D>
    requires short { length script.now ≤ MAX_SCRIPT }
    requires empty { IsUnwritten R.held R.faults report }
    ensures served { (bytes disks : List ℕ → Option (List ℕ)) (sink_word : S → List ℕ) (sink_held : S → Option (List ℕ)) (sink_faults : S → ℕ)
        → ScriptServed (outside bytes disks sink_word sink_held sink_faults D.as_medium) script.now words.now (handed R.faults R.held result) }
    ensures source { result.source ≡ None }
    ensures back { (sink_word : S → List ℕ) → sinks_back sink_word result.ends result.sinks ≡ [] }
    ensures no_disk { result.disk ≡ None }
{
    let Ok(mut ends) = Vec::with_capacity(alloc, 1) else {
        return stopped_by(alloc, words, ExitCode::NoMemory, report);
    };
    match run_alone(alloc, script, report) {
        Ok((ended, history)) => {
            let (end, mut report) = without_sink(ended);
            ends.push_reserved(end);
            let code = tell_replies(&mut report, words, history.as_slice(), ends.as_slice());
            Outcome {
                code,
                source: None,
                report,
                ends: List::from_vec(ends),
                sinks: List::new(alloc),
                recovered: List::new(alloc),
                history,
                disk: None,
            }
        }
        Err(report) => stopped_by(alloc, words, ExitCode::NoMemory, report),
    }
}

/// Does `try`.
fn try_script<H: Host>(
    alloc: Global,
    words: &[Bytes],
    host: &mut H,
    report: H::Report,
) -> Outcome<H::Source, H::Sink, H::Report, H::Disk>
    requires some { 2 ≤ length words.now }
    requires empty { IsUnwritten H.Report.held H.Report.faults report }
    ensures served { Served (Some Try) (outside (H.bytes host.old) (H.disk_bytes host.old) H.Sink.word H.Sink.held H.Sink.faults H.Disk.as_medium) (Rises (H.faults host.old) (H.faults host.new) ⊎ IsSomeAnd result.source (λ s. 0 < H.Source.faults s)) words.now (handed H.Report.faults H.Report.held result) }
    ensures source { IfSome result.source (λ s. IsReadFault result.code words.now (H.Source.word s) × (0 < H.Source.faults s)) }
    ensures called { CallsInOrder (H.calls host.old) (H.calls host.new) (order_of_work (Some Try) words.now) (own_fault result.code result.source) (sinks_back H.Sink.word result.ends result.sinks) (is_some result.disk) }
    ensures reports { H.reports host.new ≡ H.reports host.old }
{
    match read_word(alloc, words, 1, host) {
        Ok(script) => run_script(alloc, words, script.as_slice(), report),
        Err(halt) => stopped(alloc, words, without_sinks(alloc, halt), report),
    }
}

/// What sessions over a journal came to, as the report tells it.
fn outcome_of<C: Drop, S: Drop, R: Sink, D: Drop>(
    alloc: Global,
    words: &[Bytes],
    ended: Ended<S, D>,
    report: R,
) -> Outcome<C, S, R, D>
    requires empty { IsUnwritten R.held R.faults report }
    ensures source { result.source ≡ None }
    ensures is { handed R.faults R.held result ≡ record { code = result.code; recovered = ended.recovered; history = ended.history; ends = ended.ends; sinks = []; disk = Some ended.disk; faults = R.faults result.report; held = R.held result.report } }
    ensures told { EndsTold words.now ended.history result.code ended.ends (R.faults result.report) (R.held result.report) }
{
    let mut report = report;
    let code = tell_ends(
        &mut report,
        words,
        ended.history.as_slice(),
        ended.ends.as_slice(),
    );
    Outcome {
        code,
        source: None,
        report,
        ends: ended.ends,
        sinks: List::new(alloc),
        recovered: ended.recovered,
        history: ended.history,
        disk: Some(ended.disk),
    }
}

/// Does `rehearse`.
fn rehearse<H: Host>(
    alloc: Global,
    words: &[Bytes],
    host: &mut H,
    report: H::Report,
) -> Outcome<H::Source, H::Sink, H::Report, H::Disk>
    requires some { 3 ≤ length words.now }
    requires few { length words.now ≤ 35 }
    requires empty { IsUnwritten H.Report.held H.Report.faults report }
    ensures served { Served (Some Rehearse) (outside (H.bytes host.old) (H.disk_bytes host.old) H.Sink.word H.Sink.held H.Sink.faults H.Disk.as_medium) (Rises (H.faults host.old) (H.faults host.new) ⊎ IsSomeAnd result.source (λ s. 0 < H.Source.faults s)) words.now (handed H.Report.faults H.Report.held result) }
    ensures source { IfSome result.source (λ s. IsReadFault result.code words.now (H.Source.word s) × (0 < H.Source.faults s)) }
    ensures called { CallsInOrder (H.calls host.old) (H.calls host.new) (order_of_work (Some Rehearse) words.now) (own_fault result.code result.source) (sinks_back H.Sink.word result.ends result.sinks) (is_some result.disk) }
    ensures reports { H.reports host.new ≡ H.reports host.old }
{
    match rehearsed(alloc, words, host) {
        Ok(ended) => outcome_of(alloc, words, ended, report),
        Err(stop) => stopped(alloc, words, stop, report),
    }
}

/// Does `run`.
fn run_scripts<H: Host, R: Threads + Wait + Sync>(
    rt: &R,
    alloc: Global,
    words: &[Bytes],
    host: &mut H,
    report: H::Report,
) -> Outcome<H::Source, H::Sink, H::Report, H::Disk>
    requires some { 2 ≤ length words.now }
    requires few { length words.now ≤ 34 }
    requires empty { IsUnwritten H.Report.held H.Report.faults report }
    ensures served { Served (Some Run) (outside (H.bytes host.old) (H.disk_bytes host.old) H.Sink.word H.Sink.held H.Sink.faults H.Disk.as_medium) (Rises (H.faults host.old) (H.faults host.new) ⊎ IsSomeAnd result.source (λ s. 0 < H.Source.faults s)) words.now (handed H.Report.faults H.Report.held result) }
    ensures source { IfSome result.source (λ s. IsReadFault result.code words.now (H.Source.word s) × (0 < H.Source.faults s)) }
    ensures called { CallsInOrder (H.calls host.old) (H.calls host.new) (order_of_work (Some Run) words.now) (own_fault result.code result.source) (sinks_back H.Sink.word result.ends result.sinks) (is_some result.disk) }
    ensures reports { H.reports host.new ≡ H.reports host.old }
{
    match ran_in_threads(rt, alloc, words, host) {
        Ok(ended) => outcome_of(alloc, words, ended, report),
        Err(stop) => stopped(alloc, words, stop, report),
    }
}

/// Does `dump`.
fn dump_journal<H: Host>(
    alloc: Global,
    words: &[Bytes],
    host: &mut H,
    report: H::Report,
) -> Outcome<H::Source, H::Sink, H::Report, H::Disk>
    requires some { 2 ≤ length words.now }
    requires empty { IsUnwritten H.Report.held H.Report.faults report }
    ensures served { Served (Some Dump) (outside (H.bytes host.old) (H.disk_bytes host.old) H.Sink.word H.Sink.held H.Sink.faults H.Disk.as_medium) (Rises (H.faults host.old) (H.faults host.new) ⊎ IsSomeAnd result.source (λ s. 0 < H.Source.faults s)) words.now (handed H.Report.faults H.Report.held result) }
    ensures source { IfSome result.source (λ s. IsReadFault result.code words.now (H.Source.word s) × (0 < H.Source.faults s)) }
    ensures called { CallsInOrder (H.calls host.old) (H.calls host.new) (order_of_work (Some Dump) words.now) (own_fault result.code result.source) (sinks_back H.Sink.word result.ends result.sinks) (is_some result.disk) }
    ensures reports { H.reports host.new ≡ H.reports host.old }
{
    let disk = match open_disk(words, host) {
        Ok(disk) => disk,
        Err(code) => return stopped_by(alloc, words, code, report),
    };
    match lines(alloc, disk) {
        Ok((lines, disk)) => {
            let mut report = report;
            let code = tell_lines(&mut report, words, lines.as_slice());
            Outcome {
                code,
                source: None,
                report,
                ends: List::new(alloc),
                sinks: List::new(alloc),
                recovered: List::new(alloc),
                history: List::new(alloc),
                disk: Some(disk),
            }
        }
        Err(fruitless) => stopped(alloc, words, with_disk(fruitless, Vec::new(alloc)), report),
    }
}

/// Does what the words say, but for `run`.
fn do_alone<H: Host>(
    alloc: Global,
    words: &[Bytes],
    host: &mut H,
    report: H::Report,
) -> Outcome<H::Source, H::Sink, H::Report, H::Disk>
    requires alone { command_of words.now ≢ Some Run }
    requires empty { IsUnwritten H.Report.held H.Report.faults report }
    ensures served { Served (command_of words.now) (outside (H.bytes host.old) (H.disk_bytes host.old) H.Sink.word H.Sink.held H.Sink.faults H.Disk.as_medium) (Rises (H.faults host.old) (H.faults host.new) ⊎ IsSomeAnd result.source (λ s. 0 < H.Source.faults s)) words.now (handed H.Report.faults H.Report.held result) }
    ensures source { IfSome result.source (λ s. IsReadFault result.code words.now (H.Source.word s) × (0 < H.Source.faults s)) }
    ensures called { CallsInOrder (H.calls host.old) (H.calls host.new) (order_of_work (command_of words.now) words.now) (own_fault result.code result.source) (sinks_back H.Sink.word result.ends result.sinks) (is_some result.disk) }
    ensures reports { H.reports host.new ≡ H.reports host.old }
{
    match command_of(words) {
        Some(Command::Try) => try_script(alloc, words, host, report),
        Some(Command::Rehearse) => rehearse(alloc, words, host, report),
        Some(Command::Dump) => dump_journal(alloc, words, host, report),
        Some(Command::Run) => unreachable!(),
        None => stopped_by(alloc, words, ExitCode::Usage, report),
    }
}

/// Serves a command. `try S` runs the script of word 1 as one session on a fresh database in memory, and gives its replies
/// to the host's report. `run J S..` runs the scripts from word 2 on as sessions, each in a thread of its own, over the journal that
/// word 1 names. `rehearse J ORDER S..` runs the scripts from word 3 on as sessions side by side over the journal that word 1
/// names, by the order that word 2 names: each number is a turn of that session, and behind the order the first one runs to its end,
/// then the next. In both each session prints to a sink of its own, and the report is a summary. `dump J` writes a line for each record of
/// the journal that word 1 names, and leaves it as it is. Any other words are `Usage`.
///
/// What is wrong first, in the order in which words are opened and read, has the code; the journal comes behind all others. Of sessions
/// that have ended, a disk that failed comes before want of memory, and that before a sink that failed. The report ends with the code's
/// last line, unless a write of it failed.
///
/// `run` waits for its threads and for the host's gate, which each session passes before it asks. All else waits for nobody.
pub fn serve<H: Host, R: Threads + Wait + Sync>(
    rt: &R,
    alloc: Global,
    words: &[Bytes],
    host: &mut H,
) -> Outcome<H::Source, H::Sink, H::Report, H::Disk>
    // What the sessions came to, what the sinks and the report hold, and where none has begun, why. The history's asks are just
    // those of the scripts, each session's in order. What a crash at each moment leaves of the journal.
    ensures served { Served (command_of words.now) (outside (H.bytes host.old) (H.disk_bytes host.old) H.Sink.word H.Sink.held H.Sink.faults H.Disk.as_medium) (Rises (H.faults host.old) (H.faults host.new) ⊎ IsSomeAnd result.source (λ s. 0 < H.Source.faults s)) words.now (handed H.Report.faults H.Report.held result) }

    // Each answer of the history is the machine's, in the database that the entries before it leave, which begins with the recovered
    // records, up to one, if any, that the disk failed or that there was no memory, behind which all are Stopped.
    ensures legal { IfSome (command_of words.now) (λ c. IsLegal result.recovered (sessions_of c words.now) result.history) }

    // When each code comes. Want of memory alone is free.
    ensures done { result.code ≡ ExitCode.Done → AllEnded result.ends × (H.Report.faults result.report ≡ 0) }
    ensures usage { (result.code ≡ ExitCode.Usage) ↔ (command_of words.now ≡ None) }
    ensures host_fault { (w : ℕ) → result.code ≡ ExitCode.HostFault w
        → Opens (command_of words.now) words.now w × (Rises (H.faults host.old) (H.faults host.new) ⊎ IsSomeAnd result.source (λ s. 0 < H.Source.faults s)) }
    ensures source { IfSome result.source (λ s. IsReadFault result.code words.now (H.Source.word s) × (0 < H.Source.faults s)) }
    ensures disk_fault { result.code ≡ ExitCode.DiskFault → DiskFails H.Disk.as_medium result.disk }
    ensures damaged { (at : ℕ) → result.code ≡ ExitCode.Damaged at
        → OpensJournal (command_of words.now) × IfSome (told_at (H.disk_bytes host.old) words.now journal_place) (λ bytes. IsDamagedAt bytes at) }
    ensures sink_fault { result.code ≡ ExitCode.SinkFault → SinkFails (command_of words.now) H.Sink.faults result.ends (H.Report.faults result.report) }
    ensures sink_stops { SinkFailed H.Sink.faults result.ends → IsSinkStop result.code }
    ensures too_long { (w : ℕ) → result.code ≡ ExitCode.TooLong w → Reads (command_of words.now) words.now w × IsLong (H.bytes host.old) words.now w }
    ensures bad_order { (at : ℕ) → result.code ≡ ExitCode.BadOrder at → (command_of words.now ≡ Some Rehearse) × OrderWrong (H.bytes host.old) words.now (Some at) }

    // What the host was asked to open, and in which order. A call of it failed exactly where the code is a host fault that no source has,
    // and then it was the last one, of that word. Each sink that it made is handed back, and its disk.
    ensures called { CallsInOrder (H.calls host.old) (H.calls host.new) (order_of_work (command_of words.now) words.now) (own_fault result.code result.source) (sinks_back H.Sink.word result.ends result.sinks) (is_some result.disk) }

    // One report was made. One write of it at most has failed, so none was tried behind it.
    ensures reported { H.reports host.new ≡ one_more (H.reports host.old) }
    ensures once { H.Report.faults result.report ≤ 1 }

    // A word whose bytes are too many stops the run, and so does an order that is wrong, and a damaged journal.
    ensures stops_long { (w : ℕ) → Reads (command_of words.now) words.now w
        → IfSome (told_at (H.bytes host.old) words.now w) (λ bytes. MAX_SCRIPT < length bytes → IfSome (command_of words.now) (λ c. StopsBy c words.now w result.code)) }
    ensures stops_bad { command_of words.now ≡ Some Rehearse
        → IfSome (told_at (H.bytes host.old) words.now order_place) (λ bytes. StopsBad (wrong_at (sessions_of Rehearse words.now) bytes) result.code) }
    ensures stops_damaged { OpensJournal (command_of words.now)
        → IfSome (told_at (H.disk_bytes host.old) words.now journal_place) (λ bytes. (at : ℕ) → IsDamagedAt bytes at → StopsDamaged result.code) }

    // Where the words and what they name are right and no count rises, the scripts are run, or the lines are written.
    ensures complete { IfSome (command_of words.now) (λ c. AllRight c (H.bytes host.old) (H.disk_bytes host.old) words.now
        → ¬ Rises (H.faults host.old) (H.faults host.new) → IfSome result.source (λ s. ¬ (0 < H.Source.faults s)) → IfSome result.disk (λ d. ¬ (0 < (H.Disk.as_medium d).faults))
        → ¬ (0 < H.Report.faults result.report) → ¬ SinkFailed H.Sink.faults result.ends → IsComplete result.code) }
{
    a_database_is_not_damaged();
    a_file_is_damaged_at_one_place();
    match command_of(words) {
        Some(Command::Run) => serve_run(rt, alloc, words, host),
        _ => serve_alone(alloc, words, host),
    }
}

/// Serves `run`.
fn serve_run<H: Host, R: Threads + Wait + Sync>(
    rt: &R,
    alloc: Global,
    words: &[Bytes],
    host: &mut H,
) -> Outcome<H::Source, H::Sink, H::Report, H::Disk>
    requires run { command_of words.now ≡ Some Run }
    ensures served { Served (Some Run) (outside (H.bytes host.old) (H.disk_bytes host.old) H.Sink.word H.Sink.held H.Sink.faults H.Disk.as_medium) (Rises (H.faults host.old) (H.faults host.new) ⊎ IsSomeAnd result.source (λ s. 0 < H.Source.faults s)) words.now (handed H.Report.faults H.Report.held result) }
    ensures source { IfSome result.source (λ s. IsReadFault result.code words.now (H.Source.word s) × (0 < H.Source.faults s)) }
    ensures called { CallsInOrder (H.calls host.old) (H.calls host.new) (order_of_work (Some Run) words.now) (own_fault result.code result.source) (sinks_back H.Sink.word result.ends result.sinks) (is_some result.disk) }
    ensures reported { H.reports host.new ≡ one_more (H.reports host.old) }
{
    let report = host.report();
    run_scripts(rt, alloc, words, host, report)
}

/// Serves any words but those of `run`, as `serve` does, in the caller's thread. It waits for nobody.
pub fn serve_alone<H: Host>(
    alloc: Global,
    words: &[Bytes],
    host: &mut H,
) -> Outcome<H::Source, H::Sink, H::Report, H::Disk>
    requires alone { command_of words.now ≢ Some Run }

    // What the sessions came to, what the sinks and the report hold, and where none has begun, why. The history's asks are just
    // those of the scripts, each session's in order. What a crash at each moment leaves of the journal.
    ensures served { Served (command_of words.now) (outside (H.bytes host.old) (H.disk_bytes host.old) H.Sink.word H.Sink.held H.Sink.faults H.Disk.as_medium) (Rises (H.faults host.old) (H.faults host.new) ⊎ IsSomeAnd result.source (λ s. 0 < H.Source.faults s)) words.now (handed H.Report.faults H.Report.held result) }

    // Each answer of the history is the machine's, in the database that the entries before it leave, which begins with the recovered
    // records, up to one, if any, that the disk failed or that there was no memory, behind which all are Stopped.
    ensures legal { IfSome (command_of words.now) (λ c. IsLegal result.recovered (sessions_of c words.now) result.history) }

    // When each code comes. Want of memory alone is free.
    ensures done { result.code ≡ ExitCode.Done → AllEnded result.ends × (H.Report.faults result.report ≡ 0) }
    ensures usage { (result.code ≡ ExitCode.Usage) ↔ (command_of words.now ≡ None) }
    ensures host_fault { (w : ℕ) → result.code ≡ ExitCode.HostFault w
        → Opens (command_of words.now) words.now w × (Rises (H.faults host.old) (H.faults host.new) ⊎ IsSomeAnd result.source (λ s. 0 < H.Source.faults s)) }
    ensures source { IfSome result.source (λ s. IsReadFault result.code words.now (H.Source.word s) × (0 < H.Source.faults s)) }
    ensures disk_fault { result.code ≡ ExitCode.DiskFault → DiskFails H.Disk.as_medium result.disk }
    ensures damaged { (at : ℕ) → result.code ≡ ExitCode.Damaged at
        → OpensJournal (command_of words.now) × IfSome (told_at (H.disk_bytes host.old) words.now journal_place) (λ bytes. IsDamagedAt bytes at) }
    ensures sink_fault { result.code ≡ ExitCode.SinkFault → SinkFails (command_of words.now) H.Sink.faults result.ends (H.Report.faults result.report) }
    ensures sink_stops { SinkFailed H.Sink.faults result.ends → IsSinkStop result.code }
    ensures too_long { (w : ℕ) → result.code ≡ ExitCode.TooLong w → Reads (command_of words.now) words.now w × IsLong (H.bytes host.old) words.now w }
    ensures bad_order { (at : ℕ) → result.code ≡ ExitCode.BadOrder at → (command_of words.now ≡ Some Rehearse) × OrderWrong (H.bytes host.old) words.now (Some at) }

    // What the host was asked to open, and in which order. A call of it failed exactly where the code is a host fault that no source has,
    // and then it was the last one, of that word. Each sink that it made is handed back, and its disk.
    ensures called { CallsInOrder (H.calls host.old) (H.calls host.new) (order_of_work (command_of words.now) words.now) (own_fault result.code result.source) (sinks_back H.Sink.word result.ends result.sinks) (is_some result.disk) }

    // One report was made. One write of it at most has failed, so none was tried behind it.
    ensures reported { H.reports host.new ≡ one_more (H.reports host.old) }
    ensures once { H.Report.faults result.report ≤ 1 }

    // A word whose bytes are too many stops the run, and so does an order that is wrong, and a damaged journal.
    ensures stops_long { (w : ℕ) → Reads (command_of words.now) words.now w
        → IfSome (told_at (H.bytes host.old) words.now w) (λ bytes. MAX_SCRIPT < length bytes → IfSome (command_of words.now) (λ c. StopsBy c words.now w result.code)) }
    ensures stops_bad { command_of words.now ≡ Some Rehearse
        → IfSome (told_at (H.bytes host.old) words.now order_place) (λ bytes. StopsBad (wrong_at (sessions_of Rehearse words.now) bytes) result.code) }
    ensures stops_damaged { OpensJournal (command_of words.now)
        → IfSome (told_at (H.disk_bytes host.old) words.now journal_place) (λ bytes. (at : ℕ) → IsDamagedAt bytes at → StopsDamaged result.code) }

    // Where the words and what they name are right and no count rises, the scripts are run, or the lines are written.
    ensures complete { IfSome (command_of words.now) (λ c. AllRight c (H.bytes host.old) (H.disk_bytes host.old) words.now
        → ¬ Rises (H.faults host.old) (H.faults host.new) → IfSome result.source (λ s. ¬ (0 < H.Source.faults s)) → IfSome result.disk (λ d. ¬ (0 < (H.Disk.as_medium d).faults))
        → ¬ (0 < H.Report.faults result.report) → ¬ SinkFailed H.Sink.faults result.ends → IsComplete result.code) }
{
    a_database_is_not_damaged();
    a_file_is_damaged_at_one_place();
    let report = host.report();
    do_alone(alloc, words, host, report)
}
