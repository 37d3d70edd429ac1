//! What is written to the report behind the sessions.

ghost use Rattle.std.specs.Prelude.{◌≡◌, ◌++◌, ℕ, List, false, IfSome};
ghost use Rattle.std.specs.Bool.{OnTrue};
ghost use Rattle.std.specs.Fmt.{decimal};
ghost use Rattle.ebr_outside.specs.Sink.{appended, faults_after};
ghost use Rattle.ebr_report.specs.Lines.{AddsPart, line_of};
ghost use Rattle.ebr_worker.specs.Runs.{IsUnwritten};
ghost use Rattle.ebr_server.specs.inside.Opened.{LineFails, LinesTold, RepliesFail};
ghost use Rattle.ebr_server.specs.Program.{EndsTold, Reported, behind_replies, code_of_ends, last_line, word_at};

use crate::codes::code_of_ends;
use crate::exit::ExitCode;
use ebr_asks::Entry;
use ebr_base::Bytes;
use ebr_outside::Sink;
use ebr_report::{SessionEnd, offer, write_line, write_summary};
use itoa::Buffer;

/// Writes the summary of sessions that have ended, and the last line. Behind a write that failed nothing is written.
pub fn tell_ends<R: Sink, S>(
    report: &mut R,
    words: &[Bytes],
    history: &[Entry],
    ends: &[SessionEnd<S>],
) -> ExitCode
    requires empty { IsUnwritten R.held R.faults report.old }
    ensures { EndsTold words.now history.now result ends.now (R.faults report.new) (R.held report.new) }
{
    if !write_summary(report, ends) {
        return code_of_ends(history, ends, true);
    }
    let code = code_of_ends(history, ends, false);
    let _ = write_last_line(report, code, words);
    code
}

/// Writes the lines of a journal. Behind a write that failed nothing is written.
pub fn tell_lines<R: Sink>(report: &mut R, words: &[Bytes], lines: &[u8]) -> ExitCode
    requires empty { IsUnwritten R.held R.faults report.old }
    ensures { LinesTold words.now lines.now result (R.faults report.new) (R.held report.new) }
{
    if offer(report, lines, 0) < lines.len() {
        return ExitCode::SinkFault;
    }
    ExitCode::Done
}

/// Writes the last line behind replies. There is none where a write of them failed.
pub fn tell_replies<R: Sink, S>(
    report: &mut R,
    words: &[Bytes],
    history: &[Entry],
    ends: &[SessionEnd<S>],
) -> ExitCode
    ensures code { result ≡ code_of_ends history.now ends.now false }
    ensures report { (replies : List ℕ) → IfSome (R.held report.old) (λ bytes. bytes ≡ replies)
        → IfSome (R.held report.new) (λ bytes. Reported (R.faults report.new) bytes replies (behind_replies result words.now)) }
    ensures fails { RepliesFail result (R.faults report.old) (R.faults report.new) }
{
    let code = code_of_ends(history, ends, false);
    let _ = write_behind_replies(report, code, words);
    code
}

/// Writes the line behind replies, and says whether all of it was taken.
fn write_behind_replies<S: Sink>(sink: &mut S, code: ExitCode, words: &[Bytes]) -> bool
    ensures part { AddsPart (S.held sink.old) (S.held sink.new) (behind_replies code words.now) }
    ensures whole { OnTrue result (S.held sink.new ≡ appended (S.held sink.old) (behind_replies code words.now)) }
    ensures counted { S.faults sink.new ≡ faults_after result (S.faults sink.old) }
    ensures fails { RepliesFail code (S.faults sink.old) (S.faults sink.new) }
{
    match code {
        ExitCode::SinkFault => true,
        _ => write_last_line(sink, code, words),
    }
}

/// Writes the line that the report ends with, and says whether all of it was taken. `Done` has no line.
pub fn write_last_line<S: Sink>(sink: &mut S, code: ExitCode, words: &[Bytes]) -> bool
    ensures part { AddsPart (S.held sink.old) (S.held sink.new) (last_line code words.now) }
    ensures whole { OnTrue result (S.held sink.new ≡ appended (S.held sink.old) (last_line code words.now)) }
    ensures counted { S.faults sink.new ≡ faults_after result (S.faults sink.old) }
    ensures fails { LineFails code (S.faults sink.old) (S.faults sink.new) }
{
    match code {
        ExitCode::Done => true,
        ExitCode::Usage => write_line(sink, b"usage", b""),
        ExitCode::HostFault { word } => write_line(sink, b"host fault: ", word_at(words, word)),
        ExitCode::DiskFault => write_line(sink, b"disk fault", b""),
        ExitCode::SinkFault => write_line(sink, b"sink fault", b""),
        ExitCode::Damaged { at } => write_numbered(sink, b"damaged at ", at),
        ExitCode::NoMemory => write_line(sink, b"out of memory", b""),
        ExitCode::BadOrder { at } => write_numbered(sink, b"bad order at ", u64::from(at)),
        ExitCode::TooLong { word } => write_line(sink, b"too long: ", word_at(words, word)),
    }
}

/// Writes the line of a place.
fn write_numbered<S: Sink>(sink: &mut S, what: &[u8], at: u64) -> bool
    ensures part { AddsPart (S.held sink.old) (S.held sink.new) (line_of (what.now ++ decimal at)) }
    ensures whole { OnTrue result (S.held sink.new ≡ appended (S.held sink.old) (line_of (what.now ++ decimal at))) }
    ensures counted { S.faults sink.new ≡ faults_after result (S.faults sink.old) }
{
    let mut buffer = Buffer::new();
    let text = buffer.format(at);
    write_line(sink, what, text.as_bytes())
}

/// The word at a place; no bytes where there is none.
fn word_at(words: &[Bytes], at: u32) -> &[u8]
    ensures { result.now ≡ word_at words.now at }
{
    match words.get(at as usize) {
        Some(word) => word.as_slice(),
        None => b"",
    }
}
