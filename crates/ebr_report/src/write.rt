//! Bytes that are offered to a sink, without memory.

ghost use Rattle.std.specs.Prelude.{◌≡◌, ◌++◌, ◌-◌, ◌≤◌, ◌==◌, length, take, drop};
ghost use Rattle.std.specs.Bool.{OnTrue};
ghost use Rattle.std.specs.Fmt.{decimal};
ghost use Rattle.ebr_outside.specs.Sink.{appended, faults_after};
ghost use Rattle.ebr_report.specs.Lines.{AddsPart, line_of};

use ebr_outside::{Failed, Sink};
use itoa::Buffer;

/// Offers bytes from a place on, until all are taken or a write fails. Gives the place after the last byte that was taken, which
/// is their end exactly where no write failed. Where one did, it is the only one, so no other is made behind it.
pub fn offer<S: Sink>(sink: &mut S, bytes: &[u8], from: usize) -> usize
    requires { from ≤ length bytes.now }
    ensures onward { from ≤ result }
    ensures within { result ≤ length bytes.now }
    ensures held { S.held sink.new ≡ appended (S.held sink.old) (take (result - from) (drop from bytes.now)) }
    ensures counted { S.faults sink.new ≡ faults_after (result == length bytes.now) (S.faults sink.old) }
    ensures same { S.word sink.new ≡ S.word sink.old }
{
    let mut at = from;
    while at < bytes.len() {
        match sink.write(&bytes[at..]) {
            Ok(taken) => at += taken,
            Err(Failed) => return at,
        }
    }
    at
}

/// Writes a text, and says whether all of it was taken.
pub fn write_text<S: Sink>(sink: &mut S, text: &[u8]) -> bool
    ensures part { AddsPart (S.held sink.old) (S.held sink.new) text.now }
    ensures whole { OnTrue result (S.held sink.new ≡ appended (S.held sink.old) text.now) }
    ensures counted { S.faults sink.new ≡ faults_after result (S.faults sink.old) }
{
    offer(sink, text, 0) == text.len()
}

/// Writes a number in decimal, and says whether all of it was taken.
pub fn write_number<S: Sink>(sink: &mut S, number: u32) -> bool
    ensures part { AddsPart (S.held sink.old) (S.held sink.new) (decimal number) }
    ensures whole { OnTrue result (S.held sink.new ≡ appended (S.held sink.old) (decimal number)) }
    ensures counted { S.faults sink.new ≡ faults_after result (S.faults sink.old) }
{
    let mut buffer = Buffer::new();
    let text = buffer.format(number);
    write_text(sink, text.as_bytes())
}

/// Writes a line of two texts, and says whether all of it was taken.
pub fn write_line<S: Sink>(sink: &mut S, what: &[u8], word: &[u8]) -> bool
    ensures part { AddsPart (S.held sink.old) (S.held sink.new) (line_of (what.now ++ word.now)) }
    ensures whole { OnTrue result (S.held sink.new ≡ appended (S.held sink.old) (line_of (what.now ++ word.now))) }
    ensures counted { S.faults sink.new ≡ faults_after result (S.faults sink.old) }
{
    if !write_text(sink, what) {
        return false;
    }
    if !write_text(sink, word) {
        return false;
    }
    write_text(sink, b"\n")
}
