//! The summary of a run.

ghost use Rattle.std.specs.Prelude.{◌≡◌};
ghost use Rattle.std.specs.Bool.{OnTrue};
ghost use Rattle.ebr_outside.specs.Sink.{appended, faults_after};
ghost use Rattle.ebr_report.specs.Lines.{AddsPart};
ghost use Rattle.ebr_report.specs.Summary as spec;
ghost use Rattle.ebr_report.specs.Summary.{Summary, counted, summary_line};

use crate::ends::{EndKind, SessionEnd};
use crate::write::{write_line, write_number, write_text};
use ebr_outside::Sink;

/// Writes the line of each session, and says whether all of them were taken.
pub fn write_summary<R: Sink, S>(sink: &mut R, ends: &[SessionEnd<S>]) -> bool
    ensures part { AddsPart (R.held sink.old) (R.held sink.new) (Summary ends.now) }
    ensures whole { OnTrue result (R.held sink.new ≡ appended (R.held sink.old) (Summary ends.now)) }
    ensures counted { R.faults sink.new ≡ faults_after result (R.faults sink.old) }
{
    for end in ends {
        if !write_end(sink, end) {
            return false;
        }
    }
    true
}

/// Writes the line of a session.
#[tactic(auto, unfolding(crate::specs::Summary::summary_line))]
fn write_end<R: Sink, S>(sink: &mut R, end: &SessionEnd<S>) -> bool
    ensures part { AddsPart (R.held sink.old) (R.held sink.new) (summary_line end.now) }
    ensures whole { OnTrue result (R.held sink.new ≡ appended (R.held sink.old) (summary_line end.now)) }
    ensures counted { R.faults sink.new ≡ faults_after result (R.faults sink.old) }
{
    if !write_counted(sink, b"session ", end.session.0) {
        return false;
    }
    if !write_counted(sink, b": ", end.requests) {
        return false;
    }
    if !write_counted(sink, b" asks, ", end.refused) {
        return false;
    }
    write_line(sink, b" refused, ", end_words(end.end))
}

/// Writes a text and a number behind it.
fn write_counted<R: Sink>(sink: &mut R, text: &[u8], number: u32) -> bool
    ensures part { AddsPart (R.held sink.old) (R.held sink.new) (counted text.now number) }
    ensures whole { OnTrue result (R.held sink.new ≡ appended (R.held sink.old) (counted text.now number)) }
    ensures counted { R.faults sink.new ≡ faults_after result (R.faults sink.old) }
{
    if !write_text(sink, text) {
        return false;
    }
    write_number(sink, number)
}

/// The words of an end.
fn end_words(end: EndKind) -> &'static [u8]
    ensures { result.now ≡ spec.end_words end }
{
    match end {
        EndKind::Ended => b"ended",
        EndKind::SinkFault => b"sink fault",
        EndKind::Stopped => b"stopped",
        EndKind::NoMemory => b"out of memory",
    }
}
