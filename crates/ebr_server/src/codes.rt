//! The codes of sessions that have ended, and of a disk over which none began.

ghost use Rattle.std.specs.Prelude.{◌≡◌};
ghost use Rattle.ebr_server.specs.Program as spec;
ghost use Rattle.ebr_server.specs.Program.{any_end, code_of_ends};
ghost use Rattle.ebr_server.specs.inside.Opened.{code_of_open as spec_open};
ghost use Rattle.ebr_worker.specs.Matches.{has_fault as history_has_fault, is_fault as answer_is_fault};

use crate::exit::ExitCode;
use ebr_asks::{Answer, Entry};
use ebr_report::{EndKind, SessionEnd};
use ebr_startup::OpenWhy;

/// Why no engine is opened over a disk, as a code.
pub fn code_of_open(why: OpenWhy) -> ExitCode
    ensures { result ≡ spec_open why }
{
    match why {
        OpenWhy::DiskFault => ExitCode::DiskFault,
        OpenWhy::Damaged { at } => ExitCode::Damaged { at },
        OpenWhy::NoMemory => ExitCode::NoMemory,
    }
}

/// The code of sessions that have ended, and of a report that was written or not.
pub fn code_of_ends<S>(history: &[Entry], ends: &[SessionEnd<S>], unwritten: bool) -> ExitCode
    ensures { result ≡ code_of_ends history.now ends.now unwritten }
{
    if has_fault(history) {
        ExitCode::DiskFault
    } else if any_wants_memory(ends) {
        ExitCode::NoMemory
    } else if any_sink_failed(ends) || unwritten {
        ExitCode::SinkFault
    } else {
        ExitCode::Done
    }
}

/// Whether an ask was answered that the disk failed.
fn has_fault(history: &[Entry]) -> bool
    ensures { result ≡ history_has_fault history.now }
{
    history.iter().any(|entry| is_fault(&entry.answer))
}

fn is_fault(answer: &Answer) -> bool
    ensures { result ≡ answer_is_fault answer.now }
{
    matches!(answer, Answer::DiskFault)
}

/// Whether a session ended for want of memory, or was stopped by that of another one.
fn any_wants_memory<S>(ends: &[SessionEnd<S>]) -> bool
    ensures { result ≡ any_end spec.wants_memory ends.now }
{
    ends.iter().any(|end| wants_memory(end.end))
}

/// Whether the sink of a session failed.
fn any_sink_failed<S>(ends: &[SessionEnd<S>]) -> bool
    ensures { result ≡ any_end spec.sink_failed ends.now }
{
    ends.iter().any(|end| sink_failed(end.end))
}

/// Whether this is an end for want of memory, or by one.
fn wants_memory(end: EndKind) -> bool
    ensures { result ≡ spec.wants_memory end }
{
    match end {
        EndKind::NoMemory | EndKind::Stopped => true,
        EndKind::Ended | EndKind::SinkFault => false,
    }
}

/// Whether this is the end of a session whose sink failed.
fn sink_failed(end: EndKind) -> bool
    ensures { result ≡ spec.sink_failed end }
{
    match end {
        EndKind::SinkFault => true,
        EndKind::Ended | EndKind::Stopped | EndKind::NoMemory => false,
    }
}
