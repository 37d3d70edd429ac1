//! What comes of words, sources, hosts and reports that fail.

use crate::scripts::{FIRST_CALLS, FIRST_REPLIES};
use ebr_base::NoMemory;
use ebr_outside::Fail;
use ebr_server::{ExitCode, MAX_SCRIPT};
use ebr_trial::{Faults, NO_FAULTS, Stop, TRY, ended, prints, release, served};
use std::alloc::Global;
use std::test::Fail as TestFail;

/// The call of this number fails.
pub fn at(call: u32) -> Option<Fail> {
    Some(Fail {
        at: call,
        onward: false,
    })
}

const USAGE: Stop = Stop {
    code: ExitCode::Usage,
    status: 2,
    report: b"usage\n",
};

const TOO_LONG: Stop = Stop {
    code: ExitCode::TooLong { word: 1 },
    status: 10,
    report: b"too long: s.sql\n",
};

const HOST_FAULT: Stop = Stop {
    code: ExitCode::HostFault { word: 1 },
    status: 3,
    report: b"host fault: s.sql\n",
};

const NO_FILE: Stop = Stop {
    report: b"host fault: t.sql\n",
    ..HOST_FAULT
};

fn stops(
    alloc: Global,
    words: &[&[u8]],
    script: &[u8],
    faults: Faults,
    stop: Stop,
) -> Result<bool, NoMemory> {
    let outcome = served(alloc, words, script, faults)?;
    let stops = stop.is(&outcome);
    release(outcome);
    Ok(stops)
}

static NO_COMMANDS: [&[&[u8]]; 7] = [
    &[],
    &[b"try"],
    &[b"try", b""],
    &[b"try", b"s.sql", b"s.sql"],
    &[b"TRY", b"s.sql"],
    &[b"run", b"s.sql"],
    &[b"--help"],
];

fn all_are_usage(alloc: Global, rows: &[&[&[u8]]]) -> Result<bool, NoMemory> {
    for words in rows {
        if !stops(alloc, words, FIRST_CALLS, NO_FAULTS, USAGE)? {
            return Ok(false);
        }
    }
    Ok(true)
}

#[test]
fn words_that_are_no_command_are_usage(rt: HostRuntime) -> Result<(), TestFail> {
    assert!(rt; all_are_usage(rt.alloc(), &NO_COMMANDS)?);
    Ok(())
}

/// More bytes than a script may have.
const TOO_MANY: usize = MAX_SCRIPT + 1;

/// A script of so many blanks.
pub fn blanks(alloc: Global, count: usize) -> Result<Vec<u8>, NoMemory> {
    Ok(vec![in alloc; b' '; count]?)
}

fn blanks_run(alloc: Global, count: usize) -> Result<bool, NoMemory> {
    prints(alloc, blanks(alloc, count)?.as_slice(), b"")
}

fn blanks_stop(alloc: Global, count: usize, faults: Faults, stop: Stop) -> Result<bool, NoMemory> {
    stops(alloc, TRY, blanks(alloc, count)?.as_slice(), faults, stop)
}

#[test]
fn script_of_more_than_a_mebibyte_is_too_long(rt: HostRuntime) -> Result<(), TestFail> {
    assert!(rt; blanks_run(rt.alloc(), MAX_SCRIPT)?);
    assert!(rt; blanks_stop(rt.alloc(), TOO_MANY, NO_FAULTS, TOO_LONG)?);
    Ok(())
}

/// Whether the outcome holds the source of the script.
fn has_source(alloc: Global, script: &[u8], faults: Faults) -> Result<bool, NoMemory> {
    let outcome = served(alloc, TRY, script, faults)?;
    let has = outcome.source.is_some();
    release(outcome);
    Ok(has)
}

/// The second read of a script fails that is read in several.
#[test]
fn source_that_fails_is_a_host_fault(rt: HostRuntime) -> Result<(), TestFail> {
    let failing = Faults {
        source: at(2),
        ..NO_FAULTS
    };
    assert!(rt; blanks_stop(rt.alloc(), 100000, failing, HOST_FAULT)?);
    let script = blanks(rt.alloc(), 100000)?;
    assert!(rt; has_source(rt.alloc(), script.as_slice(), failing)?);
    Ok(())
}

#[test]
fn host_that_fails_is_a_host_fault(rt: HostRuntime) -> Result<(), TestFail> {
    let failing = Faults {
        host: at(1),
        ..NO_FAULTS
    };
    assert!(rt; stops(rt.alloc(), TRY, FIRST_CALLS, failing, HOST_FAULT)?);
    assert!(rt; !has_source(rt.alloc(), FIRST_CALLS, failing)?);
    Ok(())
}

#[test]
fn word_without_bytes_is_a_host_fault(rt: HostRuntime) -> Result<(), TestFail> {
    assert!(rt;
        stops(
            rt.alloc(),
            &[b"try", b"t.sql"],
            FIRST_CALLS,
            NO_FAULTS,
            NO_FILE
        )?
    );
    Ok(())
}

/// The write that fails, what the report then holds, and how many entries the history has.
type Row = (u32, &'static [u8], usize);

static FAILED_WRITES: [Row; 4] = [
    (1, b"", 2),
    (2, b"OK\n", 3),
    (3, b"OK\na\n", 4),
    (4, b"OK\na\nOK\n", 6),
];

fn loses(alloc: Global, row: &Row) -> Result<bool, NoMemory> {
    let (call, held, entries) = *row;
    let failing = Faults {
        report: at(call),
        ..NO_FAULTS
    };
    let outcome = served(alloc, TRY, FIRST_CALLS, failing)?;
    let loses = ended(&outcome, ExitCode::SinkFault, held)
        && outcome.code.status() == 5
        && outcome.history.len() == entries;
    release(outcome);
    Ok(loses)
}

#[test]
fn report_that_fails_is_a_sink_fault(rt: HostRuntime) -> Result<(), TestFail> {
    for row in &FAILED_WRITES {
        assert!(rt; loses(rt.alloc(), row)?);
    }
    Ok(())
}

fn keeps_its_code(alloc: Global) -> Result<bool, NoMemory> {
    let failing = Faults {
        report: Some(Fail {
            at: 2,
            onward: true,
        }),
        ..NO_FAULTS
    };
    let outcome = served(alloc, &[b"try", b"t.sql"], b"", failing)?;
    let keeps = ended(&outcome, ExitCode::HostFault { word: 1 }, b"host fault: ");
    release(outcome);
    Ok(keeps)
}

#[test]
fn code_stays_where_the_last_line_is_not_written(rt: HostRuntime) -> Result<(), TestFail> {
    assert!(rt; keeps_its_code(rt.alloc())?);
    Ok(())
}

/// With ample memory, and where nothing fails, a script is run to its end.
#[test]
fn always_no_memory_is_refused(rt: HostRuntime) -> Result<(), TestFail> {
    assert!(rt; prints(rt.alloc(), FIRST_CALLS, FIRST_REPLIES)?);
    Ok(())
}
