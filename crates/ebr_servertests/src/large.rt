//! As many printed bytes and calls as there may be, and more.

use ebr_base::{Bytes, NoMemory};
use ebr_server::{ExitCode, MAX_SCRIPT};
use ebr_trial::{MemOutcome, NO_FAULTS, TRY, prints, release, served};
use std::alloc::Global;
use std::test::Fail;

/// Whether a script was run to its end, with replies of so many bytes that end so.
fn prints_much(outcome: &MemOutcome, bytes: usize, end: &[u8]) -> bool {
    let held = outcome.report.held();
    outcome.code == ExitCode::Done && held.len() == bytes && held.ends_with(end)
}

fn replies_with(alloc: Global, script: &[u8], bytes: usize, end: &[u8]) -> Result<bool, NoMemory> {
    let outcome = served(alloc, TRY, script, NO_FAULTS)?;
    let much = prints_much(&outcome, bytes, end);
    release(outcome);
    Ok(much)
}

/// 512 lines of 32,768 bytes with their ends, which are 16,777,216 bytes, and then no more.
const FULL: &[u8] = b"DECLARE x VARCHAR2(32767) := 'a';
BEGIN
  FOR i IN 1 .. 14 LOOP x := x || x; END LOOP;
  x := x || SUBSTR(x, 1, 16383);
  FOR i IN 1 .. 512 LOOP DBMS_OUTPUT.PUT_LINE(x); END LOOP;
END;
/
BEGIN DBMS_OUTPUT.PUT_LINE(''); END;
/
BEGIN DBMS_OUTPUT.PUT_LINE(''); EXCEPTION WHEN OTHERS THEN NULL; END;
/
";

const FULL_END: &[u8] = b"aaa\nOK\nEBR-0009\nOK\n";

/// What is printed up to the line that there is no room for stays printed.
const OVERFULL: &[u8] = b"DECLARE x VARCHAR2(32767) := 'a';
BEGIN
  FOR i IN 1 .. 14 LOOP x := x || x; END LOOP;
  x := x || SUBSTR(x, 1, 16383);
  DBMS_OUTPUT.PUT_LINE('');
  LOOP DBMS_OUTPUT.PUT_LINE(x); END LOOP;
END;
/
";

const OVERFULL_END: &[u8] = b"aaa\nEBR-0009\n";

#[test]
fn a_session_prints_16777216_bytes(rt: HostRuntime) -> Result<(), Fail> {
    assert!(rt; replies_with(rt.alloc(), FULL, 16777216 + 15, FULL_END)?);
    assert!(rt; replies_with(rt.alloc(), OVERFULL, 1 + 511 * 32768 + 9, OVERFULL_END)?);
    Ok(())
}

/// As many calls as a script may hold behind the procedure.
const CALLS: usize = 104853;

/// The calls that a session may ask for behind the procedure: the beginning of the last of them is its 50,000th ask, and the end
/// of a call is never one too many.
const ALLOWED: usize = 25000;

/// The other ones.
const REFUSED: usize = 79853;

/// A procedure, and the calls of it.
fn calls(alloc: Global) -> Result<Bytes, NoMemory> {
    let mut script = Bytes::from_slice(alloc, b"CREATE PROCEDURE p IS BEGIN NULL; END;\n/\n")?;
    for _ in 0..CALLS {
        script.extend(b"CALL p();\n")?;
    }
    Ok(script)
}

/// `OK` for the procedure and for each call that may be asked for, and a code for each other one.
fn replies_to_calls(alloc: Global) -> Result<Bytes, NoMemory> {
    let mut replies = Bytes::from_slice(alloc, b"OK\n")?;
    for _ in 0..ALLOWED {
        replies.extend(b"OK\n")?;
    }
    for _ in 0..REFUSED {
        replies.extend(b"EBR-0010\n")?;
    }
    Ok(replies)
}

/// Whether a script runs that is as long as it may be, less than a call.
fn runs_calls(alloc: Global) -> Result<bool, NoMemory> {
    let script = calls(alloc)?;
    if script.len() <= MAX_SCRIPT - 10 {
        return Ok(false);
    }
    prints(
        alloc,
        script.as_slice(),
        replies_to_calls(alloc)?.as_slice(),
    )
}

#[test]
fn a_script_of_a_mebibyte_of_calls_makes_50000_asks(rt: HostRuntime) -> Result<(), Fail> {
    assert!(rt; runs_calls(rt.alloc())?);
    Ok(())
}
