//! Many sessions with many rows of their own.

use ebr_base::{Bytes, List, NoMemory};
use ebr_server::ExitCode;
use ebr_trial::{MemOutcome, bytes_of, ran_over, release};
use std::alloc::Global;
use std::sync::Wait;
use std::test::Fail;
use std::thread::Threads;

/// A session that makes a table, and one that tells what is in it.
const MAKES: &[u8] = b"CREATE TABLE t (id NUMBER(9) PRIMARY KEY);\n";

const TELLS: &[u8] = b"SELECT COUNT(*), MIN(id), MAX(id), SUM(id) FROM t;\n";

/// One script.
fn alone(alloc: Global, script: &[u8]) -> Result<List<Bytes>, NoMemory> {
    let mut scripts = List::new(alloc);
    scripts.push(Bytes::from_slice(alloc, script)?)?;
    Ok(scripts)
}

/// 32 sessions, each of which inserts a thousand rows in one transaction.
fn inserts(alloc: Global) -> Result<List<Bytes>, NoMemory> {
    let mut scripts = List::new(alloc);
    for session in 1..33u32 {
        let script = format!(in alloc;
            "BEGIN FOR i IN 1 .. 1000 LOOP INSERT INTO t VALUES ({session} * 1000 + i); END LOOP; COMMIT; END;\n/\n"
        )?;
        scripts.push(Bytes::from_slice(alloc, script.as_bytes())?)?;
    }
    Ok(scripts)
}

/// The bytes of the journal that a run left which is done.
fn left(alloc: Global, outcome: &MemOutcome) -> Result<Option<Bytes>, NoMemory> {
    if outcome.code == ExitCode::Done {
        return Ok(Some(bytes_of(alloc, outcome)?));
    }
    Ok(None)
}

/// The bytes that a run of these scripts over a journal with these bytes leaves. None where it isn't done.
fn behind<R: Threads + Wait + Sync>(
    rt: &R,
    alloc: Global,
    bytes: &[u8],
    scripts: &[Bytes],
) -> Result<Option<Bytes>, NoMemory> {
    let outcome = ran_over(rt, alloc, bytes, scripts, None)?;
    let bytes = left(alloc, &outcome);
    release(outcome);
    bytes
}

/// Whether the first session printed this.
fn has_printed(outcome: &MemOutcome, held: &[u8]) -> bool {
    match outcome.ends.get(0) {
        Some(end) => match &end.sink {
            Some(sink) => sink.held() == held,
            None => false,
        },
        None => false,
    }
}

/// Whether a run of a script over a journal with these bytes prints this.
fn prints<R: Threads + Wait + Sync>(
    rt: &R,
    alloc: Global,
    bytes: &[u8],
    script: &[u8],
    held: &[u8],
) -> Result<bool, NoMemory> {
    let scripts = alone(alloc, script)?;
    let outcome = ran_over(rt, alloc, bytes, scripts.as_slice(), None)?;
    let so = has_printed(&outcome, held);
    release(outcome);
    Ok(so)
}

/// Whether a run behind that of 32 sessions has this to tell of the table.
fn all_have_theirs<R: Threads + Wait + Sync>(
    rt: &R,
    alloc: Global,
    told: &[u8],
) -> Result<bool, NoMemory> {
    let Some(made) = behind(rt, alloc, b"", alone(alloc, MAKES)?.as_slice())? else {
        return Ok(false);
    };
    let Some(full) = behind(rt, alloc, made.as_slice(), inserts(alloc)?.as_slice())? else {
        return Ok(false);
    };
    prints(rt, alloc, full.as_slice(), TELLS, told)
}

#[test]
fn thirty_two_sessions_have_a_thousand_rows_each(rt: HostRuntime) -> Result<(), Fail> {
    assert!(rt; all_have_theirs(&rt, rt.alloc(), b"32000|1001|33000|544016000\n1 rows\n")?);
    Ok(())
}
