//! What the history of a run has.

use crate::scripts::{FIRST_CALLS, UPGRADE};
use ebr_base::NoMemory;
use ebr_server::{Answer, Ask, Entry};
use ebr_trial::{NO_FAULTS, TRY, release, served};
use std::alloc::Global;
use std::test::Fail;

/// What an entry is: its ask, and for a view the number of the edition in which its first object was made.
#[derive(Clone, Copy, Debug, PartialEq, Eq)]
enum Kind {
    Begin(u32),
    Ddl,
    SetEdition,
    EndCall,
    FailedCall,
    Leave,
    /// What asks for rows or a transaction.
    Other,
}

/// The number of the edition in which the first object that is seen was made; 0 where none is seen.
fn first_edition(answer: &Answer) -> u32 {
    let Answer::View(view) = answer else {
        return 0;
    };
    match view.get().objects.get(0) {
        Some(object) => object.get().stamp.edition.0,
        None => 0,
    }
}

fn kind_of(entry: &Entry) -> Kind {
    match &entry.ask {
        Ask::Begin => Kind::Begin(first_edition(&entry.answer)),
        Ask::Ddl { .. } => Kind::Ddl,
        Ask::SetEdition(_) => Kind::SetEdition,
        Ask::EndCall { failed: false } => Kind::EndCall,
        Ask::EndCall { failed: true } => Kind::FailedCall,
        Ask::Leave => Kind::Leave,
        _ => Kind::Other,
    }
}

static FIRST: [Kind; 6] = [
    Kind::Ddl,
    Kind::Begin(1),
    Kind::EndCall,
    Kind::Begin(1),
    Kind::FailedCall,
    Kind::Leave,
];

static UPGRADED: [Kind; 10] = [
    Kind::Ddl,
    Kind::Ddl,
    Kind::SetEdition,
    Kind::Ddl,
    Kind::Begin(2),
    Kind::EndCall,
    Kind::SetEdition,
    Kind::Begin(1),
    Kind::EndCall,
    Kind::Leave,
];

/// A savepoint that isn't there, with a handler and without, and a transaction of a block's own that fails.
const CAUGHT: &[u8] = b"BEGIN ROLLBACK TO s; EXCEPTION WHEN OTHERS THEN ROLLBACK; END;
/
BEGIN ROLLBACK TO s; END;
/
DECLARE PRAGMA AUTONOMOUS_TRANSACTION; BEGIN RAISE NO_DATA_FOUND; END;
/
COMMIT;
";

static ASKED: [Kind; 13] = [
    Kind::Begin(0),
    Kind::Other,
    Kind::Other,
    Kind::EndCall,
    Kind::Begin(0),
    Kind::Other,
    Kind::FailedCall,
    Kind::Begin(0),
    Kind::Other,
    Kind::Other,
    Kind::FailedCall,
    Kind::Other,
    Kind::Leave,
];

fn are(history: &[Entry], kinds: &[Kind]) -> bool {
    if history.len() != kinds.len() {
        return false;
    }
    for (entry, kind) in history.iter().zip(kinds) {
        if kind_of(entry) != *kind {
            return false;
        }
    }
    true
}

fn leaves(alloc: Global, script: &[u8], kinds: &[Kind]) -> Result<bool, NoMemory> {
    let outcome = served(alloc, TRY, script, NO_FAULTS)?;
    let are = are(outcome.history.as_slice(), kinds);
    release(outcome);
    Ok(are)
}

#[test]
fn history_has_each_ask_with_what_its_edition_saw(rt: HostRuntime) -> Result<(), Fail> {
    assert!(rt; leaves(rt.alloc(), FIRST_CALLS, &FIRST)?);
    assert!(rt; leaves(rt.alloc(), UPGRADE, &UPGRADED)?);
    assert!(rt; leaves(rt.alloc(), CAUGHT, &ASKED)?);
    Ok(())
}
