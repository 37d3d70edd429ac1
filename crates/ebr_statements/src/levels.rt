//! The autonomous transactions above a statement's own.

ghost use Rattle.std.specs.Prelude.{◌≡◌, IfOk};
ghost use Rattle.ebr_tx.specs.Calls.{HasLevel, after_pop};
ghost use Rattle.ebr_database.specs.Storable.{AllStorable};
ghost use Rattle.ebr_levels.specs.Levels as levels;
ghost use Rattle.ebr_seats.specs.Ends.{closed_from_top};

use ebr_base::{NoMemory, SessionId, TxId};
use ebr_database::pop_autonomous;
use ebr_tx::Transactions;

/// The transaction on top, where so many are open above this one. That its depth is 4,294,967,296 is want of memory.
pub fn above(t: TxId, opened: u32) -> Result<TxId, NoMemory>
    ensures { IfOk result (λ top. top ≡ levels.above t opened) }
{
    match t.depth.checked_add(opened) {
        Some(depth) => Ok(TxId {
            session: t.session,
            depth,
        }),
        None => Err(NoMemory),
    }
}

/// Closes the autonomous transactions above this one from the top down, of which so many are open, and what they left is undone. It
/// takes no memory.
pub fn close(tx: &mut Transactions, t: TxId, opened: u32)
    requires top { levels.IsTop tx.old.contents (levels.above t opened) }
    requires storable { AllStorable tx.old.contents }
    ensures contents { tx.new.contents ≡ closed_from_top opened t.session tx.old.contents }
    ensures storable { AllStorable tx.new.contents }
{
    for _turn in 0..opened {
        close_top(tx, t.session);
    }
}

/// Closes the autonomous transaction on top. What it leaves is undone, so nothing is refused.
fn close_top(tx: &mut Transactions, s: SessionId)
    requires level { HasLevel tx.old.contents s }
    requires storable { AllStorable tx.old.contents }
    ensures contents { tx.new.contents ≡ after_pop tx.old.contents s }
    ensures storable { AllStorable tx.new.contents }
{
    let _ = pop_autonomous(tx, s, true);
}
