//! The locks of FOR UPDATE.

ghost use Rattle.std.specs.Prelude.{◌≡◌, true, is_some};
ghost use Rattle.ebr_tx.specs.Data.{IsLive, own};
ghost use Rattle.ebr_query.specs.Queries.{AddsLocks};
ghost use Rattle.ebr_query.specs.inside.Locking.{Locks};

use ebr_base::{RowId, Stop, TxId};
use ebr_tx::Transactions;

/// Locks rows one after the other, up to the first one that is refused: ORA-00054 where another transaction holds it,
/// ORA-08177 where it was changed since the beginning. The locks before it stay.
pub fn lock(tx: &mut Transactions, t: TxId, rows: &[RowId]) -> Result<(), Stop>
    requires live { IsLive tx.old.contents t }
    requires begun { is_some (own tx.old.contents t).begun ≡ true }
    ensures locks { Locks result tx.old.contents t rows.now tx.new.contents }
    // Whatever the answer is, locks of the transaction were added, and nothing else has changed.
    ensures added { AddsLocks tx.old.contents t tx.new.contents }
{
    for row in rows {
        tx.lock(t, *row)?;
    }
    Ok(())
}
