//! What statements work on.

use ebr_cross::Catalogue;
use ebr_tx::Transactions;

/// The catalogue, the compiled units of its editions, the transactions, and what keeps the records.
#[derive(Drop)]
pub struct World<K, B> {
    pub catalogue: Catalogue,
    pub book: B,
    pub tx: Transactions,
    pub keeper: K,
}
