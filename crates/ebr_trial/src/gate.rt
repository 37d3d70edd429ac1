//! A gate that keeps an order.

use ebr_base::SessionId;
use ebr_outside::Gate;
use std::sync::atomic::{AtomicU64, Ordering};
use std::thread::yield_now;

/// How often a session looks whether it may pass.
const LOOKS: u64 = 100_000_000;

/// Lets the asks of sessions pass in a written order: each when the session of the ask before it has come to its next one, by when that
/// ask was answered. Behind the order all pass. A gate can't see that a session has left, behind which nothing comes: so the asks by
/// which sessions leave stand in no order.
#[derive(Drop)]
pub struct OrderGate {
    /// The numbers of the sessions whose asks these are.
    order: Vec<u32>,
    /// Twice the number of asks that were answered, and one more while another one is under way.
    moves: AtomicU64,
    /// How many waits were given up. Behind one that was all pass.
    late: AtomicU64,
}

impl OrderGate {
    /// A gate for asks of the sessions with these numbers.
    pub fn new(order: Vec<u32>) -> OrderGate {
        OrderGate {
            order,
            moves: AtomicU64::new(0),
            late: AtomicU64::new(0),
        }
    }

    /// Whether a wait was given up.
    pub fn was_late(&self) -> bool {
        self.late.load(Ordering::SeqCst) > 0
    }

    /// A session comes to its next ask. Where the one under way is its own, that was answered.
    fn comes(&self, session: u32) {
        let moves = self.moves.load(Ordering::SeqCst);
        if is_under_way(moves) && self.whose(moves) == Some(session) {
            self.moves.store(moves.saturating_add(1), Ordering::SeqCst);
        }
    }

    /// Whether the next ask is this session's, which is under way from then on, or there is no order any more.
    fn passes(&self, session: u32) -> bool {
        let moves = self.moves.load(Ordering::SeqCst);
        let Some(next) = self.whose(moves) else {
            return true;
        };
        if next != session || is_under_way(moves) {
            return self.was_late();
        }
        self.moves.store(moves.saturating_add(1), Ordering::SeqCst);
        true
    }

    /// Whose ask is under way, or comes next.
    fn whose(&self, moves: u64) -> Option<u32> {
        self.order.get((moves / 2) as usize).copied()
    }
}

/// Whether an ask is under way behind so many moves.
fn is_under_way(moves: u64) -> bool {
    moves % 2 == 1
}

/// Only the session of the ask that is under way, or of the next one where none is, makes a move. So no two make one at once.
impl Gate for OrderGate {
    fn pass(&self, session: SessionId, _k: u64) {
        self.comes(session.0);
        for _ in 0..LOOKS {
            if self.passes(session.0) {
                return;
            }
            yield_now();
        }
        self.late.fetch_add(1, Ordering::SeqCst);
    }
}
