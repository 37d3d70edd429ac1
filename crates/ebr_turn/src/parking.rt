//! Where a thread sleeps whose ticket is far from being served. No contract rests on it.
use std::alloc::{AllocError, Global};
use std::hint;
use std::sync::Wait;
use std::thread::{Parker, yield_now};

/// How often the one whose ticket is next looks before it sleeps.
const LOOKS: u32 = 200;

/// A parker for each seat. A ticket's is found by its remainder: no more tickets than seats are out at a time, so that one
/// thread at most parks at each.
#[derive(Drop)]
pub(crate) struct Parkers {
    all: Vec<Parker>,
}

impl Parkers {
    /// So many parkers.
    pub(crate) fn new(alloc: Global, seats: u32) -> Result<Parkers, AllocError> {
        let mut all = Vec::with_capacity(alloc, seats as usize)?;
        for _ in 0..seats {
            all.push(Parker::new())?;
        }
        Ok(Parkers { all })
    }

    /// Between two looks: the next one spins for a while, and any other one sleeps until its ticket is called.
    pub(crate) fn pause<R: Wait>(&self, rt: &R, ticket: u64, serving: u64, looks: u32) {
        if ticket.wrapping_sub(serving) == 1 && looks < LOOKS {
            hint::spin_loop();
            return;
        }
        match self.of(ticket) {
            Some(parker) => parker.park(rt),
            None => yield_now(),
        }
    }

    /// Wakes the one with this ticket. A call that comes late wakes a later one for nothing, which looks and sleeps again.
    pub(crate) fn call(&self, ticket: u64) {
        if let Some(parker) = self.of(ticket) {
            parker.unpark();
        }
    }

    fn of(&self, ticket: u64) -> Option<&Parker> {
        let place = ticket.checked_rem(self.all.len() as u64)?;
        self.all.get(place as usize)
    }
}
