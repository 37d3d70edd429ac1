//! Why records aren't carried out.

ghost use Rattle.std.specs.Prelude.{◌≡◌};
ghost use Rattle.ebr_recovery.specs.inside.Plans as spec;

use ebr_base::NoMemory;

/// Why a record wasn't carried out.
#[derive(Clone, Copy, Debug, PartialEq, Eq)]
pub enum RecoveryFault {
    /// It isn't allowed behind the records before it.
    NotAllowed,
    /// There was no memory.
    NoMemory,
}

impl From<NoMemory> for RecoveryFault {
    ghost use Rattle.ebr_recovery.specs.declared.fault.RecoveryFault.TheVariants.{NoMemory};

    ghost from_gives = { λ _ fault. fault ≡ NoMemory };

    fn from(_: NoMemory) -> RecoveryFault {
        RecoveryFault::NoMemory
    }
}

/// Why not all records of a list were carried out.
#[derive(Clone, Copy, Debug, PartialEq, Eq)]
pub enum ListFault {
    /// The record at this place, counted from 0, is the first one that isn't allowed behind those before it.
    NotAllowed(usize),
    /// There was no memory.
    NoMemory,
}

/// The fault of a list whose record at a place has this one.
pub fn fault_at(fault: RecoveryFault, at: usize) -> ListFault
    ensures { result ≡ spec.fault_at fault at }
{
    match fault {
        RecoveryFault::NotAllowed => ListFault::NotAllowed(at),
        RecoveryFault::NoMemory => ListFault::NoMemory,
    }
}
