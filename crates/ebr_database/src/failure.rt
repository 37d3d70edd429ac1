//! Why a call gave no result.

ghost use Rattle.std.specs.Prelude.{◌≡◌};

use ebr_base::{Code, NoMemory};

/// Why the engine gives up.
#[derive(Clone, Copy, Debug, PartialEq, Eq)]
pub enum Halt {
    /// The journal's disk failed.
    DiskFault,
    /// It failed before, or there was no memory before.
    Stopped,
    NoMemory,
}

/// A refusal with its code, or that the engine gives up.
#[derive(Clone, Copy, Debug, PartialEq, Eq)]
pub enum Failure {
    Refused(Code),
    Halted(Halt),
}

impl From<NoMemory> for Halt {
    ghost use Rattle.ebr_database.specs.declared.failure.Halt.TheVariants.{NoMemory};

    ghost from_gives = { λ _ why. why ≡ NoMemory };

    fn from(_: NoMemory) -> Halt {
        Halt::NoMemory
    }
}

impl From<NoMemory> for Failure {
    ghost use Rattle.ebr_database.specs.declared.failure.Halt.TheVariants.{NoMemory};
    ghost use Rattle.ebr_database.specs.declared.failure.Failure.TheVariants.{Halted};

    ghost from_gives = { λ _ why. why ≡ Halted NoMemory };

    fn from(_: NoMemory) -> Failure {
        Failure::Halted(Halt::NoMemory)
    }
}

impl From<Halt> for Failure {
    ghost use Rattle.ebr_database.specs.declared.failure.Failure.TheVariants.{Halted};

    ghost from_gives = { λ why failure. failure ≡ Halted why };

    fn from(why: Halt) -> Failure {
        Failure::Halted(why)
    }
}
