//! Why a database isn't opened.

ghost use Rattle.std.specs.Prelude.{◌≡◌};
ghost use Rattle.ebr_startup.specs.inside.Walk.{why_of as spec_why};

use ebr_base::NoMemory;
use ebr_record::JournalFault;

/// Why no database was opened over a disk.
#[derive(Clone, Copy, Debug, PartialEq, Eq)]
pub enum OpenWhy {
    /// The disk failed, and counted it.
    DiskFault,
    /// The file is damaged. This is the smallest place.
    Damaged { at: u64 },
    /// There was no memory.
    NoMemory,
}

impl From<NoMemory> for OpenWhy {
    ghost use Rattle.ebr_startup.specs.declared.why.OpenWhy.TheVariants.{NoMemory};

    ghost from_gives = { λ _ why. why ≡ NoMemory };

    fn from(_: NoMemory) -> OpenWhy {
        OpenWhy::NoMemory
    }
}

/// Why no engine is opened over a journal whose mark wasn't written.
pub fn why_of(fault: JournalFault) -> OpenWhy
    ensures { result ≡ spec_why fault }
{
    match fault {
        JournalFault::DiskFault => OpenWhy::DiskFault,
        JournalFault::Stopped | JournalFault::Full { .. } | JournalFault::NoMemory =>
            OpenWhy::NoMemory,
    }
}
