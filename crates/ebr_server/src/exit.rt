//! How a run ends.

ghost use Rattle.std.specs.Prelude.{◌≡◌};

/// How a run ended. A `word` is a place among the words of the command line, counted from 0.
#[derive(Clone, Copy, Debug, PartialEq, Eq)]
pub enum ExitCode {
    /// Each script was read to its end, every piece has its reply, and no write of the report failed; or the lines of a journal were
    /// written whole.
    Done,
    /// The words are no form of a command.
    Usage,
    /// The host did not open the word, or its source failed. The word of a sink is that of its script.
    HostFault { word: u32 },
    /// The disk of the journal failed, and counted it.
    DiskFault,
    /// The sink of a session failed, or a write of the report.
    SinkFault,
    /// The journal is damaged. This is the smallest place.
    Damaged { at: u64 },
    /// There was no memory. When it comes is in no contract.
    NoMemory,
    /// The order can't be read at this byte, or the number there is that of no session.
    BadOrder { at: u32 },
    /// What is behind that word has more than `MAX_SCRIPT` bytes.
    TooLong { word: u32 },
}

impl ExitCode {
    ghost use Rattle.ebr_server.specs.Exit.{status_of};

    /// The exit status of the program.
    pub fn status(&self) -> u8
        ensures { result ≡ status_of self.now }
    {
        match self {
            ExitCode::Done => 0,
            ExitCode::Usage => 2,
            ExitCode::HostFault { .. } => 3,
            ExitCode::DiskFault => 4,
            ExitCode::SinkFault => 5,
            ExitCode::Damaged { .. } => 6,
            ExitCode::NoMemory => 8,
            ExitCode::BadOrder { .. } => 9,
            ExitCode::TooLong { .. } => 10,
        }
    }
}
