//! The standard output.

ghost use Rattle.std.specs.Prelude.{◌≡◌, ◌<◌, ◌≤◌, length, IfOk, OnOk, OnErr, None, []};

use crate::sink::Sink;
use crate::source::Failed;
use ebr_faults::one_more;
use std::io;
use std::io::{ErrorKind, Write};
use std::marker::Model;
use std::rt::Stdout;

/// The standard output as a sink, or none, to which each write fails. It tells no bytes: what becomes of those that the system took
/// is not claimed.
#[derive(Drop)]
pub struct OutSink {
    out: Option<Stdout>,
    faults: u64,
}

impl Model for OutSink {
    ghost use Rattle.ebr_outside.specs.Files.{FileState};

    ghost Value = { FileState };

    ghost view = { λ s. record { faults = s.faults } };
}

impl OutSink {
    ghost use Rattle.ebr_outside.specs.Files.{no_faults};

    /// The standard output of this process.
    pub fn new(rt: HostRuntime) -> OutSink
        ensures { result ≡ no_faults }
    {
        OutSink {
            out: Some(rt.stdout()),
            faults: 0,
        }
    }

    /// A sink to which each write fails.
    pub fn failing() -> OutSink
        ensures { result ≡ no_faults }
    {
        OutSink {
            out: None,
            faults: 0,
        }
    }

    /// Writes once to the system, where there is a standard output.
    fn write_once(&mut self, bytes: &[u8]) -> io::Result<usize>
        ensures some { IfOk result (λ n. n ≤ length bytes.now) }
        ensures same { self.new ≡ self.old }
    {
        match &mut self.out {
            Some(out) => out.write(bytes),
            None => Err(ErrorKind::BrokenPipe.into()),
        }
    }
}

impl Sink for OutSink {
    ghost use Rattle.ebr_outside.specs.Files.{one_fault_more};

    ghost word = { λ s. [] };

    ghost held = { λ s. None };

    ghost faults = { λ s. s.faults };

    /// Writes once to the system. Each error of it is a fault, and so is a write that took no byte.
    fn write(&mut self, bytes: &[u8]) -> Result<usize, Failed>
        requires { 0 < length bytes.now }
        ensures some { IfOk result (λ n. (0 < n) × (n ≤ length bytes.now)) }
        ensures ok { OnOk result (self.new ≡ self.old) }
        ensures err { OnErr result (self.new ≡ one_fault_more self.old) }
    {
        match self.write_once(bytes) {
            Ok(n) if n > 0 => Ok(n),
            _ => {
                self.faults = one_more(self.faults);
                Err(Failed)
            }
        }
    }
}
