//! The outside: what the server reads from, writes to and keeps its journal on, as traits, their forms in memory, and those
//! that are files and the standard output.
//!
//! The crates above use the contracts of the traits `Host`, `Source`, `Sink` and `Disk`: a failure comes only where the
//! object's count of faults rose, what a host, source or sink that tells its bytes gave or took is known, and so are the calls
//! of a host that tells them. Of a disk that tells what it holds it is known what a read gives, and which images a crash at
//! each moment may leave. A `Gate` promises nothing.
//!
//! What files, the standard output and the words of the command line do is only tested, in `ebr_leaftests`.
#![tactic(auto)]

mod command_line;
mod disk;
mod files;
mod gate;
mod host;
mod host_call;
mod memory;
mod sink;
mod source;

pub use command_line::words;
pub use disk::{Disk, DiskErr};
pub use files::{FileDisk, FileHost, FileSink, FileSource, OutSink};
pub use gate::{Gate, OpenGate};
pub use host::{Host, HostErr};
pub use host_call::{HostCall, HostMethod};
pub use memory::{DiskCall, Fail, MemDisk, MemFile, MemHost, MemSink, MemSource};
pub use sink::Sink;
pub use source::{Failed, Source};
