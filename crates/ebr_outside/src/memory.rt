//! The outside in memory. It tells its bytes, and fails at the calls that it was told to fail at.

mod crash;
mod disk;
mod disk_call;
mod fail;
mod files;
mod host;
mod sink;
mod source;

pub use disk::MemDisk;
pub use disk_call::DiskCall;
pub use fail::Fail;
pub use host::{MemFile, MemHost};
pub use sink::MemSink;
pub use source::MemSource;
