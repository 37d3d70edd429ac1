//! The outside of the system: files and the standard output. It counts its faults and tells no bytes.

mod disk;
mod file_number;
mod host;
mod in_use;
mod open_disk;
mod open_sink;
mod open_source;
mod out;
mod path;
mod sink;
mod source;

pub use disk::FileDisk;
pub use host::FileHost;
pub use out::OutSink;
pub use sink::FileSink;
pub use source::FileSource;
