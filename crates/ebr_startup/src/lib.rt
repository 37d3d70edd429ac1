//! A database is opened over its disk.
//!
//! What is used above: `open` gives an engine over the records of a disk, and `read` the records alone, and writes nothing. Both
//! say where a file is damaged: at the smallest place where it is no journal, or has a record that isn't allowed behind those
//! before it. What a crash at each moment of a call leaves is said of a disk that tells its images.
//!
//! That calls succeed with ample memory is tested alone.
#![tactic(auto)]

mod engine;
mod gate;
mod held;
mod laws;
mod records;
mod walk;
mod why;

pub use engine::{OpenFault, open};
pub use laws::{
    a_database_is_not_damaged, a_file_has_records_or_none, a_file_is_damaged_at_one_place,
    first_records_have_a_database,
};
pub use records::read;
pub use why::OpenWhy;
