//! The committed data: for each row what every commit made of it, and the keys of tables.
//!
//! What is used above: the calls of `Versions` read as `At`, `Latest`, `changed_since` and `next_row` of
//! `specs/Data.antt` define it over the plain list of commits, `find_key` and `find_key_at` find the one row of a key,
//! `commit` adds to the list, and `IsSound` of `specs/Store.antt` holds at all times. The laws of reading (`reads`,
//! `next_rows`) are proved of the definitions. Tables, rows and keys are found by ordered sets, each in logarithmic time.
//! `Index`, `Entry` and `key_print` serve the changes of live transactions too.
//!
//! That calls succeed with ample memory is tested alone.
#![tactic(auto)]

mod index;
mod keys;
mod laws;
mod print;
mod rows;
mod table;
mod versions;

pub use index::{Entry, Index, spot};
pub use keys::{gives_key, is_key_of};
pub use laws::{next_rows, reads};
pub use print::key_print;
pub use versions::Versions;
