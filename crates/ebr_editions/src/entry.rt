//! An edition as it was made.

use ebr_base::{EditionNo, Name};

/// One edition: its number, its name, the edition that it is a child of, and whether it still lives.
#[derive(Debug, Drop)]
pub struct EditionEntry {
    pub number: EditionNo,
    pub name: Name,
    /// The edition that it was made as a child of; the first edition has none.
    pub parent: Option<EditionNo>,
    /// Whether it has not been dropped.
    pub living: bool,
}
