//! What an edition sees of the catalogue.

use crate::unit::UnitTree;
use ebr_base::{Bytes, EditionNo, List, ObjectKey, Shared, Stamp, TableDef};
use ebr_shared_list::SharedList;

/// A stored object.
#[derive(Drop)]
pub struct Object {
    pub key: ObjectKey,
    /// The text that created it, from the first token to the last.
    pub text: Shared<Bytes>,
    /// The tree that the text spells.
    pub tree: UnitTree,
    /// The definition that made it, or last altered it.
    pub stamp: Stamp,
    /// Whether it is enabled; all objects but triggers are.
    pub enabled: bool,
}

/// All that an edition sees.
#[derive(Drop)]
pub struct EditionView {
    pub edition: EditionNo,
    /// The visible objects in order of class and then of name, shared with the catalogue. A list of them that differs in one
    /// shares all chunks with this one but one.
    pub objects: SharedList<Shared<Object>>,
    /// The living tables in order of id.
    pub tables: Shared<List<TableDef>>,
}
