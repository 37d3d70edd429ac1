//! What definitions leave for ever.

use ebr_ast::Object;
use ebr_base::{Column, EditionNo, Name, ObjectKey, Shared, TableDef, TableId};

/// What one definition changed in the catalogue. The catalogue is read off these records in order.
#[derive(Drop)]
pub enum CatalogueRecord {
    /// An edition was made, as the child of another one. Its number is one more than that of the edition made before.
    Edition { name: Name, parent: EditionNo },
    /// An edition was dropped, and its objects with it.
    EditionGone(EditionNo),
    /// An edition was made the default.
    Default(EditionNo),
    /// An object was made, replaced or altered, in the edition of its stamp.
    Object(Shared<Object>),
    /// An object was dropped in an edition.
    ObjectGone { edition: EditionNo, key: ObjectKey },
    /// A package was dropped in an edition, and its body, where that was visible there.
    PackageGone { edition: EditionNo, name: Name },
    /// A table was made.
    Table(TableDef),
    /// A table got one more column, which goes last.
    Column { table: TableId, column: Column },
    /// A table was dropped.
    TableGone(TableId),
}
