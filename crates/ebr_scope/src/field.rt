//! The columns of cursors and of the records of loops.

use ebr_base::Name;
use ebr_sqlcheck::ValueType;

/// A column that a cursor or a loop's record has.
#[derive(Drop)]
pub struct Field {
    /// An item without an alias that is no column has none.
    pub name: Option<Name>,
    /// The type, as far as it is known.
    pub ty: Option<ValueType>,
}
