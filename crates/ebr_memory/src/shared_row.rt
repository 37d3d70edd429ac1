//! A row of shared rows.

ghost use Rattle.std.specs.Prelude.{◌≡◌};
ghost use Rattle.ebr_memory.specs.SharedRows.{row_at};

use ebr_base::{List, Shared, Value};
use std::marker::Model;

/// A row of shared rows, by its place, which contracts see as the list of its values.
#[derive(Drop)]
pub struct SharedRow {
    rows: Shared<List<List<Value>>>,
    place: usize,
}

impl Model for SharedRow {
    ghost use Rattle.std.specs.Prelude.{List as Sequence};
    ghost use Rattle.ebr_base.specs.declared.value.Value.{Value as Held};
    ghost use Rattle.ebr_memory.specs.SharedRows.{row_at};

    ghost Value = { Sequence Held };

    ghost view = { λ r. row_at r.place r.rows };
}

impl SharedRow {
    /// The row at a place, counted from 0; one without a value where there is none.
    pub fn new(rows: Shared<List<List<Value>>>, place: usize) -> SharedRow
        ensures { result ≡ row_at place rows }
    {
        SharedRow { rows, place }
    }

    /// The values.
    pub fn values(&self) -> &[Value]
        ensures { result.now ≡ self.now }
    {
        match self.rows.get().get(self.place) {
            Some(row) => row.as_slice(),
            None => &[],
        }
    }
}
