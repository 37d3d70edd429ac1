//! Laws of queries.

ghost use Rattle.std.specs.Prelude.{Bool, List};
ghost use Rattle.ebr_query.specs.Order.{IsOrderOf, Keyed, in_order, is_before};

/// ORDER BY sorts the rows by their keys, keeps all of them, and leaves those whose keys are equal as they stood.
pub fn rows_are_in_order()
    ensures { (descending : List Bool) (rows : List Keyed) → IsOrderOf descending rows (in_order (is_before descending) rows) }
{}
