//! Definitions computed on a few rows.

ghost use Rattle.std.specs.Prelude.{◌≡◌, Some, Err};
ghost use Rattle.ebr_base.specs.declared.code.Code.TheVariants.{Ora};
ghost use Rattle.ebr_dml.specs.Images.{filled};
ghost use Rattle.ebr_dml.specs.Tests.{columns_refusal, null_updated};
ghost use Rattle.ebr_querytests.specs.Sample.{
  all_for_update,
  locks_then,
  number_and_null,
  one_changed,
  one_column,
  one_held,
  one_locked,
  one_number,
  two_columns,
  two_numbers,
  untouched,
  with_columns,
};

/// FOR UPDATE locks the rows of its result but those that the transaction has locked or changed. Where a row is refused, the locks before
/// it stay until who asked goes back to a mark.
pub fn locks_are_counted()
    ensures free { locks_then untouched ≡ 3 }
    ensures locked { locks_then one_locked ≡ 3 }
    ensures changed { locks_then one_changed ≡ 2 }
    ensures refused { (all_for_update one_held).answer ≡ Err (Ora 54) }
    ensures stay { locks_then one_held ≡ 1 }
{}

/// A value that a row lacks, since its column was added later, is NULL, also to that column's test, and one past the columns is left out.
/// No column that is added refuses NULL, so that no statement comes to such a refusal.
pub fn rows_have_the_columns_of_their_table()
    ensures lacking { filled two_columns one_number ≡ number_and_null }
    ensures refused { columns_refusal null_updated (with_columns two_columns) one_number ≡ Some (Ora 1407) }
    ensures past { filled one_column two_numbers ≡ one_number }
{}
