//! Laws of records.

ghost use Rattle.std.specs.Prelude.{◌≡◌, List, length};
ghost use Rattle.ebr_base.specs.declared.row.Change.{Change};
ghost use Rattle.ebr_tx.specs.Limits.{record_length};
ghost use Rattle.ebr_record.specs.declared.record.Record.TheVariants as made;
ghost use Rattle.ebr_record.specs.Payload.{payload};

/// A commit's record has as many bytes as `ebr_tx` counts against the limit of a transaction.
pub fn commits_are_as_long_as_counted()
    ensures { (changes : List Change) → length (payload (made.Commit changes)) ≡ record_length changes }
{}
