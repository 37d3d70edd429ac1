//! Laws of the records that a database makes.

ghost use Rattle.ebr_allowed.specs.Allowed.{RecordsBeforeAreAllowed};
ghost use Rattle.ebr_allowed.specs.Consistent.{
  FirstIsConsistent,
  FirstRecordsAreAllowed,
  HistoriesAreAllowed,
  RepliesAreAllowed,
};

/// Where records are allowed, so are the first of them.
pub fn records_before_are_allowed()
    ensures { RecordsBeforeAreAllowed }
{}

/// A database of allowed records in which nothing was asked is consistent.
pub fn a_first_database_is_consistent()
    ensures { FirstIsConsistent }
{}

/// Whatever a consistent database is asked, it stays so, and the records that it makes are allowed.
pub fn replies_are_allowed()
    ensures { RepliesAreAllowed }
{}

/// So it is of all that a history asks.
pub fn histories_are_allowed()
    ensures { HistoriesAreAllowed }
{}

/// So what a stop leaves of a journal's records, those that it began with and those that a history made, opens again.
pub fn first_records_are_allowed()
    ensures { FirstRecordsAreAllowed }
{}
