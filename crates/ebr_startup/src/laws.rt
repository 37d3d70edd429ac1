//! Laws of the files of databases.

ghost use Rattle.std.specs.Prelude.{◌≡◌, ◌⊎◌, ◌++◌, ℕ, List};
ghost use Rattle.ebr_record.specs.declared.record.Record.{Record};
ghost use Rattle.ebr_journal.specs.Journal.{HasRecords};
ghost use Rattle.ebr_allowed.specs.Allowed.{AreAllowed};
ghost use Rattle.ebr_startup.specs.Damage.{HasDatabase, IsDamagedAt};

/// A file from which a database is opened isn't damaged, so `Damaged` comes exactly where it is.
pub fn a_database_is_not_damaged()
    ensures { (bytes : List ℕ) (records : List Record) (at : ℕ) → HasDatabase bytes records → IsDamagedAt bytes at → ⊥ }
{}

/// A file is damaged at one place at most.
pub fn a_file_is_damaged_at_one_place()
    ensures { (bytes : List ℕ) (p q : ℕ) → IsDamagedAt bytes p → IsDamagedAt bytes q → p ≡ q }
{}

/// A file has records, or it has none at all: that is so of each image that a crash may leave.
pub fn a_file_has_records_or_none()
    ensures { (bytes : List ℕ) → ((records : List Record) × HasRecords bytes records) ⊎ ((records : List Record) → HasRecords bytes records → ⊥) }
{}

/// A file whose records are the first of some that are allowed has a database.
pub fn first_records_have_a_database()
    ensures { (bytes : List ℕ) (records more : List Record) → HasRecords bytes records → AreAllowed (records ++ more) → HasDatabase bytes records }
{}
