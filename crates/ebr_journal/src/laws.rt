//! Laws of journals.

ghost use Rattle.std.specs.Prelude.{◌≡◌, ◌⊎◌, ℕ, List};
ghost use Rattle.ebr_record.specs.declared.record.Record.{Record};
ghost use Rattle.ebr_journal.specs.declared.found.Found.{Found};
ghost use Rattle.ebr_journal.specs.Journal.{HasRecords};
ghost use Rattle.ebr_journal.specs.Found.{Holds, IsDamaged};

/// A file has at most one list of records.
pub fn records_are_one()
    ensures { (bytes : List ℕ) (k l : List Record) → HasRecords bytes k → HasRecords bytes l → k ≡ l }
{}

/// A file that is read isn't damaged.
pub fn read_or_damaged()
    ensures { (bytes : List ℕ) (found : Found) (at : ℕ) (before : Found) → Holds bytes found → IsDamaged bytes at before → ⊥ }
{}

/// A file is damaged at one place at most, behind the same records.
pub fn damages_are_one()
    ensures { (bytes : List ℕ) (p q : ℕ) (before other : Found) → IsDamaged bytes p before → IsDamaged bytes q other → (p ≡ q) × (before ≡ other) }
{}

/// A file that isn't damaged is read.
pub fn each_file_is_read_or_damaged()
    ensures { (bytes : List ℕ) → ((found : Found) × Holds bytes found) ⊎ ((at : ℕ) × (before : Found) × IsDamaged bytes at before) }
{}
