//! Laws of the engine.

ghost use Rattle.std.specs.Prelude.{List, ℕ};
ghost use Rattle.ebr_database.specs.Database.{Database};
ghost use Rattle.ebr_record.specs.declared.record.Record.{Record};
ghost use Rattle.ebr_core.specs.Kept.{KeepsFirst, KeepsOn};
ghost use Rattle.ebr_core.specs.ReadBack.{AreReadBack};
ghost use Rattle.ebr_core.specs.Rebuilt.{IsRebuilt};

use ebr_record::Keep;

/// What a definition leaves is read back from its record.
pub fn definitions_are_read_back()
    ensures { (records : List Record) → AreReadBack records }
{}

/// The database of the records of another one shows each edition and each row as that one does.
pub fn databases_are_rebuilt()
    ensures { (db : Database) (sessions : ℕ) → IsRebuilt db sessions }
{}

/// What was kept of all asks of a history is told by one word, whatever keeper it began with: by the history and its first database.
pub fn histories_are_kept<K: Keep>()
    ensures first { KeepsFirst K.as_keeper }
    ensures more { KeepsOn K.as_keeper }
{}
