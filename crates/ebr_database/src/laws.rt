//! Laws of the database.

ghost use Rattle.ebr_database.specs.Database.{Database};
ghost use Rattle.ebr_database.specs.ReadBack.{AreReadBack};

/// What is read off a database after an ask for transactions is what the ask left.
pub fn asks_are_read_back()
    ensures { (db : Database) → AreReadBack db }
{}
