//! The forms in which records stand in a journal.

ghost use Rattle.std.specs.Prelude.{◌≡◌, ◌↔◌, IsTrue};
ghost use Rattle.ebr_record.specs.Payload.{HasPayload};
ghost use Rattle.ebr_encoding.specs.Spelled.{HasForm, changes_of, most_bytes, most_changes};

use ebr_record::{Record, length};

/// How a record stands in a journal, which bounds it (own).
#[derive(Clone, Copy, Debug, PartialEq, Eq)]
pub enum Form {
    /// Behind a length of four bytes: at most 67,108,864 bytes, and 100,000 changes of a commit.
    Short,
    /// Behind a length of eight bytes: at most 134,217,728 bytes, and 200,000 changes of a commit.
    Long,
}

/// Whether a record may stand in a journal in this form.
pub fn has_form(form: Form, r: &Record) -> bool
    requires { HasPayload r.now }
    ensures { IsTrue result ↔ HasForm form r.now }
{
    length(r) <= most_bytes(form) && changes_of(r) <= most_changes(form)
}

/// The most bytes of a payload.
pub(crate) fn most_bytes(form: Form) -> u64
    ensures { result ≡ most_bytes form }
{
    match form {
        Form::Short => 67_108_864,
        Form::Long => 134_217_728,
    }
}

/// The most changes of a commit.
pub(crate) fn most_changes(form: Form) -> usize
    ensures { result ≡ most_changes form }
{
    match form {
        Form::Short => 100_000,
        Form::Long => 200_000,
    }
}

/// The changes of a commit, and of no other record.
fn changes_of(r: &Record) -> usize
    ensures { result ≡ changes_of r.now }
{
    match r {
        Record::Commit(changes) => changes.len(),
        Record::Edition { .. } => 0,
        Record::EditionGone(_) => 0,
        Record::Default(_) => 0,
        Record::Object { .. } => 0,
        Record::Gone { .. } => 0,
        Record::Table { .. } => 0,
        Record::Column { .. } => 0,
        Record::TableGone(_) => 0,
    }
}
