//! What stands in a journal.

ghost use Rattle.std.specs.Prelude.{◌≡◌, ◌+◌, ◌<◌, length};
ghost use Rattle.ebr_encoding.specs.Spelled.{most_bytes};
ghost use Rattle.ebr_journal.specs.Found.{head, size_limit, spared};
ghost use Rattle.ebr_journal.specs.Journal.{last_gate, size_bytes};

use ebr_base::List;
use ebr_encoding::Form;
use ebr_record::Record;

/// The most bytes of a journal.
pub const MAX_JOURNAL: u64 = 536_870_912;

/// The records of a journal, in order.
#[derive(Drop)]
pub struct Found {
    pub records: List<Record>,
    /// How many of them, the first ones, are in the short form. The others stand behind the mark.
    pub short: u32,
}

/// The bytes of a gate and of the length behind it.
pub fn head(form: Form) -> u64
    ensures { result ≡ head form }
{
    match form {
        Form::Short => 5,
        Form::Long => 9,
    }
}

/// What a record has less of in this form than in the long one, in bytes.
pub fn spared(form: Form) -> u64
    ensures { result ≡ spared form }
{
    match form {
        Form::Short => 4,
        Form::Long => 0,
    }
}

/// The most bytes of a payload.
pub fn most_bytes(form: Form) -> u64
    ensures { result ≡ most_bytes form }
{
    match form {
        Form::Short => 67_108_864,
        Form::Long => 134_217_728,
    }
}

/// The last place where a journal's closed gate may lie.
pub fn last_gate(form: Form) -> u64
    ensures { result ≡ last_gate form }
{
    match form {
        Form::Short => 536_870_904,
        Form::Long => 536_870_911,
    }
}

/// The number that the bytes of a length spell, the highest first.
pub fn number(form: Form, bytes: &[u8]) -> u64
    requires { length bytes.now + 1 ≡ head form }
    ensures spelled { size_bytes form result ≡ bytes.now }
    ensures small { result < size_limit form }
{
    match form {
        Form::Short => u64::from(u32::from_be_bytes([bytes[0], bytes[1], bytes[2], bytes[3]])),
        Form::Long => u64::from_be_bytes([
            bytes[0], bytes[1], bytes[2], bytes[3], bytes[4], bytes[5], bytes[6], bytes[7],
        ]),
    }
}
