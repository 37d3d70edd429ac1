//! Where the gates of records stand.

ghost use Rattle.std.specs.Prelude.{◌≡◌, ◌<◌, All, length, sum_by, take};
ghost use Rattle.ebr_record.specs.Payload.{HasPayload};
ghost use Rattle.ebr_journal.specs.Found.{AreFit, head};
ghost use Rattle.ebr_journal.specs.Journal.{share_in};
ghost use Rattle.ebr_startup.specs.Damage.{gate_behind};

use ebr_encoding::Form;
use ebr_journal::Found;
use ebr_record::{Record, length};

/// The place of the gate of the record behind so many others.
pub fn gate_behind(found: &Found, count: usize) -> u64
    requires fit { AreFit found.now }
    requires within { count < length found.now.records }
    ensures { result ≡ gate_behind found.now.short (take count found.now.records) }
{
    let records = found.records.as_slice();
    let short = found.short as usize;
    if count < short {
        return 1 + share(Form::Short, &records[..count]);
    }
    8 + share(Form::Short, &records[..short]) + share(Form::Long, &records[short..count])
}

/// The bytes of records in a form.
fn share(form: Form, records: &[Record]) -> u64
    requires payloads { All HasPayload records.now }
    requires small { sum_by (share_in form) records.now < 2147483648 }
    ensures { result ≡ sum_by (share_in form) records.now }
{
    let mut bytes = 0;
    for r in records {
        bytes += head(form) + length(r);
    }
    bytes
}

/// The bytes of a gate and of the length behind it.
fn head(form: Form) -> u64
    ensures { result ≡ head form }
{
    match form {
        Form::Short => 5,
        Form::Long => 9,
    }
}
