//! The lines of records.

ghost use Rattle.std.specs.Prelude.{◌≡◌, All, IfOk};
ghost use Rattle.ebr_record.specs.Payload.{HasPayload};
ghost use Rattle.ebr_dump.specs.Dump.{Dump};

use crate::line::add_line;
use crate::names::{edition_names, table_names};
use ebr_base::{Bytes, NoMemory};
use ebr_record::Record;
use std::alloc::Global;

/// A line for each record, in order. What a record has by its number alone, an edition or a table, is named as it is by the record
/// that made it.
pub fn dump(alloc: Global, records: &[Record]) -> Result<Bytes, NoMemory>
    requires { All HasPayload records.now }
    ensures { IfOk result (λ text. text ≡ Dump records.now) }
{
    let editions = edition_names(alloc, records)?;
    let tables = table_names(alloc, records)?;
    let mut text = Bytes::new(alloc);
    for r in records {
        add_line(alloc, &mut text, editions.as_slice(), tables.as_slice(), r)?;
    }
    Ok(text)
}
