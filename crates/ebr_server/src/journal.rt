//! The lines of a journal.

ghost use Rattle.std.specs.Prelude.{◌≡◌, ℕ, All, List, Option, Some, IfErr, IfOk};
ghost use Rattle.ebr_dump.specs.Dump.{Dump};
ghost use Rattle.ebr_record.specs.Payload.{HasPayload};
ghost use Rattle.ebr_server.specs.Disks.{IsEntry, Unread};
ghost use Rattle.ebr_server.specs.inside.Opened.{ReadsOff, StopsOver};

use crate::codes::code_of_open;
use crate::exit::ExitCode;
use crate::opened::Fruitless;
use ebr_base::{Bytes, List, NoMemory};
use ebr_dump::dump;
use ebr_outside::Disk;
use ebr_record::Record;
use ebr_startup::read;
use ebr_worker::release_records;
use std::alloc::Global;

/// The lines of the records on a disk, and the disk.
pub fn lines<D: Disk>(alloc: Global, disk: D) -> Result<(Bytes, D), Fruitless<D>>
    ensures lines { IfOk result (λ r. (told : Option (List ℕ)) → IsEntry D.as_medium told disk → ReadsOff D.as_medium told r.0 r.1) }
    ensures stops { IfErr result (λ stop. (told : Option (List ℕ)) → IsEntry D.as_medium told disk → StopsOver Unread D.as_medium told stop.code (Some stop.disk)) }
{
    let mut disk = disk;
    let records = match read(alloc, &mut disk) {
        Ok(records) => records,
        Err(why) => {
            return Err(Fruitless {
                code: code_of_open(why),
                disk,
            });
        }
    };
    match lines_of(alloc, records) {
        Ok(lines) => Ok((lines, disk)),
        Err(NoMemory) => Err(Fruitless {
            code: ExitCode::NoMemory,
            disk,
        }),
    }
}

/// The lines of records.
fn lines_of(alloc: Global, records: List<Record>) -> Result<Bytes, NoMemory>
    requires { All HasPayload records }
    ensures { IfOk result (λ text. text ≡ Dump records) }
{
    let lines = dump(alloc, records.as_slice());
    release_records(records);
    lines
}
