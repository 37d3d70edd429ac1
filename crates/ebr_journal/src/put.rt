//! One record more on a disk, or the mark.

ghost use Rattle.std.specs.Prelude.{◌≡◌, ◌+◌, ◌++◌, ◌<◌, ◌≤◌, length, IsTrue, IfOk, OnOk, IsErrOf};
ghost use Rattle.ebr_faults.specs.Faults.{Rises};
ghost use Rattle.ebr_outside.specs.Disk.{Goes, IsWithin};
ghost use Rattle.ebr_record.specs.Payload.{HasPayload};
ghost use Rattle.ebr_encoding.specs.Spelled.{HasForm};
ghost use Rattle.ebr_journal.specs.Journal.{Layout, form_of, last_gate, share_in, size_bytes};
ghost use Rattle.ebr_journal.specs.Keeper.{IsSettled};
ghost use Rattle.ebr_journal.specs.Crash.{IsNext, IsPiece, Puts, added};

use ebr_base::{Bytes, NoMemory};
use ebr_encoding::{Form, encode};
use ebr_outside::{Disk, DiskErr};
use ebr_record::{Record, length};
use std::alloc::Global;

/// Writes a piece behind the closed gate, and then opens it.
///
/// The piece ends with a closed gate. The gate in front of it stays closed on the disk until the piece is there, and nothing is
/// acknowledged before the open gate is there too.
pub fn put<D: Disk>(disk: &mut D, gate: u64, piece: &[u8]) -> Result<(), DiskErr>
    requires small { gate < 9223372036854775808 }
    requires within { IsWithin (D.as_medium disk.old) (gate + 1) }
    ensures goes { Goes (D.as_medium disk.old) (D.as_medium disk.new) }
    ensures failed { IsErrOf result DiskErr.Failed → Rises (D.as_medium disk.old).faults (D.as_medium disk.new).faults }
    ensures puts { IsTrue (D.as_medium disk.old).tells → (before after : Layout) → IsSettled (D.as_medium disk.old) gate before
        → IsNext before after piece.now → Puts (D.as_medium disk.old) gate (length piece.now) before after result (D.as_medium disk.new) }
{
    disk.write_at(gate + 1, piece)?;
    disk.sync()?;
    disk.write_at(gate, &[1])?;
    disk.sync()
}

/// Writes a record behind the closed gate, and opens it.
pub fn put_record<D: Disk>(
    alloc: Global,
    disk: &mut D,
    form: Form,
    gate: u64,
    r: &Record,
) -> Result<(), DiskErr>
    requires payload { HasPayload r.now }
    requires fits { HasForm form r.now }
    requires small { gate < 9223372036854775808 }
    requires within { IsWithin (D.as_medium disk.old) (gate + 1) }
    ensures goes { Goes (D.as_medium disk.old) (D.as_medium disk.new) }
    ensures failed { IsErrOf result DiskErr.Failed → Rises (D.as_medium disk.old).faults (D.as_medium disk.new).faults }
    ensures puts { IsTrue (D.as_medium disk.old).tells → (before : Layout) → IsSettled (D.as_medium disk.old) gate before
        → form ≡ form_of before.long → gate + share_in form r.now ≤ last_gate form
        → Puts (D.as_medium disk.old) gate (share_in form r.now) before (added before r.now) result (D.as_medium disk.new) }
{
    let piece = piece_of(alloc, form, r)?;
    put(disk, gate, piece.as_slice())
}

/// What stands behind the gate of a record: its length, its payload, and a closed gate.
fn piece_of(alloc: Global, form: Form, r: &Record) -> Result<Bytes, NoMemory>
    requires { HasPayload r.now }
    ensures { IfOk result (λ piece. IsPiece form piece r.now) }
{
    let size = length(r);
    let mut piece = Bytes::with_room(alloc, size as usize + 9)?;
    add_size(&mut piece, form, size)?;
    encode(r, &mut piece)?;
    piece.push(0)?;
    Ok(piece)
}

/// Adds the bytes of a payload's length.
fn add_size(piece: &mut Bytes, form: Form, size: u64) -> Result<(), NoMemory>
    requires { size < 4294967296 }
    ensures { OnOk result (piece.new ≡ piece.old ++ size_bytes form size) }
{
    match form {
        Form::Short => piece.extend(&(size as u32).to_be_bytes()),
        Form::Long => piece.extend(&size.to_be_bytes()),
    }
}
