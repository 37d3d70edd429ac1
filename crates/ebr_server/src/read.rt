//! Reads what is behind a word from its source.

ghost use Rattle.std.specs.Prelude.{◌≡◌, ◌+◌, ◌<◌, ◌≤◌, ◌++◌, length, take, IfOk, IfSome, OnOk};
ghost use Rattle.ebr_faults.specs.Faults.{Rises};
ghost use Rattle.ebr_server.specs.inside.Reading.{Reads};

use ebr_base::{Bytes, NoMemory};
use ebr_outside::{Failed, Source};
use std::alloc::Global;

/// The most bytes of a script, and of an order: 1 MiB.
pub const MAX_SCRIPT: usize = 1048576;

/// How many bytes are asked for at once.
const CHUNK: usize = 8192;

/// Why a source was not read.
#[derive(Clone, Copy, Debug, PartialEq, Eq)]
pub enum ReadErr {
    /// The source failed.
    Failed,
    /// There was no memory.
    NoMemory,
}

impl From<NoMemory> for ReadErr {
    ghost use Rattle.ebr_server.specs.declared.read.ReadErr.TheVariants as read_err;

    ghost from_gives = { λ _ error. error ≡ read_err.NoMemory };

    fn from(_: NoMemory) -> ReadErr {
        ReadErr::NoMemory
    }
}

/// Reads a source to its end, or until it has given one byte more than it may have.
pub fn read_bytes<S: Source>(alloc: Global, source: &mut S) -> Result<Bytes, ReadErr>
    ensures bytes { IfOk result (λ bytes. IfSome (S.left source.old) (λ left. bytes ≡ take (MAX_SCRIPT + 1) left)) }
    ensures limit { IfOk result (λ bytes. length bytes ≤ MAX_SCRIPT + 1) }
    ensures counted { S.faults source.old ≤ S.faults source.new }
    ensures failed { result ≡ Err ReadErr.Failed → Rises (S.faults source.old) (S.faults source.new) }
    ensures same { S.word source.new ≡ S.word source.old }
{
    let mut bytes = Bytes::new(alloc);
    while bytes.len() <= MAX_SCRIPT {
        let room = MAX_SCRIPT + 1 - bytes.len();
        if read_some(source, &mut bytes, room)? == 0 {
            return Ok(bytes);
        }
    }
    Ok(bytes)
}

/// Adds the next bytes of a source, at most so many, and says how many they are.
fn read_some<S: Source>(source: &mut S, bytes: &mut Bytes, room: usize) -> Result<usize, ReadErr>
    requires { 0 < room }
    ensures within { IfOk result (λ n. n ≤ room) }
    ensures grown { IfOk result (λ n. length bytes.new ≡ length bytes.old + n) }
    ensures reads { IfOk result (λ n. Reads (S.left source.old) n bytes.old bytes.new (S.left source.new)) }
    ensures counted { S.faults source.old ≤ S.faults source.new }
    ensures failed { result ≡ Err ReadErr.Failed → Rises (S.faults source.old) (S.faults source.new) }
    ensures same { S.word source.new ≡ S.word source.old }
{
    let mut chunk = [0u8; CHUNK];
    let part = &mut chunk[..room.min(CHUNK)];
    match source.read(part) {
        Ok(n) => {
            bytes.extend(&part[..n])?;
            Ok(n)
        }
        Err(Failed) => Err(ReadErr::Failed),
    }
}
