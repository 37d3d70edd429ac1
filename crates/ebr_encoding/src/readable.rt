//! What stands in the lists of records, from the front of bytes.

ghost use Rattle.std.specs.Int.{w16};
ghost use Rattle.ebr_encoding.specs.Reading.{Reader, change_at, column_at, number, value_at, values_at};
ghost use Rattle.ebr_encoding.specs.inside.Gives.{Gives};

use crate::fault::DecodeErr;
use crate::reader::{counted, flag_at, name_at, text_at, type_at, u16_at, u32_at, u64_at};
use ebr_base::{Bytes, Change, Column, List, RowId, RowNo, Shared, TableId, Value};
use std::alloc::Global;

/// A value that is read from the front of bytes.
pub(crate) trait Readable: Drop {
    ghost read: { Reader Self };

    fn read(alloc: Global, bytes: &[u8]) -> Result<(Self, &[u8]), DecodeErr>
        ensures { Gives (λ x. (x.0, x.1.now)) result (read bytes.now) };
}

impl Readable for u16 {
    ghost read = { number w16 };

    fn read(_alloc: Global, bytes: &[u8]) -> Result<(u16, &[u8]), DecodeErr> {
        u16_at(bytes)
    }
}

impl Readable for Value {
    ghost read = { value_at };

    #[tactic(auto, unfolding(crate::specs::Reading::value_at))]
    fn read(alloc: Global, bytes: &[u8]) -> Result<(Value, &[u8]), DecodeErr> {
        match bytes {
            [] => Err(DecodeErr::Bad),
            [0, rest @ ..] => Ok((Value::Null, rest)),
            [1, rest @ ..] => {
                let (n, rest) = u64_at(rest)?;
                Ok((Value::Num(n.cast_signed()), rest))
            }
            [2, rest @ ..] => {
                let (text, rest) = text_at(rest)?;
                if text.is_empty() {
                    return Err(DecodeErr::Bad);
                }
                Ok((Value::text(Bytes::from_slice(alloc, text)?), rest))
            }
            [_, ..] => Err(DecodeErr::Bad),
        }
    }
}

impl Readable for Change {
    ghost read = { change_at };

    #[tactic(auto, unfolding(crate::specs::Reading::change_at))]
    fn read(alloc: Global, bytes: &[u8]) -> Result<(Change, &[u8]), DecodeErr> {
        let (table, rest) = u32_at(bytes)?;
        let (row, rest) = u64_at(rest)?;
        let (values, rest) = values_at(alloc, rest)?;
        let row = RowId {
            table: TableId(table),
            row: RowNo(row),
        };
        Ok((Change { row, values }, rest))
    }
}

/// What a row becomes.
#[tactic(auto, unfolding(crate::specs::Reading::values_at))]
fn values_at(alloc: Global, bytes: &[u8]) -> Result<(Option<Shared<List<Value>>>, &[u8]), DecodeErr>
    ensures { Gives (λ x. (x.0, x.1.now)) result (values_at bytes.now) }
{
    match bytes {
        [] => Err(DecodeErr::Bad),
        [0, rest @ ..] => Ok((None, rest)),
        [1, rest @ ..] => {
            let (values, rest) = counted(alloc, rest)?;
            Ok((Some(Shared::new(alloc, values)?), rest))
        }
        [_, ..] => Err(DecodeErr::Bad),
    }
}

impl Readable for Column {
    ghost read = { column_at };

    #[tactic(auto, unfolding(crate::specs::Reading::column_at))]
    fn read(alloc: Global, bytes: &[u8]) -> Result<(Column, &[u8]), DecodeErr> {
        let (name, rest) = name_at(alloc, bytes)?;
        let (ty, rest) = type_at(rest)?;
        let (not_null, rest) = flag_at(rest)?;
        Ok((Column { name, ty, not_null }, rest))
    }
}
