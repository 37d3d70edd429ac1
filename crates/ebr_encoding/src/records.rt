//! Records from bytes.

ghost use Rattle.std.specs.Prelude.{◌≡◌};
ghost use Rattle.std.specs.Int.{w16, w32};
ghost use Rattle.ebr_encoding.specs.Reading.{byte_at, column_record_at, commit_at, counted, decoded, default_at, edition_at, edition_gone_at, gone_at, number, object_at, only, table_at, table_gone_at};
ghost use Rattle.ebr_encoding.specs.Spelled.{Reads};
ghost use Rattle.ebr_encoding.specs.inside.Gives.{Gives};
ghost use Rattle.ebr_encoding.specs.inside.Said.{changes_said, count_in};

use crate::fault::DecodeErr;
use crate::form::{Form, most_bytes, most_changes};
use crate::readable::Readable;
use crate::reader::{byte_at, class_at, counted, ended, flag_at, many, name_at, text_at, u32_at};
use ebr_base::{Bytes, Column, EditionNo, List, Shared, TableId};
use ebr_record::Record;
use std::alloc::Global;

/// The record that bytes spell, all of them. `Bad` comes exactly where they spell no record of the form.
pub fn decode(alloc: Global, form: Form, bytes: &[u8]) -> Result<Record, DecodeErr>
    ensures { Reads form bytes.now result }
{
    if bytes.len() as u64 > most_bytes(form) {
        return Err(DecodeErr::Bad);
    }
    if changes_said(bytes) as usize > most_changes(form) {
        return Err(DecodeErr::Bad);
    }
    record(alloc, bytes)
}

/// How many changes bytes say that their commit has.
#[tactic(auto, unfolding(crate::specs::inside::Said::changes_said))]
fn changes_said(bytes: &[u8]) -> u32
    ensures { result ≡ changes_said bytes.now }
{
    match bytes {
        [] => 0,
        [1, fields @ ..] => count_in(fields),
        [_, ..] => 0,
    }
}

/// The number at the front; 0 where there is none.
#[tactic(auto, unfolding(crate::specs::Reading::number, crate::specs::Reading::piece))]
fn count_in(fields: &[u8]) -> u32
    ensures { result ≡ count_in (number w32 fields.now) }
{
    match fields.split_first_chunk::<4>() {
        Some((front, _)) => u32::from_be_bytes(*front),
        None => 0,
    }
}

/// The record that all of the bytes are read as.
#[tactic(auto, unfolding(crate::specs::Reading::decoded))]
fn record(alloc: Global, bytes: &[u8]) -> Result<Record, DecodeErr>
    ensures { Gives (λ r. r) result (decoded bytes.now) }
{
    match bytes {
        [] => Err(DecodeErr::Bad),
        [1, fields @ ..] => commit(alloc, fields),
        [2, fields @ ..] => edition(alloc, fields),
        [3, fields @ ..] => edition_gone(fields),
        [4, fields @ ..] => default(fields),
        [5, fields @ ..] => object(alloc, fields),
        [6, fields @ ..] => gone(alloc, fields),
        [7, fields @ ..] => table(alloc, fields),
        [8, fields @ ..] => column(alloc, fields),
        [9, fields @ ..] => table_gone(fields),
        [_, ..] => Err(DecodeErr::Bad),
    }
}

#[tactic(auto, unfolding(crate::specs::Reading::commit_at, crate::specs::Reading::counted))]
fn commit(alloc: Global, fields: &[u8]) -> Result<Record, DecodeErr>
    ensures { Gives (λ r. r) result (only (commit_at fields.now)) }
{
    let (count, rest) = u32_at(fields)?;
    let (changes, rest) = many(alloc, count, rest)?;
    ended(rest)?;
    Ok(Record::Commit(changes))
}

#[tactic(auto, unfolding(crate::specs::Reading::edition_at))]
fn edition(alloc: Global, fields: &[u8]) -> Result<Record, DecodeErr>
    ensures { Gives (λ r. r) result (only (edition_at fields.now)) }
{
    let (name, rest) = name_at(alloc, fields)?;
    let (parent, rest) = u32_at(rest)?;
    ended(rest)?;
    let parent = EditionNo(parent);
    Ok(Record::Edition { name, parent })
}

#[tactic(auto, unfolding(crate::specs::Reading::edition_gone_at))]
fn edition_gone(fields: &[u8]) -> Result<Record, DecodeErr>
    ensures { Gives (λ r. r) result (only (edition_gone_at fields.now)) }
{
    let (edition, rest) = u32_at(fields)?;
    ended(rest)?;
    Ok(Record::EditionGone(EditionNo(edition)))
}

#[tactic(auto, unfolding(crate::specs::Reading::default_at))]
fn default(fields: &[u8]) -> Result<Record, DecodeErr>
    ensures { Gives (λ r. r) result (only (default_at fields.now)) }
{
    let (edition, rest) = u32_at(fields)?;
    ended(rest)?;
    Ok(Record::Default(EditionNo(edition)))
}

#[tactic(auto, unfolding(crate::specs::Reading::object_at))]
fn object(alloc: Global, fields: &[u8]) -> Result<Record, DecodeErr>
    ensures { Gives (λ r. r) result (only (object_at fields.now)) }
{
    let (edition, rest) = u32_at(fields)?;
    let (enabled, rest) = flag_at(rest)?;
    let (text, rest) = text_at(rest)?;
    ended(rest)?;
    let text = Bytes::from_slice(alloc, text)?;
    Ok(Record::Object {
        edition: EditionNo(edition),
        enabled,
        text: Shared::new(alloc, text)?,
    })
}

#[tactic(auto, unfolding(crate::specs::Reading::gone_at))]
fn gone(alloc: Global, fields: &[u8]) -> Result<Record, DecodeErr>
    ensures { Gives (λ r. r) result (only (gone_at fields.now)) }
{
    let (edition, rest) = u32_at(fields)?;
    let (class, rest) = class_at(rest)?;
    let (name, rest) = name_at(alloc, rest)?;
    ended(rest)?;
    let edition = EditionNo(edition);
    Ok(Record::Gone {
        edition,
        class,
        name,
    })
}

#[tactic(auto, unfolding(crate::specs::Reading::table_at))]
fn table(alloc: Global, fields: &[u8]) -> Result<Record, DecodeErr>
    ensures { Gives (λ r. r) result (only (table_at fields.now)) }
{
    let (name, rest) = name_at(alloc, fields)?;
    let (columns, rest) = counted(alloc, rest)?;
    let (key, rest) = key_at(alloc, rest)?;
    ended(rest)?;
    Ok(Record::Table { name, columns, key })
}

/// The places of a key's columns.
#[tactic(auto, unfolding(crate::specs::Reading::counted))]
fn key_at(alloc: Global, bytes: &[u8]) -> Result<(List<u16>, &[u8]), DecodeErr>
    ensures { Gives (λ x. (x.0, x.1.now)) result (counted byte_at (number w16) bytes.now) }
{
    let (count, rest) = byte_at(bytes)?;
    many(alloc, u32::from(count), rest)
}

#[tactic(auto, unfolding(crate::specs::Reading::column_record_at))]
fn column(alloc: Global, fields: &[u8]) -> Result<Record, DecodeErr>
    ensures { Gives (λ r. r) result (only (column_record_at fields.now)) }
{
    let (table, rest) = u32_at(fields)?;
    let (column, rest) = Column::read(alloc, rest)?;
    ended(rest)?;
    let table = TableId(table);
    Ok(Record::Column { table, column })
}

#[tactic(auto, unfolding(crate::specs::Reading::table_gone_at))]
fn table_gone(fields: &[u8]) -> Result<Record, DecodeErr>
    ensures { Gives (λ r. r) result (only (table_gone_at fields.now)) }
{
    let (table, rest) = u32_at(fields)?;
    ended(rest)?;
    Ok(Record::TableGone(TableId(table)))
}
