//! Answers, entries and records as texts.

use ebr_asks::{Answer, Ask, Entry};
use ebr_ast::EditionView;
use ebr_base::{Bytes, List, Name, NoMemory, Value};
use ebr_record::Record;
use ebr_value::text_of;
use std::alloc::Global;

/// A number behind a word.
fn number(alloc: Global, word: &str, n: u64, out: &mut Bytes) -> Result<(), NoMemory> {
    let text = format!(in alloc; "{word}{n}")?;
    out.extend(text.as_bytes())
}

/// A name behind a word.
fn named(word: &[u8], name: &Name, out: &mut Bytes) -> Result<(), NoMemory> {
    out.extend(word)?;
    out.extend(name.as_slice())
}

/// A value; NULL is `-`.
fn value(alloc: Global, v: &Value, out: &mut Bytes) -> Result<(), NoMemory> {
    match v {
        Value::Null => out.push(b'-'),
        _ => out.extend(text_of(alloc, v)?.as_slice()),
    }
}

/// Values in parentheses.
fn row(alloc: Global, values: &[Value], out: &mut Bytes) -> Result<(), NoMemory> {
    for (at, v) in values.iter().enumerate() {
        out.extend(if at == 0 { b"(" } else { b", " })?;
        value(alloc, v, out)?;
    }
    out.push(b')')
}

/// Rows with ` ` between them; of many their number alone.
fn rows(alloc: Global, rows: &[List<Value>], out: &mut Bytes) -> Result<(), NoMemory> {
    if rows.is_empty() {
        return out.extend(b"no row");
    }
    if rows.len() > 100 {
        return number(alloc, "rows ", rows.len() as u64, out);
    }
    for (at, values) in rows.iter().enumerate() {
        if at > 0 {
            out.push(b' ')?;
        }
        row(alloc, values.as_slice(), out)?;
    }
    Ok(())
}

/// The number of an edition, and the names of the objects and tables that it sees.
fn view(alloc: Global, v: &EditionView, out: &mut Bytes) -> Result<(), NoMemory> {
    number(alloc, "edition ", u64::from(v.edition.0), out)?;
    let objects = v.objects.to_list(alloc)?;
    for object in objects.as_slice() {
        named(b" ", &object.get().key.name, out)?;
    }
    for table in v.tables.get().as_slice() {
        named(b" ", &table.name, out)?;
    }
    Ok(())
}

/// What the engine answered.
pub fn answer(alloc: Global, given: &Answer, out: &mut Bytes) -> Result<(), NoMemory> {
    match given {
        Answer::View(v) => view(alloc, v.get(), out),
        Answer::Rows(found) => rows(alloc, found.get().as_slice(), out),
        Answer::Count { n, .. } => number(alloc, "rows ", *n, out),
        Answer::Done => out.extend(b"OK"),
        Answer::Invalid => out.extend(b"INVALID"),
        Answer::Refused { code, .. } => code.append_to(out),
        Answer::DiskFault => out.extend(b"DISK FAULT"),
        Answer::NoMemory => Err(NoMemory),
        Answer::Stopped => out.extend(b"STOPPED"),
    }
}

/// What was asked.
fn ask(given: &Ask, out: &mut Bytes) -> Result<(), NoMemory> {
    match given {
        Ask::Begin => out.extend(b"begin"),
        Ask::Sql { .. } => out.extend(b"sql"),
        Ask::Commit => out.extend(b"commit"),
        Ask::Rollback => out.extend(b"rollback"),
        Ask::Savepoint(name) => named(b"savepoint ", name, out),
        Ask::BackTo(name) => named(b"back to ", name, out),
        Ask::Ddl { text, .. } => {
            out.extend(b"definition ")?;
            out.extend(text.get().as_slice())
        }
        Ask::SetEdition(name) => named(b"edition ", name, out),
        Ask::PushAuto => out.extend(b"push"),
        Ask::PopAuto { failed: false } => out.extend(b"pop"),
        Ask::PopAuto { failed: true } => out.extend(b"pop failed"),
        Ask::EndCall { failed: false } => out.extend(b"end"),
        Ask::EndCall { failed: true } => out.extend(b"fail"),
        Ask::Leave => out.extend(b"leave"),
    }
}

/// Entries with `; ` between them: the session, what it asked, and the answer.
pub fn entries(alloc: Global, history: &[Entry], out: &mut Bytes) -> Result<(), NoMemory> {
    for (at, entry) in history.iter().enumerate() {
        if at > 0 {
            out.extend(b"; ")?;
        }
        number(alloc, "", u64::from(entry.session.0), out)?;
        out.push(b' ')?;
        ask(&entry.ask, out)?;
        out.extend(b": ")?;
        answer(alloc, &entry.answer, out)?;
    }
    Ok(())
}

/// What a record is, with the number of a commit's changes.
fn record(alloc: Global, kept: &Record, out: &mut Bytes) -> Result<(), NoMemory> {
    match kept {
        Record::Commit(changes) => number(alloc, "commit ", changes.len() as u64, out),
        Record::Edition { name, .. } => named(b"edition ", name, out),
        Record::EditionGone(e) => number(alloc, "drop edition ", u64::from(e.0), out),
        Record::Default(e) => number(alloc, "default ", u64::from(e.0), out),
        Record::Object { edition, .. } => number(alloc, "object ", u64::from(edition.0), out),
        Record::Gone { name, .. } => named(b"gone ", name, out),
        Record::Table { name, .. } => named(b"table ", name, out),
        Record::Column { column, .. } => named(b"column ", &column.name, out),
        Record::TableGone(table) => number(alloc, "drop table ", u64::from(table.0), out),
    }
}

/// Records, each on a line.
pub fn records(alloc: Global, kept: &[Record], out: &mut Bytes) -> Result<(), NoMemory> {
    for one in kept {
        record(alloc, one, out)?;
        out.push(b'\n')?;
    }
    Ok(())
}
