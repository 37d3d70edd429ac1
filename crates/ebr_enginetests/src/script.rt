//! Scripts of several sessions, each line with what it answers.

ghost use Rattle.std.specs.Prelude.{◌≡◌, ◌&&◌, false};
ghost use Rattle.std.specs.List.{list_any};
ghost use Rattle.ebr_asks.specs.declared.entry.Entry.{Entry};
ghost use Rattle.ebr_core.specs.Engine.{database_of};
ghost use Rattle.ebr_core.specs.History.{IsLive, is_of, is_short, wants};

use crate::asking::{ask_of, release};
use crate::printing::{answer, entries, records};
use ebr_asks::{Answer, Entry};
use ebr_base::{Bytes, NoMemory, SessionId, rest_from};
use ebr_core::Engine;
use ebr_record::ListKeep;
use std::alloc::Global;

/// The first word, and the rest.
fn first_word(text: &str) -> (&str, &str) {
    match text.split_once(' ') {
        Some((word, rest)) => (word, rest),
        None => (text, ""),
    }
}

/// A number; where the text is none, the test fails with want of memory.
pub fn number(text: &str) -> Result<u32, NoMemory> {
    match text.parse::<u32>() {
        Ok(n) => Ok(n),
        Err(_) => Err(NoMemory),
    }
}

/// Whether an answer is that there is no memory.
fn wants(answer: &Answer) -> bool
    ensures { result ≡ wants answer.now }
{
    matches!(answer, Answer::NoMemory)
}

/// Whether an entry is of this session, which was answered so.
fn is_want(entry: &Entry, s: SessionId) -> bool
    ensures { result ≡ (is_of s entry.now && wants entry.now.answer) }
{
    entry.session.0 == s.0 && wants(&entry.answer)
}

fn any_want(history: &[Entry], s: SessionId) -> bool
    ensures { result ≡ list_any (λ (x : Entry). is_of s x && wants x.answer) history.now }
{
    history.iter().any(|entry| is_want(entry, s))
}

/// Whether a session was answered that there is no memory.
fn is_short(history: &[Entry], s: SessionId) -> bool
    ensures { result ≡ is_short history.now s }
{
    any_want(history, s)
}

/// What a live session is answered that may ask more than Leave.
fn answered(
    alloc: Global,
    engine: &mut Engine<ListKeep>,
    s: SessionId,
    text: &str,
) -> Result<Bytes, NoMemory>
    requires live { IsLive (database_of engine.old) s }
    requires long { is_short engine.old.history s ≡ false }
{
    let mut out = Bytes::new(alloc);
    let ask = ask_of(alloc, text)?;
    let given = engine.answer(s, ask);
    let printed = answer(alloc, &given, &mut out);
    release(given);
    printed?;
    Ok(out)
}

/// What a session is answered; nothing where it isn't there, or has left.
fn said(
    alloc: Global,
    engine: &mut Engine<ListKeep>,
    s: SessionId,
    text: &str,
) -> Result<Bytes, NoMemory> {
    if is_short(engine.history(), s) {
        return Err(NoMemory);
    }
    if engine.live(s) {
        answered(alloc, engine, s, text)
    } else {
        Bytes::from_slice(alloc, b"not there")
    }
}

/// What the last one is answered of so many asks.
fn repeated(
    alloc: Global,
    engine: &mut Engine<ListKeep>,
    s: SessionId,
    text: &str,
) -> Result<Bytes, NoMemory> {
    let (times, text) = first_word(text);
    let mut last = Bytes::new(alloc);
    for _turn in 0..number(times)? {
        last = said(alloc, engine, s, text)?;
    }
    Ok(last)
}

/// Whether a book is set aside, which is taken.
fn book(alloc: Global, engine: &mut Engine<ListKeep>, s: SessionId) -> Result<Bytes, NoMemory> {
    let taken = engine.take_book(s);
    let is_there = taken.is_some();
    release(taken);
    Bytes::from_slice(alloc, if is_there { b"a book" } else { b"no book" })
}

/// The entries from the one with this number on, counted from 0.
fn history_from(alloc: Global, engine: &Engine<ListKeep>, from: &str) -> Result<Bytes, NoMemory> {
    let from = number(from)? as usize;
    if from > engine.history().len() {
        return Err(NoMemory);
    }
    let mut out = Bytes::new(alloc);
    entries(alloc, rest_from(engine.history(), from), &mut out)?;
    Ok(out)
}

/// What a line gives, whose first word is a session's number.
fn line(alloc: Global, engine: &mut Engine<ListKeep>, text: &str) -> Result<Bytes, NoMemory> {
    let (s, text) = first_word(text);
    let s = SessionId(number(s)?);
    let (word, rest) = first_word(text);
    match word {
        "repeat" => repeated(alloc, engine, s, rest),
        "book" => book(alloc, engine, s),
        "history" => history_from(alloc, engine, rest),
        _ => said(alloc, engine, s, text),
    }
}

/// A line, and what is wanted of it: what stands behind ` => `, or else that it is done.
fn parted(text: &str) -> (&str, &str) {
    match text.split_once(" => ") {
        Some((text, wanted)) => (text, wanted),
        None => (text, "OK"),
    }
}

/// What a line gives that is something else than it says.
fn fault(
    alloc: Global,
    engine: &mut Engine<ListKeep>,
    text: &str,
) -> Result<Option<String>, NoMemory> {
    let (text, wanted) = parted(text);
    let found = line(alloc, engine, text)?;
    if found.as_slice() == wanted.as_bytes() {
        return Ok(None);
    }
    Ok(Some(format!(in alloc; "{text} gives {found:?}")?))
}

/// The first fault of these lines.
pub fn fault_of(
    alloc: Global,
    engine: &mut Engine<ListKeep>,
    lines: &str,
) -> Result<Option<String>, NoMemory> {
    let mut left = lines;
    for _turn in 0..lines.len() {
        let Some((text, rest)) = left.split_once('\n') else {
            return Ok(None);
        };
        let found = fault(alloc, engine, text)?;
        if found.is_some() {
            return Ok(found);
        }
        left = rest;
    }
    Ok(None)
}

/// The keeper of an engine.
pub fn kept_by(engine: Engine<ListKeep>) -> ListKeep
    ensures { result ≡ engine.keeper }
{
    let (recovered, history, keeper) = engine.into_parts();
    release(recovered);
    release(history);
    keeper
}

/// The records that were kept, where they are others than these.
fn kept_fault(
    alloc: Global,
    engine: Engine<ListKeep>,
    wanted: &str,
) -> Result<Option<String>, NoMemory> {
    let keeper = kept_by(engine);
    let mut out = Bytes::new(alloc);
    let printed = records(alloc, keeper.records(), &mut out);
    release(keeper);
    printed?;
    if out.as_slice() == wanted.as_bytes() {
        return Ok(None);
    }
    Ok(Some(format!(in alloc; "{out:?} is kept")?))
}

/// A table with two rows.
const SETUP: &str = "\
1 CREATE TABLE t (id NUMBER(9) PRIMARY KEY, n NUMBER(9))
1 INSERT INTO t VALUES (1, 10) => rows 1
1 INSERT INTO t VALUES (2, 20) => rows 1
1 COMMIT
";

/// The first fault of these lines, behind those that make the table.
fn fault_behind(
    alloc: Global,
    engine: &mut Engine<ListKeep>,
    lines: &str,
) -> Result<Option<String>, NoMemory> {
    let found = fault_of(alloc, engine, SETUP)?;
    if found.is_some() {
        return Ok(found);
    }
    fault_of(alloc, engine, lines)
}

/// An engine with three sessions, whose keeper fails at its call of this number; at none where it is 0.
fn engine_of(alloc: Global, failing: u32) -> Result<Engine<ListKeep>, NoMemory> {
    Engine::start(alloc, ListKeep::new(alloc, &[failing])?, 3)
}

/// The first fault of a script: of its lines, or of what is kept in the end.
fn first_fault(
    alloc: Global,
    failing: &str,
    lines: &str,
    kept: &str,
) -> Result<Option<String>, NoMemory> {
    let mut engine = engine_of(alloc, number(failing)?)?;
    let found = fault_behind(alloc, &mut engine, lines);
    if let Ok(None) = found {
        return kept_fault(alloc, engine, kept);
    }
    release(engine);
    found
}

/// A part of a table, before its next `~`, and the rest.
pub fn part(table: &str) -> Result<(&str, &str), NoMemory> {
    table.split_once('~').ok_or(NoMemory)
}

/// The first fault of the first script of a table, behind the script's title, and the scripts behind it.
fn first_of(alloc: Global, table: &str) -> Result<(Option<String>, &str), NoMemory> {
    let (_, rest) = part(table)?;
    let (failing, rest) = part(rest)?;
    let (lines, rest) = part(rest)?;
    let (kept, rest) = part(rest)?;
    Ok((first_fault(alloc, failing, lines, kept)?, rest))
}

/// The first fault of a table of scripts. A script is a title, the number of the call at which the keeper fails, lines and what
/// is kept in the end, with `~` behind each.
pub fn fault_in(alloc: Global, table: &str) -> Result<Option<String>, NoMemory> {
    let mut left = table;
    for _turn in 0..table.len() {
        if left.is_empty() {
            return Ok(None);
        }
        let (found, rest) = first_of(alloc, left)?;
        if found.is_some() {
            return Ok(found);
        }
        left = rest;
    }
    Ok(None)
}
