//! Files that are opened, and the calls that are made on them.

ghost use Rattle.ebr_record.specs.Payload.{HasPayload};

use crate::records::{
    edition, editions, found_on, new, ok, old, old_continued, release, sound_disk,
};
use ebr_base::{Bytes, NoMemory};
use ebr_journal::{Journal, StartWhy, Upgraded, scan};
use ebr_outside::{DiskCall, MemDisk};
use ebr_record::{Keep, Record};
use std::alloc::Global;
use std::test::Fail;

/// What is found in a file: a digit, the number of its records, of which there are at most nine; or a letter, the place of its
/// damage, from `A` on for 0.
fn verdict(alloc: Global, bytes: &[u8]) -> Result<u8, NoMemory> {
    let mut disk = sound_disk(alloc, bytes)?;
    match scan(alloc, &mut disk) {
        Ok(found) => Ok(b'0' + (found.records.len() % 10) as u8),
        Err(StartWhy::Damaged { at, .. }) => Ok(b'A' + (at % 26) as u8),
        Err(_) => Err(NoMemory),
    }
}

/// What is found in each front of a file, the shortest first.
fn fronts(alloc: Global, file: &[u8]) -> Result<Bytes, NoMemory> {
    let mut told = Bytes::new(alloc);
    for len in 0..=file.len() {
        told.push(verdict(alloc, &file[..len])?)?;
    }
    Ok(told)
}

/// A file with one byte turned round.
fn flipped(alloc: Global, file: &[u8], at: usize) -> Result<Bytes, NoMemory> {
    let mut bytes = Bytes::new(alloc);
    for (place, byte) in file.iter().enumerate() {
        bytes.push(if place == at { 255 - *byte } else { *byte })?;
    }
    Ok(bytes)
}

/// What is found in each file that has one byte of this turned round, the first byte first.
fn flips(alloc: Global, file: &[u8]) -> Result<Bytes, NoMemory> {
    let mut told = Bytes::new(alloc);
    for at in 0..file.len() {
        told.push(verdict(alloc, flipped(alloc, file, at)?.as_slice())?)?;
    }
    Ok(told)
}

fn is_judged(alloc: Global, bytes: &[u8], wanted: u8) -> bool {
    verdict(alloc, bytes) == Ok(wanted)
}

fn blank_files_have_no_records(alloc: Global) -> bool {
    is_judged(alloc, b"", b'0')
        && is_judged(alloc, b"\x01", b'0')
        && is_judged(alloc, b"\x00\x07", b'0')
        && is_judged(alloc, b"\x01\x00", b'0')
        && is_judged(alloc, b"\x01\x05\xff", b'0')
        && is_judged(alloc, b"\x01\x00\x00\x00\x00\x08\x02\x02V2", b'0')
}

fn damage_is_found(alloc: Global) -> bool {
    is_judged(alloc, b"\x02\x00\x00", b'A')
        && is_judged(alloc, b"\x01\x01", b'B')
        && is_judged(alloc, b"\x01\x01\x00\x00\x00\x00\x00", b'B')
        && is_judged(
            alloc,
            b"\x01\x01\x00\x00\x00\x08\x02\x02V2\x00\x00\x00\x01",
            b'B',
        )
        && is_judged(
            alloc,
            b"\x01\x01\x00\x00\x00\x08\x02\x02V2\x00\x00\x00\x01\x01",
            b'O',
        )
}

fn misspelled_records_are_found(alloc: Global) -> bool {
    is_judged(
        alloc,
        b"\x01\x01\x00\x00\x00\x08\x0a\x02V2\x00\x00\x00\x01\x00",
        b'B',
    ) && is_judged(
        alloc,
        b"\x01\x01\x00\x00\x00\x08\x02\x02v2\x00\x00\x00\x01\x00",
        b'B',
    ) && is_judged(
        alloc,
        b"\x01\x01\x00\x00\x00\x02\x0a\x02\x01\x00\x00\x00\x02\x0a\x02\x00",
        b'I',
    )
}

fn what_stands_behind_is_not_read(alloc: Global) -> bool {
    is_judged(
        alloc,
        b"\x01\x01\x00\x00\x00\x08\x02\x02V2\x00\x00\x00\x01\x00\x01\x01",
        b'1',
    ) && is_judged(
        alloc,
        b"\x01\x01\x00\x00\x00\x08\x02\x02V2\x00\x00\x00\x01\x07",
        b'1',
    )
}

#[test]
fn files_are_whole_or_damaged(rt: HostRuntime) -> Result<(), Fail> {
    let alloc = rt.alloc();
    assert!(rt; blank_files_have_no_records(alloc));
    assert!(rt; damage_is_found(alloc));
    assert!(rt; misspelled_records_are_found(alloc));
    assert!(rt; what_stands_behind_is_not_read(alloc));
    Ok(())
}

fn is_told(told: Result<Bytes, NoMemory>, wanted: &[u8]) -> bool {
    match &told {
        Ok(told) => told.as_slice() == wanted,
        Err(NoMemory) => false,
    }
}

#[test]
fn each_front_of_a_file_is_judged(rt: HostRuntime) -> Result<(), Fail> {
    let alloc = rt.alloc();
    assert!(rt; is_told(fronts(alloc, old()), b"00BBBBBBBBBBBBB1"));
    assert!(rt; is_told(fronts(alloc, new()), b"00BBBBBBBIIIIIIIIIIIIIIIII1"));
    assert!(rt;
        is_told(
            fronts(alloc, old_continued()),
            b"00BBBBBBBBBBBBBOOOOOOOVVVVVVVVVVVVVVVVV2"
        )
    );
    Ok(())
}

#[test]
fn each_byte_of_a_file_turned_round_is_judged(rt: HostRuntime) -> Result<(), Fail> {
    let alloc = rt.alloc();
    assert!(rt; is_told(flips(alloc, old()), b"A0BBBBBBBB11111"));
    assert!(rt; is_told(flips(alloc, new()), b"A0BBBBBB0IIIIIIIIIIII11111"));
    assert!(rt;
        is_told(
            flips(alloc, old_continued()),
            b"A0BBBBBBBB22221OOOOOO1VVVVVVVVVVVV22222"
        )
    );
    Ok(())
}

/// The first so many bytes, or all where there are fewer.
fn front(bytes: &[u8], len: usize) -> &[u8] {
    &bytes[..len.min(bytes.len())]
}

/// The names of the editions in front of a file's damage.
fn before(alloc: Global, bytes: &[u8]) -> Result<Bytes, NoMemory> {
    let mut disk = sound_disk(alloc, bytes)?;
    match &scan(alloc, &mut disk) {
        Err(StartWhy::Damaged { before, .. }) => editions(alloc, before),
        _ => Err(NoMemory),
    }
}

#[test]
fn the_records_before_a_damaged_place_are_told(rt: HostRuntime) -> Result<(), Fail> {
    let alloc = rt.alloc();
    assert!(rt; is_told(before(alloc, front(old_continued(), 30)), b"V2"));
    assert!(rt; is_told(before(alloc, front(old_continued(), 14)), b""));
    assert!(rt;
        is_told(
            found_on(alloc, sound_disk(alloc, old_continued())?),
            b"V2V3"
        )
    );
    Ok(())
}

/// The disk of a journal, where its calls went well.
fn if_done(done: bool, disk: MemDisk) -> Result<MemDisk, NoMemory> {
    if done {
        return Ok(disk);
    }
    release(disk);
    Err(NoMemory)
}

/// The disk of a journal without the mark, that is appended to.
fn appended(alloc: Global, bytes: &[u8], r: &Record) -> Result<MemDisk, NoMemory>
    requires { HasPayload r.now }
{
    let disk = sound_disk(alloc, bytes)?;
    let (mut journal, found) = ok(Journal::start(alloc, disk))?;
    release(found);
    let done = journal.takes(r) && journal.append(r).is_ok();
    if_done(done, journal.into_disk())
}

/// Keeps a record, whatever the keeper is.
fn keeps<K: Keep>(keeper: &mut K, r: &Record) -> bool
    requires { HasPayload r.now }
{
    keeper.keep(r).is_ok() && !keeper.is_stopped()
}

/// The disk of a journal that gets the mark, twice, and then a record.
fn continued(alloc: Global, bytes: &[u8], r: &Record) -> Result<MemDisk, NoMemory>
    requires { HasPayload r.now }
{
    let disk = sound_disk(alloc, bytes)?;
    let (mut journal, found) = ok(Journal::start(alloc, disk))?;
    release(found);
    ok(journal.upgrade())?;
    ok(journal.upgrade())?;
    let mut keeper = Upgraded::new(journal);
    let done = keeps(&mut keeper, r);
    if_done(done, keeper.into_journal().into_disk())
}

#[test]
fn records_are_kept_in_the_form_that_follows(rt: HostRuntime) -> Result<(), Fail> {
    let alloc = rt.alloc();
    let second = edition(alloc, b"v2", 1)?;
    let third = edition(alloc, b"v3", 2)?;
    assert!(rt; appended(alloc, b"", &second)?.bytes() == old());
    assert!(rt; continued(alloc, b"", &second)?.bytes() == new());
    assert!(rt; continued(alloc, old(), &third)?.bytes() == old_continued());
    Ok(())
}

/// The changing calls of a disk as bytes: for each a letter, and for a write its place and the piece.
fn calls_of(alloc: Global, disk: &MemDisk) -> Result<Bytes, NoMemory> {
    let mut told = Bytes::new(alloc);
    for call in disk.past() {
        tell(&mut told, call)?;
    }
    Ok(told)
}

fn tell(told: &mut Bytes, call: &DiskCall) -> Result<(), NoMemory> {
    match call {
        DiskCall::Write { at, piece, .. } => {
            told.push(b'w')?;
            told.push((*at % 256) as u8)?;
            told.extend(piece.as_slice())
        }
        DiskCall::Cut { .. } => told.push(b'c'),
        DiskCall::Sync => told.push(b's'),
    }
}

#[test]
fn a_blank_file_is_made_a_journal_by_these_calls(rt: HostRuntime) -> Result<(), Fail> {
    let alloc = rt.alloc();
    let disk = continued(alloc, b"", &edition(alloc, b"v2", 1)?)?;
    let mut wanted = Bytes::new(alloc);
    wanted.extend(b"scsw\x00\x00sw\x01\x00sw\x00\x01s")?;
    wanted.extend(b"w\x02\x00\x00\x00\x02\x0a\x02\x00sw\x01\x01s")?;
    wanted.extend(
        b"w\x09\x00\x00\x00\x00\x00\x00\x00\x08\x02\x02V2\x00\x00\x00\x01\x00sw\x08\x01s",
    )?;
    assert!(rt; is_told(calls_of(alloc, &disk), wanted.as_slice()));
    Ok(())
}

/// A journal of so many editions in the short form.
fn many(alloc: Global, count: u32) -> Result<Bytes, NoMemory> {
    let mut bytes = Bytes::new(alloc);
    bytes.push(1)?;
    for _ in 0..count {
        bytes.extend(b"\x01\x00\x00\x00\x08\x02\x02V2\x00\x00\x00\x01")?;
    }
    bytes.push(0)?;
    Ok(bytes)
}

#[test]
fn a_file_of_several_pieces_is_read(rt: HostRuntime) -> Result<(), Fail> {
    let alloc = rt.alloc();
    let mut disk = sound_disk(alloc, many(alloc, 12_000)?.as_slice())?;
    let found = ok(scan(alloc, &mut disk))?;
    assert!(rt; found.records.len() == 12_000 && found.short == 12_000);
    Ok(())
}
