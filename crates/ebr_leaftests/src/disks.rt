//! Disks in memory and in files.

use crate::answers::release;
use crate::outside::{failing, file};
use ebr_base::{Bytes, List, NoMemory};
use ebr_outside::{
    Disk, DiskCall, DiskErr, FileDisk, FileHost, Host, HostCall, HostErr, HostMethod, MemDisk,
    MemHost, OpenGate, Sink,
};
use std::alloc::Global;
use std::os::unix::fs::symlink;
use std::{fs, io};

/// Writes a piece within a disk or at its end.
fn write<D: Disk>(disk: &mut D, at: u64, piece: &[u8]) -> Result<(), DiskErr> {
    if at > disk.len()? {
        return Err(DiskErr::Failed);
    }
    disk.write_at(at, piece)
}

/// Cuts a disk to a length that it has.
fn cut<D: Disk>(disk: &mut D, len: u64) -> Result<(), DiskErr> {
    if len > disk.len()? {
        return Err(DiskErr::Failed);
    }
    disk.cut(len)
}

/// Makes `aX12` of a disk of `abcdef`. Behind the sync there are a write and a cut.
fn change<D: Disk>(disk: &mut D) -> Result<(), DiskErr> {
    write(disk, 1, b"XY")?;
    disk.sync()?;
    write(disk, 2, b"12")?;
    cut(disk, 4)
}

/// Whether a disk reads as these bytes, of which there are at most eight.
fn reads<D: Disk>(disk: &mut D, wanted: &[u8]) -> Result<bool, DiskErr> {
    let mut room = [0; 8];
    let len = disk.len()?;
    if len > 8 || len != wanted.len() as u64 {
        return Ok(false);
    }
    let into = &mut room[..wanted.len()];
    disk.read(0, into)?;
    Ok(*into == *wanted)
}

/// Whether a disk of `abcdef` is changed so.
fn changes<D: Disk>(disk: &mut D) -> bool {
    change(disk).is_ok() && reads(disk, b"aX12") == Ok(true)
}

/// A disk in memory.
fn mem_disk(alloc: Global, bytes: &[u8], at: u32) -> Result<MemDisk, NoMemory> {
    let bytes = Bytes::from_slice(alloc, bytes)?;
    MemDisk::new(alloc, bytes, failing(alloc, at, true)?)
}

/// Whether a crash leaves this image for a pick.
fn leaves(disk: &MemDisk, pick: u64, image: &[u8]) -> Result<bool, NoMemory> {
    let left = disk.after_crash(pick)?;
    let same = left.bytes() == image;
    release(left);
    Ok(same)
}

/// Whether a crash leaves these images, for the picks from 0 on.
fn leaves_all(disk: &MemDisk, images: &[&[u8]]) -> Result<bool, NoMemory> {
    for (pick, image) in images.iter().enumerate() {
        if !leaves(disk, pick as u64, image)? {
            return Ok(false);
        }
    }
    Ok(true)
}

/// What the sync left, what a read gives, and then the write's first half, its second half, and the same four with the cut.
static CHANGED: [&[u8]; 8] = [
    b"aXYdef", b"aX12", b"aX1def", b"aXY2ef", b"aXYd", b"aX12", b"aX1d", b"aXY2",
];

fn changed_disk_leaves(alloc: Global) -> Result<bool, NoMemory> {
    let mut disk = mem_disk(alloc, b"abcdef", u32::MAX)?;
    let changed = changes(&mut disk);
    let left = leaves_all(&disk, &CHANGED);
    release(disk);
    Ok(changed && left?)
}

#[test]
fn a_crash_leaves_each_call_behind_the_last_sync_whole_or_in_part_or_not(
    rt: HostRuntime,
) -> Result<(), std::test::Fail> {
    assert!(rt; changed_disk_leaves(rt.alloc())?);
    Ok(())
}

/// Of a disk of `ab`, on which the write of `XY` failed.
static TORN: [&[u8]; 4] = [b"ab", b"ab", b"Xb", b"aY"];

/// Whether one call is kept, a write that failed.
fn keeps_failed_write(past: &[DiskCall]) -> bool {
    match past {
        [DiskCall::Write { at, piece, done }] => *at == 0
            && piece.as_slice() == b"XY".as_slice()
            && !*done,
        _ => false,
    }
}

fn failed_write_leaves(alloc: Global) -> Result<bool, NoMemory> {
    let mut disk = mem_disk(alloc, b"ab", 2)?;
    let failed = write(&mut disk, 0, b"XY") == Err(DiskErr::Failed)
        && disk.bytes() == b"ab".as_slice()
        && keeps_failed_write(disk.past());
    let left = leaves_all(&disk, &TORN);
    release(disk);
    Ok(failed && left?)
}

#[test]
fn a_crash_leaves_parts_of_a_write_that_failed(rt: HostRuntime) -> Result<(), std::test::Fail> {
    assert!(rt; failed_write_leaves(rt.alloc())?);
    Ok(())
}

/// Whether each call of a disk that fails from the first call on is answered so.
fn fails(disk: &mut MemDisk) -> bool {
    let mut into = [];
    disk.len() == Err(DiskErr::Failed)
        && disk.read(0, &mut into) == Err(DiskErr::Failed)
        && disk.write_at(0, b"X") == Err(DiskErr::Failed)
        && disk.cut(0) == Err(DiskErr::Failed)
        && disk.sync() == Err(DiskErr::Failed)
}

fn failing_disk_fails(alloc: Global) -> Result<bool, NoMemory> {
    let mut disk = mem_disk(alloc, b"", 1)?;
    let fails = fails(&mut disk);
    release(disk);
    Ok(fails)
}

#[test]
fn each_call_of_a_disk_may_fail(rt: HostRuntime) -> Result<(), std::test::Fail> {
    assert!(rt; failing_disk_fails(rt.alloc())?);
    Ok(())
}

/// Whether the disk that a word names reads as these bytes.
pub fn names<H: Host>(
    alloc: Global,
    host: &mut H,
    word: &[u8],
    wanted: &[u8],
) -> Result<bool, HostErr> {
    let mut disk = host.disk(&Bytes::from_slice(alloc, word)?)?;
    let read = reads(&mut disk, wanted);
    release(disk);
    Ok(read == Ok(true))
}

/// A host with a file whose disk fails from its second call on. The third call of the host fails.
fn mem_host(alloc: Global) -> Result<MemHost, NoMemory> {
    let mut made = file(alloc, b"a.jnl", b"abc", List::new(alloc))?;
    made.disk = failing(alloc, 2, true)?;
    let mut files = List::new(alloc);
    files.push(made)?;
    let failing = failing(alloc, 3, false)?;
    Ok(MemHost::new(alloc, files, List::new(alloc), failing, OpenGate))
}

/// Whether a call is of a disk, and failed or not.
fn is_of_disk(call: Option<&HostCall>, word: &[u8], failed: bool) -> bool {
    match call {
        Some(call) => {
            call.method == HostMethod::Disk && call.word.as_slice() == word && call.failed == failed
        }
        None => false,
    }
}

fn opens(alloc: Global, host: &mut MemHost) -> bool {
    let opened = names(alloc, host, b"a.jnl", b"abc") == Ok(false)
        && names(alloc, host, b"b.jnl", b"") == Ok(true)
        && names(alloc, host, b"b.jnl", b"") == Err(HostErr::Failed);
    let calls = host.calls();
    opened && is_of_disk(calls.first(), b"a.jnl", false) && is_of_disk(calls.last(), b"b.jnl", true)
}

fn host_opens(alloc: Global) -> Result<bool, NoMemory> {
    let mut host = mem_host(alloc)?;
    let opens = opens(alloc, &mut host);
    release(host);
    Ok(opens)
}

#[test]
fn a_host_in_memory_opens_the_disk_of_a_word_that_no_file_has(
    rt: HostRuntime,
) -> Result<(), std::test::Fail> {
    assert!(rt; host_opens(rt.alloc())?);
    Ok(())
}

/// Whether a disk in a file refuses what lies behind its end, which is at 4.
fn ends(disk: &mut FileDisk) -> bool {
    let mut into = [0; 2];
    disk.read(3, &mut into) == Err(DiskErr::Failed)
        && disk.write_at(5, b"x") == Err(DiskErr::Failed)
        && disk.cut(5) == Err(DiskErr::Failed)
        && disk.len() == Ok(4)
}

/// Changes the disk of a word, and sees that it is locked.
fn change_file(alloc: Global, host: &mut FileHost, word: &Bytes) -> Result<bool, HostErr> {
    let mut disk = host.disk(word)?;
    let changed = write(&mut disk, 0, b"abcdef").is_ok() && changes(&mut disk) && ends(&mut disk);
    let locked = names(alloc, host, word.as_slice(), b"aX12") == Err(HostErr::Failed);
    release(disk);
    Ok(changed && locked)
}

fn file_keeps(alloc: Global, host: &mut FileHost) -> Result<bool, HostErr> {
    let word = Bytes::from_slice(alloc, b"kept.jnl")?;
    Ok(change_file(alloc, host, &word)? && names(alloc, host, b"kept.jnl", b"aX12")?)
}

#[test]
fn a_file_keeps_what_was_written_and_is_locked_while_it_is_a_disk(
    rt: HostRuntime,
) -> Result<(), std::test::Fail> {
    let mut host = FileHost::new(rt, List::new(rt.alloc()));
    assert!(rt; matches!(file_keeps(rt.alloc(), &mut host), Ok(true)));
    Ok(())
}

/// Words that are no disk: a folder, devices, a file that isn't in a folder, one in a folder that isn't there, what is no path.
static NO_DISKS: [&[u8]; 6] = [
    b"/",
    b"/dev/null",
    b"/dev/zero",
    b"/dev/null/missing",
    b"missing/a.jnl",
    b"\xff",
];

fn opens_none(alloc: Global, host: &mut FileHost) -> bool {
    for word in &NO_DISKS {
        if names(alloc, host, word, b"") != Err(HostErr::Failed) {
            return false;
        }
    }
    true
}

#[test]
fn disks_that_cannot_be_opened_are_faults(rt: HostRuntime) -> Result<(), std::test::Fail> {
    let mut host = FileHost::new(rt, List::new(rt.alloc()));
    assert!(rt; opens_none(rt.alloc(), &mut host));
    Ok(())
}

/// The words of a command line.
pub fn words(alloc: Global, words: &[&[u8]]) -> Result<List<Bytes>, NoMemory> {
    let mut owned = List::new(alloc);
    for word in words {
        owned.push(Bytes::from_slice(alloc, word)?)?;
    }
    Ok(owned)
}

/// A script, a link to it, and a link to a file that isn't there yet.
fn make_files(rt: &HostRuntime) -> io::Result<()> {
    fs::write(rt, "script.sql", "text")?;
    fs::hard_link(rt, "script.sql", "linked.sql.out")?;
    symlink(rt, "script.sql", "symlinked.sql.out")?;
    symlink(rt, "later.sql.out", "later.jnl")
}

/// Whether a host makes a sink of a word, or fails.
pub fn makes_sink(alloc: Global, host: &mut FileHost, word: &[u8]) -> Result<bool, NoMemory> {
    let word = Bytes::from_slice(alloc, word)?;
    match host.sink(&word) {
        Ok(mut sink) => Ok(sink.write(b"x") == Ok(1)),
        Err(HostErr::Failed) => Ok(false),
        Err(HostErr::NoMemory) => Err(NoMemory),
    }
}

/// The command line, and the words of which no sink is made with it.
static WORDS: [&[u8]; 4] = [b"rehearse", b"a.jnl", b"order", b"script.sql"];

static TAKEN: [&[u8]; 4] = [
    b"script.sql",
    b"./script.sql",
    b"linked.sql.out",
    b"symlinked.sql.out",
];

fn makes_none(alloc: Global, host: &mut FileHost) -> Result<bool, NoMemory> {
    for word in &TAKEN {
        if makes_sink(alloc, host, word)? {
            return Ok(false);
        }
    }
    Ok(true)
}

/// Whether no sink is made of a script, by whatever name, nor twice of a file, and no disk of a sink or of a script.
fn keeps_apart(alloc: Global, host: &mut FileHost) -> Result<bool, NoMemory> {
    Ok(
        makes_none(alloc, host)?
            && makes_sink(alloc, host, b"later.sql.out")?
            && !makes_sink(alloc, host, b"./later.sql.out")?
            && names(alloc, host, b"later.jnl", b"x") == Err(HostErr::Failed)
            && names(alloc, host, b"./script.sql", b"text") == Err(HostErr::Failed)
            && names(alloc, host, b"script.sql", b"text") == Ok(true),
    )
}

#[test]
fn no_sink_is_a_script_and_no_disk_is_a_sink_by_whatever_name(
    rt: HostRuntime,
) -> Result<(), std::test::Fail> {
    let alloc = rt.alloc();
    make_files(&rt)?;
    let mut host = FileHost::new(rt, words(alloc, &WORDS)?);
    assert!(rt; keeps_apart(alloc, &mut host)?);
    Ok(())
}

#[test]
fn a_refusal_of_a_disk_is_printed_by_its_cause(rt: HostRuntime) -> Result<(), std::test::Fail> {
    let memory = DiskErr::from(NoMemory);
    let text = format!(in rt.alloc(); "{}, {}", DiskErr::Failed, memory)?;
    assert_eq!(rt; text.as_str(), "the disk failed, out of memory");
    Ok(())
}
