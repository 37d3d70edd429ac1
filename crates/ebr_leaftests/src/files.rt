//! Files that others use, that are only read, or that links lead to.

use crate::answers::release;
use crate::disks::{makes_sink, names, words};
use ebr_base::{Bytes, List};
use ebr_outside::{Disk, DiskErr, FileHost, Host, HostErr, Sink};
use std::alloc::Global;
use std::fs;
use std::os::unix::fs::symlink;

/// A command line by which a disk is only read.
static DUMP: [&[u8]; 2] = [b"dump", b"read.jnl"];

/// Whether a host that only reads a disk has it twice, refuses to write, and another host has it meanwhile.
fn reads_together(
    alloc: Global,
    reader: &mut FileHost,
    writer: &mut FileHost,
) -> Result<(bool, bool), HostErr> {
    let mut disk = reader.disk(&Bytes::from_slice(alloc, b"read.jnl")?)?;
    let reads = names(alloc, reader, b"read.jnl", b"abc") == Ok(true)
        && disk.write_at(3, b"x") == Err(DiskErr::Failed);
    let shared = names(alloc, writer, b"read.jnl", b"abc") != Err(HostErr::Failed);
    release(disk);
    Ok((reads, shared))
}

#[test]
fn dump_only_reads_a_disk_and_makes_none(rt: HostRuntime) -> Result<(), std::test::Fail> {
    let alloc = rt.alloc();
    let mut reader = FileHost::new(rt, words(alloc, &DUMP)?);
    let mut writer = FileHost::new(rt, List::new(alloc));
    assert!(rt; names(alloc, &mut reader, b"read.jnl", b"") == Err(HostErr::Failed));
    assert!(rt; !fs::exists(&rt, "read.jnl")?);
    fs::write(&rt, "read.jnl", "abc")?;
    assert!(rt; reads_together(alloc, &mut reader, &mut writer) == Ok((true, false)));
    assert!(rt; names(alloc, &mut writer, b"read.jnl", b"abc") == Ok(true));
    Ok(())
}

/// Words of files that another host has as a sink and as a disk.
static OTHERS: [&[u8]; 2] = [b"other.sql.out", b"linked.out"];

/// Whether a host makes a sink of none of them.
fn makes_none(alloc: Global, host: &mut FileHost) -> Result<bool, HostErr> {
    for word in &OTHERS {
        if makes_sink(alloc, host, word)? {
            return Ok(false);
        }
    }
    Ok(true)
}

/// Whether a host makes a sink of none of them while another host has them, nor a disk of its sink.
fn leaves_others(
    alloc: Global,
    other: &mut FileHost,
    host: &mut FileHost,
) -> Result<bool, HostErr> {
    let disk = other.disk(&Bytes::from_slice(alloc, b"other.jnl")?)?;
    let mut sink = other.sink(&Bytes::from_slice(alloc, b"other.sql.out")?)?;
    let written = sink.write(b"x") == Ok(1);
    let none = makes_none(alloc, host);
    let locked = names(alloc, host, b"other.sql.out", b"x") == Err(HostErr::Failed);
    release(disk);
    release(sink);
    Ok(written && locked && none?)
}

#[test]
fn a_sink_that_another_host_has_in_use_is_not_emptied(
    rt: HostRuntime,
) -> Result<(), std::test::Fail> {
    let alloc = rt.alloc();
    fs::write(&rt, "other.jnl", "abc")?;
    fs::hard_link(&rt, "other.jnl", "linked.out")?;
    let mut other = FileHost::new(rt, List::new(alloc));
    let mut host = FileHost::new(rt, List::new(alloc));
    assert!(rt; leaves_others(alloc, &mut other, &mut host) == Ok(true));
    assert!(rt; names(alloc, &mut host, b"other.jnl", b"abc") == Ok(true));
    assert!(rt; names(alloc, &mut host, b"other.sql.out", b"x") == Ok(true));
    assert!(rt; makes_sink(alloc, &mut host, b"other.sql.out")?);
    Ok(())
}

#[test]
fn a_disk_is_made_where_links_lead(rt: HostRuntime) -> Result<(), std::test::Fail> {
    let alloc = rt.alloc();
    fs::create_dir(&rt, "folder")?;
    symlink(&rt, "second.jnl", "first.jnl")?;
    symlink(&rt, "folder/../folder/third.jnl", "second.jnl")?;
    symlink(&rt, "round.jnl", "round.jnl")?;
    let mut host = FileHost::new(rt, List::new(alloc));
    assert!(rt; names(alloc, &mut host, b"first.jnl", b"") == Ok(true));
    assert!(rt; fs::exists(&rt, "folder/third.jnl")?);
    assert!(rt; names(alloc, &mut host, b"round.jnl", b"") == Err(HostErr::Failed));
    Ok(())
}

/// The standard output, as the system names it, and a command line of which it is a script.
const OUT: &str = "/proc/self/fd/1";

static OUT_AS_SCRIPT: [&[u8]; 3] = [b"run", b"a.jnl", b"/proc/self/fd/1"];

#[test]
fn a_standard_output_that_is_a_file_of_a_word_takes_no_report(
    rt: HostRuntime,
) -> Result<(), std::test::Fail> {
    let taken = fs::metadata(&rt, OUT)?.is_file();
    let mut host = FileHost::new(rt, words(rt.alloc(), &OUT_AS_SCRIPT)?);
    assert_eq!(rt; host.report().write(b"\n").is_err(), taken);
    Ok(())
}
