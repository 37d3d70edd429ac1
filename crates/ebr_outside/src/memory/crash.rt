//! What a crash leaves of a disk in memory.

ghost use Rattle.std.specs.Prelude.{◌≡◌, IfOk, OnOk};
ghost use Rattle.ebr_outside.specs.Disk.{Cut};
ghost use Rattle.ebr_outside.specs.inside.Crash.{IsImageFor, LeftBy, PartlyCut, PartlyWritten, Chooses, rest_after};

use crate::memory::disk_call::{DiskCall, cut_whole, write_over, write_whole};
use ebr_base::{Bytes, NoMemory};
use std::alloc::Global;

/// How much of a call that no sync followed is found after a crash.
#[derive(Clone, Copy)]
pub enum How {
    /// Nothing.
    Left,
    /// What a read gave.
    Whole,
    /// The first half of a piece, or half of what a cut took away.
    First,
    /// The second half of a piece.
    Second,
}

/// An image that a crash may leave after some calls.
pub fn image_for(
    alloc: Global,
    first: &[u8],
    past: &[DiskCall],
    pick: u64,
) -> Result<Bytes, NoMemory>
    ensures { IfOk result (λ image. IsImageFor first.now past.now pick image) }
{
    let mut image = Vec::from_slice(alloc, first)?;
    let mut reads = Vec::from_slice(alloc, first)?;
    let mut rest = pick;
    for call in past {
        leave(&mut image, reads.as_slice(), call, chosen(pick, rest))?;
        call.apply(&mut reads)?;
        rest = rest_after(pick, rest, call);
    }
    Bytes::from_slice(alloc, image.as_slice())
}

/// Each call after the last sync takes two bits of the pick, the first of them the lowest. Pick 1 takes all calls whole.
fn chosen(pick: u64, rest: u64) -> How
    ensures { Chooses pick rest result }
{
    if pick == 1 {
        return How::Whole;
    }
    match rest % 4 {
        0 => How::Left,
        1 => How::Whole,
        2 => How::First,
        _ => How::Second,
    }
}

/// The bits that are left for the calls behind this one.
fn rest_after(pick: u64, rest: u64, call: &DiskCall) -> u64
    ensures { result ≡ rest_after pick rest call.now }
{
    match call {
        DiskCall::Sync => pick,
        DiskCall::Write { .. } => rest / 4,
        DiskCall::Cut { .. } => rest / 4,
    }
}

/// Does to an image what a crash leaves of a call.
fn leave(image: &mut Vec<u8>, reads: &[u8], call: &DiskCall, how: How) -> Result<(), NoMemory>
    ensures { OnOk result (LeftBy how reads.now image.old.items call.now image.new.items) }
{
    match call {
        DiskCall::Write { at, piece, done } => write_part(image, *at, piece.as_slice(), *done, how),
        DiskCall::Cut { len, done } => {
            cut_part(image, *len, *done, how);
            Ok(())
        }
        DiskCall::Sync => {
            image.clear();
            image.extend_from_slice(reads)?;
            Ok(())
        }
    }
}

fn write_part(
    image: &mut Vec<u8>,
    at: u64,
    piece: &[u8],
    done: bool,
    how: How,
) -> Result<(), NoMemory>
    ensures { OnOk result (PartlyWritten how at piece.now done image.old.items image.new.items) }
{
    let half = piece.len() / 2;
    match how {
        How::Left => Ok(()),
        How::Whole => write_whole(image, at, piece, done),
        How::First => write_over(image, at, &piece[..half]),
        How::Second => match at.checked_add(half as u64) {
            Some(place) => write_over(image, place, &piece[half..]),
            None => Ok(()),
        },
    }
}

fn cut_part(image: &mut Vec<u8>, len: u64, done: bool, how: How)
    ensures { PartlyCut how len done image.old.items image.new.items }
{
    match how {
        How::Left => {}
        How::Whole => cut_whole(image, len, done),
        How::First => cut_half(image, len),
        How::Second => {}
    }
}

fn cut_half(image: &mut Vec<u8>, len: u64)
    ensures { Cut len image.old.items image.new.items }
{
    let size = image.len() as u64;
    if len < size {
        let left = len + (size - len) / 2;
        image.truncate(left as usize);
    }
}
