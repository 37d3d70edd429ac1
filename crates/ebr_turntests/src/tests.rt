use crate::{Book, write_all, write_one};
use std::alloc::{AllocError, Global};
use std::test::Fail;

/// How many items each writer writes.
const COUNT: u32 = 1000;

/// Whether the items of each number from 1 on are 1 to the count, in order, and there are no others.
fn is_whole(alloc: Global, book: &Book, writers: usize) -> Result<bool, AllocError> {
    let mut last = vec![in alloc; 0u32; writers]?;
    for entry in &book.entries {
        let (number, item) = *entry;
        let place = number.wrapping_sub(1) as usize;
        if place >= last.len() || item != last[place].wrapping_add(1) {
            return Ok(false);
        }
        last[place] = item;
    }
    Ok(last.iter().all(|item| *item == COUNT))
}

#[test]
fn one_chair_writes_one_item(rt: HostRuntime) -> Result<(), Fail> {
    let book = write_one(&rt, rt.alloc(), 7)?;
    assert!(rt; book.entries.len() == 1 && book.entries[0] == (1, 7));
    Ok(())
}

#[test]
fn items_of_two_chairs_stand_in_order(rt: HostRuntime) -> Result<(), Fail> {
    let book = write_all(&rt, rt.alloc(), 2, COUNT)?;
    assert!(rt; book.entries.len() == 2000);
    assert!(rt; is_whole(rt.alloc(), &book, 2)?);
    Ok(())
}

#[test]
fn more_writers_than_processors_come_to_an_end(rt: HostRuntime) -> Result<(), Fail> {
    let eight = write_all(&rt, rt.alloc(), 8, COUNT)?;
    assert!(rt; is_whole(rt.alloc(), &eight, 8)?);
    let many = write_all(&rt, rt.alloc(), 32, COUNT)?;
    assert!(rt; is_whole(rt.alloc(), &many, 32)?);
    Ok(())
}

#[test]
fn a_turn_without_writers_is_closed(rt: HostRuntime) -> Result<(), Fail> {
    let book = write_all(&rt, rt.alloc(), 0, COUNT)?;
    assert!(rt; book.entries.is_empty());
    Ok(())
}
