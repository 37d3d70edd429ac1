//! Orders.

ghost use Rattle.std.specs.Prelude.{◌≡◌, ◌<◌, length};
ghost use Rattle.ebr_order.specs.Order as spec;
ghost use Rattle.ebr_order.specs.Order.{IsRead};

use crate::number::session_in_front;
use ebr_base::{List, MAX_COUNT, NoMemory, SessionId};
use std::alloc::Global;

/// Why an order was not read.
#[derive(Clone, Copy, Debug, PartialEq, Eq)]
pub enum OrderErr {
    /// The byte at this place can't be read, or is the first digit of a number that no session has.
    Bad { at: u32 },
    /// There was no memory.
    NoMemory,
}

impl From<NoMemory> for OrderErr {
    ghost use Rattle.ebr_order.specs.declared.order.OrderErr.TheVariants as order_err;

    ghost from_gives = { λ _ error. error ≡ order_err.NoMemory };

    fn from(_: NoMemory) -> OrderErr {
        OrderErr::NoMemory
    }
}

/// The sessions in the order of their turns. They are numbered from 1 on; numbers are parted by spaces and line ends.
pub fn read_order(alloc: Global, bytes: &[u8], sessions: u32) -> Result<List<SessionId>, OrderErr>
    requires small { length bytes.now < MAX_COUNT }
    ensures { IsRead result sessions bytes.now }
{
    let mut turns = List::new(alloc);
    let mut inside = false;
    for (at, byte) in bytes.iter().enumerate() {
        if is_unreadable(*byte) {
            return Err(OrderErr::Bad { at: at as u32 });
        }
        if begins_number(inside, *byte) {
            let Some(session) = session_in_front(&bytes[at..], sessions) else {
                return Err(OrderErr::Bad { at: at as u32 });
            };
            turns.push(session)?;
        }
        inside = byte.is_ascii_digit();
    }
    Ok(turns)
}

/// Whether a byte is neither a digit nor what parts numbers.
fn is_unreadable(byte: u8) -> bool
    ensures { result ≡ spec.is_unreadable byte }
{
    !byte.is_ascii_digit() && !matches!(byte, b' ' | b'\n' | b'\r')
}

/// Whether a byte is the first digit of a number. `inside` tells that the byte before it is a digit.
fn begins_number(inside: bool, byte: u8) -> bool
    ensures { result ≡ spec.begins_number inside byte }
{
    byte.is_ascii_digit() && !inside
}
