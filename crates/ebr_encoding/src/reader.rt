//! What records are made of, from the front of bytes.

ghost use Rattle.std.specs.Int.{w16, w32, w64};
ghost use Rattle.ebr_encoding.specs.Reading.{at_end, byte_at, class_at, counted, flag_at, kept_name, many, name_at, number, piece, text_at, type_at};
ghost use Rattle.ebr_encoding.specs.inside.Gives.{Gives};

use crate::fault::DecodeErr;
use crate::readable::Readable;
use ebr_base::{ColType, List, Name};
use ebr_record::DroppedClass;
use std::alloc::Global;

/// So many bytes.
#[tactic(auto, unfolding(crate::specs::Reading::piece))]
fn piece(n: usize, bytes: &[u8]) -> Result<(&[u8], &[u8]), DecodeErr>
    ensures { Gives (λ x. (x.0.now, x.1.now)) result (piece n bytes.now) }
{
    if bytes.len() < n {
        return Err(DecodeErr::Bad);
    }
    let (front, rest) = bytes.split_at(n);
    Ok((front, rest))
}

#[tactic(auto, unfolding(crate::specs::Reading::byte_at))]
pub(crate) fn byte_at(bytes: &[u8]) -> Result<(u8, &[u8]), DecodeErr>
    ensures { Gives (λ x. (x.0, x.1.now)) result (byte_at bytes.now) }
{
    match bytes {
        [] => Err(DecodeErr::Bad),
        [byte, rest @ ..] => Ok((*byte, rest)),
    }
}

#[tactic(auto, unfolding(crate::specs::Reading::number, crate::specs::Reading::piece))]
pub(crate) fn u16_at(bytes: &[u8]) -> Result<(u16, &[u8]), DecodeErr>
    ensures { Gives (λ x. (x.0, x.1.now)) result (number w16 bytes.now) }
{
    match bytes.split_first_chunk::<2>() {
        Some((front, rest)) => Ok((u16::from_be_bytes(*front), rest)),
        None => Err(DecodeErr::Bad),
    }
}

#[tactic(auto, unfolding(crate::specs::Reading::number, crate::specs::Reading::piece))]
pub(crate) fn u32_at(bytes: &[u8]) -> Result<(u32, &[u8]), DecodeErr>
    ensures { Gives (λ x. (x.0, x.1.now)) result (number w32 bytes.now) }
{
    match bytes.split_first_chunk::<4>() {
        Some((front, rest)) => Ok((u32::from_be_bytes(*front), rest)),
        None => Err(DecodeErr::Bad),
    }
}

#[tactic(auto, unfolding(crate::specs::Reading::number, crate::specs::Reading::piece))]
pub(crate) fn u64_at(bytes: &[u8]) -> Result<(u64, &[u8]), DecodeErr>
    ensures { Gives (λ x. (x.0, x.1.now)) result (number w64 bytes.now) }
{
    match bytes.split_first_chunk::<8>() {
        Some((front, rest)) => Ok((u64::from_be_bytes(*front), rest)),
        None => Err(DecodeErr::Bad),
    }
}

#[tactic(auto, unfolding(crate::specs::Reading::name_at))]
pub(crate) fn name_at(alloc: Global, bytes: &[u8]) -> Result<(Name, &[u8]), DecodeErr>
    ensures { Gives (λ x. (x.0, x.1.now)) result (name_at bytes.now) }
{
    let (len, rest) = byte_at(bytes)?;
    let (word, rest) = piece(usize::from(len), rest)?;
    Ok((kept_name(alloc, word)?, rest))
}

/// The name that the bytes are.
fn kept_name(alloc: Global, word: &[u8]) -> Result<Name, DecodeErr>
    ensures { Gives (λ x. x) result (kept_name word.now) }
{
    let Some(name) = Name::of(alloc, word)? else {
        return Err(DecodeErr::Bad);
    };
    if name.as_slice() == word {
        return Ok(name);
    }
    Err(DecodeErr::Bad)
}

/// A text's bytes.
#[tactic(auto, unfolding(crate::specs::Reading::text_at))]
pub(crate) fn text_at(bytes: &[u8]) -> Result<(&[u8], &[u8]), DecodeErr>
    ensures { Gives (λ x. (x.0.now, x.1.now)) result (text_at bytes.now) }
{
    let (len, rest) = u32_at(bytes)?;
    piece(len as usize, rest)
}

#[tactic(auto, unfolding(crate::specs::Reading::flag_at))]
pub(crate) fn flag_at(bytes: &[u8]) -> Result<(bool, &[u8]), DecodeErr>
    ensures { Gives (λ x. (x.0, x.1.now)) result (flag_at bytes.now) }
{
    match bytes {
        [] => Err(DecodeErr::Bad),
        [0, rest @ ..] => Ok((false, rest)),
        [1, rest @ ..] => Ok((true, rest)),
        [_, ..] => Err(DecodeErr::Bad),
    }
}

#[tactic(auto, unfolding(crate::specs::Reading::type_at))]
pub(crate) fn type_at(bytes: &[u8]) -> Result<(ColType, &[u8]), DecodeErr>
    ensures { Gives (λ x. (x.0, x.1.now)) result (type_at bytes.now) }
{
    match bytes {
        [] => Err(DecodeErr::Bad),
        [1, rest @ ..] => {
            let (digits, rest) = byte_at(rest)?;
            Ok((ColType::Num(digits), rest))
        }
        [2, rest @ ..] => {
            let (size, rest) = u16_at(rest)?;
            Ok((ColType::Text(size), rest))
        }
        [_, ..] => Err(DecodeErr::Bad),
    }
}

#[tactic(auto, unfolding(crate::specs::Reading::class_at))]
pub(crate) fn class_at(bytes: &[u8]) -> Result<(DroppedClass, &[u8]), DecodeErr>
    ensures { Gives (λ x. (x.0, x.1.now)) result (class_at bytes.now) }
{
    match bytes {
        [] => Err(DecodeErr::Bad),
        [1, rest @ ..] => Ok((DroppedClass::Unit, rest)),
        [2, rest @ ..] => Ok((DroppedClass::Body, rest)),
        [3, rest @ ..] => Ok((DroppedClass::Trigger, rest)),
        [4, rest @ ..] => Ok((DroppedClass::Package, rest)),
        [_, ..] => Err(DecodeErr::Bad),
    }
}

/// So many values of a list.
pub(crate) fn many<T: Readable>(
    alloc: Global,
    count: u32,
    bytes: &[u8],
) -> Result<(List<T>, &[u8]), DecodeErr>
    ensures { Gives (λ x. (x.0, x.1.now)) result (many T.read count bytes.now) }
{
    let mut items = List::new(alloc);
    let mut rest = bytes;
    for _ in 0..count {
        let (item, after) = T::read(alloc, rest)?;
        items.push(item)?;
        rest = after;
    }
    Ok((items, rest))
}

/// As many values as the number of two bytes before them says.
#[tactic(auto, unfolding(crate::specs::Reading::counted))]
pub(crate) fn counted<T: Readable>(
    alloc: Global,
    bytes: &[u8],
) -> Result<(List<T>, &[u8]), DecodeErr>
    ensures { Gives (λ x. (x.0, x.1.now)) result (counted (number w16) T.read bytes.now) }
{
    let (count, rest) = u16_at(bytes)?;
    many(alloc, u32::from(count), rest)
}

/// No byte is left.
pub(crate) fn ended(rest: &[u8]) -> Result<(), DecodeErr>
    ensures { Gives (λ x. x) result (at_end tt rest.now) }
{
    if rest.is_empty() {
        return Ok(());
    }
    Err(DecodeErr::Bad)
}
