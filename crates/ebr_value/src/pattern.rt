//! LIKE.
//!
//! Oracle Database SQL Language Reference 19c, Pattern-matching Conditions. There is no escape character.

ghost use Rattle.std.specs.Prelude.{◌≡◌, ◌∷◌, ◌≤◌, ◌+◌, true, length, IfSome, ◌==◌, ◌||◌};
ghost use Rattle.std.specs.List.{prefix_len, list_all};
ghost use Rattle.ebr_value.specs.Patterns.{like, likeness};
ghost use Rattle.ebr_value.specs.inside.Parts.{in_part, fits, IsLongest};
ghost use Rattle.ebr_value.specs.Places.{first_place};

use crate::outcome::{Outcome, WRONG_OPERANDS};
use ebr_base::{Value, rest_from};
use memchr::memmem::Finder;

/// `x LIKE y`
pub fn likeness(x: &Value, y: &Value) -> Outcome
    ensures { result ≡ likeness x.now y.now }
{
    match (x, y) {
        (Value::Text(x), Value::Text(y)) => Ok(Value::Bool(like(y.as_slice(), x.as_slice()))),
        (Value::Null | Value::Text(_), Value::Null | Value::Text(_)) => Ok(Value::Null),
        _ => Err(WRONG_OPERANDS),
    }
}

/// Whether a text is like a pattern.
///
/// The pattern is cut at each `%`, and each part is found as early as it can be. A part without `_` is found by one
/// search, so where no part has `_` the work is bounded by the sum of the lengths. A part with `_` is tried at each place
/// where its longest stretch without `_` stands, so its work is bounded by the product of its length and the text's.
fn like(pattern: &[u8], text: &[u8]) -> bool
    ensures { result ≡ like pattern.now text.now }
{
    let first = part_length(pattern);
    if first == pattern.len() {
        return fits(pattern, text) && text.len() <= first;
    }
    if !fits(&pattern[..first], text) {
        return false;
    }
    let more = rest_from(pattern, first + 1);
    let rest = rest_from(text, first);
    like_after(more, rest)
}

/// Whether a text is like `%` and what follows it.
fn like_after(pattern: &[u8], text: &[u8]) -> bool
    ensures { result ≡ like (37 ∷ pattern.now) text.now }
{
    let mut at = 0;
    let mut place = 0;
    loop {
        let rest = rest_from(pattern, at);
        let length = part_length(rest);
        if length == rest.len() {
            return ends_like(rest, rest_from(text, place));
        }
        match first_fit(&rest[..length], rest_from(text, place)) {
            Some(skipped) => {
                at += length + 1;
                place += skipped + length;
            }
            None => return false,
        }
    }
}

/// How many bytes stand before the next `%`.
fn part_length(pattern: &[u8]) -> usize
    ensures value { result ≡ prefix_len in_part pattern.now }
    ensures within { result ≤ length pattern.now }
{
    pattern.iter().take_while(|byte| **byte != b'%').count()
}

/// Whether a byte of a part stands for a byte of a text.
fn stands_for(byte: u8, one: u8) -> bool
    ensures { result ≡ (byte == 95 || byte == one) }
{
    byte == b'_' || byte == one
}

/// Whether a part of a pattern fits the front of a text.
fn fits(part: &[u8], text: &[u8]) -> bool
    ensures { result ≡ fits part.now text.now }
{
    if text.len() < part.len() {
        return false;
    }
    for (i, byte) in part.iter().enumerate() {
        if !stands_for(*byte, text[i]) {
            return false;
        }
    }
    true
}

/// Whether a text ends with a part of a pattern.
fn ends_like(part: &[u8], text: &[u8]) -> bool
    requires { list_all in_part part.now ≡ true }
    ensures { result ≡ like (37 ∷ part.now) text.now }
{
    part.len() <= text.len() && fits(part, rest_from(text, text.len() - part.len()))
}

/// Where the longest stretch of a part without `_` begins, and where it ends.
fn longest_stretch(part: &[u8]) -> (usize, usize)
    ensures { IsLongest part.now result.0 result.1 }
{
    let mut start = 0;
    let mut end = 0;
    let mut from = 0;
    for (i, byte) in part.iter().enumerate() {
        if *byte == b'_' {
            from = i + 1;
        } else if end - start < i + 1 - from {
            start = from;
            end = i + 1;
        }
    }
    (start, end)
}

/// How many bytes of a text stand before the first place where a part of a pattern fits.
///
/// The part is tried where its longest stretch without `_` stands: a part that has no `_` fits at the first such place.
fn first_fit(part: &[u8], text: &[u8]) -> Option<usize>
    ensures value { result ≡ first_place (fits part.now) text.now }
    ensures within { IfSome result (λ place. place + length part.now ≤ length text.now) }
{
    let (start, end) = longest_stretch(part);
    let finder = Finder::new(&part[start..end]);
    let mut place = 0;
    while place + part.len() <= text.len() {
        let Some(skipped) = finder.find(rest_from(text, place + start)) else {
            return None;
        };
        place += skipped;
        if fits(part, rest_from(text, place)) {
            return Some(place);
        }
        place += 1;
    }
    None
}
