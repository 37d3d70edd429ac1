//! White bytes and comments.

ghost use Rattle.std.specs.Prelude.{◌≡◌, ◌≤◌, ◌<◌, length, drop, IfSome, IfOk};
ghost use Rattle.ebr_cut.specs.Reading.{blank_front, blanks_length};
ghost use Rattle.ebr_cut.specs.inside.Ahead.{line_behind, end_behind, Knows, Sees};

use crate::comment::comment_length;
use ebr_base::{List, MAX_COUNT, NoMemory, is_white, rest_from};
use ebr_lexer::begins;
use std::alloc::Global;

/// How many bytes the white byte or comment in front has; 0 where none stands there.
pub fn blank_length(bytes: &[u8]) -> usize
    requires { length bytes.now < MAX_COUNT }
    ensures value { result ≡ blank_front bytes.now }
    ensures within { result ≤ length bytes.now }
{
    match bytes {
        [] => 0,
        [first, ..] => {
            if is_white(*first) {
                1
            } else {
                comment_length(bytes)
            }
        }
    }
}

/// How many white bytes and bytes of comments stand in front of each rest of a script, by how many
/// bytes the rest has.
///
/// The first words of many pieces may stand behind the same comments, since a line with `/` ends a
/// unit within a comment too. So these are counted once, from the end.
pub fn blank_lengths(alloc: Global, script: &[u8]) -> Result<List<u32>, NoMemory>
    requires { length script.now < MAX_COUNT }
    ensures { IfOk result (λ lengths. Knows lengths script.now) }
{
    let mut lengths = List::new(alloc);
    lengths.push(0)?;
    let mut seen = Seen {
        line: 0,
        end: None,
        later: None,
    };
    for count in 0..script.len() {
        let rest = rest_from(script, script.len() - 1 - count);
        let length = blanks_before(rest, seen, lengths.as_slice());
        lengths.push(length)?;
        seen = seen_from(rest, seen);
    }
    Ok(lengths)
}

/// What stands ahead of a place.
#[derive(Clone, Copy, Debug)]
pub struct Seen {
    /// How many bytes stand before the line's end.
    pub line: usize,
    /// How many bytes stand up to the next `*/` and with it.
    pub end: Option<usize>,
    /// The same from the second byte on.
    pub later: Option<usize>,
}

/// How many bytes of blanks stand in front, where those of the shorter rests are known.
fn blanks_before(rest: &[u8], seen: Seen, lengths: &[u32]) -> u32
    requires some { 0 < length rest.now }
    requires small { length rest.now < MAX_COUNT }
    requires seen { Sees (drop 1 rest.now) seen }
    requires known { Knows lengths.now (drop 1 rest.now) }
    ensures { result ≡ blanks_length rest.now }
{
    let length = blank_ahead(rest, seen);
    if length == 0 {
        0
    } else {
        length as u32 + lengths[rest.len() - length]
    }
}

/// How many bytes the blank in front has, as what stands ahead of the second byte tells.
fn blank_ahead(rest: &[u8], seen: Seen) -> usize
    requires some { 0 < length rest.now }
    requires small { length rest.now < MAX_COUNT }
    requires seen { Sees (drop 1 rest.now) seen }
    ensures value { result ≡ blank_front rest.now }
    ensures within { result ≤ length rest.now }
{
    if is_white(rest[0]) {
        return 1;
    }
    if begins(b'-', b'-', rest) {
        return seen.line + 1;
    }
    if begins(b'/', b'*', rest) {
        return match seen.later {
            Some(length) => length + 2,
            None => 0,
        };
    }
    0
}

/// What stands ahead of a place, as what stands ahead of the next one tells.
fn seen_from(rest: &[u8], seen: Seen) -> Seen
    requires some { 0 < length rest.now }
    requires small { length rest.now < MAX_COUNT }
    requires seen { Sees (drop 1 rest.now) seen }
    ensures { Sees rest.now result }
{
    Seen {
        line: line_behind(rest[0], seen.line),
        end: end_behind(rest, seen.end),
        later: seen.end,
    }
}

/// How many bytes stand before the line's end, one byte further in front.
fn line_behind(byte: u8, line: usize) -> usize
    requires { line < MAX_COUNT }
    ensures { result ≡ line_behind byte line }
{
    if byte == b'\n' { 0 } else { line + 1 }
}

/// How many bytes stand up to the next `*/` and with it, one byte further in front.
fn end_behind(bytes: &[u8], end: Option<usize>) -> Option<usize>
    requires { IfSome end (λ n. n < MAX_COUNT) }
    ensures { result ≡ end_behind bytes.now end }
{
    if begins(b'*', b'/', bytes) {
        return Some(2);
    }
    match end {
        Some(length) => Some(length + 1),
        None => None,
    }
}

/// How many bytes of blanks stand in front, as the lengths tell.
pub fn blanks_length(bytes: &[u8], lengths: &[u32]) -> usize
    requires { Knows lengths.now bytes.now }
    ensures value { result ≡ blanks_length bytes.now }
    ensures within { result ≤ length bytes.now }
{
    lengths[bytes.len()] as usize
}
