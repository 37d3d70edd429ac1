//! Pieces that end with a semicolon.

ghost use Rattle.std.specs.Prelude.{◌≡◌, ◌≤◌, ◌<◌, length};
ghost use Rattle.ebr_cut.specs.Reading.{bit_front, plain_front, statement_length};

use crate::comment::comment_length;
use ebr_base::{MAX_COUNT, rest_from};
use ebr_lexer::{begins, string_length};

/// How many bytes stand before the first semicolon outside strings and comments, or the end.
pub fn statement_length(bytes: &[u8]) -> usize
    requires { length bytes.now < MAX_COUNT }
    ensures value { result ≡ statement_length bytes.now }
    ensures within { result ≤ length bytes.now }
{
    let mut place = 0;
    for _ in 0..bytes.len() {
        let length = bit_length(rest_from(bytes, place));
        if length == 0 {
            return place;
        }
        place += length;
    }
    place
}

/// How many bytes the string, comment or other byte in front has, up to the end where a string or
/// comment has none of its own; 0 before a semicolon.
fn bit_length(bytes: &[u8]) -> usize
    requires { length bytes.now < MAX_COUNT }
    ensures value { result ≡ bit_front bytes.now }
    ensures within { result ≤ length bytes.now }
{
    match bytes {
        [] | [b';', ..] => 0,
        [b'\'', rest @ ..] => match string_length(rest) {
            Some(length) => length + 1,
            None => bytes.len(),
        },
        _ => plain_length(bytes),
    }
}

/// How many bytes the comment or other byte in front has.
fn plain_length(bytes: &[u8]) -> usize
    requires some { 0 < length bytes.now }
    requires small { length bytes.now < MAX_COUNT }
    ensures value { result ≡ plain_front bytes.now }
    ensures within { result ≤ length bytes.now }
{
    let comment = comment_length(bytes);
    if comment > 0 {
        return comment;
    }
    if begins(b'/', b'*', bytes) {
        bytes.len()
    } else {
        1
    }
}
