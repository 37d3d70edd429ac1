//! What a piece begins with, as its first words tell.

ghost use Rattle.std.specs.Prelude.{◌≡◌, ◌≤◌, length, take, map};
ghost use Rattle.std.specs.List.{prefix_len};
ghost use Rattle.std.specs.Str.{bytes_eq};
ghost use Rattle.ebr_base.specs.Word.{is_letter, is_word_byte, upper};
ghost use Rattle.ebr_lexer.specs.Lexis.{first_is};
ghost use Rattle.ebr_cut.specs.Reading.{is_spelled, word_front, begins_with, without, without_or_replace, begins_object, names_object, begins_unit, lead_of};
ghost use Rattle.ebr_cut.specs.inside.Ahead.{Knows};

use crate::blank::blanks_length;
use crate::span::Lead;
use ebr_base::{is_letter, is_word_byte, rest_from};

/// What the bytes begin with.
#[tactic(auto, unfolding(crate::specs::Reading::lead_of))]
pub fn lead_of(bytes: &[u8], lengths: &[u32]) -> Lead
    requires { Knows lengths.now bytes.now }
    ensures { result ≡ lead_of bytes.now }
{
    if begins_with(b"BEGIN", bytes, lengths) || begins_with(b"DECLARE", bytes, lengths) {
        Lead::Block
    } else if begins_with(b"CALL", bytes, lengths) {
        Lead::Call
    } else if begins_unit(bytes, lengths) {
        Lead::Unit
    } else {
        Lead::Other
    }
}

/// Whether `CREATE` of an object that is made of PL/SQL stands in front.
fn begins_unit(bytes: &[u8], lengths: &[u32]) -> bool
    requires { Knows lengths.now bytes.now }
    ensures { result ≡ begins_unit bytes.now }
{
    begins_with(b"CREATE", bytes, lengths)
        && names_object(without(b"CREATE", bytes, lengths), lengths)
}

/// Whether what follows `CREATE` names an object that is made of PL/SQL.
#[tactic(auto, unfolding(crate::specs::Reading::names_object))]
fn names_object(bytes: &[u8], lengths: &[u32]) -> bool
    requires { Knows lengths.now bytes.now }
    ensures { result ≡ names_object bytes.now }
{
    begins_object(
        without(b"EDITIONABLE", without_or_replace(bytes, lengths), lengths),
        lengths,
    )
}

/// Whether the word for an object that is made of PL/SQL stands in front.
#[tactic(auto, unfolding(crate::specs::Reading::begins_object))]
fn begins_object(bytes: &[u8], lengths: &[u32]) -> bool
    requires { Knows lengths.now bytes.now }
    ensures { result ≡ begins_object bytes.now }
{
    begins_with(b"PROCEDURE", bytes, lengths)
        || begins_with(b"FUNCTION", bytes, lengths)
        || begins_with(b"PACKAGE", bytes, lengths)
        || begins_with(b"TRIGGER", bytes, lengths)
}

/// What stands behind `OR REPLACE`, if that stands in front, and else all.
#[tactic(auto, unfolding(crate::specs::Reading::without_or_replace))]
fn without_or_replace<'a>(bytes: &'a [u8], lengths: &[u32]) -> &'a [u8]
    requires { Knows lengths.now bytes.now }
    ensures value { result.now ≡ without_or_replace bytes.now }
    ensures known { Knows lengths.now result.now }
{
    let rest = without(b"OR", bytes, lengths);
    if begins_with(b"OR", bytes, lengths) && begins_with(b"REPLACE", rest, lengths) {
        without(b"REPLACE", rest, lengths)
    } else {
        bytes
    }
}

/// What stands behind the word, if that is the first token, and else all.
fn without<'a>(word: &[u8], bytes: &'a [u8], lengths: &[u32]) -> &'a [u8]
    requires { Knows lengths.now bytes.now }
    ensures value { result.now ≡ without word.now bytes.now }
    ensures known { Knows lengths.now result.now }
{
    rest_from(bytes, word_length(word, bytes, lengths))
}

/// Whether the word is the first token.
fn begins_with(word: &[u8], bytes: &[u8], lengths: &[u32]) -> bool
    requires { Knows lengths.now bytes.now }
    ensures { result ≡ begins_with word.now bytes.now }
{
    word_length(word, bytes, lengths) > 0
}

/// How many bytes stand in front up to the end of the word; 0 where it isn't the first token.
#[tactic(auto, unfolding(crate::specs::Reading::word_front))]
fn word_length(word: &[u8], bytes: &[u8], lengths: &[u32]) -> usize
    requires { Knows lengths.now bytes.now }
    ensures value { result ≡ word_front word.now bytes.now }
    ensures within { result ≤ length bytes.now }
{
    let blanks = blanks_length(bytes, lengths);
    if is_spelled(word, rest_from(bytes, blanks)) {
        blanks + word.len()
    } else {
        0
    }
}

/// Whether the word in front is this one. It looks no further than one byte behind it.
fn is_spelled(word: &[u8], bytes: &[u8]) -> bool
    ensures { result ≡ is_spelled word.now bytes.now }
{
    let length = run_length(front_of(bytes, word.len() + 1));
    begins_with_letter(bytes) && is_same(word, &bytes[..length])
}

/// At most so many bytes.
fn front_of(bytes: &[u8], count: usize) -> &[u8]
    ensures { result.now ≡ take count bytes.now }
{
    if count < bytes.len() {
        &bytes[..count]
    } else {
        bytes
    }
}

/// How many word bytes stand in front.
fn run_length(bytes: &[u8]) -> usize
    ensures value { result ≡ prefix_len is_word_byte bytes.now }
    ensures within { result ≤ length bytes.now }
{
    bytes.iter().take_while(|byte| is_word_byte(**byte)).count()
}

fn begins_with_letter(bytes: &[u8]) -> bool
    ensures { result ≡ first_is is_letter bytes.now }
{
    match bytes {
        [first, ..] => is_letter(*first),
        [] => false,
    }
}

/// Whether the bytes are the word, in any case.
fn is_same(word: &[u8], bytes: &[u8]) -> bool
    ensures { result ≡ bytes_eq (map upper bytes.now) word.now }
{
    if bytes.len() != word.len() {
        return false;
    }
    for (i, byte) in bytes.iter().enumerate() {
        if byte.to_ascii_uppercase() != word[i] {
            return false;
        }
    }
    true
}
