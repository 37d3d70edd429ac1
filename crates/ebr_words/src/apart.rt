//! Whether words name things of their own.

ghost use Rattle.std.specs.Prelude.{◌≡◌, ◌++◌, map};
ghost use Rattle.std.specs.List.{list_any};
ghost use Rattle.std.specs.Str.{bytes_eq};
ghost use Rattle.ebr_words.specs.Words as spec;
ghost use Rattle.ebr_words.specs.inside.Apart as inside;
ghost use Rattle.ebr_words.specs.Words.{out_word};

use ebr_base::{Bytes, rest_from};

/// What is behind a script's word in the word of its sink.
const OUT: &[u8] = b".out";

/// Whether no two are equal of some words and of the words of the scripts' sinks.
#[tactic(auto, using(crate::proofs::Differing::apart_both))]
pub fn are_apart(names: &[Bytes], scripts: &[Bytes]) -> bool
    ensures { result ≡ spec.are_apart (names.now ++ map out_word scripts.now) }
{
    are_apart_from(names, scripts) && are_scripts_apart(scripts)
}

/// Whether each word differs from those behind it and from the words of the scripts' sinks.
fn are_apart_from(names: &[Bytes], scripts: &[Bytes]) -> bool
    ensures { result ≡ inside.each_apart names.now (map out_word scripts.now) }
{
    for (at, name) in names.iter().enumerate() {
        if stands_in(name.as_slice(), rest_from(names, at + 1))
            || is_sink(name.as_slice(), scripts)
        {
            return false;
        }
    }
    true
}

/// Whether the scripts differ, and so the words of their sinks.
fn are_scripts_apart(scripts: &[Bytes]) -> bool
    ensures { result ≡ spec.are_apart (map out_word scripts.now) }
{
    for (at, script) in scripts.iter().enumerate() {
        if stands_in(script.as_slice(), rest_from(scripts, at + 1)) {
            return false;
        }
    }
    true
}

/// Whether a word is one of these.
fn stands_in(word: &[u8], words: &[Bytes]) -> bool
    ensures { result ≡ list_any (bytes_eq word.now) words.now }
{
    words.iter().any(|other| word == other.as_slice())
}

/// Whether a word is that of a script's sink.
fn is_sink(word: &[u8], scripts: &[Bytes]) -> bool
    ensures { result ≡ list_any (bytes_eq word.now) (map out_word scripts.now) }
{
    match word.strip_suffix(OUT) {
        Some(script) => stands_in(script, scripts),
        None => false,
    }
}
