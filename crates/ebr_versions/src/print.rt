//! Numbers by which keys are filed: equal keys have one.
//!
//! A key of one number is filed under that number. Of any other key the number is the end of the SHA-256 digest (FIPS 180-4)
//! of the whole key, so that nobody can choose many keys of one number.

ghost use Rattle.std.specs.Prelude.{◌≡◌, ℕ, List, ◌∷◌, ◌++◌};
ghost use Rattle.std.specs.Int.{w64, to_be_bytes};
ghost use Rattle.sha2.specs.Hashers.{Holds256};
ghost use Rattle.ebr_versions.specs.Keys.{key_of, value_at};
ghost use Rattle.ebr_versions.specs.inside.Print.{with_byte, spelled, digest_number, text_bytes, value_bytes, key_bytes, number_in, one_number, key_number};

use ebr_base::{Text, Value};
use sha2::{Digest, Sha256};

/// The number of the key at these places.
pub fn print_at(places: &[u16], values: &[Value]) -> u64
    ensures { result ≡ key_number (key_of places.now values.now) }
{
    match one_number_at(places, values) {
        Some(number) => number,
        None => digest_at(places, values),
    }
}

/// The number of a key.
pub fn key_print(key: &[Value]) -> u64
    ensures { result ≡ key_number key.now }
{
    match one_number(key) {
        Some(number) => number,
        None => digest(key),
    }
}

/// The number of a key of one number.
fn one_number(key: &[Value]) -> Option<u64>
    ensures { result ≡ one_number key.now }
{
    if key.len() == 1 {
        return number_in(&key[0]);
    }
    None
}

/// The number of the key at these places, if it is one number.
fn one_number_at(places: &[u16], values: &[Value]) -> Option<u64>
    ensures { result ≡ one_number (key_of places.now values.now) }
{
    if places.len() == 1 {
        return number_at(values, places[0]);
    }
    None
}

fn number_at(values: &[Value], place: u16) -> Option<u64>
    ensures { result ≡ number_in (value_at values.now place) }
{
    match values.get(place as usize) {
        Some(value) => number_in(value),
        None => None,
    }
}

fn number_in(value: &Value) -> Option<u64>
    ensures { result ≡ number_in value.now }
{
    match value {
        Value::Num(n) => Some(n.cast_unsigned()),
        _ => None,
    }
}

/// The end of the digest of a key.
fn digest(key: &[Value]) -> u64
    ensures { result ≡ digest_number (key_bytes key.now) }
{
    let mut hasher = Sha256::new();
    for value in key {
        add(&mut hasher, value);
    }
    end_of(hasher)
}

/// The end of the digest of the key at these places.
fn digest_at(places: &[u16], values: &[Value]) -> u64
    ensures { result ≡ digest_number (key_bytes (key_of places.now values.now)) }
{
    let mut hasher = Sha256::new();
    for place in places {
        add_at(&mut hasher, values, *place);
    }
    end_of(hasher)
}

fn add_at(hasher: &mut Sha256, values: &[Value], place: u16)
    ensures { (m : List ℕ) → Holds256 hasher.old m → Holds256 hasher.new (m ++ value_bytes (value_at values.now place)) }
{
    match values.get(place as usize) {
        Some(value) => add(hasher, value),
        None => add(hasher, &Value::Null),
    }
}

/// Adds the bytes of a value.
fn add(hasher: &mut Sha256, value: &Value)
    ensures { (m : List ℕ) → Holds256 hasher.old m → Holds256 hasher.new (m ++ value_bytes value.now) }
{
    match value {
        Value::Null => hasher.update(&[0u8]),
        Value::Num(n) => add_number(hasher, 1, n.cast_unsigned()),
        Value::Text(text) => add_text(hasher, text),
        Value::Bool(b) => hasher.update(&[3u8, *b as u8]),
    }
}

fn add_number(hasher: &mut Sha256, kind: u8, number: u64)
    ensures { (m : List ℕ) → Holds256 hasher.old m → Holds256 hasher.new (m ++ (kind ∷ to_be_bytes w64 number)) }
{
    hasher.update(&[kind]);
    hasher.update(&number.to_be_bytes());
}

fn add_text(hasher: &mut Sha256, text: &Text)
    ensures { (m : List ℕ) → Holds256 hasher.old m → Holds256 hasher.new (m ++ text_bytes text.now) }
{
    let bytes = text.as_slice();
    add_number(hasher, 2, bytes.len() as u64);
    hasher.update(bytes);
}

/// The end of the digest of what a hasher holds.
#[tactic(auto, unfolding(crate::specs::inside::Print::digest_number))]
fn end_of(hasher: Sha256) -> u64
    ensures { (m : List ℕ) → Holds256 hasher m → result ≡ digest_number m }
{
    let digest = hasher.finalize();
    number_of(&digest)
}

/// The number that the last eight of some bytes spell.
fn number_of(bytes: &[u8]) -> u64
    ensures { result ≡ spelled 0 bytes.now }
{
    let mut number: u64 = 0;
    for byte in bytes {
        number = with_byte(number, *byte);
    }
    number
}

#[tactic(auto, unfolding(crate::specs::inside::Print::with_byte))]
fn with_byte(number: u64, byte: u8) -> u64
    ensures { result ≡ with_byte number byte }
{
    number.wrapping_mul(256).wrapping_add(byte as u64)
}
