//! What stands in front of the rest of a script.

ghost use Rattle.std.specs.Prelude.{◌≡◌, ◌≤◌, ◌<◌, length, slice_index, IfSome};
ghost use Rattle.ebr_cut.specs.Lines.{fresh_behind};
ghost use Rattle.ebr_cut.specs.Reading.{front, piece_front, skipped_front, unit_front, statement_front};
ghost use Rattle.ebr_cut.specs.inside.Ahead.{Knows};

use crate::blank::blank_length;
use crate::head::lead_of;
use crate::line::{begins_slash, unit_length};
use crate::span::{Front, Lead};
use crate::statement::statement_length;
use ebr_base::{MAX_COUNT, is_white};

/// What stands in front; `fresh` tells that only white bytes have come since the line began.
#[tactic(auto, unfolding(crate::specs::Reading::front))]
pub fn front(fresh: bool, bytes: &[u8], lengths: &[u32]) -> Front
    requires some { 0 < length bytes.now }
    requires small { length bytes.now < MAX_COUNT }
    requires known { Knows lengths.now bytes.now }
    ensures value { result ≡ front fresh (slice_index bytes.now 0) bytes.now }
    ensures within { result.length ≤ length bytes.now }
    ensures piece { IfSome result.piece (λ p. p.1 ≤ result.length) }
{
    let length = blank_length(bytes);
    if length > 0 {
        return skipped(length, fresh_behind(fresh, bytes[0]));
    }
    if fresh && begins_slash(bytes) {
        return skipped(1, false);
    }
    piece_front(lead_of(bytes, lengths), bytes)
}

/// Whether only white bytes have come since the line began, after one more byte.
fn fresh_behind(fresh: bool, byte: u8) -> bool
    ensures { result ≡ fresh_behind fresh byte }
{
    byte == b'\n' || fresh && is_white(byte)
}

/// So many bytes that are skipped.
fn skipped(length: usize, fresh: bool) -> Front
    ensures { result ≡ skipped_front length fresh }
{
    Front {
        piece: None,
        length,
        fresh,
    }
}

/// The piece in front, which begins so.
fn piece_front(lead: Lead, bytes: &[u8]) -> Front
    requires { length bytes.now < MAX_COUNT }
    ensures value { result ≡ piece_front lead bytes.now }
    ensures within { result.length ≤ length bytes.now }
    ensures piece { IfSome result.piece (λ p. p.1 ≤ result.length) }
{
    match lead {
        Lead::Unit => unit(Lead::Unit, unit_length(bytes)),
        Lead::Block => unit(Lead::Block, unit_length(bytes)),
        Lead::Call => statement(Lead::Call, statement_length(bytes), bytes.len()),
        Lead::Other => statement(Lead::Other, statement_length(bytes), bytes.len()),
    }
}

/// A unit piece, which ends where a line begins.
fn unit(lead: Lead, length: usize) -> Front
    ensures { result ≡ unit_front lead length }
{
    Front {
        piece: Some((lead, length)),
        length,
        fresh: true,
    }
}

/// A piece with the semicolon behind it, where that isn't the end.
fn statement(lead: Lead, length: usize, all: usize) -> Front
    requires within { length ≤ all }
    requires small { all < MAX_COUNT }
    ensures value { result ≡ statement_front lead length all }
    ensures within { result.length ≤ all }
{
    Front {
        piece: Some((lead, length)),
        length: if length < all { length + 1 } else { length },
        fresh: false,
    }
}
