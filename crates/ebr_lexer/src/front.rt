//! What stands in front of a text.

ghost use Rattle.std.specs.Prelude.{◌≤◌, ◌<◌, length, slice_index, IfOk};
ghost use Rattle.ebr_base.specs.Answers.{Answers};
ghost use Rattle.ebr_lexer.specs.Reading.{front, other_front};

use crate::blank::{blank, comment_front, line_front};
use crate::extent::{begins, is_quote};
use crate::number::{is_digit, number_front};
use crate::symbol::symbol_front;
use crate::text::text_front;
use crate::token::Front;
use crate::word::word_front;
use ebr_base::{MAX_COUNT, Stop, is_letter, is_white};
use std::alloc::Global;

/// What stands in front.
#[tactic(auto, using(crate::proofs::Runs::first_is_at), unfolding(crate::specs::Reading::front))]
pub fn front(alloc: Global, bytes: &[u8]) -> Result<Front, Stop>
    requires some { 0 < length bytes.now }
    requires small { length bytes.now < MAX_COUNT }
    ensures value { Answers result (front (slice_index bytes.now 0) bytes.now) }
    ensures within { IfOk result (λ f. f.length ≤ length bytes.now) }
    ensures some { IfOk result (λ f. 0 < f.length) }
{
    let byte = bytes[0];
    if is_white(byte) {
        return Ok(blank(1));
    }
    if is_letter(byte) {
        return word_front(alloc, bytes);
    }
    if is_digit(byte) {
        return number_front(bytes);
    }
    if is_quote(byte) {
        return text_front(alloc, &bytes[1..]);
    }
    other_front(bytes)
}

/// The comment or symbol in front.
fn other_front(bytes: &[u8]) -> Result<Front, Stop>
    requires { length bytes.now < MAX_COUNT }
    ensures value { Answers result (other_front bytes.now) }
    ensures within { IfOk result (λ f. f.length ≤ length bytes.now) }
    ensures some { IfOk result (λ f. 0 < f.length) }
{
    if begins(b'-', b'-', bytes) {
        return Ok(line_front(&bytes[2..]));
    }
    if begins(b'/', b'*', bytes) {
        return comment_front(&bytes[2..]);
    }
    symbol_front(bytes)
}
