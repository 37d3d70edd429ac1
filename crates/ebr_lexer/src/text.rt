//! Strings.

ghost use Rattle.std.specs.Prelude.{◌≡◌, ◌≤◌, ◌<◌, ◌+◌, length, false, IfOk};
ghost use Rattle.ebr_base.specs.Answers.{Answers};
ghost use Rattle.ebr_lexer.specs.Reading.{undoubled, content_front, text_front};

use crate::extent::{is_quote, string_length};
use crate::token::{Front, TokenKind};
use ebr_base::{Bytes, Code, MAX_COUNT, NoMemory, Stop};
use std::alloc::Global;

/// The most bytes that a string's content has.
const MAX_CONTENT: usize = 32767;

/// The string whose opening quote stands just before.
pub fn text_front(alloc: Global, bytes: &[u8]) -> Result<Front, Stop>
    requires { length bytes.now < MAX_COUNT }
    ensures value { Answers result (text_front bytes.now) }
    ensures within { IfOk result (λ f. f.length ≤ length bytes.now + 1) }
    ensures some { IfOk result (λ f. 0 < f.length) }
{
    match string_length(bytes) {
        Some(length) => content_front(alloc, &bytes[..length - 1], length),
        None => Err(Stop::Raised(Code::Ebr(21))),
    }
}

/// The string that is spelled so, where it has so many bytes behind its opening quote.
fn content_front(alloc: Global, spelled: &[u8], length: usize) -> Result<Front, Stop>
    requires { length ≤ MAX_COUNT }
    ensures value { Answers result (content_front (undoubled false spelled.now) (length + 1)) }
    ensures length { IfOk result (λ f. f.length ≡ length + 1) }
{
    if content_length(spelled) > MAX_CONTENT {
        return Err(Stop::Raised(Code::Ebr(24)));
    }
    let content = undoubled(alloc, spelled)?;
    Ok(Front {
        what: Some(TokenKind::Text(content)),
        length: length + 1,
    })
}

/// How many bytes the content has that is spelled so.
fn content_length(spelled: &[u8]) -> usize
    ensures { result ≡ length (undoubled false spelled.now) }
{
    let mut count = 0;
    let mut pending = false;
    for byte in spelled {
        if is_quote(*byte) && !pending {
            pending = true;
        } else {
            count += 1;
            pending = false;
        }
    }
    count
}

/// The content that is spelled so, of two quotes the second.
fn undoubled(alloc: Global, spelled: &[u8]) -> Result<Bytes, NoMemory>
    ensures { IfOk result (λ content. content ≡ undoubled false spelled.now) }
{
    let mut content = Bytes::with_room(alloc, spelled.len())?;
    let mut pending = false;
    for byte in spelled {
        if is_quote(*byte) && !pending {
            pending = true;
        } else {
            content.push(*byte)?;
            pending = false;
        }
    }
    Ok(content)
}
