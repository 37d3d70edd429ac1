//! White bytes and comments.

ghost use Rattle.std.specs.Prelude.{◌≡◌, ◌≤◌, ◌<◌, ◌+◌, length, Ok, IfOk};
ghost use Rattle.ebr_base.specs.Answers.{Answers};
ghost use Rattle.ebr_lexer.specs.Reading.{blank, line_front, comment_front};

use crate::extent::{comment_length, line_length};
use crate::token::Front;
use ebr_base::{Code, MAX_COUNT, Stop};

/// White bytes or a comment of that length.
pub fn blank(length: usize) -> Front
    ensures { result ≡ blank length }
{
    Front { what: None, length }
}

/// The comment whose `--` stands just before: it ends before the line's end.
pub fn line_front(bytes: &[u8]) -> Front
    requires { length bytes.now < MAX_COUNT }
    ensures value { line_front bytes.now ≡ Ok result }
    ensures within { result.length ≤ length bytes.now + 2 }
    ensures some { 0 < result.length }
{
    blank(line_length(bytes) + 2)
}

/// The comment whose `/*` stands just before: it ends with the next `*/`.
pub fn comment_front(bytes: &[u8]) -> Result<Front, Stop>
    requires { length bytes.now < MAX_COUNT }
    ensures value { Answers result (comment_front bytes.now) }
    ensures within { IfOk result (λ f. f.length ≤ length bytes.now + 2) }
    ensures some { IfOk result (λ f. 0 < f.length) }
{
    match comment_length(bytes) {
        Some(length) => Ok(blank(length + 2)),
        None => Err(Stop::Raised(Code::Ebr(21))),
    }
}
