//! Comments.

ghost use Rattle.std.specs.Prelude.{◌≡◌, ◌≤◌, ◌<◌, length};
ghost use Rattle.ebr_cut.specs.Reading.{comment_front};

use ebr_base::MAX_COUNT;
use ebr_lexer::{begins, line_length};

/// How many bytes the comment in front has; 0 where none with its end stands there.
///
/// Oracle Database PL/SQL Language Reference 19c, Lexical Units, Comments.
pub fn comment_length(bytes: &[u8]) -> usize
    requires { length bytes.now < MAX_COUNT }
    ensures value { result ≡ comment_front bytes.now }
    ensures within { result ≤ length bytes.now }
{
    if begins(b'-', b'-', bytes) {
        return line_length(&bytes[2..]) + 2;
    }
    if begins(b'/', b'*', bytes) {
        return match ebr_lexer::comment_length(&bytes[2..]) {
            Some(length) => length + 2,
            None => 0,
        };
    }
    0
}
