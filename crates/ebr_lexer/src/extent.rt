//! How far comments and strings go.

ghost use Rattle.std.specs.Prelude.{◌≡◌, ◌≤◌, ◌<◌, length, true, false, IfSome};
ghost use Rattle.std.specs.List.{prefix_len};
ghost use Rattle.ebr_lexer.specs.Lexis.{begins, in_line, is_quote};
ghost use Rattle.ebr_lexer.specs.Extents.{comment_length, string_length};

/// Whether these two bytes stand in front.
pub fn begins(first: u8, second: u8, bytes: &[u8]) -> bool
    ensures value { result ≡ begins first second bytes.now }
    ensures within { result ≡ true → 2 ≤ length bytes.now }
{
    match bytes {
        [a, b, ..] => *a == first && *b == second,
        _ => false,
    }
}

/// How many bytes stand before the line's end, which ends a comment that `--` begins.
///
/// Oracle Database PL/SQL Language Reference 19c, Lexical Units, Comments.
pub fn line_length(bytes: &[u8]) -> usize
    ensures value { result ≡ prefix_len in_line bytes.now }
    ensures within { result ≤ length bytes.now }
{
    bytes.iter().take_while(|byte| **byte != b'\n').count()
}

/// How many bytes stand up to the next `*/` and with it, which ends a comment whose `/*` stands just
/// before.
///
/// Oracle Database PL/SQL Language Reference 19c, Lexical Units, Comments.
pub fn comment_length(bytes: &[u8]) -> Option<usize>
    ensures value { result ≡ comment_length false 0 bytes.now }
    ensures within { IfSome result (λ n. n ≤ length bytes.now) }
{
    let mut star = false;
    for (i, byte) in bytes.iter().enumerate() {
        if star && *byte == b'/' {
            return Some(i + 1);
        }
        star = *byte == b'*';
    }
    None
}

/// Whether a byte is a quote.
pub fn is_quote(byte: u8) -> bool
    ensures { result ≡ is_quote byte }
{
    byte == b'\''
}

/// How many bytes stand up to the closing quote of a string and with it, where its opening quote stands
/// just before. Of two quotes side by side neither closes it.
///
/// Oracle Database PL/SQL Language Reference 19c, Lexical Units, Literals.
pub fn string_length(bytes: &[u8]) -> Option<usize>
    ensures value { result ≡ string_length false 0 bytes.now }
    ensures within { IfSome result (λ n. n ≤ length bytes.now) }
    ensures some { IfSome result (λ n. 0 < n) }
{
    let mut pending = false;
    for (i, byte) in bytes.iter().enumerate() {
        let quote = is_quote(*byte);
        if pending && !quote {
            return Some(i);
        }
        pending = quote && !pending;
    }
    if pending { Some(bytes.len()) } else { None }
}
