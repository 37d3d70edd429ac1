//! Lines that hold `/` alone.

ghost use Rattle.std.specs.Prelude.{◌≡◌, ◌≤◌, length, false};
ghost use Rattle.ebr_cut.specs.Lines.{rest_is_white, begins_slash, is_slash_line};
ghost use Rattle.ebr_cut.specs.Reading.{unit_length};

use ebr_base::is_white;

/// Whether nothing but white bytes stands up to the line's end.
fn rest_is_white(bytes: &[u8]) -> bool
    ensures { result ≡ rest_is_white bytes.now }
{
    for byte in bytes {
        if *byte == b'\n' {
            return true;
        }
        if !is_white(*byte) {
            return false;
        }
    }
    true
}

/// Whether `/` stands in front, and nothing but white bytes behind it in its line.
pub fn begins_slash(bytes: &[u8]) -> bool
    ensures { result ≡ begins_slash bytes.now }
{
    match bytes {
        [first, rest @ ..] => *first == b'/' && rest_is_white(rest),
        [] => false,
    }
}

/// Whether the line holds `/` alone, white bytes aside.
fn is_slash_line(bytes: &[u8]) -> bool
    ensures { result ≡ is_slash_line bytes.now }
{
    for (i, byte) in bytes.iter().enumerate() {
        if *byte == b'/' {
            return rest_is_white(&bytes[i + 1..]);
        }
        if *byte == b'\n' || !is_white(*byte) {
            return false;
        }
    }
    false
}

/// How many bytes stand before the next line that holds `/` alone.
pub fn unit_length(bytes: &[u8]) -> usize
    ensures value { result ≡ unit_length false bytes.now }
    ensures within { result ≤ length bytes.now }
{
    let mut begins = false;
    for (i, byte) in bytes.iter().enumerate() {
        if begins && is_slash_line(&bytes[i..]) {
            return i;
        }
        begins = *byte == b'\n';
    }
    bytes.len()
}
