//! The numbers of sessions, in decimal.

ghost use Rattle.std.specs.Prelude.{◌≡◌, ◌≤◌, min};
ghost use Rattle.ebr_order.specs.Order as spec;

use ebr_base::SessionId;

/// The session whose number the digits in front spell; none where it is 0 or more than there are sessions. The digits may
/// begin with zeros, and be any number.
pub fn session_in_front(bytes: &[u8], sessions: u32) -> Option<SessionId>
    ensures { result ≡ spec.session_of sessions (spec.number_in_front bytes.now) }
{
    let number = number_in_front(bytes, u64::from(sessions) + 1);
    match u32::try_from(number) {
        Ok(number) if 1 <= number && number <= sessions => Some(SessionId(number)),
        _ => None,
    }
}

/// The number that the digits in front spell, or the bound where it is more.
fn number_in_front(bytes: &[u8], bound: u64) -> u64
    requires small { bound ≤ 4294967296 }
    ensures { result ≡ min bound (spec.number_in_front bytes.now) }
{
    let mut number = 0u64;
    for byte in bytes {
        if !byte.is_ascii_digit() {
            return number;
        }
        number = (number * 10 + u64::from(*byte - b'0')).min(bound);
    }
    number
}
