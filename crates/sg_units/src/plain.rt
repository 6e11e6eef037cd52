//! Numbers in digits alone.
ghost use Rattle.std.specs.Prelude.{◌≡◌, ◌==◌, ◌||◌, IfSome, slice_index};
ghost use Rattle.sg_units.specs.Number.{has_e};
ghost use Rattle.sg_units.specs.kept.Shown.{IsPlainFront, IsPlainNumber};

use crate::number::split_digits;
use crate::scale::read_few;

/// Returns the number that a text writes, if it is digits alone, of which there are few enough for 64 bits.
pub fn plain_number(text: &[u8]) -> Option<u64>
    ensures { IfSome result (IsPlainNumber text.now) }
{
    if text.is_empty() || text.len() > 18 {
        return None;
    }
    let mut value: u64 = 0;
    for b in text {
        if !b.is_ascii_digit() {
            return None;
        }
        value = value * 10 + u64::from(b - b'0');
    }
    Some(value)
}

// Returns whether a point or the mark of an exponent is at the front.
fn begins_part(text: &[u8]) -> bool
    ensures { result ≡ (slice_index text.now 0 == 46 || has_e text.now) }
{
    matches!(text, [b'.' | b'e' | b'E', ..])
}

/// Returns the number at the front of a text, and its unit, if the number is digits alone, of which there are few enough
/// for 64 bits.
pub fn plain_front(text: &[u8]) -> Option<(u64, &[u8])>
    ensures { IfSome result (λ both. IsPlainFront text.now both.0 both.1.now) }
{
    let (whole, unit) = split_digits(text);
    if whole.is_empty() || whole.len() > 18 || begins_part(unit) {
        return None;
    }
    Some((read_few(whole), unit))
}
