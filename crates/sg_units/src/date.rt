//! The text of a date.
ghost use Rattle.std.specs.Prelude.{◌≡◌, ◌≤◌, ◌<◌, ◌^◌, ◌+◌, ◌-◌, ◌++◌, ◌∷◌, ℕ, List, IsAscii, drop, length, take};
ghost use Rattle.std.specs.Str.Parse.{digits_value};
ghost use Rattle.arrayvec.specs.ArrayString.{array_string_len};
ghost use Rattle.sg_units.specs.Date.{date_of};

use arrayvec::ArrayString;
use itoa::Buffer;

const NANOSECONDS: u128 = 1_000_000_000;

/// Appends digits with a point before the last nine.
fn push_pointed<const N: usize>(text: &mut ArrayString<N>, digits: &str)
    requires ascii { IsAscii digits.now }
    requires long { 9 ≤ length digits.now }
    requires room { array_string_len text.old + length digits.now + 1 ≤ N }
    ensures { text.new.bytes ≡ text.old.bytes
        ++ (take (length digits.now - 9) digits.now
        ++ 46 ∷ drop (length digits.now - 9) digits.now) }
{
    let point = digits.len() - 9;
    text.push_str(&digits[..point]);
    text.push_str(".");
    text.push_str(&digits[point..]);
}

/// Appends a date or a duration in nanoseconds, as seconds with nine digits after the point.
pub fn push_date<const N: usize>(text: &mut ArrayString<N>, ns: u128)
    requires ns { ns < 10 ^ 33 }
    requires room { array_string_len text.old + 34 ≤ N }
    ensures text { text.new.bytes ≡ text.old.bytes ++ date_of ns }
    ensures len { array_string_len text.new ≤ array_string_len text.old + 34 }

    // The digits before and after the point together write the nanoseconds.
    ensures value { (seconds : List ℕ) × (rest : List ℕ)
        × (text.new.bytes ≡ text.old.bytes ++ (seconds ++ 46 ∷ rest))
        × (length rest ≡ 9) × (digits_value 10 (seconds ++ rest) ≡ ns) }
{
    let mut buffer = Buffer::new();
    if ns < NANOSECONDS {
        // One second more has ten digits, and the nine after the first are wanted.
        let digits = buffer.format(NANOSECONDS + ns);
        text.push_str("0.");
        text.push_str(&digits[1..]);
        return;
    }
    push_pointed(text, buffer.format(ns));
}

/// Returns a date or a duration in nanoseconds, as seconds with nine digits after the point.
pub fn date_text(ns: u128) -> ArrayString<64>
    requires { ns < 10 ^ 33 }
    ensures text { result.bytes ≡ date_of ns }

    // The digits before and after the point together write the nanoseconds.
    ensures value { (seconds : List ℕ) × (rest : List ℕ) × (result.bytes ≡ seconds ++ 46 ∷ rest)
        × (length rest ≡ 9) × (digits_value 10 (seconds ++ rest) ≡ ns) }
{
    let mut text = ArrayString::new();
    push_date(&mut text, ns);
    text
}
