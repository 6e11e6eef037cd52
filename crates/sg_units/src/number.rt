//! The parts of a number text.
ghost use Rattle.std.specs.Prelude.{◌≡◌, length};
ghost use Rattle.std.specs.Str.Parse.{AllDigits};
ghost use Rattle.sg_units.specs.Number.{digits, after_digits, after_point, after_e, has_minus, after_part};

/// A number in digits, and what follows it.
#[derive(Clone, Copy)]
pub struct Number<'a> {
    /// The digits before the point.
    pub whole: &'a [u8],
    /// The digits after the point.
    pub fraction: &'a [u8],
    /// Whether the exponent has a minus.
    pub is_negative: bool,
    /// The digits of the exponent.
    pub exponent: &'a [u8],
    /// What follows the number.
    pub unit: &'a [u8],
}

fn digit_count(text: &[u8]) -> usize
    ensures { result ≡ length (digits text.now) }
{
    text.iter().take_while(|b| b.is_ascii_digit()).count()
}

/// Returns the digits at the front of a text, and what follows them.
pub fn split_digits(text: &[u8]) -> (&[u8], &[u8])
    ensures digits { result.0.now ≡ digits text.now }
    ensures after { result.1.now ≡ after_digits text.now }
    ensures all { AllDigits 10 result.0.now }
{
    text.split_at(digit_count(text))
}

fn after_point(text: &[u8]) -> &[u8]
    ensures { result.now ≡ after_point text.now }
{
    match text {
        [b'.', after @ ..] => after,
        _ => &text[..0],
    }
}

fn after_e(text: &[u8]) -> &[u8]
    ensures { result.now ≡ after_e text.now }
{
    match text {
        [b'e' | b'E', b'+' | b'-', after @ ..] => after,
        [b'e' | b'E', after @ ..] => after,
        _ => &text[..0],
    }
}

fn has_minus(text: &[u8]) -> bool
    ensures { result ≡ has_minus text.now }
{
    matches!(text, [_, b'-', ..])
}

/// Returns the digits after a mark, and what follows them; with no digit there, the mark is no part of the number.
fn split_part<'a>(text: &'a [u8], after_mark: &'a [u8]) -> (&'a [u8], &'a [u8])
    ensures digits { result.0.now ≡ digits after_mark.now }
    ensures after { result.1.now ≡ after_part text.now after_mark.now }
    ensures all { AllDigits 10 result.0.now }
{
    let (digits, after) = split_digits(after_mark);
    if digits.is_empty() {
        (digits, text)
    } else {
        (digits, after)
    }
}

impl<'a> Number<'a> {
    ghost use Rattle.sg_units.specs.Number.{number_of};
    ghost use Rattle.sg_units.specs.kept.Shown.{parts_of, HasDigits};

    /// Returns the number at the front of a text; with no digit there its whole part is empty.
    pub fn split(text: &'a [u8]) -> Number<'a>
        ensures parts { parts_of result ≡ number_of text.now }
        ensures digits { HasDigits result }
    {
        let (whole, text) = split_digits(text);
        let (fraction, text) = split_part(text, after_point(text));
        let (exponent, unit) = split_part(text, after_e(text));
        Number {
            whole,
            fraction,
            is_negative: has_minus(text),
            exponent,
            unit,
        }
    }
}
