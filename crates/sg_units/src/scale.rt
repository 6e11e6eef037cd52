//! Whole numbers over and times powers of ten.
ghost use Rattle.std.specs.Prelude.{◌≡◌, ◌≤◌, ◌<◌, ◌+◌, ◌*◌, ◌/◌, ◌^◌, Option, Some, None, nat_le, if◌then◌else◌, length};
ghost use Rattle.std.specs.Str.Parse.{AllDigits, digits_value_after};
ghost use Rattle.sg_units.specs.kept.Scaled.{if_at_most};

/// Returns the number that these few digits write. Most amounts have few, and 64-bit arithmetic is several times as
/// fast.
pub fn read_few(digits: &[u8]) -> u64
    requires digits { AllDigits 10 digits.now }
    requires few { length digits.now ≤ 18 }
    ensures value { result ≡ digits_value_after 10 0 digits.now }
    ensures bound { result + 1 ≤ 10 ^ length digits.now }
{
    let mut value: u64 = 0;
    for b in digits {
        value = value * 10 + u64::from(b - b'0');
    }
    value
}

/// Returns the number that these digits write after those of `number`.
pub fn read_after(number: u128, digits: &[u8]) -> u128
    requires digits { AllDigits 10 digits.now }
    requires bound { (number + 1) * 10 ^ length digits.now < 2 ^ 120 }
    ensures value { result ≡ digits_value_after 10 number digits.now }
    ensures bound { result + 1 ≤ (number + 1) * 10 ^ length digits.now }
{
    if number == 0 && digits.len() <= 18 {
        return u128::from(read_few(digits));
    }
    let mut value = number;
    for b in digits {
        value = value * 10 + u128::from(b - b'0');
    }
    value
}

/// Returns the number times 10 to a power, if that is at most so large.
fn raised(number: u128, power: u32, most: u64) -> Option<u64>
    requires { number < 10 ^ 36 }
    ensures { result ≡ if_at_most most (number * 10 ^ power) }
{
    let most = u128::from(most);
    let mut value = number;
    for _ in 0..power {
        if value > most {
            return None;
        }
        value *= 10;
    }
    if value > most {
        None
    } else {
        Some(value as u64)
    }
}

/// Returns the number over 10 to a power, rounded down.
fn lowered(number: u128, power: u32) -> u128
    ensures { result ≡ number / 10 ^ power }
{
    let mut value = number;
    for _ in 0..power {
        value /= 10;
    }
    value
}

/// Returns the number times 10 to `power` over 10 to `places`, rounded down, if that is at most so large.
pub fn scaled(number: u128, power: u32, places: u32, most: u64) -> Option<u64>
    requires { number < 10 ^ 36 }
    ensures { result ≡ if_at_most most (number * 10 ^ power / 10 ^ places) }
{
    if places <= power {
        return raised(number, power - places, most);
    }
    let value = lowered(number, places - power);
    if value > u128::from(most) {
        None
    } else {
        Some(value as u64)
    }
}
