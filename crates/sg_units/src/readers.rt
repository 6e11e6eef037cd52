//! The readers of amounts, speeds, bandwidths, times and factors.
ghost use Rattle.std.specs.Prelude.{◌≡◌, ◌≤◌, ◌<◌, ◌+◌, ◌*◌, ◌/◌, ◌^◌, ◌++◌, IsTrue, IfOk, Some, length, if◌then◌else◌};
ghost use Rattle.std.specs.Str.Parse.{digits_value};
ghost use Rattle.sg_base.specs.Limits.{IsAmount, IsTime};
ghost use Rattle.sg_units.specs.Amount.{value_in_unit, amount_by, up_to, is_short, amount_of, speed_of, bandwidth_of, time_of, factor_of};
ghost use Rattle.sg_units.specs.kept.Shown.{parts_of, HasDigits, HasFewDigits};
ghost use Rattle.sg_units.specs.Units.{amount_units, are_sizes, rows, IsSize};

use crate::fault::AmountFault;
use crate::number::Number;
use crate::plain::{plain_front, plain_number};
use crate::scale::{read_after, scaled};
use crate::units::{
    AMOUNT_UNITS, BANDWIDTH_UNITS, FACTOR_UNITS, Ratio, SPEED_UNITS, TIME_UNITS, UnitRow, size_of,
    time_size,
};

/// The greatest number of flops or bytes, and the greatest speed and bandwidth.
const GREATEST_AMOUNT: u64 = 1_000_000_000_000_000;

/// The greatest time in nanoseconds.
const GREATEST_TIME: u64 = 1_000_000_000_000_000_000;

/// The greatest factor in millionths.
const GREATEST_FACTOR: u64 = 1_000_000_000;

fn is_short(number: &Number) -> bool
    ensures { result ≡ is_short (parts_of number.now) }
{
    number.whole.len() <= 20
        && number.fraction.len() <= 20 - number.whole.len()
        && number.exponent.len() <= 3
}

fn digits_of(number: &Number) -> u128
    requires { HasFewDigits number.now }
    ensures value { result ≡ digits_value 10 (number.now.whole.now ++ number.now.fraction.now) }
    ensures bound { result < 10 ^ 20 }
{
    read_after(read_after(0, number.whole), number.fraction)
}

fn exponent_of(number: &Number) -> u32
    requires { HasFewDigits number.now }
    ensures value { result ≡ digits_value 10 number.now.exponent.now }
    ensures bound { result < 10 ^ 3 }
{
    read_after(0, number.exponent) as u32
}

// Returns the power of ten that the digits are multiplied by, and the one that they are divided by.
fn powers_of(number: &Number) -> (u32, u32)
    requires { HasFewDigits number.now }
    ensures power { result.0
        ≡ if number.now.is_negative then 0 else digits_value 10 number.now.exponent.now }
    ensures places { result.1 ≡ length number.now.fraction.now
        + (if number.now.is_negative then digits_value 10 number.now.exponent.now else 0) }
{
    let exponent = exponent_of(number);
    let places = number.fraction.len() as u32;
    if number.is_negative {
        (0, places + exponent)
    } else {
        (exponent, places)
    }
}

/// Returns the number times the size of its unit, rounded down.
fn short_value(number: &Number, size: Ratio, greatest: u64) -> Result<u64, AmountFault>
    requires digits { HasDigits number.now }
    requires size { IsSize size }
    requires greatest { greatest ≤ 10 ^ 18 }
    ensures { result ≡ value_in_unit greatest (parts_of number.now) (Some size) }
{
    if !is_short(number) {
        return Err(AmountFault::TooLarge);
    }
    let product = digits_of(number) * u128::from(size.numerator);
    // Over the denominator and rounded down, this is the greatest value.
    let most = (greatest + 1) * size.denominator - 1;
    let (power, places) = powers_of(number);
    match scaled(product, power, places, most) {
        Some(value) => Ok(value / size.denominator),
        None => Err(AmountFault::TooLarge),
    }
}

// Returns a number of few digits times the size of its unit, rounded down.
fn whole_value(number: u64, size: Ratio, greatest: u64) -> Result<u64, AmountFault>
    requires number { number < 10 ^ 18 }
    requires size { IsSize size }
    requires greatest { greatest ≤ 10 ^ 18 }
    ensures value { result ≡ up_to greatest (number * size.numerator / size.denominator) }
    ensures limit { IfOk result (λ n. n ≤ greatest) }
{
    let product = u128::from(number) * u128::from(size.numerator);
    // Over the denominator and rounded down, this is the greatest value.
    let most = (greatest + 1) * size.denominator - 1;
    if product > u128::from(most) {
        return Err(AmountFault::TooLarge);
    }
    Ok(product as u64 / size.denominator)
}

/// The units of a reader, and the greatest value that it returns.
#[derive(Clone, Copy)]
struct Reader<'u> {
    units: &'u [UnitRow],
    greatest: u64,
    ghost sizes: { IsTrue (are_sizes (rows units.now)) },
    ghost small: { greatest ≤ 10 ^ 18 },
}

impl Reader<'_> {
    fn read_any(&self, text: &[u8]) -> Result<u64, AmountFault>
        ensures { result ≡ amount_by (rows self.now.units.now) self.now.greatest text.now }
    {
        let number = Number::split(text);
        if number.whole.is_empty() {
            return Err(AmountFault::NotANumber);
        }
        match size_of(self.units, number.unit) {
            Some(size) => short_value(&number, size, self.greatest),
            None => Err(AmountFault::UnknownUnit),
        }
    }

    // Does the same, sooner if the number is digits alone, as most are.
    fn read(&self, text: &[u8]) -> Result<u64, AmountFault>
        ensures value { result ≡ amount_by (rows self.now.units.now) self.now.greatest text.now }
        ensures limit { IfOk result (λ n. n ≤ self.now.greatest) }
    {
        let Some(front) = plain_front(text) else {
            return self.read_any(text);
        };
        let Some(size) = size_of(self.units, front.1) else {
            return Err(AmountFault::UnknownUnit);
        };
        whole_value(front.0, size, self.greatest)
    }
}

// Reads an amount that has no unit. Most amounts are digits alone, and need no more than these.
fn amount_without_unit(greatest: u64, text: &[u8]) -> Result<u64, AmountFault>
    requires { greatest ≤ 10 ^ 18 }
    ensures value { result ≡ amount_by amount_units greatest text.now }
    ensures limit { IfOk result (λ n. n ≤ greatest) }
{
    match plain_number(text) {
        Some(n) if n <= greatest => Ok(n),
        _ => Reader {
            units: &AMOUNT_UNITS,
            greatest,
        }
        .read(text),
    }
}

/// Reads flops or bytes, which have no unit, up to 10^15.
pub fn read_amount(text: &[u8]) -> Result<u64, AmountFault>
    ensures value { result ≡ amount_of text.now }
    ensures limit { IfOk result IsAmount }
{
    amount_without_unit(GREATEST_AMOUNT, text)
}

/// Reads a speed in flops per second, up to 10^15.
pub fn read_speed(text: &[u8]) -> Result<u64, AmountFault>
    ensures value { result ≡ speed_of text.now }
    ensures limit { IfOk result (λ n. n ≤ 10 ^ 15) }
{
    Reader {
        units: &SPEED_UNITS,
        greatest: GREATEST_AMOUNT,
    }
    .read(text)
}

/// Reads a bandwidth in bytes per second, up to 10^15. The units that end in `bps` are bits per second.
pub fn read_bandwidth(text: &[u8]) -> Result<u64, AmountFault>
    ensures value { result ≡ bandwidth_of text.now }
    ensures limit { IfOk result (λ n. n ≤ 10 ^ 15) }
{
    Reader {
        units: &BANDWIDTH_UNITS,
        greatest: GREATEST_AMOUNT,
    }
    .read(text)
}

// Reads a time in any form.
fn any_time(text: &[u8]) -> Result<u64, AmountFault>
    ensures value { result ≡ time_of text.now }
    ensures limit { IfOk result IsTime }
{
    Reader {
        units: &TIME_UNITS,
        greatest: GREATEST_TIME,
    }
    .read(text)
}

/// Reads a time in nanoseconds, up to 10^18. Without a unit it is in seconds.
pub fn read_time(text: &[u8]) -> Result<u64, AmountFault>
    ensures value { result ≡ time_of text.now }
    ensures limit { IfOk result IsTime }
{
    let Some(front) = plain_front(text) else {
        return any_time(text);
    };
    let Some(size) = time_size(front.1) else {
        return Err(AmountFault::UnknownUnit);
    };
    whole_value(front.0, size, GREATEST_TIME)
}

/// Reads a factor up to 1,000, in millionths. It has no unit.
pub fn read_factor(text: &[u8]) -> Result<u64, AmountFault>
    ensures value { result ≡ factor_of text.now }
    ensures limit { IfOk result (λ n. n ≤ 10 ^ 9) }
{
    Reader {
        units: &FACTOR_UNITS,
        greatest: GREATEST_FACTOR,
    }
    .read(text)
}
