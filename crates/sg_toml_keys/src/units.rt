//! Values with units, if their reader takes the text, and whole numbers within bounds.
ghost use Rattle.std.specs.Prelude.{◌≡◌};
ghost use Rattle.sg_toml_keys.specs.Units.{quantity_value, whole_value};
ghost use Rattle.sg_toml_keys.specs.declared.units.Quantity.TheVariants as quantity;

use sg_units::{read_amount, read_bandwidth, read_factor, read_speed, read_time};

/// What a text gives an amount of.
#[derive(Clone, Copy)]
pub enum Quantity {
    /// In nanoseconds.
    Time,
    /// In nanoseconds, up to 10^15.
    Latency,
    /// In flops per second.
    Speed,
    /// In bytes per second.
    Bandwidth,
    /// In millionths.
    Factor,
    /// Flops, bytes or tasks.
    Amount,
}

/// The greatest latency, in nanoseconds.
const GREATEST_LATENCY: u64 = 1_000_000_000_000_000;

#[tactic(auto, unfolding(crate::specs::Units::quantity_value))]
fn latency_value(text: &[u8]) -> Option<u64>
    ensures { result ≡ quantity_value quantity.Latency text.now }
{
    match read_time(text) {
        Ok(latency) if latency <= GREATEST_LATENCY => Some(latency),
        _ => None,
    }
}

impl Quantity {
    /// Returns the amount that a text gives.
    #[tactic(auto, unfolding(crate::specs::Units::quantity_value))]
    pub fn value(self, text: &[u8]) -> Option<u64>
        ensures { result ≡ quantity_value self text.now }
    {
        match self {
            Quantity::Time => read_time(text).ok(),
            Quantity::Latency => latency_value(text),
            Quantity::Speed => read_speed(text).ok(),
            Quantity::Bandwidth => read_bandwidth(text).ok(),
            Quantity::Factor => read_factor(text).ok(),
            Quantity::Amount => read_amount(text).ok(),
        }
    }
}

/// Returns the whole number, if it is from the least to the greatest.
pub fn whole_value(least: u64, greatest: u64, number: i64) -> Option<u64>
    ensures { result ≡ whole_value least greatest number }
{
    if number >= 0 {
        let whole = number as u64;
        if least <= whole && whole <= greatest {
            Some(whole)
        } else {
            None
        }
    } else {
        None
    }
}
