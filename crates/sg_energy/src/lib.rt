//! The energy that each host uses, exactly.
//! The type is `Meter`: `set` gives a host another power from a date on, `energy` returns what it used until a date.
//! It stands on `sg_base`.
#![tactic(auto)]

mod laws;
mod meter;
mod reading;

pub use laws::{lazy_is_whole, set_keeps, set_power_is_used};
pub use meter::Meter;
