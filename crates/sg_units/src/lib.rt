//! Amounts, speeds, bandwidths, times, factors and dates as texts. Nothing here takes memory.
//! `read_amount`, `read_speed`, `read_bandwidth`, `read_time` and `read_factor` return a number in the least unit or an
//! `AmountFault`; `date_text` returns the text of a date, and `push_date` appends it.
//! It stands on `sg_base`, for its lists alone.
#![tactic(auto)]

mod date;
mod fault;
mod laws;
mod number;
mod plain;
mod readers;
mod scale;
mod units;

pub use date::{date_text, push_date};
pub use fault::AmountFault;
pub use laws::number_is_longest;
pub use readers::{read_amount, read_bandwidth, read_factor, read_speed, read_time};
