//! Amounts, speeds, bandwidths and times as texts, with the kind of each fault, which no whole run shows; and dates. What
//! is expected was worked by hand from the rules of units. `tests/cases.d/units.txt` has other texts.
use sg_units::{AmountFault, date_text, read_amount, read_bandwidth, read_speed, read_time};

#[derive(Clone, Copy)]
enum Reader {
    Amount,
    Speed,
    Bandwidth,
    Time,
}

use Reader::{Amount, Bandwidth, Speed, Time};

const NOT_A_NUMBER: u64 = u64::MAX;

const TOO_LARGE: u64 = u64::MAX - 1;

const UNKNOWN_UNIT: u64 = u64::MAX - 2;

// A reader, a text, and what it gives: a number, or that of a fault.
const TEXTS: [(Reader, &str, u64); 19] = [
    (Amount, "1e6", 1_000_000),
    (Amount, "1e15", 1_000_000_000_000_000),
    (Amount, "1000000000000001", TOO_LARGE),
    (Amount, "1e0001", TOO_LARGE),
    (Amount, "1e", UNKNOWN_UNIT),
    (Amount, "1.", UNKNOWN_UNIT),
    // an unknown unit is reported before the length
    (Amount, "1e0001f", UNKNOWN_UNIT),
    (Amount, ".5", NOT_A_NUMBER),
    (Amount, "-1", NOT_A_NUMBER),
    (Amount, "", NOT_A_NUMBER),
    (Speed, "98.095Mf", 98_095_000),
    (Bandwidth, "41.279125MBps", 41_279_125),
    (Bandwidth, "10Gbps", 1_250_000_000),
    (Bandwidth, "125.5bps", 15),
    (Time, "59.904us", 59_904),
    (Time, "1.461517E-4s", 146_151),
    (Time, "0.9ns", 0),
    (Time, "1.5", 1_500_000_000),
    (Time, "5 s", UNKNOWN_UNIT),
];

fn read(reader: Reader, bytes: &[u8]) -> Result<u64, AmountFault> {
    match reader {
        Amount => read_amount(bytes),
        Speed => read_speed(bytes),
        Bandwidth => read_bandwidth(bytes),
        Time => read_time(bytes),
    }
}

fn told(reader: Reader, text: &str) -> u64 {
    match read(reader, text.as_bytes()) {
        Ok(value) => value,
        Err(AmountFault::NotANumber) => NOT_A_NUMBER,
        Err(AmountFault::TooLarge) => TOO_LARGE,
        Err(AmountFault::UnknownUnit) => UNKNOWN_UNIT,
    }
}

#[test]
fn texts_are_amounts(rt: HostRuntime) {
    for (reader, text, value) in TEXTS {
        assert_eq!(rt; told(reader, text), value, "for {text}");
    }
}

const DATES: [(u128, &str); 3] = [
    (0, "0.000000000"),
    (1, "0.000000001"),
    (12_345_678_901, "12.345678901"),
];

#[test]
fn dates_have_nine_places(rt: HostRuntime) {
    for (date, text) in DATES {
        assert_eq!(rt; date_text(date).as_str(), text);
    }
}
