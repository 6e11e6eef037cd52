//! The units of the readers.
ghost use Rattle.std.specs.Prelude.{◌≡◌, IsTrue, IfSome, Some};
ghost use Rattle.sg_units.specs.Units.{rows, size_of, are_sizes, time_units, whole, IsSize};

/// A size as a fraction.
#[derive(Clone, Copy)]
pub struct Ratio {
    pub numerator: u64,
    pub denominator: u64,
}

/// A unit: its name, and the numerator and the denominator of its size in the base unit.
pub type UnitRow = (&'static [u8], u64, u64);

/// Flops and bytes.
pub const AMOUNT_UNITS: [UnitRow; 1] = [(b"", 1, 1)];

/// Millionths.
pub const FACTOR_UNITS: [UnitRow; 1] = [(b"", 1_000_000, 1)];

/// Flops per second.
pub const SPEED_UNITS: [UnitRow; 7] = [
    (b"", 1, 1),
    (b"f", 1, 1),
    (b"kf", 1_000, 1),
    (b"Mf", 1_000_000, 1),
    (b"Gf", 1_000_000_000, 1),
    (b"Tf", 1_000_000_000_000, 1),
    (b"Pf", 1_000_000_000_000_000, 1),
];

/// Bytes per second.
pub const BANDWIDTH_UNITS: [UnitRow; 13] = [
    (b"", 1, 1),
    (b"Bps", 1, 1),
    (b"kBps", 1_000, 1),
    (b"MBps", 1_000_000, 1),
    (b"GBps", 1_000_000_000, 1),
    (b"TBps", 1_000_000_000_000, 1),
    (b"KiBps", 1 << 10, 1),
    (b"MiBps", 1 << 20, 1),
    (b"GiBps", 1 << 30, 1),
    (b"bps", 1, 8),
    (b"kbps", 1_000, 8),
    (b"Mbps", 1_000_000, 8),
    (b"Gbps", 1_000_000_000, 8),
];

/// Nanoseconds.
pub const TIME_UNITS: [UnitRow; 9] = [
    (b"", 1_000_000_000, 1),
    (b"ns", 1, 1),
    (b"us", 1_000, 1),
    (b"ms", 1_000_000, 1),
    (b"s", 1_000_000_000, 1),
    (b"m", 60_000_000_000, 1),
    (b"h", 3_600_000_000_000, 1),
    (b"d", 86_400_000_000_000, 1),
    (b"w", 604_800_000_000_000, 1),
];

/// Returns the size of the unit of this name.
pub fn size_of(mut units: &[UnitRow], name: &[u8]) -> Option<Ratio>
    requires { IsTrue (are_sizes (rows units.now)) }
    ensures size { result ≡ size_of (rows units.entry.now) name.now }
    ensures small { IfSome result IsSize }
{
    while let [(unit, numerator, denominator), rest @ ..] = units {
        if *unit == name {
            return Some(Ratio {
                numerator: *numerator,
                denominator: *denominator,
            });
        }
        units = rest;
    }
    None
}

fn nanoseconds(count: u64) -> Option<Ratio>
    ensures { result ≡ Some (whole count) }
{
    Some(Ratio {
        numerator: count,
        denominator: 1,
    })
}

/// Returns the size of the unit of times of this name. The length of each name is known where it is compared.
pub fn time_size(name: &[u8]) -> Option<Ratio>
    ensures size { result ≡ size_of time_units name.now }
    ensures small { IfSome result IsSize }
{
    if b"".as_slice() == name {
        return nanoseconds(1_000_000_000);
    }
    if b"ns".as_slice() == name {
        return nanoseconds(1);
    }
    if b"us".as_slice() == name {
        return nanoseconds(1_000);
    }
    if b"ms".as_slice() == name {
        return nanoseconds(1_000_000);
    }
    if b"s".as_slice() == name {
        return nanoseconds(1_000_000_000);
    }
    if b"m".as_slice() == name {
        return nanoseconds(60_000_000_000);
    }
    if b"h".as_slice() == name {
        return nanoseconds(3_600_000_000_000);
    }
    if b"d".as_slice() == name {
        return nanoseconds(86_400_000_000_000);
    }
    if b"w".as_slice() == name {
        return nanoseconds(604_800_000_000_000);
    }
    None
}
