//! What is kept of one host.
ghost use Rattle.std.specs.Prelude.{◌≡◌, ◌≤◌, ◌<◌, ◌+◌, ◌*◌, ◌^◌};
ghost use Rattle.sg_energy.specs.Meter.{energy_at, with_power, IsSince};
ghost use Rattle.sg_energy.specs.kept.Reading.{metered_of, IsReading};

/// Nanoseconds in a second.
const SECOND: u128 = 1_000_000_000;

/// Milliwatt-nanoseconds in a joule, and in a thousandth of it: a milliwatt for a second.
const JOULE: u64 = 1_000_000_000_000;

const MILLIJOULE: u64 = 1_000_000_000;

/// The power of a host since a date, and the energy until then in whole joules and a rest.
#[derive(Clone, Copy)]
pub(crate) struct Reading {
    pub(crate) power: u64,
    pub(crate) since: u128,
    pub(crate) joules: u128,
    pub(crate) rest: u64,
}

/// That of a host without power.
pub(crate) const FIRST: Reading = Reading {
    power: 0,
    since: 0,
    joules: 0,
    rest: 0,
};

impl Reading {
    /// Returns the energy until a date in whole joules and a rest. A power times whole seconds is in thousandths of a
    /// joule, and times what is below a second in milliwatt-nanoseconds: so each product fits.
    pub(crate) fn energy(self, date: u128) -> (u128, u64)
        requires reading { IsReading self }
        requires date { IsSince self.since date }
        ensures energy { result.0 * 10 ^ 12 + result.1 ≡ energy_at (metered_of self) date }
        ensures rest { result.1 < 10 ^ 12 }
    {
        let span = date - self.since;
        let millijoules = u128::from(self.power) * (span / SECOND);
        let below = self.power * (span % SECOND) as u64;
        let rest = self.rest + (millijoules % 1000) as u64 * MILLIJOULE + below;
        let joules = self.joules + millijoules / 1000 + u128::from(rest / JOULE);
        (joules, rest % JOULE)
    }

    /// Returns the reading with another power from a date on; the reading itself, if it has that power.
    pub(crate) fn with_power(self, power: u64, date: u128) -> Reading
        requires reading { IsReading self }
        requires power { power ≤ 10 ^ 9 }
        requires date { IsSince self.since date }
        ensures metered { metered_of result ≡ with_power power date (metered_of self) }
        ensures reading { IsReading result }
    {
        if power == self.power {
            return self;
        }
        let (joules, rest) = self.energy(date);
        Reading {
            power,
            since: date,
            joules,
            rest,
        }
    }
}
