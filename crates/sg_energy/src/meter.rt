//! The energy of all hosts.
ghost use Rattle.std.specs.Prelude.{◌≡◌, ◌≤◌, ◌<◌, ◌+◌, ◌*◌, ◌^◌, IfOk, length, replicate, slice_set};
ghost use Rattle.sg_energy.specs.Meter.{energy_at, first_meter, meter_of, with_power, IsSince};
ghost use Rattle.sg_energy.specs.kept.Reading.{first_reading};

use crate::reading::{FIRST, Reading};
use sg_base::{Memory, PointId};
use std::alloc::Global;
use std::marker::Model;

/// For each host its power in milliwatts, and the energy that it used in milliwatt-nanoseconds, of which 10^12 are a
/// joule. Dates are in nanoseconds.
///
/// Contracts see for each host its power, since when it has it, and the energy until then as one number. Hosts are
/// points, and the first points are hosts. A call touches one host, and only `new` takes memory.
#[derive(Drop)]
pub struct Meter {
    readings: Vec<Reading>,
}

impl Model for Meter {
    ghost use Rattle.std.specs.Prelude.{All, List, map};
    ghost use Rattle.sg_energy.specs.Meter.{Metered};
    ghost use Rattle.sg_energy.specs.kept.Reading.{metered_of, IsReading};

    ghost Value = { List Metered };

    ghost view = { λ m. map metered_of m.readings.items };

    ghost invariant = { λ m. All IsReading m.readings.items };
}

// Makes the readings of hosts without power.
fn first_readings(alloc: Global, hosts: u32) -> Result<Vec<Reading>, Memory>
    ensures { IfOk result (λ readings. readings.items ≡ replicate hosts first_reading) }
{
    let mut readings = Vec::new(alloc);
    for _host in 0..hosts {
        readings.push(FIRST)?;
    }
    Ok(readings)
}

impl Meter {
    /// Makes a meter of so many hosts, each without power from the date 0 on, and without energy.
    pub fn new(alloc: Global, hosts: u32) -> Result<Meter, Memory>
        ensures { IfOk result (λ meter. meter ≡ replicate hosts first_meter) }
    {
        Ok(Meter {
            readings: first_readings(alloc, hosts)?,
        })
    }

    /// Gives a host this power, in milliwatts, from this date on. Nothing changes if it has it already. The date isn't
    /// before that at which its power last changed.
    pub fn set(&mut self, host: PointId, power: u64, date: u128)
        requires host { host.0 < length self.old }
        requires power { power ≤ 10 ^ 9 }
        requires date { IsSince (meter_of self.old host.0).since date }
        ensures { self.new ≡ slice_set self.old host.0
            (with_power power date (meter_of self.old host.0)) }
    {
        let host = host.0 as usize;
        self.readings[host] = self.readings[host].with_power(power, date);
    }

    /// Returns the energy that the host used until this date: whole joules, and the milliwatt-nanoseconds below a
    /// joule. The date isn't before that at which its power last changed.
    pub fn energy(&self, host: PointId, date: u128) -> (u128, u64)
        requires host { host.0 < length self.now }
        requires date { IsSince (meter_of self.now host.0).since date }
        ensures energy { result.0 * 10 ^ 12 + result.1 ≡ energy_at (meter_of self.now host.0) date }
        ensures rest { result.1 < 10 ^ 12 }
    {
        self.readings[host.0 as usize].energy(date)
    }
}
