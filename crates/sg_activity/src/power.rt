//! What hosts take: the load of each, and the power that its meter gets.

ghost use Rattle.std.specs.Prelude.{◌≡◌, ◌<◌, ◌≤◌, ◌+◌, ◌^◌, ℕ, [], All, IfOk, IfSome, IsTrue, length, slice_set, unwrap_or};
ghost use Rattle.sg_base.specs.MarkSet.{is_in};
ghost use Rattle.sg_maxmin.specs.Chained.{users_on};
ghost use Rattle.sg_energy.specs.Meter.{meter_of, with_power};
ghost use Rattle.sg_activity.specs.Hosts.{IsPower, host_at, offer_of};
ghost use Rattle.sg_activity.specs.Power.{power_by as power_by_spec};
ghost use Rattle.sg_activity.specs.Underway.{load as load_spec, power_at};
ghost use Rattle.sg_activity.specs.kept.Metered.{AreFirst, AreTold, IsMetered, IsWithin, noted, rate_of, rates_of, sum_of, total, with_one};
ghost use Rattle.sg_activity_table.specs.Pool.{slot_at};
ghost use Rattle.sg_activity.specs.kept.State.{state_of, under_of};
ghost use Rattle.sg_activity.specs.kept.Whole.{CanTell};
ghost use Rattle.sg_activity.specs.kept.Asks.{CanMeter, CanTellOf};

use crate::activity_state::Kept;
use sg_activity_table::{Live, Place, Power, takes_share};
use sg_base::{Marks, Memory, PointId};
use sg_energy::Meter;
use std::alloc::Global;

// Returns the sum with the rate of the activity under a key, if it takes a share.
fn with_rate(kept: &Kept, key: usize, sum: Option<u64>) -> Option<u64>
    requires key { key < length kept.now.lives.slots }
    requires fits { unwrap_or sum 0 + unwrap_or (rate_of (slot_at kept.now.lives.slots key)) 0
        < 2 ^ 64 }
    ensures { result ≡ with_one sum (rate_of (slot_at kept.now.lives.slots key)) }
{
    match kept.lives.get(key) {
        Some(live) if takes_share(live.kind) => Some(sum.unwrap_or(0) + live.rate),
        _ => sum,
    }
}

// Returns the sum of the rates of those that use a thing and take shares.
fn sum_on(kept: &Kept, thing: usize) -> Option<u64>
    requires thing { thing < length kept.now.index.users }
    requires keys { All (λ key. key < length kept.now.lives.slots)
        (users_on kept.now.index.users thing) }
    requires fits { sum_of (rates_of kept.now.lives.slots (users_on kept.now.index.users thing))
        < 2 ^ 64 }
    ensures { result ≡ total (rates_of kept.now.lives.slots (users_on kept.now.index.users thing)) }
{
    let mut sum = None;
    let mut at = kept.index.first_on(thing);
    while let Some(i) = at {
        let one = kept.index.look(i);
        sum = with_rate(kept, one.flow, sum);
        at = one.next_on;
    }
    sum
}

/// Returns what the executions of a host get together; `None` if none takes a share.
pub(crate) fn load(kept: &Kept, host: usize) -> Option<u64>
    requires { CanTellOf kept.now host }
    ensures load { result ≡ load_spec (under_of (state_of kept.now)) host }
    ensures fits { IfSome result (λ load. load ≤ offer_of (host_at kept.now.hosts.items host)) }
{
    kept.index.is_both_ways();
    sum_on(kept, host)
}

// Returns the power of a host that is on, at its capacity and load.
fn power_by(power: Power, capacity: u64, load: Option<u64>) -> u64
    requires power { IsPower power }
    requires fits { IfSome load (λ load. load ≤ capacity) }
    ensures power { result ≡ power_by_spec power capacity load }
    ensures few { result ≤ 10 ^ 9 }
{
    let Some(load) = load else {
        return power.idle;
    };
    if capacity == 0 {
        return power.epsilon;
    }
    let range = u128::from(power.all - power.epsilon);
    power.epsilon + (range * u128::from(load) / u128::from(capacity)) as u64
}

// Returns the power of a host.
fn power_of(kept: &Kept, host: usize) -> u64
    requires { CanTellOf kept.now host }
    ensures power { result ≡ power_at (under_of (state_of kept.now)) host }
    ensures few { result ≤ 10 ^ 9 }
{
    let cap = kept.hosts[host];
    let Some(power) = cap.power else {
        return 0;
    };
    if !kept.hosts_on[host] {
        return power.off;
    }
    let capacity = cap.speed * u64::from(cap.cores);
    power_by(power, capacity, load(kept, host))
}

// Gives the meter the power of a host.
fn set_power(kept: &Kept, meter: &mut Meter, host: usize)
    requires host { host < length kept.now.hosts.items }
    requires meter { CanMeter kept.now meter.old }
    ensures { meter.new ≡ slice_set meter.old host
        (with_power (power_at (under_of (state_of kept.now)) host) kept.now.date
        (meter_of meter.old host)) }
{
    let power = power_of(kept, host);
    meter.set(PointId(host as u32), power, kept.date);
}

// Does the same for all these hosts.
fn set_each(kept: &Kept, meter: &mut Meter, hosts: &[usize])
    requires hosts { All (λ host. host < length kept.now.hosts.items) hosts.now }
    requires meter { CanMeter kept.now meter.old }
    ensures { AreTold (under_of (state_of kept.now)) meter.old meter.new hosts.now }
{
    for host in hosts {
        set_power(kept, meter, *host);
    }
}

/// Gives the meter the power of each touched host; none is touched any more.
pub(crate) fn set_powers(kept: &Kept, meter: &mut Meter, touched: &mut Marks)
    requires tell { CanTell kept.now }
    requires metered { IsMetered kept.now meter.old touched.old }
    ensures told { AreTold (under_of (state_of kept.now)) meter.old meter.new
        touched.old.members }
    ensures none { touched.new ≡ record touched.old { members = [] } }
{
    set_each(kept, meter, touched.members());
    touched.clear();
}

/// Touches the host of an execution before it ends, is suspended or resumed.
pub(crate) fn note(touched: &mut Marks, live: &Live)
    requires { IsWithin touched.old.room live.now.place }
    ensures { touched.new
        ≡ record touched.old { members = noted live.now.place touched.old.members } }
{
    if let Place::OnHost(host) = live.place {
        touched.insert(host.0 as usize);
    }
}

// Makes a set in which all of so many hosts are touched.
fn all_touched(alloc: Global, hosts: usize) -> Result<Marks, Memory>
    ensures room { IfOk result (λ touched. touched.room ≡ hosts) }
    ensures all { IfOk result (λ touched. (host : ℕ) → host < hosts
        → IsTrue (is_in host touched.members)) }
{
    let mut touched = Marks::new(alloc);
    touched.reserve(hosts)?;
    for host in 0..hosts {
        touched.insert(host);
    }
    Ok(touched)
}

/// Makes a meter of so many hosts, of which all are touched.
pub(crate) fn first_meter(alloc: Global, hosts: usize) -> Result<(Meter, Marks), Memory>
    ensures { IfOk result (λ first. AreFirst hosts first.0 first.1) }
{
    let Ok(count) = u32::try_from(hosts) else {
        return Err(Memory);
    };
    let meter = Meter::new(alloc, count)?;
    Ok((meter, all_touched(alloc, hosts)?))
}
