//! Writing of rates, and noting of those that change.
ghost use Rattle.std.specs.Prelude.{◌≡◌, ◌≢◌, ◌<◌, ◌≤◌, ◌*◌, ◌^◌, ℕ, [], false, IsSome, None, length, slice_index, if◌then◌else◌};
ghost use Rattle.sg_base.specs.MarkSet.{is_in, with_mark};
ghost use Rattle.sg_maxmin.specs.Sharing.{flow_at};
ghost use Rattle.sg_maxmin.specs.Numbered.{bound_at, flow_in};
ghost use Rattle.sg_lazy.specs.kept.Changes.{WritesRate, WritesRates, did_change};
ghost use Rattle.sg_lazy.specs.kept.Leveled.{AreRatable, IsRatable, rate_at, rate_of};

use crate::settle::Pending;
use sg_base::Marks;
use sg_maxmin::System;
use sg_maxmin::rounding::share_at;
use sg_maxmin_levels::Levels;

// Returns what a flow gets at its level; nothing if it has none.
fn share(system: &System, flow: usize, level: Option<u64>) -> u64
    requires held { IsSome (flow_at system.now.slots flow) }
    requires fits { bound_at system.now.slots flow ≡ None
        → rate_of (flow_in system.now.slots flow) level < 2 ^ 64 }
    ensures { result ≡ rate_of (flow_in system.now.slots flow) level }
{
    match level {
        None => 0,
        Some(level) => share_at(system.weight(flow), system.bound(flow), level),
    }
}

// Writes the rate of one flow, and notes it if that changed.
fn write_rate(flow: usize, rate: u64, began: &Marks, rates: &mut [u64], changed: &mut Marks)
    requires began { flow < began.now.room }
    requires rates { flow < length rates.old }
    requires changed { flow < changed.old.room }
    ensures rate { slice_index rates.new flow ≡ rate }
    ensures others { (other : ℕ) → other ≢ flow
        → slice_index rates.new other ≡ slice_index rates.old other }
    ensures changed { changed.new ≡ record changed.old {
      members =
          if did_change began.now.members rates.old (λ id. rate) flow
          then with_mark flow changed.old.members else changed.old.members;
    } }
{
    if rates[flow] != rate || began.contains(flow) {
        changed.insert(flow);
    }
    rates[flow] = rate;
}

// Does the same for a flow by its level, unless it ended.
fn rate_flow(
    system: &System,
    levels: &Levels,
    flow: usize,
    pending: &Pending,
    rates: &mut [u64],
    changed: &mut Marks,
)
    requires ratable { IsRatable system.now levels.now pending.now flow }
    requires rates { flow < length rates.old }
    requires changed { flow < changed.old.room }
    ensures { WritesRate pending.now.began.members pending.now.ended.members flow
        (rate_at system.now.slots levels.now.levels.items)
        rates.old rates.new changed.old changed.new }
{
    if pending.ended.contains(flow) {
        return;
    }
    let rate = share(system, flow, levels.level(flow));
    write_rate(flow, rate, &pending.began, rates, changed);
}

/// Writes the rates of the flows that moved, except for those that ended, and notes those that changed.
pub fn write_rates(
    system: &System,
    levels: &Levels,
    pending: &Pending,
    rates: &mut [u64],
    changed: &mut Marks,
)
    requires ratable { AreRatable system.now levels.now pending.now }
    requires rates { length system.now.slots ≤ length rates.old }
    requires changed { length system.now.slots ≤ changed.old.room }
    requires none { changed.old.members ≡ [] }
    ensures written { WritesRates levels.now.moved.members
        pending.now.began.members pending.now.ended.members
        (rate_at system.now.slots levels.now.levels.items) rates.old rates.new changed.new.members }
    ensures room { changed.new.room ≡ changed.old.room }
{
    for flow in levels.moved() {
        rate_flow(system, levels, *flow, pending, rates, changed);
    }
}
