//! A rate update: it makes levels and holds agree, one resource at a time, in any order.
ghost use Rattle.std.specs.Prelude.{◌≡◌, ◌≤◌, ◌<◌, ◌+◌, ◌-◌, ◌*◌, ◌^◌, ℕ, true, false, IsTrue, Option, None, Some, IfSome, IsSome, [], ◌∷◌, length, slice_index, slice_set, ◌==◌, if◌then◌else◌};
ghost use Rattle.sg_base.specs.MarkSet.{is_in};
ghost use Rattle.sg_maxmin.specs.Chained.{times, users_on};
ghost use Rattle.sg_maxmin.specs.Sharing.{flow_at, uses_at};
ghost use Rattle.sg_maxmin_levels.specs.Demand.{demand_of};
ghost use Rattle.sg_maxmin.specs.Held.{IsAtMost, IsUnder};
ghost use Rattle.sg_maxmin_levels.specs.Kept.{Activates, ActivatesBut, ActivatesOnly, CanShift, HasFlow, HasPlaces, IsKept, IsSettlingOn, IsUser, KeepsLevels, MovesTo, NotesMoved, ResourceStaysWithin, SettlesUser, VisitsUses};
ghost use Rattle.sg_maxmin.specs.Numbered.{IsHeld, bound_of as bound_of_flow, flow_in, level_at};
ghost use Rattle.sg_maxmin_levels.specs.Settling.{HasCause, is_active};

use crate::levels::Levels;
use sg_base::Steps;
use sg_maxmin::System;
use sg_maxmin::rounding::{level_of_bound, share_at};
use std::sync::ledger::Ledger;

// Returns whether two levels are the same.
pub(crate) fn is_same(one: Option<u64>, other: Option<u64>) -> bool
    ensures same { IsTrue result → one ≡ other }
    ensures told { one ≡ other → IsTrue result }
{
    match one {
        None => other.is_none(),
        Some(one) => match other {
            None => false,
            Some(other) => one == other,
        },
    }
}

// Returns the hold, if the level is above it.
fn hold_below(level: Option<u64>, hold: Option<u64>) -> Option<u64>
    ensures some { IfSome result (λ h. (hold ≡ Some h) × IsUnder h level) }
    ensures none { result ≡ None → IsAtMost level hold }
{
    let hold = hold?;
    match level {
        None => Some(hold),
        Some(level) => { if hold < level { Some(hold) } else { None } }
    }
}

// Returns the level of a flow's bound.
pub(crate) fn bound_of(system: &System, flow: usize) -> Option<u64>
    requires { IsHeld system.now flow }
    ensures { result ≡ bound_of_flow (flow_in system.now.slots flow) }
{
    level_of_bound(system.weight(flow), system.bound(flow))
}

// Returns what a flow adds to the demand on each of its resources, at this level.
pub(crate) fn part_of(system: &System, flow: usize, level: Option<u64>) -> u128
    requires { IsSome (flow_at system.now.slots flow) }
    ensures { result ≡ demand_of (flow_in system.now.slots flow) level }
{
    let weight = system.weight(flow);
    match level {
        None => u128::from(u64::MAX) + 1,
        Some(level) => {
            u128::from(share_at(weight, system.bound(flow), level)) + 2 * u128::from(weight)
        }
    }
}

// Returns how many users are counted, if one has this part now.
fn fewer(count: u64, after: u128) -> u64
    ensures { result ≡ count - (if after == 0 then 1 else 0) }
{
    if after == 0 {
        count.saturating_sub(1)
    } else {
        count
    }
}

// Makes a resource of a flow that moves active, and replaces one part in the demand on it by another. If that is none
// the resource has one user less.
pub(crate) fn visit(resource: usize, before: u128, after: u128, kept: &mut Levels)
    requires active { resource < kept.old.active.room }
    requires demand { resource < length kept.old.demands.items }
    requires counts { resource < length kept.old.counts.items }
    requires some { before ≤ slice_index kept.old.demands.items resource }
    requires fits { slice_index kept.old.demands.items resource + after < 2 ^ 128 + before }
    ensures activates { Activates (resource ∷ [])
        kept.old.active.members kept.new.active.members }
    ensures demands { kept.new.demands.items ≡ slice_set kept.old.demands.items resource
        (slice_index kept.old.demands.items resource - before + after) }
    ensures counts { kept.new.counts.items ≡ slice_set kept.old.counts.items resource
        (slice_index kept.old.counts.items resource - (if after == 0 then 1 else 0)) }
    ensures levels { KeepsLevels kept.old kept.new }
{
    kept.active.insert(resource);
    kept.demands[resource] = kept.demands[resource] - before + after;
    kept.counts[resource] = fewer(kept.counts[resource], after);
}

// Does the same for each resource of the flow.
pub(crate) fn visit_uses<L: Ledger>(
    system: &System,
    flow: usize,
    before: u128,
    after: u128,
    kept: &mut Levels,
    steps: &mut Steps<L>,
)
    requires places { HasPlaces system.now kept.old }
    requires shift { CanShift before after (uses_at system.now.slots flow) kept.old.demands.items }
    ensures { VisitsUses system.now flow before after kept.old kept.new steps.old steps.new }
{
    let mut at = system.first_of(flow);
    while let Some(i) = at {
        let one = system.look(i, steps);
        visit(one.resource, before, after, kept);
        at = one.next_of_flow;
    }
}

// Returns whether a flow's level is that of its bound, or what is written of one of its resources.
fn has_cause<L: Ledger>(
    system: &System,
    flow: usize,
    level: Option<u64>,
    kept: &Levels,
    steps: &mut Steps<L>,
) -> bool
    requires { HasFlow system.now kept.now flow }
    ensures cause { IsTrue result
        → HasCause kept.now.holds.items (flow_in system.now.slots flow) level }
    ensures looks { steps.new ≤ steps.old + length (uses_at system.now.slots flow) }
{
    if is_same(bound_of(system, flow), level) {
        return true;
    }
    let mut at = system.first_of(flow);
    while let Some(i) = at {
        let one = system.look(i, steps);
        if is_same(kept.hold(one.resource), level) {
            return true;
        }
        at = one.next_of_flow;
    }
    false
}

// Gives a flow another level, and notes it; its resources are active.
pub(crate) fn move_flow<L: Ledger>(
    system: &System,
    flow: usize,
    level: Option<u64>,
    kept: &mut Levels,
    steps: &mut Steps<L>,
)
    requires { HasFlow system.now kept.old flow }
    ensures to { MovesTo system.now flow level kept.old kept.new steps.old steps.new }
    ensures activates { Activates (uses_at system.now.slots flow)
        kept.old.active.members kept.new.active.members }
{
    let before = kept.part(flow);
    let after = part_of(system, flow, level);
    kept.levels[flow] = level;
    kept.parts[flow] = after;
    kept.moved.insert(flow);
    visit_uses(system, flow, before, after, kept, steps);
}

// Lowers a user of a resource to its hold; its other resources become active.
fn lower<L: Ledger>(
    system: &System,
    resource: usize,
    flow: usize,
    hold: u64,
    kept: &mut Levels,
    steps: &mut Steps<L>,
)
    requires { IsUser system.now kept.old resource flow }
    ensures to { MovesTo system.now flow (Some hold) kept.old kept.new steps.old steps.new }
    ensures activates { ActivatesBut resource (uses_at system.now.slots flow)
        kept.old.active.members kept.new.active.members }
    ensures only { ActivatesOnly (uses_at system.now.slots flow)
        kept.old.active.members kept.new.active.members }
{
    let was = kept.is_active(resource);
    move_flow(system, flow, Some(hold), kept, steps);
    if !was {
        kept.active.remove(resource);
    }
}

// Raises a user of a resource that held it, if nothing holds it now. Returns how often its uses were visited.
fn settle_held<L: Ledger>(
    system: &System,
    resource: usize,
    flow: usize,
    kept: &mut Levels,
    steps: &mut Steps<L>,
) -> u64
    requires of { IsUser system.now kept.old resource flow }
    requires most { IsAtMost (level_at kept.old.levels.items flow)
        (level_at kept.old.holds.items resource) }
    ensures { (was : Option ℕ) → SettlesUser system.now resource was flow kept.old kept.new result
        steps.old steps.new }
{
    let level = kept.level(flow);
    if is_same(kept.hold(resource), level) {
        return 0;
    }
    if !has_cause(system, flow, level, kept, steps) {
        move_flow(system, flow, bound_of(system, flow), kept, steps);
        2
    } else {
        1
    }
}

// Updates a user of a resource, of which another hold was written before. Returns how often its uses were visited.
fn settle_user<L: Ledger>(
    system: &System,
    resource: usize,
    was: Option<u64>,
    flow: usize,
    kept: &mut Levels,
    steps: &mut Steps<L>,
) -> u64
    requires { IsUser system.now kept.old resource flow }
    ensures { SettlesUser system.now resource was flow kept.old kept.new result
        steps.old steps.new }
{
    let level = kept.level(flow);
    match hold_below(level, kept.hold(resource)) {
        Some(hold) => {
            lower(system, resource, flow, hold, kept, steps);
            1
        }
        None => {
            if is_same(level, was) {
                settle_held(system, resource, flow, kept, steps)
            } else {
                0
            }
        }
    }
}

// Brings the users of a resource down to the hold that is written of it, and raises those that it held before and that
// nothing holds now to their bounds. Returns how often the uses of one were visited.
pub(crate) fn settle_users<L: Ledger>(
    system: &System,
    resource: usize,
    was: Option<u64>,
    kept: &mut Levels,
    steps: &mut Steps<L>,
) -> u64
    requires kept { IsKept system.now kept.old }
    requires resource { resource < length system.now.capacities }
    ensures settles { IsSettlingOn system.now kept.old resource was
        (users_on system.now.users resource)
        → IsSettlingOn system.now kept.new resource was [] }
    ensures kept { IsKept system.now kept.new }
    ensures moved { NotesMoved kept.old kept.new }
    ensures within { ResourceStaysWithin system.now resource kept.old kept.new }
    ensures looks { steps.new ≤ steps.old + length (users_on system.now.users resource)
        + result * kept.old.longest }
    ensures few { result ≤ 2 * length (users_on system.now.users resource) }
{
    let mut times = 0;
    let mut at = system.first_on(resource);
    while let Some(i) = at {
        let one = system.look(i, steps);
        times += settle_user(system, resource, was, one.flow, kept, steps);
        at = one.next_on;
    }
    times
}
