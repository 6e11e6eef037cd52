//! Flows are fixed at a level: what they take is subtracted from what remains of their resources.
ghost use Rattle.std.specs.Prelude.{◌≡◌, ◌≢◌, ◌<◌, ◌+◌, ◌-◌, ◌^◌, ◌∷◌, ℕ, List, [], None, Some, IsSome, true, false, AllPairs, length, min, slice_index, slice_set};
ghost use Rattle.sg_base.specs.MarkSet.{with_mark};
ghost use Rattle.sg_maxmin.specs.Chained.{users_on};
ghost use Rattle.sg_maxmin.specs.Step.{IsLeast};
ghost use Rattle.sg_maxmin_solve.specs.Component.{AreIn};
ghost use Rattle.sg_maxmin_solve.specs.Filling.{AreAbove, AreFixed, AreStepped, CanFixBounded, CanFixOn, FixesAt, FixesFlow, FixesFlows, HasFlow, KeepsCount, KeepsLevels, StepsPartly, bound_limit, fixed_at, limits_at};
ghost use Rattle.sg_maxmin_solve.specs.Holds.{CountsOnce, FixesUsers, IsAtKeys, IsAtLevel, NotesHolds, noted_at, users_at};

use crate::dates::{due, has_keys};
use crate::filling::Filling;
use crate::limits::{Low, is_over};
use sg_base::Steps;
use sg_maxmin::System;
use sg_maxmin::rounding::{level_of_bound, share_at};
use std::sync::ledger::Ledger;

// Returns what remains if a share is given; a share that is the greatest number may stand for more.
fn less(left: u64, share: u64) -> u64
    ensures { (given : ℕ) → share ≡ min given (2 ^ 64 - 1) → result ≡ left - given }
{
    left.saturating_sub(share)
}

// Ends a flow's wait at a resource: its share is subtracted from what remains, and the level must be divided again.
fn take_use(resource: usize, weight: u32, share: u64, filling: &mut Filling)
    requires left { resource < length filling.old.left.items }
    requires waiting { resource < length filling.old.waiting.items }
    requires stale { resource < filling.old.stale.room }
    ensures left { (given : ℕ) → share ≡ min given (2 ^ 64 - 1)
        → filling.new.left.items ≡ slice_set filling.old.left.items resource
        (slice_index filling.old.left.items resource - given) }
    ensures waiting { filling.new.waiting.items ≡ slice_set filling.old.waiting.items resource
        (slice_index filling.old.waiting.items resource - weight) }
    ensures stale { filling.new.stale ≡ record filling.old.stale {
      members = with_mark resource filling.old.stale.members;
    } }
    ensures kept { KeepsLevels filling.old filling.new }
{
    filling.left[resource] = less(filling.left[resource], share);
    filling.waiting[resource] = filling.waiting[resource].saturating_sub(weight as u64);
    filling.stale.insert(resource);
}

// Fixes an unfixed flow at this level.
fn fix<L: Ledger>(
    system: &System,
    flow: usize,
    low: u64,
    filling: &mut Filling,
    steps: &mut Steps<L>,
)
    requires { HasFlow system.now filling.old flow }
    ensures { FixesAt system.now flow low filling.old filling.new steps.old steps.new }
{
    filling.fixed[flow] = Some(low);
    let weight = system.weight(flow);
    let bound = system.bound(flow);
    let share = share_at(weight, bound, low);
    let mut at = system.first_of(flow);
    while let Some(i) = at {
        let one = system.look(i, steps);
        take_use(one.resource, weight, share, filling);
        at = one.next_of_flow;
    }
}

// Fixes a flow at this level, if it is unfixed.
fn fix_flow<L: Ledger>(
    system: &System,
    flow: usize,
    low: u64,
    filling: &mut Filling,
    steps: &mut Steps<L>,
)
    requires of { HasFlow system.now filling.old flow }
    requires at { fixed_at filling.old.fixed.items flow ≡ None
        → IsLeast (Some low) (limits_at system.now.slots filling.old.levels.items flow) }
    ensures fixes { FixesFlow system.now flow low filling.old filling.new steps.old steps.new }
    ensures done { IsSome (fixed_at filling.new.fixed.items flow) }
{
    if filling.fixed[flow].is_none() {
        fix(system, flow, low, filling, steps);
    }
}

// Fixes the unfixed flows on a resource that is at this level.
fn fix_users<L: Ledger>(
    system: &System,
    resource: usize,
    low: u64,
    filling: &mut Filling,
    steps: &mut Steps<L>,
)
    requires on { CanFixOn system.now low filling.old resource }
    requires level { slice_index filling.old.levels.items resource ≡ low }
    ensures fixes { FixesFlows system.now low filling.old filling.new }
    ensures done { AreFixed (users_on system.now.users resource) filling.new }
    ensures count { (touched : List ℕ) → AllPairs (λ a b. a ≢ b) touched
        → AreIn (users_on system.now.users resource) touched
        → KeepsCount system.now touched filling.old filling.new
        (steps.old + length (users_on system.now.users resource)) steps.new }
{
    let mut at = system.first_on(resource);
    while let Some(i) = at {
        let one = system.look(i, steps);
        fix_flow(system, one.flow, low, filling, steps);
        at = one.next_on;
    }
}

// Fixes the unfixed flows on a resource, if it is at this level, and notes that.
fn fix_on<L: Ledger>(
    system: &System,
    resource: usize,
    low: u64,
    filling: &mut Filling,
    steps: &mut Steps<L>,
)
    requires { CanFixOn system.now low filling.old resource }
    ensures partly { StepsPartly system.now low filling.old filling.new }
    ensures agenda { filling.new.agenda ≡ filling.old.agenda }
    ensures noted { filling.new.holds.items ≡ noted_at low resource filling.old }
    ensures done { slice_index filling.old.levels.items resource ≡ low
        → AreFixed (users_on system.now.users resource) filling.new }
    ensures count { (touched : List ℕ) → AllPairs (λ a b. a ≢ b) touched
        → AreIn (users_on system.now.users resource) touched
        → KeepsCount system.now touched filling.old filling.new
        (steps.old + users_at system.now low resource filling.old) steps.new }
{
    if filling.levels[resource] == low {
        filling.holds[resource] = Some(low);
        fix_users(system, resource, low, filling, steps);
    }
}

// Returns whether the level of a bound, if there is one, is this one.
fn is_limit(limit: Option<u64>, low: u64) -> bool
    ensures at { result ≡ true → limit ≡ Some low }
    ensures off { result ≡ false → limit ≡ Some low → ⊥ }
{
    match limit {
        None => false,
        Some(limit) => limit == low,
    }
}

// Fixes a flow, if it is unfixed and its bound is at this level.
fn fix_bounded<L: Ledger>(
    system: &System,
    flow: usize,
    low: u64,
    filling: &mut Filling,
    steps: &mut Steps<L>,
)
    requires of { HasFlow system.now filling.old flow }
    requires above { AreAbove system.now (flow ∷ []) low filling.old }
    ensures fixes { FixesFlow system.now flow low filling.old filling.new steps.old steps.new }
    ensures done { bound_limit system.now.slots flow ≡ Some low
        → IsSome (fixed_at filling.new.fixed.items flow) }
{
    if filling.fixed[flow].is_some() {
        return;
    }
    let limit = level_of_bound(system.weight(flow), system.bound(flow));
    if is_limit(limit, low) {
        fix_flow(system, flow, low, filling, steps);
    }
}

// Fixes each unfixed flow whose bound is at this level.
fn fix_all_bounded<L: Ledger>(
    system: &System,
    touched: &[usize],
    low: u64,
    floor: Option<u64>,
    filling: &mut Filling,
    steps: &mut Steps<L>,
)
    requires { CanFixBounded system.now touched.now low floor filling.old }
    ensures fixes { FixesFlows system.now low filling.old filling.new }
    ensures bounds { (i : ℕ) → i < length touched.now
        → bound_limit system.now.slots (slice_index touched.now i) ≡ Some low
        → IsSome (fixed_at filling.new.fixed.items (slice_index touched.now i)) }
    ensures count { KeepsCount system.now touched.now filling.old filling.new
        steps.old steps.new }
{
    if is_over(floor, low) {
        return;
    }
    for flow in touched {
        fix_bounded(system, *flow, low, filling, steps);
    }
}

// Fixes the unfixed flows on the resources that are at this level, by scanning all.
fn fix_each<L: Ledger>(
    system: &System,
    touched: &[usize],
    reached: &[usize],
    low: Low,
    filling: &mut Filling,
    steps: &mut Steps<L>,
)
    requires { IsAtLevel system.now touched.now reached.now low filling.old }
    ensures { FixesUsers system.now touched.now reached.now low filling.old filling.new
        steps.old steps.new }
{
    for k in low.at.first..low.at.end {
        fix_on(system, reached[k], low.level, filling, steps);
    }
}

// Fixes the unfixed flows on the resources that are at this level, by their keys, and takes these.
fn fix_due<L: Ledger>(
    system: &System,
    touched: &[usize],
    reached: &[usize],
    low: Low,
    filling: &mut Filling,
    steps: &mut Steps<L>,
)
    requires { IsAtKeys system.now touched.now reached.now low filling.old }
    ensures { FixesUsers system.now touched.now reached.now low filling.old filling.new
        steps.old steps.new }
{
    while let Some(c) = due(&filling.agenda, low.level) {
        fix_on(system, c, low.level, filling, steps);
        filling.stale.insert(c);
        filling.agenda.clear(c);
    }
}

// Fixes the unfixed flows on the resources that are at this level.
fn fix_all_users<L: Ledger>(
    system: &System,
    touched: &[usize],
    reached: &[usize],
    low: Low,
    filling: &mut Filling,
    steps: &mut Steps<L>,
)
    requires { IsAtLevel system.now touched.now reached.now low filling.old }
    ensures { FixesUsers system.now touched.now reached.now low filling.old filling.new
        steps.old steps.new }
{
    if has_keys(&filling.agenda) {
        fix_due(system, touched, reached, low, filling, steps);
    } else {
        fix_each(system, touched, reached, low, filling, steps);
    }
}

/// Fixes each unfixed flow that is at this level.
pub fn fix_all<L: Ledger>(
    system: &System,
    touched: &[usize],
    reached: &[usize],
    low: Low,
    filling: &mut Filling,
    steps: &mut Steps<L>,
)
    requires at { IsAtLevel system.now touched.now reached.now low filling.old }
    ensures partly { StepsPartly system.now low.level filling.old filling.new }
    ensures noted { NotesHolds reached.now low.level filling.old filling.new }
    ensures stepped { AreStepped system.now touched.now low.level filling.old filling.new }
    ensures count { CountsOnce system.now touched.now reached.now filling.old filling.new
        steps.old steps.new }
{
    fix_all_users(system, touched, reached, low, filling, steps);
    fix_all_bounded(system, touched, low.level, low.floor, filling, steps);
}
