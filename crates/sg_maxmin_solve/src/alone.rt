//! The max-min solve of a connected component of one flow: its level is the least of its limits.
ghost use Rattle.std.specs.Prelude.{◌≡◌, ◌<◌, ◌+◌, ◌/◌, ◌==◌, ◌++◌, ℕ, Bool, IsTrue, [], ◌∷◌, None, Some, IfSome, true, false, All, length, slice_index, slice_index_or, if◌then◌else◌};
ghost use Rattle.sg_base.specs.MarkSet.{is_in};
ghost use Rattle.sg_maxmin.specs.Chained.{users_on};
ghost use Rattle.sg_maxmin.specs.Sharing.{uses_at};
ghost use Rattle.sg_maxmin.specs.Numbered.{IsHeld};
ghost use Rattle.sg_maxmin_solve.specs.Alone.{IsAlone};
ghost use Rattle.sg_maxmin_solve.specs.Component.{CanTouch, MarksRow, ReachesUses, SpreadsFrom, touched_uses};
ghost use Rattle.sg_maxmin_solve.specs.Filling.{CanFill, fixed_at};
ghost use Rattle.sg_maxmin_solve.specs.Holds.{IsEnded};

use crate::component::Component;
use crate::filling::Filling;
use sg_base::{Marks, Steps};
use sg_maxmin::rounding::{level_of, level_of_bound, smaller};
use sg_maxmin::{System, Use};
use std::sync::ledger::Ledger;

// Returns whether a use is the only one of its resource, if all before were.
fn is_only(system: &System, before: bool, i: usize, one: Use) -> bool
    requires there { slice_index_or system.now.uses i None ≡ Some one }
    requires resource { one.resource < length system.now.capacities }
    ensures before { result ≡ true → before ≡ true }
    ensures only { result ≡ true → users_on system.now.users one.resource ≡ one.flow ∷ [] }
{
    if !before {
        return false;
    }
    if one.next_on.is_some() {
        return false;
    }
    match system.first_on(one.resource) {
        Some(first) => first == i,
        None => false,
    }
}

// Returns the level if the flow is alone.
fn if_alone(alone: bool, level: Option<u64>) -> Option<u64>
    ensures { IfSome result (λ low. (alone ≡ true) × (level ≡ Some low)) }
{
    if alone { level } else { None }
}

/// Reaches the resources of a flow. Returns its level, if no other flow uses any of these.
pub fn mark_alone<L: Ledger>(
    system: &System,
    flow: usize,
    reached: &mut Marks,
    steps: &mut Steps<L>,
) -> Option<u64>
    requires held { IsHeld system.now flow }
    requires room { reached.old.room ≡ length system.now.capacities }
    ensures reaches { ReachesUses system.now flow reached.old reached.new steps.old steps.new }
    ensures alone { IfSome result (IsAlone system.now flow) }
{
    let weight = system.weight(flow);
    let mut least = level_of_bound(weight, system.bound(flow));
    let mut alone = true;
    let mut at = system.first_of(flow);
    while let Some(i) = at {
        let one = system.look(i, steps);
        alone = is_only(system, alone, i, one);
        least = smaller(
            least,
            level_of(system.capacity(one.resource), weight as u64),
        );
        reached.insert(one.resource);
        at = one.next_of_flow;
    }
    if_alone(alone, least)
}

/// Touches a flow that isn't touched: all its resources are reached. Returns its level, if no other flow uses any of
/// these.
pub fn touch_alone<L: Ledger>(
    system: &System,
    flow: usize,
    component: &mut Component,
    steps: &mut Steps<L>,
) -> Option<u64>
    requires { CanTouch system.now component.old flow }
    ensures touched { component.new.touched.members
        ≡ component.old.touched.members ++ flow ∷ [] }
    ensures marks { MarksRow (uses_at system.now.slots flow)
        component.old.reached component.new.reached }
    ensures from { SpreadsFrom system.now (λ p. IsTrue (p flow)) component.old component.new }
    ensures alone { IfSome result (IsAlone system.now flow) }
    ensures looks { steps.new + touched_uses system.now component.old
        ≡ steps.old + touched_uses system.now component.new }
{
    component.touched.insert(flow);
    mark_alone(system, flow, &mut component.reached, steps)
}

// Returns the level of a resource, if it is this one.
fn hold_at(level: u64, low: u64) -> Option<u64>
    ensures { result ≡ (if level == low then Some low else None) }
{
    if level == low { Some(low) } else { None }
}

// Notes whether the resources hold a flow of this weight, which is alone on them, at this level.
fn note_alone(system: &System, reached: &[usize], weight: u64, low: u64, holds: &mut [Option<u64>])
    requires exist { All (λ c. c < length system.now.capacities) reached.now }
    requires holds { length holds.old ≡ length system.now.capacities }
    ensures noted { (i : ℕ) → i < length reached.now
        → fixed_at holds.new (slice_index reached.now i)
        ≡ (if slice_index system.now.capacities (slice_index reached.now i) / weight == low
        then Some low else None) }
    ensures others { (c : ℕ) → is_in c reached.now ≡ false
        → fixed_at holds.new c ≡ fixed_at holds.old c }
{
    for c in reached {
        holds[*c] = hold_at(level_of(system.capacity(*c), weight), low);
    }
}

/// Fixes a flow that is alone on its resources at its level, and notes which of these hold it there.
pub fn fill_alone(system: &System, flow: usize, low: u64, reached: &[usize], filling: &mut Filling)
    requires can { CanFill system.now (flow ∷ []) reached.now filling.old }
    requires alone { IsAlone system.now flow low }
    ensures { IsEnded system.now (flow ∷ []) reached.now filling.old filling.new }
{
    filling.fixed[flow] = Some(low);
    note_alone(
        system,
        reached,
        system.weight(flow) as u64,
        low,
        &mut filling.holds,
    );
}
