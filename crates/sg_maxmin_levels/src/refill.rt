//! The fallback of a rate update: it writes the levels and the holds that a max-min solve found.
ghost use Rattle.std.specs.Prelude.{◌≡◌, ◌≤◌, ◌<◌, ◌+◌, ◌-◌, ◌*◌, ◌^◌, ℕ, [], false, All, IsSome, length, slice_set, slice_index};
ghost use Rattle.sg_base.specs.MarkSet.{is_in};
ghost use Rattle.sg_maxmin.specs.Sharing.{IsSound, flow_at, uses_at};
ghost use Rattle.sg_maxmin.specs.Held.{AreFilled};
ghost use Rattle.sg_maxmin_levels.specs.Kept.{AreGiven, AreHeldAt, AreParts, CanGive, CanShift, FlowsStayWithin, HasFlow, IsBetween, IsGiven, IsKept, IsWithin, KeepsFlows, Moves, NotesMoved, Shifts, is_one_of};
ghost use Rattle.sg_maxmin.specs.Found.{IsFound, PassAlong};
ghost use Rattle.sg_maxmin.specs.Numbered.{all_uses};
ghost use Rattle.sg_maxmin_levels.specs.Settling.{is_active};

use crate::hold::under;
use crate::levels::Levels;
use crate::settling::{is_same, part_of};
use sg_base::Steps;
use sg_maxmin::{Filled, System};
use std::sync::ledger::Ledger;

// Replaces one part in the demand on a resource by another.
fn shift(resource: usize, before: u128, after: u128, demands: &mut Vec<u128>)
    requires demand { resource < length demands.old.items }
    requires some { before ≤ slice_index demands.old.items resource }
    requires fits { slice_index demands.old.items resource + after < 2 ^ 128 + before }
    ensures { demands.new.items ≡ slice_set demands.old.items resource
        (slice_index demands.old.items resource - before + after) }
{
    demands[resource] = demands[resource] - before + after;
}

// Does the same at each resource of the flow.
fn shift_uses<L: Ledger>(
    system: &System,
    flow: usize,
    before: u128,
    after: u128,
    demands: &mut Vec<u128>,
    steps: &mut Steps<L>,
)
    requires sound { IsSound system.now }
    requires places { length demands.old.items ≡ length system.now.capacities }
    requires shift { CanShift before after (uses_at system.now.slots flow) demands.old.items }
    ensures places { length demands.new.items ≡ length demands.old.items }
    ensures shifts { Shifts before after (uses_at system.now.slots flow)
        demands.old.items demands.new.items }
    ensures looks { steps.new ≡ steps.old + length (uses_at system.now.slots flow) }
{
    let mut at = system.first_of(flow);
    while let Some(i) = at {
        let one = system.look(i, steps);
        shift(one.resource, before, after, demands);
        at = one.next_of_flow;
    }
}

// Gives a flow another level, and notes it. What is active no longer counts.
fn write_level<L: Ledger>(
    system: &System,
    flow: usize,
    level: Option<u64>,
    kept: &mut Levels,
    steps: &mut Steps<L>,
)
    requires { HasFlow system.now kept.old flow }
    ensures given { IsGiven system.now kept.old kept.new flow level }
    ensures moves { Moves system.now flow kept.old kept.new }
    ensures looks { steps.new ≡ steps.old + length (uses_at system.now.slots flow) }
{
    let before = kept.part(flow);
    let after = part_of(system, flow, level);
    kept.levels[flow] = level;
    kept.parts[flow] = after;
    kept.moved.insert(flow);
    shift_uses(system, flow, before, after, &mut kept.demands, steps);
}

// Gives a flow the level that was found. If it has it already no use is visited.
fn give<L: Ledger>(
    system: &System,
    flow: usize,
    level: Option<u64>,
    kept: &mut Levels,
    steps: &mut Steps<L>,
)
    requires { CanGive system.now kept.old flow }
    ensures given { IsGiven system.now kept.old kept.new flow level }
    ensures moves { Moves system.now flow kept.old kept.new }
    ensures looks { steps.new ≤ steps.old + length (uses_at system.now.slots flow) }
{
    if !is_same(kept.level(flow), level) || kept.stale.contains(flow) {
        write_level(system, flow, level, kept, steps);
    }
}

// Does the same for each of these flows.
fn give_all<L: Ledger>(
    system: &System,
    flows: &[usize],
    levels: &[Option<u64>],
    kept: &mut Levels,
    steps: &mut Steps<L>,
)
    requires held { All (λ id. IsSome (flow_at system.now.slots id)) flows.now }
    requires places { length system.now.slots ≤ length levels.now }
    requires kept { IsKept system.now kept.old }
    requires parts { AreParts system.now kept.old kept.old.stale.members }
    ensures given { AreGiven system.now flows.now levels.now kept.old kept.new }
    ensures kept { IsKept system.now kept.new }
    ensures moved { NotesMoved kept.old kept.new }
    ensures within { FlowsStayWithin system.now flows.now kept.old kept.new }
    ensures looks { steps.new ≤ steps.old + all_uses system.now.slots flows.now }
{
    for flow in flows {
        give(system, *flow, under(levels, *flow), kept, steps);
    }
}

// Writes the level at which a resource holds its flows.
fn put_hold(resource: usize, hold: Option<u64>, kept: &mut Levels)
    requires { resource < length kept.old.holds.items }
    ensures hold { kept.new.holds.items ≡ slice_set kept.old.holds.items resource hold }
    ensures flows { KeepsFlows kept.old kept.new }
{
    kept.holds[resource] = hold;
}

// Does the same for each of these resources.
fn put_holds(resources: &[usize], holds: &[Option<u64>], kept: &mut Levels)
    requires exist { All (λ r. r < length holds.now) resources.now }
    requires holds { length kept.old.holds.items ≡ length holds.now }
    ensures { AreHeldAt resources.now holds.now kept.old kept.new }
{
    for resource in resources {
        put_hold(*resource, under(holds, *resource), kept);
    }
}

impl Levels {
    /// Writes the result of a max-min solve of some flows and resources: whole connected components that contain all
    /// that is active and all flows with another bound. Each use of the flows is visited at most once.
    pub fn refill<L: Ledger>(&mut self, system: &System, filled: Filled<'_>, steps: &mut Steps<L>)
        requires between { IsBetween system.now self.old }
        requires joined { PassAlong system.now (λ id. is_in id filled.flows.now)
            (λ r. is_in r filled.resources.now) }
        requires within { IsWithin (is_one_of filled.flows.now system.now.slots)
            (λ r. is_in r filled.resources.now) self.old }
        requires found { IsFound system.now filled.flows.now filled.resources.now
            filled.levels.now filled.holds.now }
        ensures between { IsBetween system.now self.new }
        ensures levels { AreFilled system.now self.new.levels.items }
        ensures none_active { (r : ℕ) → is_active self.new.active.members r ≡ false }
        ensures none_stale { self.new.stale.members ≡ [] }
        ensures moved { NotesMoved self.old self.new }
        ensures within { FlowsStayWithin system.now filled.entry.flows.now self.old self.new }
        ensures looks { steps.new
            ≤ steps.old + all_uses system.now.slots filled.entry.flows.now }
    {
        system.is_sound();
        give_all(system, filled.flows, filled.levels, self, steps);
        put_holds(filled.resources, filled.holds, self);
        self.active.clear();
        self.stale.clear();
    }
}
