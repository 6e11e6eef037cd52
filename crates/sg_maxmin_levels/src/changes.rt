//! What changes between rate updates: flows begin and end or get other bounds, and resources get other capacities.
ghost use Rattle.std.specs.Prelude.{◌≡◌, ◌≤◌, ◌<◌, ◌+◌, ℕ, All, IfSome, Some, length, slice_index, slice_set, ◌-◌};
ghost use Rattle.sg_maxmin.specs.Chained.{times};
ghost use Rattle.sg_maxmin.specs.Fill.{flow};
ghost use Rattle.sg_maxmin.specs.Sharing.{IsFlow, flow_at, uses_at};
ghost use Rattle.sg_maxmin_levels.specs.Kept.{FlowJoins, HasFlowBetween, IsBetween, IsEnded, IsStarted, KeepsUp, ResourceJoins, UsesStayWithin};

use crate::levels::Levels;
use crate::settling::{is_same, visit_uses};
use sg_base::Steps;
use sg_maxmin::{FlowId, System};
use std::sync::ledger::Ledger;

// Counts one more user at each of these resources.
fn count_in(uses: &[usize], counts: &mut Vec<u64>)
    requires { All (λ c. c < length counts.old.items) uses.now }
    ensures places { length counts.new.items ≡ length counts.old.items }
    ensures most { (c : ℕ) → slice_index counts.new.items c
        ≤ slice_index counts.old.items c + times c uses.now }
{
    for resource in uses {
        counts[*resource] = counts[*resource].saturating_add(1);
    }
}

impl Levels {
    /// Starts a flow, as `System::add` adds it. It is noted as moved, and gets a level at the next rate update; no use
    /// is visited.
    pub fn start(
        &mut self,
        system: &mut System,
        uses: &[usize],
        weight: u32,
        bound: Option<u64>,
    ) -> FlowId
        requires flow { IsFlow system.old.capacities (flow uses.now weight bound) }
        requires flow_room { 0 < system.old.flow_room }
        requires use_room { length uses.now ≤ system.old.use_room }
        requires between { IsBetween system.old self.old }
        ensures started { IsStarted system.old system.new result (flow uses.now weight bound) }
        ensures keeps { KeepsUp system.old system.new (FlowJoins result) self.old self.new }
    {
        system.is_sound();
        self.longest = self.longest.max(uses.len());
        let flow = system.add(uses, weight, bound);
        system.is_sound();
        count_in(uses, &mut self.counts);
        self.stale.insert(flow);
        self.moved.insert(flow);
        flow
    }

    /// Ends a flow, as `System::remove` removes it. The resources that it used become active; it visits each of its
    /// uses.
    pub fn end<L: Ledger>(&mut self, system: &mut System, flow: FlowId, steps: &mut Steps<L>)
        requires { HasFlowBetween system.old self.old flow }
        ensures ended { IsEnded system.old system.new flow }
        ensures keeps { KeepsUp system.old system.new
            (UsesStayWithin (uses_at system.old.slots flow)) self.old self.new }
        ensures looks { steps.new ≡ steps.old + length (uses_at system.old.slots flow) }
    {
        system.is_sound();
        let part = self.part(flow);
        self.parts[flow] = 0;
        visit_uses(system, flow, part, 0, self, steps);
        system.remove(flow);
        system.is_sound();
        self.stale.remove(flow);
    }

    /// Gives a flow another bound. It is noted as moved, and keeps its level until the next rate update; no use is
    /// visited. If the bound is the one that it has, nothing changes.
    pub fn set_bound(&mut self, system: &mut System, flow: FlowId, bound: u64)
        requires { HasFlowBetween system.old self.old flow }
        ensures bounded { IfSome (flow_at system.old.slots flow) (λ held.
            system.new ≡ record system.old {
              slots = slice_set system.old.slots flow (Some (record held { bound = Some bound }));
            }) }
        ensures keeps { KeepsUp system.old system.new (FlowJoins flow) self.old self.new }
        ensures same { IfSome (flow_at system.old.slots flow) (λ held.
            held.bound ≡ Some bound → self.new ≡ self.old) }
    {
        system.is_sound();
        let before = system.bound(flow);
        system.set_bound(flow, bound);
        system.is_sound();
        if !is_same(before, Some(bound)) {
            self.stale.insert(flow);
            self.moved.insert(flow);
        }
    }

    /// Gives a resource another capacity, and makes it active. If it has this capacity already, nothing changes.
    pub fn set_capacity(&mut self, system: &mut System, resource: usize, capacity: u64)
        requires resource { resource < length system.old.capacities }
        requires between { IsBetween system.old self.old }
        ensures offered { system.new ≡ record system.old {
          capacities = slice_set system.old.capacities resource capacity;
        } }
        ensures keeps { KeepsUp system.old system.new (ResourceJoins resource) self.old self.new }
        ensures same { slice_index system.old.capacities resource ≡ capacity → self.new ≡ self.old }
    {
        system.is_sound();
        let before = system.capacity(resource);
        system.set_capacity(resource, capacity);
        system.is_sound();
        if before != capacity {
            self.active.insert(resource);
        }
    }
}
