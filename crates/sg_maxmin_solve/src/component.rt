//! The flows and resources in the connected components of what changed.
ghost use Rattle.std.specs.Prelude.{◌≡◌, ◌≤◌, ◌<◌, ◌+◌, ℕ, Bool, IfOk, IsTrue, All, length, take};
ghost use Rattle.sg_maxmin.specs.Chained.{users_on};
ghost use Rattle.sg_maxmin.specs.Sharing.{uses_at};
ghost use Rattle.sg_maxmin_solve.specs.Component.{AreVisited, IsClosedBy, IsOpen, PassAlong, ReachesUses, RowPasses, Spreads, SpreadsFrom, StaysWithin, lengths, touched_uses};

use sg_base::{Marks, Memory, Steps};
use sg_maxmin::System;
use std::alloc::Global;
use std::sync::ledger::Ledger;

/// The touched flows and the reached resources.
#[derive(Drop)]
pub struct Component {
    pub touched: Marks,
    pub reached: Marks,
}

impl Component {
    /// Makes a component with nothing touched, and room for so many resources.
    pub fn new(alloc: Global, resources: usize) -> Result<Component, Memory>
        ensures { IfOk result (λ component. component.reached.room ≡ resources) }
    {
        let mut reached = Marks::new(alloc);
        reached.reserve(resources)?;
        Ok(Component {
            touched: Marks::new(alloc),
            reached,
        })
    }
}

// Reaches the resources of a flow.
pub fn mark_uses<L: Ledger>(system: &System, flow: usize, reached: &mut Marks, steps: &mut Steps<L>)
    requires { All (λ c. c < reached.old.room) (uses_at system.now.slots flow) }
    ensures { ReachesUses system.now flow reached.old reached.new steps.old steps.new }
{
    let mut at = system.first_of(flow);
    while let Some(i) = at {
        let one = system.look(i, steps);
        reached.insert(one.resource);
        at = one.next_of_flow;
    }
}

// Touches a flow: all its resources are reached.
pub fn touch<L: Ledger>(
    system: &System,
    flow: usize,
    component: &mut Component,
    steps: &mut Steps<L>,
)
    requires flow { flow < component.old.touched.room }
    requires open { IsOpen system.now component.old }
    ensures from { SpreadsFrom system.now (λ p. IsTrue (p flow)) component.old component.new }
    ensures looks { steps.new + touched_uses system.now component.old
        ≡ steps.old + touched_uses system.now component.new }
{
    if component.touched.contains(flow) {
        return;
    }
    component.touched.insert(flow);
    mark_uses(system, flow, &mut component.reached, steps);
}

// Touches the flows on a resource.
fn touch_users<L: Ledger>(
    system: &System,
    resource: usize,
    component: &mut Component,
    steps: &mut Steps<L>,
)
    requires resource { resource < length system.now.capacities }
    requires open { IsOpen system.now component.old }
    ensures from { SpreadsFrom system.now (λ p. RowPasses p (users_on system.now.users resource))
        component.old component.new }
    ensures looks { steps.new + touched_uses system.now component.old
        ≡ steps.old + touched_uses system.now component.new
        + length (users_on system.now.users resource) }
{
    let mut at = system.first_on(resource);
    while let Some(i) = at {
        let one = system.look(i, steps);
        touch(system, one.flow, component, steps);
        at = one.next_on;
    }
}

/// Touches all flows in the connected components of the touched flows and the reached resources. Those on the first so
/// many resources are touched already.
pub fn reach<L: Ledger>(
    system: &System,
    visited: usize,
    component: &mut Component,
    steps: &mut Steps<L>,
)
    requires open { IsOpen system.now component.old }
    requires visited { AreVisited system.now visited component.old }
    ensures spreads { Spreads system.now component.old component.new }
    ensures closed { IsClosedBy system.now component.new }
    ensures least { (p q : ℕ → Bool) → PassAlong system.now p q
        → StaysWithin p q component.old component.new }
    ensures looks { steps.new + touched_uses system.now component.old
        + lengths (users_on system.now.users) (take visited component.old.reached.members)
        ≤ steps.old + touched_uses system.now component.new
        + lengths (users_on system.now.users) component.new.reached.members }
{
    let mut k = visited;
    while k < component.reached.members().len() {
        let resource = component.reached.members()[k];
        touch_users(system, resource, component, steps);
        k += 1;
    }
}
