//! The connected components of some flows and resources, with the result of their max-min solve.
ghost use Rattle.std.specs.Prelude.{◌≡◌, ◌≤◌, ◌<◌, ◌+◌, ℕ, All, IfOk, OnOk, length};
ghost use Rattle.sg_maxmin.specs.Found.{IsFound};
ghost use Rattle.sg_maxmin_solve.specs.Component.{ListsOnce};
ghost use Rattle.sg_maxmin_solve.specs.Parts.{AreHeldUnless, IsJoinedTo, IsReady, part_looks};

use crate::by_part::{fill_marked, fill_on_all};
use crate::component::Component;
use crate::filling::Filling;
use sg_base::{Marks, Memory, Steps};
use sg_maxmin::{Filled, System};
use std::alloc::Global;
use std::sync::ledger::Ledger;

/// The flows and resources in the connected components of what changed, with their max-min levels and holds.
#[derive(Drop)]
pub struct Parts {
    pub(crate) component: Component,
    pub(crate) filling: Filling,
}

// Makes places for the levels of flows of numbers below n.
fn grow_fixed(n: usize, fixed: &mut Vec<Option<u64>>) -> Result<(), Memory>
    ensures grows { length fixed.old.items ≤ length fixed.new.items }
    ensures room { OnOk result (n ≤ length fixed.new.items) }
{
    for _number in fixed.len()..n {
        fixed.push(None)?;
    }
    Ok(())
}

impl Parts {
    /// Makes the state with nothing reached yet, of resources with these capacities; there is room for no flow.
    pub fn new(alloc: Global, capacities: &[u64]) -> Result<Parts, Memory>
        ensures { IfOk result (IsReady 0 (length capacities.now)) }
    {
        let component = Component::new(alloc, capacities.len())?;
        let filling = Filling::new(alloc, capacities)?;
        Ok(Parts { component, filling })
    }

    /// Makes room for flows of numbers below n. The room doesn't shrink, even if memory runs out.
    pub fn reserve(&mut self, n: usize) -> Result<(), Memory>
        ensures kept { (k r : ℕ) → IsReady k r self.old → IsReady k r self.new }
        ensures room { OnOk result ((k r : ℕ) → IsReady k r self.old → IsReady n r self.new) }
    {
        grow_fixed(n, &mut self.filling.fixed)?;
        self.component.touched.reserve(n)
    }

    /// Solves the connected components of the marked flows, except those that ended, and of these resources: one after
    /// the other, each by itself.
    pub fn fill<L: Ledger>(
        &mut self,
        system: &System,
        marked: &[usize],
        ended: &Marks,
        resources: &[usize],
        steps: &mut Steps<L>,
    )
        requires ready { IsReady (length system.now.slots) (length system.now.capacities) self.old }
        requires marked { AreHeldUnless system.now ended.now marked.now }
        requires resources { All (λ c. c < length system.now.capacities) resources.now }
        ensures ready { IsReady (length system.now.slots) (length system.now.capacities) self.new }
        ensures joined { IsJoinedTo system.now marked.now ended.now.members resources.now
            self.new.component.touched.members self.new.component.reached.members }
        ensures found { IsFound system.now self.new.component.touched.members
            self.new.component.reached.members
            self.new.filling.fixed.items self.new.filling.holds.items }
        ensures looks { steps.new ≤ steps.old + part_looks system.now self.new.component }
    {
        system.is_sound();
        self.component.touched.clear();
        self.component.reached.clear();
        fill_marked(
            system,
            marked,
            ended,
            &mut self.component,
            &mut self.filling,
            steps,
        );
        fill_on_all(
            system,
            resources,
            &mut self.component,
            &mut self.filling,
            steps,
        );
    }

    /// Returns the flows that the last solve touched, each once.
    pub fn touched(&self) -> &[usize]
        ensures { ListsOnce self.now.component.touched result.now }
    {
        self.component.touched.members()
    }

    /// Returns the resources that the last solve reached, each once.
    pub fn reached(&self) -> &[usize]
        ensures { ListsOnce self.now.component.reached result.now }
    {
        self.component.reached.members()
    }

    /// Returns the result of the last solve: the levels of the touched flows, and the holds of the reached resources.
    pub fn filled(&self) -> Filled<'_>
        ensures flows { result.flows.now ≡ self.now.component.touched.members }
        ensures resources { result.resources.now ≡ self.now.component.reached.members }
        ensures levels { result.levels.now ≡ self.now.filling.fixed.items }
        ensures holds { result.holds.now ≡ self.now.filling.holds.items }
    {
        Filled {
            flows: self.component.touched.members(),
            resources: self.component.reached.members(),
            levels: &self.filling.fixed,
            holds: &self.filling.holds,
        }
    }
}
