//! All uses: each stands in the chain of its flow and in that of its resource.
ghost use Rattle.std.specs.Prelude.{◌≡◌, ◌≤◌, ◌<◌, ◌+◌, ◌∷◌, ℕ, [], All, length, None, Some, IsSome, IfOk, OnOk, replicate, slice_index_or};
ghost use Rattle.sg_maxmin.specs.Chain.{IsChain, KeepsChains, resources};
ghost use Rattle.sg_maxmin.specs.Chained.{GainsRoom, GainsUses, users_on};
ghost use Rattle.sg_maxmin.specs.Walk.{Leads, next_on, resource_of, user_of};
ghost use Rattle.sg_maxmin.specs.kept.Linked.{AreGained, AreLists, CanHold, HoldsMore, uses_of};

use crate::links::{link, unlink};
use crate::slots::Slots;
use crate::uses::Use;
use sg_base::{Memory, Steps};
use std::alloc::Global;
use std::marker::Model;
use std::sync::ledger::Ledger;

/// Uses of resources by flows. Contracts see the use under each number or nothing, the flows on each resource, and
/// for how many more uses there is room.
///
/// Uses are read by `look` alone, which counts. A use comes and goes in a fixed number of steps.
#[derive(Drop)]
pub struct Chains {
    slots: Slots,
    // the first use on each resource
    on: Vec<Option<usize>>,
}

impl Model for Chains {
    ghost use Rattle.sg_maxmin.specs.Chained.{Chained, chained_code};

    ghost Value = { Chained };

    ghost coded = { chained_code };

    ghost use Rattle.std.specs.Prelude.{◌-◌, length, map};
    ghost use Rattle.slab.specs.Slab.{slab_len};
    ghost use Rattle.sg_maxmin.specs.kept.Linked.{IsChained, uses_of, walked};

    ghost view = { λ c. record {
      uses = uses_of c.slots.slots;
      users = map (walked (length c.slots.slots) c.slots.slots) c.on.items;
      room = c.slots.capacity - slab_len c.slots;
    } };

    ghost invariant = { λ c. IsChained c.slots c.on.items };
}

// Makes a chain of the flow's uses, and returns the number of the first one.
fn add_uses(slots: &mut Slots, on: &mut [Option<usize>], flow: u32, uses: &[usize]) -> Option<usize>
    requires can { CanHold (length uses.now) slots.old on.old }
    requires exist { All (λ resource. resource < length on.old) uses.now }
    ensures is { IsChain flow (length uses.now) (uses_of slots.new.slots) result }
    ensures resources { resources (length uses.now) (uses_of slots.new.slots) result ≡ uses.now }
    ensures kept { KeepsChains (uses_of slots.old.slots) (uses_of slots.new.slots) flow }
    ensures lists { AreLists slots.new.slots on.new }
    ensures users { AreGained slots.old.slots slots.new.slots on.old on.new flow uses.now }
    ensures more { HoldsMore (length uses.now) slots.old slots.new }
{
    let mut first = None;
    let mut left = uses.len();
    while left > 0 {
        left -= 1;
        first = Some(link(slots, on, flow, uses[left], first));
    }
    first
}

// Takes a flow's chain of uses away.
fn remove_uses(
    slots: &mut Slots,
    on: &mut [Option<usize>],
    flow: usize,
    count: usize,
    first: Option<usize>,
)
    requires lists { AreLists slots.old.slots on.old }
    requires is { IsChain flow count (uses_of slots.old.slots) first }
    ensures kept { KeepsChains (uses_of slots.old.slots) (uses_of slots.new.slots) flow }
    ensures lists { AreLists slots.new.slots on.new }
    ensures users { AreGained slots.new.slots slots.old.slots on.new on.old flow
        (resources count (uses_of slots.old.slots) first) }
    ensures less { HoldsMore count slots.new slots.old }
{
    let mut at = first;
    for done in 0..count {
        let Some(i) = at else { unreachable!() };
        let slot = unlink(slots, on, i);
        at = slot.next_of_flow;
    }
}

impl Chains {
    /// Makes the chains of so many resources, without uses.
    pub fn new(alloc: Global, resources: usize) -> Result<Chains, Memory>
        ensures uses { IfOk result (λ chains. chains.uses ≡ []) }
        ensures resources { IfOk result (λ chains. length chains.users ≡ resources) }
        ensures users { IfOk result (λ chains. (resource : ℕ) →
            users_on chains.users resource ≡ []) }
    {
        // numbers of resources are of 32 bits
        if resources > 4_294_967_295 {
            return Err(Memory);
        }
        Ok(Chains {
            slots: Slots::new(alloc),
            on: vec![in alloc; None; resources]?,
        })
    }

    /// Makes room for this many more uses. Only the room changes, even if memory runs out, and the room doesn't shrink.
    pub fn reserve(&mut self, uses: usize) -> Result<(), Memory>
        ensures room { OnOk result (uses ≤ self.new.room) }
        ensures gains { GainsRoom self.old self.new }
    {
        self.slots.reserve(uses)?;
        Ok(())
    }

    /// Adds the uses of a flow, and returns the number of the first one. The chains of all other flows stay.
    pub fn add(&mut self, flow: u32, uses: &[usize]) -> Option<usize>
        requires exist { All (λ resource. resource < length self.old.users) uses.now }
        requires room { length uses.now ≤ self.old.room }
        ensures is { IsChain flow (length uses.now) self.new.uses result }
        ensures resources { resources (length uses.now) self.new.uses result ≡ uses.now }
        ensures kept { KeepsChains self.old.uses self.new.uses flow }
        ensures users { GainsUses self.old.users self.new.users flow uses.now }
        ensures len { length self.new.users ≡ length self.old.users }
        ensures room { self.new.room + length uses.now ≡ self.old.room }
    {
        add_uses(&mut self.slots, &mut self.on, flow, uses)
    }

    /// Removes a flow's uses, of which there are `count` from the first one on. The chains of all other flows stay.
    pub fn remove(&mut self, flow: usize, count: usize, first: Option<usize>)
        requires { IsChain flow count self.old.uses first }
        ensures kept { KeepsChains self.old.uses self.new.uses flow }
        ensures users { GainsUses self.new.users self.old.users flow
            (resources count self.old.uses first) }
        ensures len { length self.new.users ≡ length self.old.users }
        ensures room { self.new.room ≡ self.old.room + count }
    {
        remove_uses(&mut self.slots, &mut self.on, flow, count, first);
    }

    /// Returns the use under a number. It is one step.
    pub fn look<L: Ledger>(&self, i: usize, steps: &mut Steps<L>) -> Use
        requires { IsSome (slice_index_or self.now.uses i None) }
        ensures there { slice_index_or self.now.uses i None ≡ Some result }
        ensures looks { steps.new ≡ steps.old + 1 }
    {
        let slot = self.slots.at(i);
        steps.tick();
        Use {
            flow: slot.flow as usize,
            resource: slot.resource,
            next_of_flow: slot.next_of_flow,
            next_on: slot.next_on,
        }
    }

    /// Returns the first use on a resource; None if no flow uses it. Those after it are uses of the same resource.
    pub fn first_on(&self, resource: usize) -> Option<usize>
        requires { resource < length self.now.users }
        ensures leads { Leads next_on user_of self.now.uses result
            (users_on self.now.users resource) }
        ensures here { Leads next_on resource_of self.now.uses result
            (replicate (length (users_on self.now.users resource)) resource) }
        ensures few { length (users_on self.now.users resource) ≤ length self.now.uses }
    {
        self.on[resource]
    }
}
