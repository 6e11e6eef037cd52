//! The system of capacities and flows: which flow uses which resources, and the share that each gets.
ghost use Rattle.std.specs.Prelude.{◌≡◌, ◌≤◌, ◌<◌, ◌+◌, ◌-◌, ℕ, [], length, Some, None, IsSome, IfSome, IfOk, OnOk, replicate, slice_index, slice_index_or, slice_set};
ghost use Rattle.sg_maxmin.specs.Fair.{IsFair};
ghost use Rattle.sg_maxmin.specs.Fill.{flow, share_of};
ghost use Rattle.sg_maxmin.specs.Chained.{users_on};
ghost use Rattle.sg_maxmin.specs.Walk.{Leads, next_of_flow, next_on, resource_of, user_of};
ghost use Rattle.sg_maxmin.specs.Sharing.{IsSound, uses_at, flow_at, held, AreShares, Changes, IsExtended, IsFlow, KeepsShares, use_count};

use crate::chains::Chains;
use crate::filling::{fill, put_shares};
use crate::flow_row::FlowRow;
use crate::numbered_rows::Rows;
use crate::uses::Use;
use sg_base::{Memory, Steps};
use std::alloc::Global;
use std::marker::Model;
use std::sync::ledger::Ledger;

/// The number of a flow, as `System::add` gave it. A number is free again once its flow is removed.
pub type FlowId = usize;

/// Resources with their capacities, and flows that use them. The units are the caller's: flops or bytes per
/// second, say.
///
/// Contracts see the capacities, the flow under each number or nothing, the share under each number, the use under
/// each number of a use or nothing, the flows on each resource, and for how many flows and uses more there is room.
///
/// From outside a use is read by `look` alone, which counts. From `first_of` on, `next_of_flow` leads to each use
/// of the flow once; from `first_on` on, `next_on` to each use on the resource.
pub struct System {
    capacities: Vec<u64>,
    flows: Rows,
    // read by counted visits alone, by `solve` too
    chains: Chains,
    // for each resource what remains of it and the weights that wait there, in one step of `solve`
    left: Vec<u64>,
    waiting: Vec<u64>,
}

// A function of its own, so that a proof in which one is dropped doesn't go into its parts.
impl Drop for System {
    fn drop(self) {
        let System {
            capacities: _,
            flows: _,
            chains: _,
            left: _,
            waiting: _,
        } = self;
    }
}

impl Model for System {
    ghost use Rattle.sg_maxmin.specs.Sharing.{Sharing, sharing_code};

    ghost Value = { Sharing };

    ghost coded = { sharing_code };

    ghost use Rattle.std.specs.Prelude.{map};
    ghost use Rattle.sg_maxmin.specs.kept.Uses.{flows_of, share_in, IsKept};
    ghost use Rattle.sg_maxmin.specs.kept.Numbers.{free_count};

    ghost view = { λ s. record {
      capacities = s.capacities.items;
      slots = flows_of s.flows s.chains.uses;
      shares = map share_in s.flows;
      uses = s.chains.uses;
      users = s.chains.users;
      flow_room = free_count s.flows;
      use_room = s.chains.room;
    } };

    ghost invariant = { λ s.
        IsKept s.capacities.items s.flows s.chains s.left.items s.waiting.items };
}

impl System {
    /// Makes a system with these capacities, one for each resource, and no flow.
    pub fn new(alloc: Global, capacities: &[u64]) -> Result<System, Memory>
        ensures capacities { IfOk result (λ s. s.capacities ≡ capacities.now) }
        ensures empty { IfOk result (λ s. s.slots ≡ []) }
    {
        Ok(System {
            capacities: Vec::from_slice(alloc, capacities)?,
            flows: Rows::new(alloc),
            chains: Chains::new(alloc, capacities.len())?,
            left: Vec::from_slice(alloc, capacities)?,
            waiting: Vec::from_slice(alloc, capacities)?,
        })
    }

    /// Makes room for this many more flows, with this many uses in all: at most this many more flow numbers. Only the
    /// room changes, even if memory runs out, and the room doesn't shrink. There is no room for 2^32 flows.
    pub fn reserve(&mut self, flows: usize, uses: usize) -> Result<(), Memory>
        ensures flow_room { OnOk result (flows ≤ self.new.flow_room) }
        ensures use_room { OnOk result (uses ≤ self.new.use_room) }
        ensures grows { (self.old.flow_room ≤ self.new.flow_room)
            × (self.old.use_room ≤ self.new.use_room) }
        ensures slots { IsExtended self.old.slots self.new.slots flows }
        ensures few { length self.new.slots
            ≤ length self.old.slots + (flows - self.old.flow_room) }
        ensures shares { (id : ℕ) →
            slice_index self.new.shares id ≡ slice_index self.old.shares id }
        ensures capacities { self.new.capacities ≡ self.old.capacities }
    {
        self.flows.reserve(flows)?;
        self.chains.reserve(uses)?;
        Ok(())
    }

    /// Adds a flow that uses these resources, each at its place among the capacities, and returns its number. If
    /// flows compete their shares are as their weights; the bound limits the share. The room that it takes was made
    /// by `reserve`.
    ///
    /// Until the next `solve` the new flow has the share 0, and each other flow the one that it had.
    pub fn add(&mut self, uses: &[usize], weight: u32, bound: Option<u64>) -> FlowId
        requires flow { IsFlow self.old.capacities (flow uses.now weight bound) }
        requires flow_room { 0 < self.old.flow_room }
        requires use_room { length uses.now ≤ self.old.use_room }
        ensures free { flow_at self.old.slots result ≡ None }
        ensures in_range { result < length self.old.slots }
        ensures added { Changes self.old.slots self.new.slots result
            (Some (flow uses.now weight bound)) }
        ensures numbers { length self.new.slots ≡ length self.old.slots }
        ensures share { slice_index self.new.shares result ≡ 0 }
        ensures shares { KeepsShares self.old.shares self.new.shares result }
        ensures capacities { self.new.capacities ≡ self.old.capacities }
        ensures flow_room { self.new.flow_room + 1 ≡ self.old.flow_room }
        ensures use_room { self.new.use_room + length uses.now ≡ self.old.use_room }
    {
        let mut row = FlowRow::new(uses.len(), weight, bound);
        // each number has 32 bits
        let _numbers = self.flows.numbers();
        let id = self.flows.insert(row);
        row.first = self.chains.add(id as u32, uses);
        self.flows.replace(id, row);
        id
    }

    /// Removes a flow; its number and its room are free again. Until the next `solve` each other flow has the
    /// share that it had.
    pub fn remove(&mut self, flow: FlowId)
        requires { IsSome (flow_at self.old.slots flow) }
        ensures removed { Changes self.old.slots self.new.slots flow None }
        ensures numbers { length self.new.slots ≡ length self.old.slots }
        ensures shares { KeepsShares self.old.shares self.new.shares flow }
        ensures capacities { self.new.capacities ≡ self.old.capacities }
        ensures flow_room { self.new.flow_room ≡ self.old.flow_room + 1 }
        ensures use_room { IfSome (flow_at self.old.slots flow)
            (λ old. self.new.use_room ≡ self.old.use_room + length old.uses) }
    {
        let row = self.flows.remove(flow);
        self.chains.remove(flow, row.count, row.first);
    }

    /// Gives a resource another capacity. Until the next `solve` each flow has the share that it had.
    pub fn set_capacity(&mut self, resource: usize, capacity: u64)
        requires { resource < length self.old.capacities }
        ensures { self.new ≡ record self.old {
          capacities = slice_set self.old.capacities resource capacity;
        } }
    {
        self.capacities[resource] = capacity;
    }

    /// Gives a flow another bound, even if it had none. Until the next `solve` each flow keeps its share.
    pub fn set_bound(&mut self, flow: FlowId, bound: u64)
        requires { IsSome (flow_at self.old.slots flow) }
        ensures { IfSome (flow_at self.old.slots flow) (λ held.
            self.new ≡ record self.old {
              slots = slice_set self.old.slots flow (Some (record held { bound = Some bound }));
            }) }
    {
        if let Some(row) = self.flows.get(flow) {
            let bound = Some(bound);
            self.flows.replace(flow, FlowRow { bound, ..row });
        }
    }

    /// Computes the share of each flow over the whole system; the shares are max-min fair. `steps` counts the visits to
    /// uses: each use is visited at least once.
    pub fn solve<L: Ledger>(&mut self, steps: &mut Steps<L>)
        ensures shares { AreShares self.new }
        ensures fair { IsFair self.new.capacities (held self.new.slots)
            (share_of self.new.capacities (held self.new.slots)) }
        ensures kept { self.new ≡ record self.old { shares = self.new.shares } }
        ensures looks { steps.old + use_count self.old ≤ steps.new }
    {
        fill(
            &mut self.flows,
            &self.chains,
            &self.capacities,
            &mut self.left,
            &mut self.waiting,
            steps,
        );
        put_shares(&mut self.flows);
    }

    /// Returns the flow's share, as the last `solve` gave it; 0 for a flow that was added since.
    pub fn share(&self, flow: FlowId) -> u64
        requires { IsSome (flow_at self.now.slots flow) }
        ensures { result ≡ slice_index self.now.shares flow }
    {
        match self.flows.get(flow) {
            Some(row) => row.share,
            None => 0,
        }
    }

    /// Returns the first use of a flow; None if and only if there is no flow or it uses no resource. The next are its
    /// own.
    pub fn first_of(&self, flow: FlowId) -> Option<usize>
        ensures leads { Leads next_of_flow resource_of self.now.uses result
            (uses_at self.now.slots flow) }
        ensures own { Leads next_of_flow user_of self.now.uses result
            (replicate (length (uses_at self.now.slots flow)) flow) }
        ensures few { length (uses_at self.now.slots flow) ≤ length self.now.uses }
    {
        let row = self.flows.get(flow)?;
        row.first
    }

    /// Returns the first use on a resource; None if and only if no flow uses it. The next are uses of the same
    /// resource.
    pub fn first_on(&self, resource: usize) -> Option<usize>
        requires { resource < length self.now.capacities }
        ensures leads { Leads next_on user_of self.now.uses result
            (users_on self.now.users resource) }
        ensures here { Leads next_on resource_of self.now.uses result
            (replicate (length (users_on self.now.users resource)) resource) }
        ensures few { length (users_on self.now.users resource) ≤ length self.now.uses }
    {
        self.chains.first_on(resource)
    }

    /// Returns the use under a number. It is one step.
    pub fn look<L: Ledger>(&self, i: usize, steps: &mut Steps<L>) -> Use
        requires { IsSome (slice_index_or self.now.uses i None) }
        ensures there { slice_index_or self.now.uses i None ≡ Some result }
        ensures looks { steps.new ≡ steps.old + 1 }
    {
        self.chains.look(i, steps)
    }

    /// Returns the capacities of the resources.
    pub fn capacities(&self) -> &[u64]
        ensures { result.now ≡ self.now.capacities }
    {
        &self.capacities
    }

    /// Returns the capacity of a resource.
    pub fn capacity(&self, resource: usize) -> u64
        requires { resource < length self.now.capacities }
        ensures { result ≡ slice_index self.now.capacities resource }
    {
        self.capacities[resource]
    }

    /// Returns a flow's weight.
    pub fn weight(&self, flow: FlowId) -> u32
        requires { IsSome (flow_at self.now.slots flow) }
        ensures { IfSome (flow_at self.now.slots flow) (λ held. result ≡ held.weight) }
    {
        match self.flows.get(flow) {
            Some(row) => row.weight,
            None => 0,
        }
    }

    /// Returns a flow's bound, as `add` or a later `set_bound` gave it; None if and only if neither did.
    pub fn bound(&self, flow: FlowId) -> Option<u64>
        requires { IsSome (flow_at self.now.slots flow) }
        ensures { IfSome (flow_at self.now.slots flow) (λ held. result ≡ held.bound) }
    {
        self.flows.get(flow)?.bound
    }

    /// Returns for how many more flows there is room.
    pub fn spare(&self) -> usize
        ensures { result ≡ self.now.flow_room }
    {
        self.flows.spare()
    }

    /// Returns how many numbers of flows there are; each flow's number is below.
    pub fn numbers(&self) -> usize
        ensures { result ≡ length self.now.slots }
    {
        self.flows.numbers()
    }

    /// States what holds of every system: each flow is one, the chains agree, and the numbers are few.
    pub fn is_sound(&self)
        ensures { IsSound self.now }
    {
        let _numbers = self.flows.numbers();
    }
}
