//! Flows whose rates are brought up to date only if something changed.
ghost use Rattle.std.specs.Prelude.{◌≡◌, ◌≤◌, ◌<◌, ◌+◌, ◌-◌, IsSome, IfSome, IfOk, OnOk, None, Some, length};
ghost use Rattle.sg_maxmin.specs.Fill.{flow};
ghost use Rattle.sg_maxmin.specs.Sharing.{HoldsNone, IsFlow};
ghost use Rattle.sg_lazy.specs.RunningFlow.{is_same_bound, running_at};
ghost use Rattle.sg_lazy.specs.Lazily.{IsFresh, IsRoomier, IsSettled, KeepUntouched, looks_of, with_bound, with_capacity, with_flow, with_other_bound, with_other_capacity, without_flow};

use crate::flow_room::{all_fit, grow_marks, grow_rates};
use crate::settle::{Pending, Rated, Solver, settle_flows};
use sg_base::{Marks, Memory, Steps};
use sg_maxmin::System;
use std::alloc::Global;
use std::marker::Model;
use std::sync::ledger::Ledger;

/// Flows and their max-min rates. A rate update solves only what the changes since the last one touch. Capacities,
/// bounds and rates are in the caller's units.
///
/// Contracts see the capacities, the flow that runs under each number with its rate, whether it began since the last
/// rate update and whether it is marked, the flows that ended since, the resources whose capacities changed since, the
/// numbers of the flows whose rates the last update changed, and for how many more flows and uses there is room.
pub struct Lazy {
    // the flows that run, and until the next rate update those that ended
    system: System,
    pending: Pending,
    rated: Rated,
    // what brings rates up to date
    solver: Solver,
}

// A function of its own, so that a proof in which one is dropped doesn't go into its parts.
impl Drop for Lazy {
    fn drop(self) {
        let Lazy {
            system: _,
            pending: _,
            rated: _,
            solver: _,
        } = self;
    }
}

impl Model for Lazy {
    ghost use Rattle.sg_lazy.specs.Lazily.{Lazily, lazily_code};

    ghost Value = { Lazily };

    ghost coded = { lazily_code };

    ghost use Rattle.sg_lazy.specs.kept.Held.{running_in, ended_in, HasRoom, IsLazy};
    ghost use Rattle.sg_lazy.specs.kept.Leveled.{AreLeveled};

    ghost view = { λ s. record {
      capacities = s.system.capacities;
      slots = running_in s.system.slots s.rated.rates.items s.pending.began.members
          s.pending.marked.members s.pending.ended.members;
      ended = ended_in s.system.slots s.pending.ended.members;
      resources = s.pending.resources.members;
      changed = s.rated.changed.members;
      flow_room = s.system.flow_room;
      use_room = s.system.use_room;
    } };

    ghost invariant = { λ s. IsLazy s.system s.rated.rates.items s.pending.began.members
        s.pending.marked.members s.pending.ended.members s.pending.resources.members
        × HasRoom s.system s.pending s.solver.parts s.rated
        × AreLeveled s.system s.solver.levels s.rated.rates.items s.pending.began.members
        s.pending.marked.members s.pending.resources.members };
}

// Returns whether the bound is this one.
fn is_bound(bound: Option<u64>, other: u64) -> bool
    ensures { result ≡ is_same_bound bound (Some other) }
{
    match bound {
        Some(bound) => bound == other,
        None => false,
    }
}

impl Lazy {
    /// Keeps flows on the resources of a system, with their capacities; no flow runs yet. The system holds no flow. The
    /// call consumes the system and its room, even if memory runs out.
    pub fn new(alloc: Global, system: System) -> Result<Lazy, Memory>
        requires { HoldsNone system.slots }
        ensures { IfOk result (IsFresh system.capacities) }
    {
        let capacities = system.capacities();
        let pending = Pending::new(alloc, capacities.len())?;
        let solver = Solver::new(alloc, capacities)?;
        // one that was reserved has numbers of flows, for which nothing is kept here yet
        let empty = System::new(alloc, capacities)?;
        empty.is_sound();
        all_fit(capacities);
        Ok(Lazy {
            system: empty,
            pending,
            rated: Rated {
                rates: Vec::new(alloc),
                changed: Marks::new(alloc),
            },
            solver,
        })
    }

    /// Returns how many numbers of flows there are, taken and free ones.
    pub fn numbers(&self) -> usize
        ensures { result ≡ length self.now.slots }
    {
        self.system.numbers()
    }

    /// Returns for how many more flows there is room.
    pub fn spare(&self) -> usize
        ensures { result ≡ self.now.flow_room }
    {
        self.system.spare()
    }

    /// Makes room for this many more flows, with this many uses in all; new numbers come only if too few are free. Only
    /// the room changes, even if memory runs out, and the room doesn't shrink.
    pub fn reserve(&mut self, flows: usize, uses: usize) -> Result<(), Memory>
        ensures flow_room { OnOk result (flows ≤ self.new.flow_room) }
        ensures use_room { OnOk result (uses ≤ self.new.use_room) }
        ensures kept { IsRoomier self.old self.new }
        ensures few { length self.new.slots
            ≤ length self.old.slots + (flows - self.old.flow_room) }
    {
        let more = flows.saturating_sub(self.system.spare());
        let Some(n) = self.system.numbers().checked_add(more) else {
            return Err(Memory);
        };
        grow_marks(n, &mut self.pending, &mut self.rated.changed)?;
        grow_rates(n, &mut self.rated.rates)?;
        self.solver.parts.reserve(n)?;
        let levels = &mut self.solver.levels;
        let reserved = levels.reserve(&mut self.system, flows, uses);
        self.system.is_sound();
        reserved
    }

    /// Starts a flow that uses these resources, each at its place among the capacities, and returns its number. The
    /// bound limits its rate, which is 0 until the next rate update. The room that it takes was made by `reserve`.
    pub fn start(&mut self, uses: &[usize], weight: u32, bound: Option<u64>) -> usize
        requires flow { IsFlow self.old.capacities (flow uses.now weight bound) }
        requires flow_room { 0 < self.old.flow_room }
        requires use_room { length uses.now ≤ self.old.use_room }
        ensures free { running_at self.old.slots result ≡ None }
        ensures in_range { result < length self.old.slots }
        ensures starts { self.new ≡ with_flow self.old result (flow uses.now weight bound) }
    {
        let levels = &mut self.solver.levels;
        let number = levels.start(&mut self.system, uses, weight, bound);
        self.system.is_sound();
        self.rated.rates[number] = 0;
        self.pending.began.insert(number);
        self.pending.marked.insert(number);
        number
    }

    /// Ends a flow. Its number and its room are free again after the next rate update.
    pub fn end(&mut self, flow: usize)
        requires { IsSome (running_at self.old.slots flow) }
        ensures { IfSome (running_at self.old.slots flow)
            (λ running. self.new ≡ without_flow self.old flow running.flow) }
    {
        self.pending.ended.insert(flow);
    }

    /// Gives a resource this capacity, which may be 0. The rates stay until the next rate update.
    pub fn set_capacity(&mut self, resource: usize, capacity: u64)
        requires { resource < length self.old.capacities }
        ensures { self.new ≡ with_capacity self.old resource capacity }
    {
        if self.system.capacity(resource) != capacity {
            self.change_capacity(resource, capacity);
        }
    }

    // Changes the capacity of a resource.
    fn change_capacity(&mut self, resource: usize, capacity: u64)
        requires { resource < length self.old.capacities }
        ensures { self.new ≡ with_other_capacity self.old resource capacity }
    {
        let levels = &mut self.solver.levels;
        levels.set_capacity(&mut self.system, resource, capacity);
        self.system.is_sound();
        self.pending.resources.insert(resource);
    }

    /// Gives a flow this bound, even if it has none. Its rate stays until the next rate update.
    pub fn set_bound(&mut self, flow: usize, bound: u64)
        requires { IsSome (running_at self.old.slots flow) }
        ensures { self.new ≡ with_bound self.old flow bound }
    {
        if !is_bound(self.system.bound(flow), bound) {
            self.change_bound(flow, bound);
        }
    }

    // Changes the bound of a flow.
    fn change_bound(&mut self, flow: usize, bound: u64)
        requires { IsSome (running_at self.old.slots flow) }
        ensures { self.new ≡ with_other_bound self.old flow bound }
    {
        let levels = &mut self.solver.levels;
        levels.set_bound(&mut self.system, flow, bound);
        self.system.is_sound();
        self.pending.marked.insert(flow);
    }

    /// Brings all rates up to date. It visits only the connected components of flows that began or ended or whose
    /// bounds changed since the last update, and of resources whose capacities changed; `steps` counts visits to uses.
    pub fn settle<L: Ledger>(&mut self, steps: &mut Steps<L>)
        ensures settled { IsSettled self.old self.new }
        ensures looks { steps.new ≤ steps.old + looks_of self.old }
    {
        settle_flows(
            &mut self.system,
            &mut self.pending,
            &mut self.solver,
            &mut self.rated,
            steps,
        );
        self.pending.began.clear();
        self.pending.marked.clear();
        self.pending.ended.clear();
        self.pending.resources.clear();
    }

    /// States that a flow that no change since the last rate update touches has its rate in the whole, so that an
    /// update keeps it.
    pub fn untouched_keep(&self)
        ensures { KeepUntouched self.now }
    {
        let _numbers = self.system.numbers();
    }

    /// Returns the rate that the last rate update gave to a flow; 0 for one that began since.
    pub fn rate(&self, flow: usize) -> u64
        requires { IsSome (running_at self.now.slots flow) }
        ensures { IfSome (running_at self.now.slots flow) (λ running. result ≡ running.rate) }
    {
        self.rated.rates[flow]
    }

    /// Returns the numbers of the flows whose rates the last update changed, each once. One that began counts as
    /// changed.
    pub fn changed(&self) -> &[usize]
        ensures { result.now ≡ self.now.changed }
    {
        self.rated.changed.members()
    }
}
