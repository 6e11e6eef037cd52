//! What is kept of flows and resources from one rate update to the next.
ghost use Rattle.std.specs.Prelude.{◌≡◌, ◌≢◌, ◌<◌, ◌≤◌, ◌-◌, ℕ, [], All, AllPairs, IfOk, OnOk, length, slice_index};
ghost use Rattle.sg_maxmin.specs.Sharing.{IsExtended, Sharing};
ghost use Rattle.sg_maxmin_levels.specs.Kept.{HasRoom, IsBetween, IsFresh, IsUnmarked, KeepsAll, MarksNoMore, NotesChanged};
ghost use Rattle.sg_maxmin.specs.Numbered.{level_at};
ghost use Rattle.sg_maxmin_levels.specs.Settling.{is_active};

use sg_base::{Marks, Memory};
use sg_maxmin::System;
use std::alloc::Global;

/// The level of each flow and the hold of each resource, and which of these are still to be made right.
#[derive(Drop)]
pub struct Levels {
    // under each flow its level; None: nothing holds it yet
    pub(crate) levels: Vec<Option<u64>>,
    // and its part in the demand on each of its resources; 0 if there is no flow
    pub(crate) parts: Vec<u128>,
    // under each resource the level at which it holds its flows; None: at none
    pub(crate) holds: Vec<Option<u64>>,
    // under each resource the demand on it
    pub(crate) demands: Vec<u128>,
    // and how many users it has at least
    pub(crate) counts: Vec<u64>,
    // the resources that wait to be processed
    pub(crate) active: Marks,
    // the flows whose levels or bounds changed
    pub(crate) moved: Marks,
    // the flows that began or have another bound since they were given their levels
    pub(crate) stale: Marks,
    // no flow has more uses
    pub(crate) longest: usize,
}

// Makes places for the flows of numbers below n.
fn grow_rows(n: usize, levels: &mut Vec<Option<u64>>, parts: &mut Vec<u128>) -> Result<(), Memory>
    ensures levels { (id : ℕ) → level_at levels.new.items id ≡ level_at levels.old.items id }
    ensures parts { (id : ℕ) → slice_index parts.new.items id ≡ slice_index parts.old.items id }
    ensures levels_grow { length levels.old.items ≤ length levels.new.items }
    ensures parts_grow { length parts.old.items ≤ length parts.new.items }
    ensures room { OnOk result ((n ≤ length levels.new.items) × (n ≤ length parts.new.items)) }
{
    for _number in levels.len()..n {
        levels.push(None)?;
    }
    for _number in parts.len()..n {
        parts.push(0)?;
    }
    Ok(())
}

impl Levels {
    /// Makes the state of so many resources, with nothing written yet.
    pub fn new(alloc: Global, resources: usize) -> Result<Levels, Memory>
        ensures fresh { IfOk result (IsFresh resources) }
        ensures nothing { IfOk result IsUnmarked }
    {
        let mut holds = Vec::new(alloc);
        let mut demands = Vec::new(alloc);
        let mut counts = Vec::new(alloc);
        let mut active = Marks::new(alloc);
        active.reserve(resources)?;
        for _resource in 0..resources {
            holds.push(None)?;
            demands.push(0)?;
            counts.push(0)?;
        }
        Ok(Levels {
            levels: Vec::new(alloc),
            parts: Vec::new(alloc),
            holds,
            demands,
            counts,
            active,
            moved: Marks::new(alloc),
            stale: Marks::new(alloc),
            longest: 0,
        })
    }

    // Makes room for flows of numbers below n.
    fn grow(&mut self, n: usize) -> Result<(), Memory>
        ensures kept { KeepsAll self.old self.new }
        ensures room { OnOk result (HasRoom n self.new) }
    {
        grow_rows(n, &mut self.levels, &mut self.parts)?;
        self.moved.reserve(n)?;
        self.stale.reserve(n)
    }

    /// Makes room for this many more flows in the system, with this many uses in all, and for their levels: new numbers
    /// come only if too few are free. Only the room changes, even if memory runs out, and the room doesn't shrink.
    pub fn reserve(&mut self, system: &mut System, flows: usize, uses: usize) -> Result<(), Memory>
        requires { IsBetween system.old self.old }
        ensures between { IsBetween system.new self.new }
        ensures changed { NotesChanged system.old system.new self.old self.new }
        ensures within { MarksNoMore self.old self.new }
        ensures flow_room { OnOk result (flows ≤ system.new.flow_room) }
        ensures use_room { OnOk result (uses ≤ system.new.use_room) }
        ensures grows { (system.old.flow_room ≤ system.new.flow_room)
            × (system.old.use_room ≤ system.new.use_room) }
        ensures slots { IsExtended system.old.slots system.new.slots
            (flows - system.old.flow_room) }
        ensures capacities { system.new.capacities ≡ system.old.capacities }
    {
        system.is_sound();
        let more = flows.saturating_sub(system.spare());
        let Some(n) = system.numbers().checked_add(more) else {
            return Err(Memory);
        };
        self.grow(n)?;
        let reserved = system.reserve(flows, uses);
        system.is_sound();
        reserved
    }

    /// Returns the level of a flow, if something holds it. That of a flow which began or got another bound since the
    /// last rate update says nothing.
    pub fn level(&self, flow: usize) -> Option<u64>
        requires { flow < length self.now.levels.items }
        ensures { result ≡ level_at self.now.levels.items flow }
    {
        self.levels[flow]
    }

    // Returns the part of a flow in the demand on each of its resources.
    pub(crate) fn part(&self, flow: usize) -> u128
        requires { flow < length self.now.parts.items }
        ensures { result ≡ slice_index self.now.parts.items flow }
    {
        self.parts[flow]
    }

    /// Returns the level at which a resource holds its flows, as it was written last; None: at none.
    pub fn hold(&self, resource: usize) -> Option<u64>
        requires { resource < length self.now.holds.items }
        ensures { result ≡ level_at self.now.holds.items resource }
    {
        self.holds[resource]
    }

    /// Returns whether a resource waits to be processed.
    pub fn is_active(&self, resource: usize) -> bool
        requires { resource < self.now.active.room }
        ensures { result ≡ is_active self.now.active.members resource }
    {
        self.active.contains(resource)
    }

    /// Returns the resources that wait to be processed, each once.
    pub fn active(&self) -> &[usize]
        ensures members { result.now ≡ self.now.active.members }
        ensures once { AllPairs (λ a b. a ≢ b) result.now }
        ensures in_range { All (λ r. r < self.now.active.room) result.now }
    {
        self.active.members()
    }

    /// Returns the flows that began, and those whose levels or bounds changed, since `forget_moved`, each once. A
    /// number may be that of a flow that has ended.
    pub fn moved(&self) -> &[usize]
        ensures members { result.now ≡ self.now.moved.members }
        ensures once { AllPairs (λ a b. a ≢ b) result.now }
    {
        self.moved.members()
    }

    /// Empties the list of moved flows.
    pub fn forget_moved(&mut self)
        ensures none { self.new.moved.members ≡ [] }
        ensures between { (s : Sharing) → IsBetween s self.old → IsBetween s self.new }
        ensures levels { self.new.levels.items ≡ self.old.levels.items }
        ensures active { self.new.active ≡ self.old.active }
        ensures stale { self.new.stale ≡ self.old.stale }
    {
        self.moved.clear();
    }
}
