//! The max-min solve of the touched flows alone.
ghost use Rattle.std.specs.Prelude.{◌≡◌, ◌≤◌, ◌<◌, ◌+◌, ◌*◌, ◌^◌, ℕ, None, IfOk, IsSome, false, All, length, slice_index, slice_set};
ghost use Rattle.sg_base.specs.MarkSet.{is_in};
ghost use Rattle.sg_maxmin.specs.Sharing.{flow_at, uses_at};
ghost use Rattle.sg_maxmin_solve.specs.Component.{lengths};
ghost use Rattle.sg_maxmin_solve.specs.Filling.{ArePart, CanFill, HasResources, IsMoreBy, fixed_at, weight_of, weight_on};
ghost use Rattle.sg_maxmin_solve.specs.Holds.{IsEnded};

use crate::steps::{fill_steps, set_levels};
use sg_base::{Marks, Memory, Steps};
use sg_heap::Agenda;
use sg_maxmin::System;
use std::alloc::Global;
use std::sync::ledger::Ledger;

/// The state of a max-min solve.
#[derive(Drop)]
pub struct Filling {
    // under each flow, the level at which it is fixed
    pub fixed: Vec<Option<u64>>,
    // under each resource, the level at which it was taken: there it holds its flows; None: it holds none
    pub holds: Vec<Option<u64>>,
    // under each resource, what remains of it, the weight of the unfixed flows on it, and its level
    pub left: Vec<u64>,
    pub waiting: Vec<u64>,
    pub levels: Vec<u64>,
    // the resources whose levels must be divided again
    pub stale: Marks,
    // in a long solve, the levels of the resources on which a flow waits
    pub agenda: Agenda,
}

impl Filling {
    /// Makes places for resources with these capacities, and for no flow yet.
    pub fn new(alloc: Global, capacities: &[u64]) -> Result<Filling, Memory>
        ensures { IfOk result (HasResources (length capacities.now)) }
    {
        let mut stale = Marks::new(alloc);
        stale.reserve(capacities.len())?;
        let mut agenda = Agenda::new(alloc)?;
        agenda.reserve(capacities.len())?;
        Ok(Filling {
            fixed: Vec::new(alloc),
            holds: vec![in alloc; None; capacities.len()]?,
            left: Vec::from_slice(alloc, capacities)?,
            waiting: vec![in alloc; 0; capacities.len()]?,
            levels: Vec::from_slice(alloc, capacities)?,
            stale,
            agenda,
        })
    }
}

// Adds to the weight that waits at a resource.
fn add(amounts: &mut [u64], resource: usize, more: u64)
    requires resource { resource < length amounts.old }
    requires fits { slice_index amounts.old resource + more < 2 ^ 64 }
    ensures { amounts.new ≡ slice_set amounts.old resource
        (slice_index amounts.old resource + more) }
{
    amounts[resource] += more;
}

// Makes a flow wait with its weight at each of its resources.
fn add_uses<L: Ledger>(system: &System, flow: usize, waiting: &mut [u64], steps: &mut Steps<L>)
    requires held { IsSome (flow_at system.now.slots flow) }
    requires exist { All (λ c. c < length waiting.old) (uses_at system.now.slots flow) }
    requires fits { (c : ℕ) → slice_index waiting.old c
        + weight_on system.now.slots flow c < 2 ^ 64 }
    ensures waiting { IsMoreBy (weight_on system.now.slots flow)
        waiting.old waiting.new }
    ensures looks { steps.new ≡ steps.old + length (uses_at system.now.slots flow) }
{
    let weight = system.weight(flow) as u64;
    let mut at = system.first_of(flow);
    while let Some(i) = at {
        let one = system.look(i, steps);
        add(waiting, one.resource, weight);
        at = one.next_of_flow;
    }
}

// Makes the whole of the reached resources available, and notes none.
fn reset(system: &System, reached: &[usize], left: &mut [u64], holds: &mut [Option<u64>])
    requires exist { All (λ c. c < length system.now.capacities) reached.now }
    requires left { length left.old ≡ length system.now.capacities }
    requires holds { length holds.old ≡ length system.now.capacities }
    ensures left { (i : ℕ) → i < length reached.now
        → slice_index left.new (slice_index reached.now i)
        ≡ slice_index system.now.capacities (slice_index reached.now i) }
    ensures holds { (i : ℕ) → i < length reached.now
        → fixed_at holds.new (slice_index reached.now i) ≡ None }
    ensures holds_kept { (c : ℕ) → is_in c reached.now ≡ false
        → fixed_at holds.new c ≡ fixed_at holds.old c }
{
    for c in reached {
        left[*c] = system.capacity(*c);
        holds[*c] = None;
    }
}

// Unfixes all touched flows, and makes each wait at its resources.
fn unfix<L: Ledger>(
    system: &System,
    touched: &[usize],
    fixed: &mut [Option<u64>],
    waiting: &mut [u64],
    steps: &mut Steps<L>,
)
    requires part { ArePart system.now touched.now }
    requires fixed { length system.now.slots ≤ length fixed.old }
    requires waiting { length waiting.old ≡ length system.now.capacities }
    requires fits { (c : ℕ) → slice_index waiting.old c
        + weight_of system.now.slots touched.now c < 2 ^ 64 }
    ensures fixed { (i : ℕ) → i < length touched.now
        → fixed_at fixed.new (slice_index touched.now i) ≡ None }
    ensures others { (id : ℕ) → is_in id touched.now ≡ false
        → fixed_at fixed.new id ≡ fixed_at fixed.old id }
    ensures waiting { IsMoreBy (weight_of system.now.slots touched.now)
        waiting.old waiting.new }
    ensures looks { steps.new
        ≡ steps.old + lengths (uses_at system.now.slots) touched.now }
{
    for flow in touched {
        fixed[*flow] = None;
        add_uses(system, *flow, waiting, steps);
    }
}

/// Fixes each touched flow at its level among the touched flows, and notes at which each reached resource holds them.
pub fn fill<L: Ledger>(
    system: &System,
    touched: &[usize],
    reached: &[usize],
    filling: &mut Filling,
    steps: &mut Steps<L>,
)
    requires { CanFill system.now touched.now reached.now filling.old }
    ensures ended { IsEnded system.now touched.now reached.now filling.old filling.new }
    ensures looks { steps.new ≤ steps.old + 4 * lengths (uses_at system.now.slots) touched.now }
{
    reset(system, reached, &mut filling.left, &mut filling.holds);
    unfix(
        system,
        touched,
        &mut filling.fixed,
        &mut filling.waiting,
        steps,
    );
    set_levels(
        reached,
        &filling.left,
        &filling.waiting,
        &mut filling.levels,
    );
    fill_steps(system, touched, reached, filling, steps);
}
