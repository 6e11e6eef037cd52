//! The rate update: levels are brought up to date, and the rates of the flows that moved are written.
ghost use Rattle.std.specs.Prelude.{◌≡◌, ◌≢◌, ◌≤◌, ◌<◌, ◌+◌, ℕ, Bool, [], true, false, IfOk, IsSome, IsTrue, AllPairs, length, slice_index};
ghost use Rattle.sg_maxmin.specs.Sharing.{IsSound, flow_at, uses_at};
ghost use Rattle.sg_maxmin_levels.specs.Kept.{IsBetween, IsWithin, NotesChanged};
ghost use Rattle.sg_maxmin.specs.Found.{PassAlong};
ghost use Rattle.sg_maxmin_solve.specs.Component.{MarksRow, lengths};
ghost use Rattle.sg_lazy.specs.RunningFlow.{running_flows};
ghost use Rattle.sg_lazy.specs.Work.{work};
ghost use Rattle.sg_lazy.specs.kept.Held.{HasRoom, IsLazy, IsNothing, IsRefilled, IsWithout, running_in, ended_in};
ghost use Rattle.sg_lazy.specs.kept.Leveled.{AreLeveled, RowsPass};
ghost use Rattle.sg_lazy.specs.kept.Solving.{IsPendingOn, IsSolved, IsSolver, SolvesWithin, refill_looks, solve_looks, try_looks};

use crate::writing::write_rates;
use sg_base::{Marks, Memory, Steps};
use sg_maxmin::System;
use sg_maxmin_levels::Levels;
use sg_maxmin_solve::Parts;
use std::alloc::Global;
use std::sync::ledger::Ledger;

/// What changed since the last rate update.
#[derive(Drop)]
pub struct Pending {
    pub began: Marks,
    // the flows that began, and those whose bounds changed
    pub marked: Marks,
    pub ended: Marks,
    // whose capacities changed; a rate update adds the active ones, as those that ended flows used
    pub resources: Marks,
}

impl Pending {
    /// Makes the state in which nothing changed, of so many resources.
    pub fn new(alloc: Global, resources: usize) -> Result<Pending, Memory>
        ensures { IfOk result (IsNothing resources) }
    {
        let mut changed = Marks::new(alloc);
        changed.reserve(resources)?;
        Ok(Pending {
            began: Marks::new(alloc),
            marked: Marks::new(alloc),
            ended: Marks::new(alloc),
            resources: changed,
        })
    }
}

/// The rates, and the flows whose rates the last rate update changed.
#[derive(Drop)]
pub struct Rated {
    pub rates: Vec<u64>,
    pub changed: Marks,
}

/// What brings rates up to date: levels that are kept, and a max-min solve of connected components.
#[derive(Drop)]
pub struct Solver {
    pub levels: Levels,
    pub parts: Parts,
    // how many flows the last solve touched, if few of their rates changed; 0: the next rate update solves
    pub crowd: usize,
}

// A max-min solve of fewer flows costs less than levels do.
const CROWD: usize = 24;

impl Solver {
    /// Makes a solver without flows, on resources with these capacities.
    pub fn new(alloc: Global, capacities: &[u64]) -> Result<Solver, Memory>
        ensures { IfOk result (IsSolver (length capacities.now)) }
    {
        let levels = Levels::new(alloc, capacities.len())?;
        let parts = Parts::new(alloc, capacities)?;
        Ok(Solver {
            levels,
            parts,
            crowd: 0,
        })
    }
}

// Takes the flows that ended away.
fn end_all<L: Ledger>(
    system: &mut System,
    levels: &mut Levels,
    ended: &[usize],
    steps: &mut Steps<L>,
)
    requires between { IsBetween system.old levels.old }
    requires there { (i : ℕ) → i < length ended.now
        → IsSome (flow_at system.old.slots (slice_index ended.now i)) }
    requires once { AllPairs (λ a b. a ≢ b) ended.now }
    ensures without { IsWithout system.old system.new ended.now }
    ensures between { IsBetween system.new levels.new }
    ensures changed { NotesChanged system.old system.new levels.old levels.new }
    ensures within { (p q : ℕ → Bool) → RowsPass q (uses_at system.old.slots) ended.now
        → IsWithin p q levels.old → IsWithin p q levels.new }
    ensures looks { steps.new
        ≡ steps.old + lengths (uses_at system.old.slots) ended.now }
{
    for flow in ended {
        levels.end(system, *flow, steps);
    }
}

// Marks the active resources.
fn mark_active(levels: &Levels, resources: &mut Marks)
    requires { levels.now.active.room ≤ resources.old.room }
    ensures { MarksRow levels.now.active.members resources.old resources.new }
{
    for resource in levels.active() {
        resources.insert(*resource);
    }
}

// Solves the connected components of the marked flows and resources, and keeps the levels that this finds.
fn fill_joined<L: Ledger>(
    system: &System,
    solver: &mut Solver,
    pending: &Pending,
    steps: &mut Steps<L>,
)
    requires { IsPendingOn system.now solver.old pending.now }
    ensures solved { IsSolved system.now pending.now solver.old solver.new }
    ensures looks { SolvesWithin system.now pending.now refill_looks steps.old steps.new }
{
    solver.parts.fill(
        system,
        pending.marked.members(),
        &pending.ended,
        pending.resources.members(),
        steps,
    );
    solver.levels.refill(system, solver.parts.filled(), steps);
    solver.crowd = solver.parts.touched().len();
}

// Updates by levels alone, if many flows are connected and few move. False: a max-min solve is to follow.
fn settle_levels<L: Ledger>(
    system: &System,
    solver: &mut Solver,
    pending: &Pending,
    steps: &mut Steps<L>,
) -> bool
    requires { IsPendingOn system.now solver.old pending.now }
    ensures solved { IsTrue result → IsSolved system.now pending.now solver.old solver.new }
    ensures pending { result ≡ false → IsPendingOn system.now solver.new pending.now }
    ensures changed { NotesChanged system.now system.now solver.old.levels solver.new.levels }
    ensures looks { SolvesWithin system.now pending.now
        (try_looks (length pending.now.ended.members)) steps.old steps.new }
{
    if solver.crowd == 0 {
        return false;
    }
    let ended = pending.ended.members().len();
    solver.levels.settle(system, ended, steps)
}

// Brings the levels up to date, by themselves or by a max-min solve of connected components.
fn solve<L: Ledger>(system: &System, solver: &mut Solver, pending: &Pending, steps: &mut Steps<L>)
    requires { IsPendingOn system.now solver.old pending.now }
    ensures solved { IsSolved system.now pending.now solver.old solver.new }
    ensures looks { SolvesWithin system.now pending.now
        (solve_looks (length pending.now.ended.members)) steps.old steps.new }
{
    if settle_levels(system, solver, pending, steps) {
        return;
    }
    fill_joined(system, solver, pending, steps);
}

// Returns the crowd if the next rate update goes by levels, as many flows are connected and few rates changed; else 0.
fn next_crowd(crowd: usize, changed: usize) -> usize {
    if crowd < CROWD || crowd / 2 < changed {
        0
    } else {
        crowd
    }
}

// Returns whether a set has no members.
fn is_empty(marks: &Marks) -> bool
    ensures { result ≡ true → marks.now.members ≡ [] }
{
    marks.members().is_empty()
}

// Returns whether nothing changed since the last rate update.
fn is_settled(pending: &Pending) -> bool
    ensures { result ≡ true → IsNothing pending.now.resources.room pending.now }
{
    if !is_empty(&pending.began) {
        return false;
    }
    if !is_empty(&pending.marked) {
        return false;
    }
    if !is_empty(&pending.ended) {
        return false;
    }
    is_empty(&pending.resources)
}

/// Brings the rates of all flows up to date.
pub fn settle_flows<L: Ledger>(
    system: &mut System,
    pending: &mut Pending,
    solver: &mut Solver,
    rated: &mut Rated,
    steps: &mut Steps<L>,
)
    requires lazy { IsLazy system.old rated.old.rates.items pending.old.began.members
        pending.old.marked.members pending.old.ended.members pending.old.resources.members }
    requires room { HasRoom system.old pending.old solver.old.parts rated.old }
    requires leveled { AreLeveled system.old solver.old.levels rated.old.rates.items
        pending.old.began.members pending.old.marked.members pending.old.resources.members }
    ensures refilled { IsRefilled system.old system.new pending.old.began.members
        pending.old.marked.members pending.old.ended.members
        rated.old.rates.items rated.new.rates.items rated.new.changed.members }
    ensures room { HasRoom system.new pending.new solver.new.parts rated.new }
    ensures leveled { AreLeveled system.new solver.new.levels rated.new.rates.items [] [] [] }
    ensures looks { steps.new ≤ steps.old + work
        (running_flows (running_in system.old.slots rated.old.rates.items pending.old.began.members
        pending.old.marked.members pending.old.ended.members))
        (ended_in system.old.slots pending.old.ended.members) pending.old.resources.members }
{
    rated.changed.clear();
    if is_settled(pending) {
        return;
    }
    end_all(system, &mut solver.levels, pending.ended.members(), steps);
    system.is_sound();
    mark_active(&solver.levels, &mut pending.resources);
    solve(system, solver, pending, steps);
    let levels = &solver.levels;
    write_rates(
        system,
        levels,
        pending,
        &mut rated.rates,
        &mut rated.changed,
    );
    solver.crowd = next_crowd(solver.crowd, rated.changed.members().len());
    solver.levels.forget_moved();
}
