//! Rate updates beside max-min solves of the whole: each rate is the share there.
ghost use Rattle.std.specs.Prelude.{◌≡◌, ◌<◌, ◌≤◌, ◌+◌, ℕ, List, Option, [], IfOk, IsSome, OnOk, length};
ghost use Rattle.sg_maxmin.specs.Fill.{flow};
ghost use Rattle.sg_maxmin.specs.Sharing.{IsFlow, flow_at};
ghost use Rattle.sg_lazy.specs.Lazily.{IsFresh};
ghost use Rattle.sg_lazy.specs.RunningFlow.{running_at};
ghost use Rattle.sg_cases.specs.Pairs.{ArePaired, CanChange, StayPaired, twin_of};

use crate::counted::{self, Counted};
use sg_base::{Marks, Memory, Steps};
use sg_lazy::Lazy;
use sg_maxmin::System;
use std::alloc::Global;
use std::process::Abort;
use std::sync::ledger::Ledger;
use std::test::Fail;

const RESOURCES: usize = 6;

// the capacities that a resource may have
const CAPACITIES: [u64; 6] = [0, 5, 17, 300, 1_000_000, 1 << 60];

const SETTLINGS: usize = 500;

// Numbers drawn by a fixed rule, and the resources that were drawn last.
#[derive(Drop)]
struct Draw {
    state: u64,
    // how many changes come between two rate updates
    changes: usize,
    picked: Marks,
}

impl Draw {
    // Returns one of the numbers below n.
    fn below(&mut self, n: usize) -> usize
        requires { 0 < n }
        ensures below { result < n }
        ensures picked { self.new.picked ≡ self.old.picked }
    {
        self.state = self
            .state
            .wrapping_mul(6_364_136_223_846_793_005)
            .wrapping_add(1_442_695_040_888_963_407);
        (self.state >> 33) as usize % n
    }

    // Picks up to three resources.
    fn pick(&mut self)
        requires { self.old.picked.room ≡ 6 }
        ensures { self.new.picked.room ≡ self.old.picked.room }
    {
        self.picked.clear();
        let count = self.below(4);
        for _use in 0..count {
            let resource = self.below(RESOURCES);
            self.picked.insert(resource);
        }
    }

    // Returns a bound, or none; if no resource is picked there is one.
    fn bound(&mut self) -> Option<u64>
        ensures some { self.old.picked.members ≡ [] → IsSome result }
        ensures picked { self.new.picked ≡ self.old.picked }
    {
        let bound = self.below(1_000) as u64;
        if self.picked.members().is_empty() || bound % 2 == 0 {
            Some(bound)
        } else {
            None
        }
    }
}

// Makes the list so long.
fn lengthen(twins: &mut Vec<Option<usize>>, n: usize) -> Result<(), Memory>
    ensures same { (id : ℕ) → twin_of twins.new.items id ≡ twin_of twins.old.items id }
    ensures long { OnOk result (n ≤ length twins.new.items) }
    ensures longer { length twins.old.items ≤ length twins.new.items }
{
    for _id in twins.len()..n {
        match twins.push(None) {
            Ok(()) => {}
            Err(_) => return Err(Memory),
        }
    }
    Ok(())
}

// Starts a flow in both.
fn start(
    uses: &[usize],
    weight: u32,
    bound: Option<u64>,
    lazy: &mut Lazy,
    whole: &mut System,
    twins: &mut Vec<Option<usize>>,
) -> Result<(), Memory>
    requires lazy { IsFlow lazy.old.capacities (flow uses.now weight bound) }
    requires whole { IsFlow whole.old.capacities (flow uses.now weight bound) }
    requires paired { ArePaired lazy.old whole.old twins.old.items }
    ensures paired { OnOk result (ArePaired lazy.new whole.new twins.new.items) }
    ensures longer { length twins.old.items ≤ length twins.new.items }
{
    let Some(numbers) = lazy.numbers().checked_add(1) else {
        return Err(Memory);
    };
    lengthen(twins, numbers)?;
    lazy.reserve(1, uses.len())?;
    whole.reserve(1, uses.len())?;
    let id = lazy.start(uses, weight, bound);
    let twin = whole.add(uses, weight, bound);
    twins[id] = Some(twin);
    Ok(())
}

// Starts a drawn flow in both.
fn start_one(
    draw: &mut Draw,
    lazy: &mut Lazy,
    whole: &mut System,
    twins: &mut Vec<Option<usize>>,
) -> Result<(), Memory>
    requires { CanChange draw.old.picked.room lazy.old whole.old twins.old.items }
    ensures { OnOk result (CanChange draw.new.picked.room lazy.new whole.new twins.new.items) }
{
    draw.pick();
    let weight = 1 + draw.below(3) as u32;
    let bound = draw.bound();
    start(draw.picked.members(), weight, bound, lazy, whole, twins)
}

// Gives one of the resources another capacity in both.
fn change_capacity(draw: &mut Draw, lazy: &mut Lazy, whole: &mut System)
    requires lazy { length lazy.old.capacities ≡ 6 }
    requires whole { length whole.old.capacities ≡ 6 }
    ensures picked { draw.new.picked ≡ draw.old.picked }
    ensures paired { StayPaired lazy.old lazy.new whole.old whole.new }
{
    let resource = draw.below(RESOURCES);
    let capacity = CAPACITIES[draw.below(CAPACITIES.len())];
    lazy.set_capacity(resource, capacity);
    whole.set_capacity(resource, capacity);
}

// Gives a flow another bound in both, which may be 0.
fn change_bound(draw: &mut Draw, lazy: &mut Lazy, whole: &mut System, id: usize, twin: usize)
    requires runs { IsSome (running_at lazy.old.slots id) }
    requires held { IsSome (flow_at whole.old.slots twin) }
    ensures picked { draw.new.picked ≡ draw.old.picked }
    ensures paired { StayPaired lazy.old lazy.new whole.old whole.new }
{
    let bound = 25 * draw.below(5) as u64;
    lazy.set_bound(id, bound);
    whole.set_bound(twin, bound);
}

// Draws a number: the flow that has it gets another bound or ends in both, and if no flow has it one starts.
fn change_flow(
    draw: &mut Draw,
    lazy: &mut Lazy,
    whole: &mut System,
    twins: &mut Vec<Option<usize>>,
) -> Result<(), Memory>
    requires { CanChange draw.old.picked.room lazy.old whole.old twins.old.items }
    ensures { OnOk result (CanChange draw.new.picked.room lazy.new whole.new twins.new.items) }
{
    let id = draw.below(twins.len());
    match twins[id] {
        None => start_one(draw, lazy, whole, twins),
        Some(twin) => {
            if draw.below(3) == 0 {
                change_bound(draw, lazy, whole, id, twin);
                return Ok(());
            }
            lazy.end(id);
            whole.remove(twin);
            twins[id] = None;
            Ok(())
        }
    }
}

// Makes the changes between two rate updates: a capacity changes, or a flow starts, ends or gets another bound.
fn change_some(
    draw: &mut Draw,
    lazy: &mut Lazy,
    whole: &mut System,
    twins: &mut Vec<Option<usize>>,
) -> Result<(), Memory>
    requires { CanChange draw.old.picked.room lazy.old whole.old twins.old.items }
    ensures { OnOk result (CanChange draw.new.picked.room lazy.new whole.new twins.new.items) }
{
    for _change in 0..draw.changes {
        if draw.below(4) == 0 {
            change_capacity(draw, lazy, whole);
        } else {
            change_flow(draw, lazy, whole, twins)?;
        }
    }
    Ok(())
}

// Checks that each rate is the share in the max-min solve of the whole.
fn compare(rt: &impl Abort, lazy: &Lazy, whole: &System, twins: &[Option<usize>])
    requires { ArePaired lazy.now whole.now twins.now }
{
    for (id, twin) in twins.iter().enumerate() {
        if let Some(twin) = *twin {
            assert_eq!(rt; lazy.rate(id), whole.share(twin));
        }
    }
}

// Updates the rates 500 times, each time after some changes, and compares them.
fn settle_often<L: Ledger>(
    rt: &impl Abort,
    draw: &mut Draw,
    lazy: &mut Lazy,
    whole: &mut System,
    twins: &mut Vec<Option<usize>>,
    steps: &mut Steps<L>,
) -> Result<(), Memory>
    requires { CanChange draw.old.picked.room lazy.old whole.old twins.old.items }
{
    for _settling in 0..SETTLINGS {
        change_some(draw, lazy, whole, twins)?;
        lazy.settle(steps);
        whole.solve(steps);
        compare(rt, lazy, whole, twins);
    }
    Ok(())
}

// Makes resources with these capacities and no flow yet.
fn lazy_on(alloc: Global, capacities: &[u64]) -> Result<Lazy, Memory>
    ensures { IfOk result (IsFresh capacities.now) }
{
    let system = System::new(alloc, capacities)?;
    Lazy::new(alloc, system)
}

// Rates compared on these resources, with about half of so many flows running at once.
#[derive(Drop)]
struct Rates {
    capacities: [u64; RESOURCES],
    flows: usize,
    changes: usize,
    ghost some: { 0 < flows },
}

impl Counted for Rates {
    fn run<R: Abort, L: Ledger>(
        &self,
        rt: &R,
        alloc: Global,
        steps: &mut Steps<L>,
    ) -> Result<(), Memory> {
        let mut twins = Vec::new(alloc);
        lengthen(&mut twins, self.flows)?;
        let mut picked = Marks::new(alloc);
        picked.reserve(RESOURCES)?;
        let mut draw = Draw {
            state: 1,
            changes: self.changes,
            picked,
        };
        let mut whole = System::new(alloc, &self.capacities)?;
        let mut lazy = lazy_on(alloc, &self.capacities)?;
        settle_often(rt, &mut draw, &mut lazy, &mut whole, &mut twins, steps)
    }
}

#[test]
fn rates_are_those_of_the_whole(rt: HostRuntime) -> Result<(), Fail> {
    // few flows and many; one resource that offers nothing; several changes at once
    let even = [100; RESOURCES];
    let uneven = [5, 1_000_000, 0, 17, 300, 1 << 60];
    let table = [
        (even, 3, 1),
        (even, 12, 1),
        (uneven, 12, 1),
        (uneven, 60, 1),
        (uneven, 60, 5),
    ];
    for (capacities, flows, changes) in table {
        let rates = Rates {
            capacities,
            flows: flows.max(1),
            changes,
        };
        counted::run(&rates, &rt, rt.alloc())?;
    }
    Ok(())
}
