//! Worked systems: what each flow gets.
use crate::counted::{self, Counted};
use sg_base::{Memory, Steps};
use sg_maxmin::System;
use std::alloc::Global;
use std::process::Abort;
use std::sync::ledger::Ledger;
use std::test::Fail;

// Two links, a flow over each and one over both, and one that no link carries.
fn over_two_links<L: Ledger>(alloc: Global, steps: &mut Steps<L>) -> Result<[u64; 4], Memory> {
    let mut system = System::new(alloc, &[5, 5])?;
    system.reserve(4, 4)?;
    let one = system.add(&[0], 1, None);
    let both = system.add(&[0, 1], 1, None);
    let other = system.add(&[1], 1, Some(9));
    let free = system.add(&[], 1, Some(7));
    system.solve(steps);
    Ok([
        system.share(one),
        system.share(both),
        system.share(other),
        system.share(free),
    ])
}

// Two flows after a solving, then of what stays and what comes before the next, and after it.
fn as_flows_change<L: Ledger>(alloc: Global, steps: &mut Steps<L>) -> Result<[u64; 6], Memory> {
    let mut system = System::new(alloc, &[10])?;
    system.reserve(3, 3)?;
    let stays = system.add(&[0], 1, None);
    let goes = system.add(&[0], 1, Some(2));
    system.solve(steps);
    let (first, second) = (system.share(stays), system.share(goes));
    system.remove(goes);
    let comes = system.add(&[0], 1, Some(3));
    let (third, fourth) = (system.share(stays), system.share(comes));
    system.solve(steps);
    Ok([
        first,
        second,
        third,
        fourth,
        system.share(stays),
        system.share(comes),
    ])
}

// Two flows after a solving, then under another capacity and other bounds before the next, and after it.
fn as_bounds_change<L: Ledger>(alloc: Global, steps: &mut Steps<L>) -> Result<[u64; 6], Memory> {
    let mut system = System::new(alloc, &[10])?;
    system.reserve(2, 2)?;
    let one = system.add(&[0], 1, None);
    let other = system.add(&[0], 1, Some(2));
    system.solve(steps);
    let (first, second) = (system.share(one), system.share(other));
    system.set_capacity(0, 20);
    system.set_bound(one, 5);
    system.set_bound(other, 30);
    let (third, fourth) = (system.share(one), system.share(other));
    system.solve(steps);
    Ok([
        first,
        second,
        third,
        fourth,
        system.share(one),
        system.share(other),
    ])
}

// Two flows on a host, of weights 2 and 1.
fn by_priority<L: Ledger>(alloc: Global, steps: &mut Steps<L>) -> Result<[u64; 2], Memory> {
    let mut system = System::new(alloc, &[10])?;
    system.reserve(2, 2)?;
    let urgent = system.add(&[0], 2, Some(10));
    let plain = system.add(&[0], 1, Some(10));
    system.solve(steps);
    Ok([system.share(urgent), system.share(plain)])
}

// Three flows on a link, two of them with bounds of the same level, of which one takes less than its level.
fn by_weight_and_bound<L: Ledger>(alloc: Global, steps: &mut Steps<L>) -> Result<[u64; 3], Memory> {
    let mut system = System::new(alloc, &[12])?;
    system.reserve(3, 3)?;
    let less = system.add(&[0], 2, Some(3));
    let all = system.add(&[0], 1, Some(2));
    let free = system.add(&[0], 2, None);
    system.solve(steps);
    Ok([system.share(less), system.share(all), system.share(free)])
}

// All of them, worked by hand.
struct Worked;

impl Counted for Worked {
    fn run<R: Abort, L: Ledger>(
        &self,
        rt: &R,
        alloc: Global,
        steps: &mut Steps<L>,
    ) -> Result<(), Memory> {
        assert_eq!(rt; over_two_links(alloc, steps)?, [2, 2, 2, 7]);
        assert_eq!(rt; as_flows_change(alloc, steps)?, [8, 2, 8, 0, 7, 3]);
        assert_eq!(rt; as_bounds_change(alloc, steps)?, [8, 2, 8, 2, 5, 15]);
        assert_eq!(rt; by_priority(alloc, steps)?, [6, 3]);
        assert_eq!(rt; by_weight_and_bound(alloc, steps)?, [3, 2, 4]);
        Ok(())
    }
}

#[test]
fn worked_systems(rt: HostRuntime) -> Result<(), Fail> {
    counted::run(&Worked, &rt, rt.alloc())
}
