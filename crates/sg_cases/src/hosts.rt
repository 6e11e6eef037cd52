//! What a second execution on a host changes among 100 hosts, and how many visits that takes.
ghost use Rattle.std.specs.Prelude.{◌<◌, ◌≤◌, ◌+◌, OnOk};
ghost use Rattle.sg_cases.specs.OneEach.{HasOneAt, IsCalm, IsIdle, IsOneEach};

use crate::counted::{self, Counted};
use sg_base::{Memory, Steps};
use sg_lazy::Lazy;
use sg_maxmin::System;
use std::alloc::Global;
use std::process::Abort;
use std::sync::ledger::Ledger;
use std::test::Fail;

const HOSTS: usize = 100;

// Starts one execution on each of 100 hosts and updates the rates; the numbers of the flows are appended.
fn one_each<L: Ledger>(
    lazy: &mut Lazy,
    flows: &mut Vec<usize>,
    steps: &mut Steps<L>,
) -> Result<(), Memory>
    requires { IsIdle lazy.old }
    ensures each { OnOk result (IsOneEach 100 lazy.new) }
    ensures calm { OnOk result (IsCalm lazy.new) }
{
    lazy.reserve(HOSTS + 1, HOSTS + 1)?;
    for host in 0..HOSTS {
        let flow = lazy.start(&[host], 1, Some(10));
        flows.push(flow)?;
    }
    lazy.settle(steps);
    Ok(())
}

// Adds a second execution on a host, and updates the rates with no more visits than its two flows allow.
fn add_second<L: Ledger>(lazy: &mut Lazy, host: usize, steps: &mut Steps<L>) -> usize
    requires { HasOneAt host lazy.old }
    ensures { steps.new ≤ steps.old + 48 }
{
    let second = lazy.start(&[host], 1, Some(10));
    lazy.settle(steps);
    second
}

// The flows whose rates a second execution on a host changes are the two there.
fn changes_two<L: Ledger>(
    rt: &impl Abort,
    lazy: &mut Lazy,
    flows: &mut Vec<usize>,
    host: usize,
    steps: &mut Steps<L>,
) -> Result<(), Memory>
    requires idle { IsIdle lazy.old }
    requires host { host < 100 }
{
    one_each(lazy, flows, steps)?;
    assert_eq!(rt; lazy.changed().len(), HOSTS);
    let second = add_second(lazy, host, steps);
    let changed = lazy.changed();
    assert_eq!(rt; changed.len(), 2);
    assert!(rt; changed.contains(&second));
    if let Some(first) = flows.get(host) {
        assert!(rt; changed.contains(first));
    }
    Ok(())
}

// The same on each host, every time on a system of its own.
struct SecondExecution;

impl Counted for SecondExecution {
    fn run<R: Abort, L: Ledger>(
        &self,
        rt: &R,
        alloc: Global,
        steps: &mut Steps<L>,
    ) -> Result<(), Memory> {
        for host in 0..HOSTS {
            let mut flows = Vec::new(alloc);
            let system = System::new(alloc, &[10; HOSTS])?;
            let mut lazy = Lazy::new(alloc, system)?;
            changes_two(rt, &mut lazy, &mut flows, host, steps)?;
        }
        Ok(())
    }
}

#[test]
fn second_execution_changes_two(rt: HostRuntime) -> Result<(), Fail> {
    counted::run(&SecondExecution, &rt, rt.alloc())
}
