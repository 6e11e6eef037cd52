//! What an end costs doesn't grow with the hosts.
ghost use Rattle.std.specs.Prelude.{◌≡◌, ◌+◌, ◌<◌, ◌^◌, All, IfOk, OnOk, length};
ghost use Rattle.sg_activity.specs.Hosts.{IsHost};
ghost use Rattle.sg_cases.specs.Ends.{HasHosts, KeepsHosts};

use crate::counted::{self, Counted};
use sg_activity::{Activities, HostCap};
use sg_base::{Memory, PointId, Steps};
use std::alloc::Global;
use std::process::Abort;
use std::sync::ledger::Ledger;
use std::test::Fail;

const MEGA: u64 = 1_000_000;

const HOSTS: u32 = 16_384;

const ENDS: u32 = 1_000_000;

// Goes to the next date and ends the first phase that completes: the date, and its activity id.
fn next_end<L: Ledger>(doing: &mut Activities, steps: &mut Steps<L>) -> Option<(u128, u64)>
    requires { length doing.old.under.tasks < 10 ^ 9 }
    ensures tasks { length doing.new.under.tasks ≡ length doing.old.under.tasks }
    ensures hosts { KeepsHosts doing.old doing.new }
{
    doing.settle(steps);
    let Some(date) = doing.next_date() else {
        return None;
    };
    if date >= 1_000_000_000_000_000 {
        return None;
    }
    doing.advance_to(date);
    let Some(phase) = doing.due() else {
        return None;
    };
    doing.finish();
    Some((date, phase.serial.0))
}

// Hosts of speeds from 1 flop a second on.
fn hosts_of_speeds(alloc: Global) -> Result<Vec<HostCap>, Memory>
    ensures hosts { IfOk result (λ hosts. All IsHost hosts.items) }
    ensures count { IfOk result (λ hosts. length hosts.items ≡ 16384) }
{
    let mut hosts = Vec::new(alloc);
    for host in 0..HOSTS {
        hosts.push(HostCap {
            speed: u64::from(host) + 1,
            cores: 1,
            power: None,
        })?;
    }
    Ok(hosts)
}

// Begins the execution of this number on a host, of a million flops; both are noted under its activity id.
fn compute(
    doing: &mut Activities,
    host: u32,
    number: u64,
    noted: &mut Vec<(u32, u64)>,
) -> Result<(), Memory>
    requires few { length doing.old.under.tasks < 10 ^ 9 }
    requires host { host < length doing.old.under.capacities.hosts }
    ensures hosts { KeepsHosts doing.old doing.new }
    ensures drawn { OnOk result (length doing.new.under.tasks ≡ length doing.old.under.tasks + 1) }
{
    doing.reserve(1)?;
    let _serial = doing.start_exec(PointId(host), MEGA, 1);
    noted.push((host, number))?;
    Ok(())
}

// Returns when so many executions of a million flops, one after the other, have completed on the host.
fn over_at(host: u32, number: u64) -> u128 {
    u128::from(number) * u128::from(1_000_000_000_000_000u64.div_ceil(u64::from(host) + 1))
}

// Checks that the next execution ends when all those on its host up to it have, whatever runs elsewhere, and begins
// another there.
fn compute_anew<L: Ledger>(
    rt: &impl Abort,
    doing: &mut Activities,
    noted: &mut Vec<(u32, u64)>,
    steps: &mut Steps<L>,
) -> Result<(), Memory>
    requires few { length doing.old.under.tasks < 10 ^ 9 }
    requires hosts { HasHosts 16384 doing.old }
    ensures hosts { KeepsHosts doing.old doing.new }
    ensures drawn { OnOk result (length doing.new.under.tasks ≡ length doing.old.under.tasks + 1) }
{
    let Some((date, serial)) = next_end(doing, steps) else {
        panic!(rt; "no execution is due")
    };
    let Some((host, number)) = noted.get((serial as usize).saturating_sub(1)).copied() else {
        panic!(rt; "serial {serial} is unknown")
    };
    assert_eq!(rt; date, over_at(host, number));
    assert!(rt; host < HOSTS);
    compute(doing, host, number.saturating_add(1), noted)
}

// Executions begin on all hosts and follow one another on each, until so many have ended.
fn compute_long<L: Ledger>(
    rt: &impl Abort,
    doing: &mut Activities,
    noted: &mut Vec<(u32, u64)>,
    steps: &mut Steps<L>,
) -> Result<(), Memory>
    requires hosts { HasHosts 16384 doing.old }
    requires tasks { length doing.old.under.tasks ≡ 0 }
{
    for host in 0..HOSTS {
        compute(doing, host, 1, noted)?;
    }
    for _end in 0..ENDS {
        compute_anew(rt, doing, noted, steps)?;
    }
    Ok(())
}

// The same on hosts of their own.
struct Ends;

impl Counted for Ends {
    fn run<R: Abort, L: Ledger>(
        &self,
        rt: &R,
        alloc: Global,
        steps: &mut Steps<L>,
    ) -> Result<(), Memory> {
        let mut noted = Vec::new(alloc);
        let hosts = hosts_of_speeds(alloc)?;
        let mut doing = Activities::new(alloc, &hosts, &[])?;
        compute_long(rt, &mut doing, &mut noted, steps)
    }
}

// An implementation that visits all hosts, or copies all uses, at each end doesn't finish in time.
#[test]
fn touched_scale(rt: HostRuntime) -> Result<(), Fail> {
    counted::run(&Ends, &rt, rt.alloc())
}
