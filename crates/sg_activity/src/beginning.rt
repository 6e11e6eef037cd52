//! What `Activities` keeps at first.

ghost use Rattle.std.specs.Prelude.{◌≡◌, ◌++◌, [], true, All, IfOk, OnOk, length, map};
ghost use Rattle.sg_activity_table.specs.declared.kinds.LinkCap.{LinkCap};
ghost use Rattle.sg_activity.specs.Hosts.{IsHost, offer_of};
ghost use Rattle.sg_activity.specs.Links.{IsLink};
ghost use Rattle.sg_activity.specs.kept.Whole.{AreIdle};

use crate::activity_state::Kept;
use crate::index::Index;
use arrayvec::ArrayVec;
use sg_activity_table::{HostCap, LinkCap, Lives};
use sg_base::{Marks, Memory};
use sg_heap::Agenda;
use sg_lazy::Lazy;
use sg_maxmin::System;
use std::alloc::Global;

/// All that is kept except for the meter.
#[derive(Drop)]
pub(crate) struct Parts {
    pub(crate) kept: Kept,
    pub(crate) hits: Agenda,
}

// Appends the bandwidths of the links.
fn add_bandwidths(capacities: &mut Vec<u64>, links: &[LinkCap]) -> Result<(), Memory>
    ensures { OnOk result (capacities.new.items ≡ capacities.old.items
        ++ map (λ (link : LinkCap). link.bandwidth) links.now) }
{
    for link in links {
        capacities.push(link.bandwidth)?;
    }
    Ok(())
}

// Returns so many switches that are on.
fn all_on(alloc: Global, n: usize) -> Result<Vec<bool>, Memory>
    ensures long { IfOk result (λ on. length on.items ≡ n) }
    ensures on { IfOk result (λ on. All (λ b. b ≡ true) on.items) }
{
    let mut on = Vec::new(alloc);
    for _number in 0..n {
        on.push(true)?;
    }
    Ok(on)
}

// Returns what all hosts offer, and after it the bandwidths of the links.
fn capacities(alloc: Global, hosts: &[HostCap], links: &[LinkCap]) -> Result<Vec<u64>, Memory>
    requires hosts { All IsHost hosts.now }
    ensures { IfOk result (λ capacities. capacities.items
        ≡ map offer_of hosts.now ++ map (λ (link : LinkCap). link.bandwidth) links.now) }
{
    let mut capacities = Vec::new(alloc);
    for host in hosts {
        capacities.push(host.speed * u64::from(host.cores))?;
    }
    add_bandwidths(&mut capacities, links)?;
    Ok(capacities)
}

// The hosts and links, which are on.
#[derive(Drop)]
struct Machines {
    hosts: Vec<HostCap>,
    links: Vec<LinkCap>,
    hosts_on: Vec<bool>,
    links_on: Vec<bool>,
}

fn own_machines(alloc: Global, hosts: &[HostCap], links: &[LinkCap]) -> Result<Machines, Memory>
    ensures hosts { IfOk result (λ all. all.hosts.items ≡ hosts.now) }
    ensures links { IfOk result (λ all. all.links.items ≡ links.now) }
    ensures hosts_long { IfOk result (λ all. length all.hosts_on.items ≡ length hosts.now) }
    ensures links_long { IfOk result (λ all. length all.links_on.items ≡ length links.now) }
    ensures hosts_on { IfOk result (λ all. All (λ b. b ≡ true) all.hosts_on.items) }
    ensures links_on { IfOk result (λ all. All (λ b. b ≡ true) all.links_on.items) }
{
    Ok(Machines {
        hosts: Vec::from_slice(alloc, hosts)?,
        links: Vec::from_slice(alloc, links)?,
        hosts_on: all_on(alloc, hosts.len())?,
        links_on: all_on(alloc, links.len())?,
    })
}

// Makes two agendas with nothing in them.
fn agendas(alloc: Global) -> Result<(Agenda, Agenda), Memory>
    ensures first { IfOk result (λ both. both.0 ≡ []) }
    ensures second { IfOk result (λ both. both.1 ≡ []) }
{
    let first = Agenda::new(alloc)?;
    let second = Agenda::new(alloc)?;
    Ok((first, second))
}

/// Makes the parts of the state with these hosts and links, no running activity and the date 0.
pub(crate) fn first_parts(
    alloc: Global,
    hosts: &[HostCap],
    links: &[LinkCap],
) -> Result<Parts, Memory>
    requires hosts { All IsHost hosts.now }
    requires links { All IsLink links.now }
    ensures { IfOk result (λ parts. AreIdle parts.kept parts.hits hosts.now links.now) }
{
    // links are counted in 32 bits
    if links.len() > 1 << 32 {
        return Err(Memory);
    }
    let capacities = capacities(alloc, hosts, links)?;
    let machines = own_machines(alloc, hosts, links)?;
    let (agenda, hits) = agendas(alloc)?;
    let index = Index::new(alloc, capacities.len() + hosts.len())?;
    let system = System::new(alloc, &capacities)?;
    let lazy = Lazy::new(alloc, system)?;
    Ok(Parts {
        kept: Kept {
            hosts: machines.hosts,
            links: machines.links,
            hosts_on: machines.hosts_on,
            links_on: machines.links_on,
            lazy,
            lives: Lives::new(alloc),
            index,
            agenda,
            by_flow: Vec::new(alloc),
            fresh: Marks::new(alloc),
            drawn: 0,
            date: 0,
            settled: false,
            arrived: false,
            room: 0,
            flows: 0,
            uses: 0,
            way: ArrayVec::new(),
            way_uses: ArrayVec::new(),
            things: ArrayVec::new(),
        },
        hits,
    })
}
