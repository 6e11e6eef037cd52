//! What a platform and a deployment give to a simulation, row by row. An `Err` says that memory ran out.
ghost use Rattle.std.specs.Prelude.{◌≡◌, [], ◌≤◌, ◌++◌, All, IfOk, OnOk, length, map, option_map};
ghost use Rattle.std.specs.List.{count_by};
ghost use Rattle.sg_platform_rows.specs.Deployment.{is_replay, starts, IsDeployedOn};
ghost use Rattle.sg_platform_rows.specs.Network.{IsNetwork};
ghost use Rattle.sg_platform_rows.specs.Platform.{IsLinkRow};
ghost use Rattle.sg_kernel_calls.specs.Setup.{capacity_of, caps_in, host_cap, link_cap, link_caps, power_of_row, replays, setup_of};

use sg_activity_table::{HostCap, LinkCap, Power};
use sg_base::{Memory, PointId};
use sg_kernel_calls::Setup;
use sg_platform_rows::{
    ActorRow, Deployment, Function, HostRow, LinkRow, Network, PlatformText, Policy, SemaphoreRow,
    link_ends,
};
use std::alloc::Global;

/// The bandwidth of the loopback, in bytes a second.
const LOOPBACK_BANDWIDTH: u64 = 498_000_000;

// Returns what a host draws, as its row says.
fn power(row: &HostRow) -> Option<Power>
    ensures { result ≡ option_map power_of_row row.now.power }
{
    match row.power {
        Some(power) => Some(Power {
            idle: power.idle,
            epsilon: power.epsilon,
            all: power.all,
            off: power.off,
        }),
        None => None,
    }
}

/// Returns what the host of each row offers and draws, in the order of the rows.
pub(crate) fn hosts(alloc: Global, rows: &[HostRow]) -> Result<Vec<HostCap>, Memory>
    ensures { IfOk result (λ hosts. hosts.items ≡ map host_cap rows.now) }
{
    let mut hosts = Vec::new(alloc);
    for row in rows {
        hosts.push(HostCap {
            speed: row.speed,
            cores: row.cores,
            power: power(row),
        })?;
    }
    Ok(hosts)
}

fn link(bandwidth: u64, fatpipe: bool) -> LinkCap
    ensures { result ≡ link_cap bandwidth fatpipe }
{
    LinkCap { bandwidth, fatpipe }
}

// Appends the links of a row.
fn add_links(links: &mut Vec<LinkCap>, network: Network, row: &LinkRow) -> Result<(), Memory>
    requires network { IsNetwork network }
    requires row { IsLinkRow row.now }
    ensures { OnOk result (links.new.items ≡ links.old.items ++ caps_in network row.now) }
{
    let bandwidth = network.bandwidth_over(row.bandwidth);
    match row.policy {
        Policy::Shared => links.push(link(bandwidth, false))?,
        Policy::Fatpipe => links.push(link(bandwidth, true))?,
        Policy::SplitDuplex => {
            links.push(link(bandwidth, false))?;
            links.push(link(bandwidth, false))?;
        }
    }
    Ok(())
}

/// Returns the links in declared order, whose bandwidths have the network's factor, and last the loopback, which has
/// none.
pub(crate) fn links(
    alloc: Global,
    network: Network,
    rows: &[LinkRow],
) -> Result<Vec<LinkCap>, Memory>
    requires network { IsNetwork network }
    requires rows { All IsLinkRow rows.now }
    ensures { IfOk result (λ links. links.items ≡ link_caps network rows.now) }
{
    let mut links = Vec::new(alloc);
    for row in rows {
        add_links(&mut links, network, row)?;
    }
    links.push(link(LOOPBACK_BANDWIDTH, true))?;
    Ok(links)
}

// Returns the host of each actor.
fn homes(alloc: Global, actors: &[ActorRow]) -> Result<Vec<PointId>, Memory>
    ensures { IfOk result (λ homes. homes.items ≡ map (λ actor. actor.host) actors.now) }
{
    let mut homes = Vec::new(alloc);
    for actor in actors {
        homes.push(actor.host)?;
    }
    Ok(homes)
}

// Returns whether each actor starts with the run.
fn starts(alloc: Global, actors: &[ActorRow]) -> Result<Vec<bool>, Memory>
    ensures { IfOk result (λ starting. starting.items ≡ map starts actors.now) }
{
    let mut starts = Vec::new(alloc);
    for actor in actors {
        starts.push(actor.start)?;
    }
    Ok(starts)
}

// Returns the capacity of each semaphore.
fn capacities(alloc: Global, rows: &[SemaphoreRow]) -> Result<Vec<u64>, Memory>
    ensures { IfOk result (λ capacities. capacities.items ≡ map capacity_of rows.now) }
{
    let mut capacities = Vec::new(alloc);
    for row in rows {
        capacities.push(row.capacity)?;
    }
    Ok(capacities)
}

fn is_replay(function: &Function) -> bool
    ensures { result ≡ is_replay function.now }
{
    match function {
        Function::Replay => true,
        _ => false,
    }
}

// Returns how many actors replay.
fn members(actors: &[ActorRow]) -> u32
    requires { length actors.now ≤ 65536 }
    ensures { result ≡ count_by replays actors.now }
{
    actors
        .iter()
        .filter(|actor| is_replay(&actor.function))
        .count() as u32
}

/// Makes what stays of a simulation, except for the profiles. `budget` is the most events that there may be.
pub(crate) fn make_setup(
    alloc: Global,
    platform: &PlatformText,
    deployment: &Deployment,
    budget: u64,
) -> Result<Setup, Memory>
    requires { IsDeployedOn platform.now deployment.now }
    ensures { IfOk result (λ setup. setup
        ≡ record (setup_of platform.now deployment.now budget) { profiles = [] }) }
{
    platform.rows_are_valid();
    let rows = deployment.actors();
    let links = link_ends(alloc, platform.links())?.len();
    let homes = homes(alloc, rows)?;
    let starts = starts(alloc, rows)?;
    let semaphores = capacities(alloc, deployment.semaphores())?;
    Ok(Setup {
        hosts: platform.hosts().len(),
        links,
        network: platform.network(),
        homes,
        starts,
        mutexes: deployment.mutexes().len(),
        semaphores,
        members: members(rows),
        budget,
    })
}
