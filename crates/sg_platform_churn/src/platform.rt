//! The platform of a churn.
ghost use Rattle.std.specs.Prelude.{◌≡◌, ◌<◌, ◌≤◌, ◌^◌, ◌∷◌, [], None, codes, IfOk};
ghost use Rattle.sg_platform_churn.specs.Generated.{churn_host, link_of, link_with, churn_name, platform_of_seed, rows, spoke_of};

use crate::names::row_name;
use sg_actor::draw;
use sg_base::{Child, LinkId, Links, Memory, PointId, Text, ZoneId};
use sg_platform_rows::{HostRow, LinkRow, PlatformText, Policy, Routing, SpokeRow, ZoneRow};
use std::alloc::Global;

/// The only zone.
const ZONE: ZoneId = ZoneId(0);

/// The link that all routes share.
const BACKBONE: LinkId = LinkId(0);

fn star(alloc: Global) -> Result<ZoneRow, Memory>
    ensures { IfOk result (λ zone.
        zone ≡ record { id = codes "z"; parent = None; routing = Routing.Star }) }
{
    Ok(ZoneRow {
        id: Text::new(alloc, "z")?,
        parent: None,
        routing: Routing::Star,
    })
}

fn backbone(alloc: Global) -> Result<LinkRow, Memory>
    ensures { IfOk result (λ row. row ≡ link_with (codes "bb") 1000000000 1000) }
{
    Ok(LinkRow {
        id: Text::new(alloc, "bb")?,
        bandwidth: 1_000_000_000,
        latency: 1_000,
        policy: Policy::Shared,
    })
}

fn host_row(alloc: Global, row: u16, speed: u64) -> Result<HostRow, Memory>
    ensures { IfOk result (λ host. host ≡ record {
      id = churn_name (codes "h") row;
      zone = record { 0 = 0 };
      speed = speed;
      cores = 1;
      power = None;
    }) }
{
    Ok(HostRow {
        id: row_name(alloc, "h", row)?,
        zone: ZONE,
        speed,
        cores: 1,
        power: None,
    })
}

fn link_row(alloc: Global, row: u16, bandwidth: u64, latency: u64) -> Result<LinkRow, Memory>
    ensures { IfOk result (λ made.
        made ≡ link_with (churn_name (codes "l") row) bandwidth latency) }
{
    Ok(LinkRow {
        id: row_name(alloc, "l", row)?,
        bandwidth,
        latency,
        policy: Policy::Shared,
    })
}

/// Returns a route over two links.
fn two_links(alloc: Global, first: LinkId, second: LinkId) -> Result<Links, Memory>
    ensures { IfOk result (λ links. links ≡ first ∷ (second ∷ [])) }
{
    Ok(Links::from_vec(vec![in alloc; first, second]?))
}

fn spoke_row(alloc: Global, row: u16) -> Result<SpokeRow, Memory>
    ensures { IfOk result (λ spoke. spoke ≡ spoke_of row) }
{
    let point = PointId(u32::from(row));
    let own = LinkId(u32::from(row) + 1);
    Ok(SpokeRow {
        zone: ZONE,
        child: Child::Point(point),
        gateway: point,
        up: two_links(alloc, own, BACKBONE)?,
        down: two_links(alloc, BACKBONE, own)?,
    })
}

/// The rows that there are of each actor, and the backbone.
#[derive(Drop)]
struct Rows {
    hosts: Vec<HostRow>,
    links: Vec<LinkRow>,
    spokes: Vec<SpokeRow>,
}

fn rows_of(alloc: Global, seed: u64, actors: u16) -> Result<Rows, Memory>
    ensures hosts { IfOk result (λ made. made.hosts.items ≡ rows (churn_host seed) actors) }
    ensures links { IfOk result (λ made. made.links.items
        ≡ link_with (codes "bb") 1000000000 1000 ∷ rows (link_of seed) actors) }
    ensures spokes { IfOk result (λ made. made.spokes.items ≡ rows spoke_of actors) }
{
    let mut state = seed;
    let mut hosts = Vec::new(alloc);
    let mut links = Vec::new(alloc);
    let mut spokes = Vec::new(alloc);
    links.push(backbone(alloc)?)?;
    for row in 0..actors {
        let speed = draw(&mut state, 8) * 100_000_000;
        let bandwidth = draw(&mut state, 8) * 1_000_000;
        let latency = draw(&mut state, 100) * 1_000;
        hosts.push(host_row(alloc, row, speed)?)?;
        links.push(link_row(alloc, row, bandwidth, latency)?)?;
        spokes.push(spoke_row(alloc, row)?)?;
    }
    Ok(Rows {
        hosts,
        links,
        spokes,
    })
}

/// Makes the platform of a churn with this seed and so many actors.
///
/// # Errors
///
/// Out of memory.
#[tactic(auto, unfolding(crate::specs::Generated::platform_of_seed))]
pub fn churn_platform(alloc: Global, seed: u64, actors: u32) -> Result<PlatformText, Memory>
    requires seed { seed < 2 ^ 63 }
    requires ring { 2 ≤ actors }
    requires few { actors ≤ 4096 }
    ensures { IfOk result (λ platform. platform ≡ platform_of_seed seed actors) }
{
    let zones = vec![in alloc; star(alloc)?]?;
    let rows = rows_of(alloc, seed, actors as u16)?;
    PlatformText::of_rows(alloc, zones, rows.hosts, rows.links, rows.spokes)
}
