//! The zone tree.
ghost use Rattle.std.specs.Prelude.{◌≡◌, ◌≢◌, ◌≤◌, ◌++◌, ◌==◌, false, length, map, not, slice_index_or, None, Err, IfOk};
ghost use Rattle.std.specs.Option.{option_map_or};
ghost use Rattle.sg_zones.specs.Faults.{child_holds, in_one_full, in_one_routed, is_routing, row_fault, zone_above, zones_of};
ghost use Rattle.sg_platform_rows.specs.declared.rows.Routing.TheVariants.{Dijkstra, Full, Star};
ghost use Rattle.sg_zones.specs.Tree.{depth, holds, home, path_in, routing_in, zone_tree};
ghost use Rattle.sg_zones.specs.declared.fault.ZoneFault.TheVariants.{Memory};

use crate::fault::ZoneFault;
use crate::gateways::{first_gateway, first_gateways};
use crate::paths::{Path, parents_of, paths_of};
use crate::routing::{first_child_zone, first_route, first_spoke, first_zone_route};
use crate::tree::tree_fault;
use sg_base::{Child, Memory as NoMemory, PointId, ZoneId};
use sg_platform_rows::{HostRow, PlatformText, RouterRow, Routing, ZoneRow};
use std::alloc::Global;
use std::marker::Model;

/// The zone tree of a platform. No call except `build` and `copy` takes memory.
#[derive(Drop)]
pub struct Zones {
    parents: Vec<Option<ZoneId>>,
    routings: Vec<Routing>,
    paths: Vec<Path>,
    homes: Vec<ZoneId>,
}

impl Model for Zones {
    ghost use Rattle.sg_zones.specs.Tree.{Tree};

    ghost Value = { Tree };

    ghost view = { λ z. record {
      parents = z.parents.items;
      routings = z.routings.items;
      paths = z.paths.items;
      homes = z.homes.items;
    } };
}

/// Returns the routing of each zone.
fn routings_of(alloc: Global, zones: &[ZoneRow]) -> Result<Vec<Routing>, NoMemory>
    ensures { IfOk result (λ made. made.items ≡ map (λ row. row.routing) zones.now) }
{
    let mut made = Vec::new(alloc);
    for row in zones {
        made.push(row.routing)?;
    }
    Ok(made)
}

/// Returns the zone of each point.
fn homes_of(
    alloc: Global,
    hosts: &[HostRow],
    routers: &[RouterRow],
) -> Result<Vec<ZoneId>, NoMemory>
    ensures { IfOk result
        (λ homes. homes.items
        ≡ map (λ row. row.zone) hosts.now ++ map (λ row. row.zone) routers.now) }
{
    let mut homes = Vec::new(alloc);
    for host in hosts {
        homes.push(host.zone)?;
    }
    for router in routers {
        homes.push(router.zone)?;
    }
    Ok(homes)
}

/// Copies the paths.
fn paths_again(alloc: Global, paths: &[Path]) -> Result<Vec<Path>, NoMemory>
    ensures { IfOk result (λ made. made.items ≡ paths.now) }
{
    let mut made = Vec::new(alloc);
    for path in paths {
        made.push(path.copy(alloc)?)?;
    }
    Ok(made)
}

/// Returns the first fault of the rows that name zones, in a tree that has none itself.
fn row_fault(zones: &Zones, platform: &PlatformText) -> Option<ZoneFault>
    ensures { result ≡ row_fault zones.now platform.now }
{
    if let Some(fault) = first_gateways(zones, platform) {
        return Some(fault);
    }
    if let Some(fault) = first_gateway(zones, platform) {
        return Some(fault);
    }
    if let Some(fault) = first_child_zone(zones, platform) {
        return Some(fault);
    }
    if let Some(fault) = first_route(zones, platform) {
        return Some(fault);
    }
    if let Some(fault) = first_zone_route(zones, platform) {
        return Some(fault);
    }
    first_spoke(zones, platform)
}

impl Zones {
    /// Returns the tree of the rows, whether they are good or not.
    fn of(alloc: Global, platform: &PlatformText) -> Result<Zones, NoMemory>
        ensures { IfOk result (λ zones. zones ≡ zone_tree platform.now) }
    {
        Ok(Zones {
            parents: parents_of(alloc, platform.zones())?,
            routings: routings_of(alloc, platform.zones())?,
            paths: paths_of(alloc, platform.zones())?,
            homes: homes_of(alloc, platform.hosts(), platform.routers())?,
        })
    }

    /// Makes the zone tree of a platform, in about n log n steps of its n rows.
    ///
    /// # Errors
    ///
    /// The fault of least kind, and within it of least place, or out of memory.
    #[tactic(auto, using(crate::proofs::FaultLemmas::zones_bad, crate::proofs::FaultLemmas::zones_wrong, crate::proofs::FaultLemmas::zones_good))]
    pub fn build(alloc: Global, platform: &PlatformText) -> Result<Zones, ZoneFault>
        ensures { result ≢ Err Memory → result ≡ zones_of platform.now }
    {
        if let Some(fault) = tree_fault(alloc, platform.zones())? {
            return Err(fault);
        }
        let zones = Zones::of(alloc, platform)?;
        match row_fault(&zones, platform) {
            Some(fault) => Err(fault),
            None => Ok(zones),
        }
    }

    /// Copies the tree.
    ///
    /// # Errors
    ///
    /// Out of memory.
    pub fn copy(&self, alloc: Global) -> Result<Zones, NoMemory>
        ensures { IfOk result (λ zones. zones ≡ self.now) }
    {
        Ok(Zones {
            parents: Vec::from_slice(alloc, self.parents.as_slice())?,
            routings: Vec::from_slice(alloc, self.routings.as_slice())?,
            paths: paths_again(alloc, self.paths.as_slice())?,
            homes: Vec::from_slice(alloc, self.homes.as_slice())?,
        })
    }

    /// Returns the zone above this one; none above the root.
    pub fn parent(&self, zone: ZoneId) -> Option<ZoneId>
        ensures { result ≡ slice_index_or self.now.parents zone.0 None }
    {
        *self.parents.get(zone.0 as usize)?
    }

    /// Returns how the zone finds the routes between its children.
    pub fn routing(&self, zone: ZoneId) -> Routing
        ensures { result ≡ routing_in self.now zone }
    {
        self.routings
            .get(zone.0 as usize)
            .map_or(Routing::Full, |routing| *routing)
    }

    /// Returns the zones from the root down to this one, both among them.
    pub fn path(&self, zone: ZoneId) -> &[ZoneId]
        ensures path { result.now ≡ path_in self.now zone }
        ensures depth { length result.now ≤ 16 }
    {
        match self.paths.get(zone.0 as usize) {
            Some(path) => path.zones.as_slice(),
            None => &[],
        }
    }

    /// Returns how many zones stand on the path down to this one: the root has depth 1.
    pub fn depth(&self, zone: ZoneId) -> u32
        ensures { result ≡ depth self.now zone }
    {
        self.path(zone).len() as u32
    }

    /// Returns the zone that a point stands in.
    pub fn home(&self, point: PointId) -> ZoneId
        ensures { result ≡ home self.now point }
    {
        self.homes
            .get(point.0 as usize)
            .map_or(ZoneId(0), |zone| *zone)
    }

    /// Returns whether the point stands in the zone or in one below it.
    pub fn holds(&self, zone: ZoneId, point: PointId) -> bool
        ensures { result ≡ holds self.now zone point }
    {
        self.path(self.home(point))
            .iter()
            .any(|above| above.0 == zone.0)
    }

    /// Returns whether the child holds the point: a point holds itself alone.
    pub(crate) fn child_holds(&self, child: Child, point: PointId) -> bool
        ensures { result ≡ child_holds self.now child point }
    {
        match child {
            Child::Point(own) => own.0 == point.0,
            Child::Zone(zone) => self.holds(zone, point),
        }
    }

    /// Returns whether the zone is Full.
    pub(crate) fn is_full(&self, zone: ZoneId) -> bool
        ensures { result ≡ is_routing Full (routing_in self.now zone) }
    {
        matches!(self.routing(zone), Routing::Full)
    }

    /// Returns whether the zone is Star.
    pub(crate) fn is_star(&self, zone: ZoneId) -> bool
        ensures { result ≡ is_routing Star (routing_in self.now zone) }
    {
        matches!(self.routing(zone), Routing::Star)
    }

    /// Returns whether there is such a zone, and it is Dijkstra.
    pub(crate) fn is_in_dijkstra(&self, zone: Option<ZoneId>) -> bool
        ensures { result
            ≡ option_map_or (λ above. is_routing Dijkstra (routing_in self.now above)) zone false }
    {
        zone.is_some_and(|zone| self.is_dijkstra(zone))
    }

    /// Returns whether the zone is Dijkstra.
    fn is_dijkstra(&self, zone: ZoneId) -> bool
        ensures { result ≡ is_routing Dijkstra (routing_in self.now zone) }
    {
        matches!(self.routing(zone), Routing::Dijkstra)
    }

    /// Returns whether the zone has routes between points.
    fn has_routes(&self, zone: ZoneId) -> bool
        ensures { result ≡ not (is_routing Star (routing_in self.now zone)) }
    {
        matches!(self.routing(zone), Routing::Full | Routing::Dijkstra)
    }

    /// Returns whether both are the same zone, and it has routes between points.
    pub(crate) fn in_one_routed(&self, a: ZoneId, b: ZoneId) -> bool
        ensures { result ≡ in_one_routed self.now a b }
    {
        a.0 == b.0 && self.has_routes(a)
    }

    /// Returns whether both are the same zone, and it is Full.
    pub(crate) fn in_one_full(&self, a: Option<ZoneId>, b: Option<ZoneId>) -> bool
        ensures { result ≡ in_one_full self.now a b }
    {
        match (a, b) {
            (Some(a), Some(b)) => a.0 == b.0 && self.is_full(a),
            _ => false,
        }
    }

    /// Returns the zone whose child this is; the root is no child.
    pub(crate) fn zone_above(&self, child: Child) -> Option<ZoneId>
        ensures { result ≡ zone_above self.now child }
    {
        match child {
            Child::Point(point) => Some(self.home(point)),
            Child::Zone(zone) => self.parent(zone),
        }
    }

    /// Returns whether this is a child of the zone.
    pub(crate) fn is_child_of(&self, zone: ZoneId, child: Child) -> bool
        ensures { result
            ≡ option_map_or (λ above. above.0 == zone.0) (zone_above self.now child) false }
    {
        self.zone_above(child)
            .is_some_and(|above| above.0 == zone.0)
    }
}
