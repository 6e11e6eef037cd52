//! That rows stand in zones whose routing has such rows.
ghost use Rattle.std.specs.Prelude.{◌≡◌};
ghost use Rattle.sg_zones.specs.Faults.{first_along, child_zone_fault, route_fault, zone_route_fault, spoke_fault, is_point};

use crate::fault::{ZoneFault, place};
use crate::zones::Zones;
use sg_base::Child;
use sg_platform_rows::PlatformText;

fn is_point(child: Child) -> bool
    ensures { result ≡ is_point child }
{
    matches!(child, Child::Point(_))
}

/// Returns the first zone that stands in a Dijkstra zone.
pub(crate) fn first_child_zone(zones: &Zones, platform: &PlatformText) -> Option<ZoneFault>
    ensures { result ≡ first_along (child_zone_fault zones.now) 0 platform.now.zones }
{
    let rows = platform.zones();
    for (i, row) in rows.iter().enumerate() {
        if zones.is_in_dijkstra(row.parent) {
            return Some(ZoneFault::WrongRouting(place(1, i, 1)));
        }
    }
    None
}

/// Returns the first route whose ends don't stand in one Full or Dijkstra zone.
pub(crate) fn first_route(zones: &Zones, platform: &PlatformText) -> Option<ZoneFault>
    ensures { result ≡ first_along (route_fault zones.now) 0 platform.now.routes }
{
    platform.rows_are_valid();
    let rows = platform.routes();
    for (i, row) in rows.iter().enumerate() {
        if !zones.in_one_routed(zones.home(row.src), zones.home(row.dst)) {
            return Some(ZoneFault::WrongRouting(place(5, i, 1)));
        }
    }
    None
}

/// Returns the first zone_route whose ends are no children of one Full zone, or both points.
pub(crate) fn first_zone_route(zones: &Zones, platform: &PlatformText) -> Option<ZoneFault>
    ensures { result ≡ first_along (zone_route_fault zones.now) 0 platform.now.zone_routes }
{
    platform.rows_are_valid();
    let rows = platform.zone_routes();
    for (i, row) in rows.iter().enumerate() {
        let one_full = zones.in_one_full(zones.zone_above(row.src), zones.zone_above(row.dst));
        if !one_full || is_point(row.src) && is_point(row.dst) {
            return Some(ZoneFault::WrongRouting(place(6, i, 1)));
        }
    }
    None
}

/// Returns the first spoke whose zone isn't Star, or whose child isn't a child of that zone.
pub(crate) fn first_spoke(zones: &Zones, platform: &PlatformText) -> Option<ZoneFault>
    ensures { result ≡ first_along (spoke_fault zones.now) 0 platform.now.spokes }
{
    platform.rows_are_valid();
    let rows = platform.spokes();
    for (i, row) in rows.iter().enumerate() {
        if !zones.is_star(row.zone) || !zones.is_child_of(row.zone, row.child) {
            return Some(ZoneFault::WrongRouting(place(7, i, 1)));
        }
    }
    None
}
