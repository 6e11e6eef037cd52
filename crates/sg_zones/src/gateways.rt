//! That gateways are points of the ends that they stand for.
ghost use Rattle.std.specs.Prelude.{◌≡◌};
ghost use Rattle.sg_zones.specs.Faults.{first_along, zone_route_gateway_fault, spoke_gateway_fault};

use crate::fault::{ZoneFault, place};
use crate::zones::Zones;
use sg_platform_rows::PlatformText;

/// Returns the first zone_route with a gateway that isn't held by its end.
pub(crate) fn first_gateways(zones: &Zones, platform: &PlatformText) -> Option<ZoneFault>
    ensures { result
        ≡ first_along (zone_route_gateway_fault zones.now) 0 platform.now.zone_routes }
{
    platform.rows_are_valid();
    let rows = platform.zone_routes();
    for (i, row) in rows.iter().enumerate() {
        if !zones.child_holds(row.src, row.gw_src) {
            return Some(ZoneFault::GatewayOutside(place(6, i, 3)));
        }
        if !zones.child_holds(row.dst, row.gw_dst) {
            return Some(ZoneFault::GatewayOutside(place(6, i, 4)));
        }
    }
    None
}

/// Returns the first spoke whose gateway isn't held by its child.
pub(crate) fn first_gateway(zones: &Zones, platform: &PlatformText) -> Option<ZoneFault>
    ensures { result ≡ first_along (spoke_gateway_fault zones.now) 0 platform.now.spokes }
{
    platform.rows_are_valid();
    let rows = platform.spokes();
    for (i, row) in rows.iter().enumerate() {
        if !zones.child_holds(row.child, row.gateway) {
            return Some(ZoneFault::GatewayOutside(place(7, i, 3)));
        }
    }
    None
}
