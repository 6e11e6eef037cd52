//! What holds of routes on a platform and, if it is said, on one without zone faults.
ghost use Rattle.sg_route.specs.Roads.{roads_of};
ghost use Rattle.sg_route_laws.specs.Laws.{DijkstraTakesLeastPaths, FollowsLowestZone, FullGoesAsDeclared, FullJoinsGateways, HasRoutes, LegsAreLowest, StarGoesUpAndDown, StarJoinsGateways, WayBackReturns};

use sg_platform_rows::PlatformText;
use sg_zones::SoundPlatform;

/// A route is the local route of the lowest zone that holds both points, with the route to its first gateway before it
/// and that from its second gateway after it. No count of levels is in this.
pub fn follows_lowest_zone(sound: SoundPlatform<'_>)
    ensures { FollowsLowestZone (roads_of sound.entry.platform.now) }
{
    sound.platform.rows_are_valid();
}

/// The paths of two points part at the lowest zone that holds both, and the next steps down are its children, of which
/// each holds one of the points.
pub fn legs_are_lowest(sound: SoundPlatform<'_>)
    ensures { LegsAreLowest sound.entry.platform.now }
{
    sound.platform.rows_are_valid();
}

/// Between two points of one Star zone a route goes up from the one and down to the other.
pub fn star_goes_up_and_down(sound: SoundPlatform<'_>)
    ensures { StarGoesUpAndDown sound.entry.platform.now }
{
    sound.platform.rows_are_valid();
}

/// Between the gateways of two children of one Star zone, points or zones, a route goes up and down as well.
pub fn star_joins_gateways(sound: SoundPlatform<'_>)
    ensures { StarJoinsGateways sound.entry.platform.now }
{
    sound.platform.rows_are_valid();
}

/// Between two points of one Full zone a route is the one that the zone declares.
pub fn full_goes_as_declared(sound: SoundPlatform<'_>)
    ensures { FullGoesAsDeclared sound.entry.platform.now }
{
    sound.platform.rows_are_valid();
}

/// Between the gateways of a local route of two children of one Full zone, points or zones, a route is that local route
/// as well.
pub fn full_joins_gateways(sound: SoundPlatform<'_>)
    ensures { FullJoinsGateways sound.entry.platform.now }
{
    sound.platform.rows_are_valid();
}

/// Between two points of one Dijkstra zone a route is the path with the fewest links, and of these the one with the
/// least list; it is missing exactly if there is no path.
pub fn dijkstra_takes_least_paths(sound: SoundPlatform<'_>)
    ensures { DijkstraTakesLeastPaths sound.entry.platform.now }
{
    sound.platform.rows_are_valid();
}

/// The reverse of a reverse route is the route itself.
pub fn way_back_returns(platform: &PlatformText)
    ensures { WayBackReturns platform.now }
{
    platform.rows_are_valid();
}

/// If no local route is missing, no route is.
pub fn complete_has_routes(sound: SoundPlatform<'_>)
    ensures { HasRoutes sound.entry.platform.now }
{
    sound.platform.rows_are_valid();
}
