//! The walk along a route.
ghost use Rattle.std.specs.Prelude.{◌≡◌};
ghost use Rattle.sg_route.specs.kept.Kept.{Walks};
ghost use Rattle.sg_route.specs.Route.{unless_there, way, whole_way};
ghost use Rattle.sg_route.specs.PathRoutes.{net_of};

use crate::distinct_links::keep_all;
use crate::leg::Leg;
use crate::path::keep_path;
use crate::ways::Ways;
use arrayvec::ArrayVec;
use sg_base::{LinkId, PointId};
use sg_paths::Paths;
use sg_platform_rows::Routing;

/// From where to where.
#[derive(Clone, Copy)]
pub(crate) struct Trip {
    pub(crate) from: PointId,
    pub(crate) to: PointId,
}

/// Keeps the links of a trip through so many levels of zones, or reports what is missing.
fn walk(
    ways: &Ways,
    paths: &mut Paths,
    levels: u32,
    trip: Trip,
    links: &mut ArrayVec<LinkId, 64>,
    over: &mut bool,
) -> Result<(), Leg>
    requires { paths.old ≡ net_of ways.now }
    ensures { Walks (unless_there (way levels ways.now) trip.from trip.to) result
        (record { links = links.old.items; over = over.old })
        (record { links = links.new.items; over = over.new })
        paths.old paths.new }
{
    if trip.from.0 == trip.to.0 {
        return Ok(());
    }
    if levels == 0 {
        return Ok(());
    }
    let leg = ways.leg(trip.from, trip.to);
    if let Routing::Dijkstra = ways.zones.routing(leg.zone) {
        return keep_path(paths, leg, links, over);
    }
    match ways.passage_on(leg) {
        None => Err(leg),
        Some(found) => {
            let front = Trip {
                from: trip.from,
                to: found.start,
            };
            walk(ways, paths, levels - 1, front, links, over)?;
            keep_all(links, over, found.up);
            keep_all(links, over, found.down);
            let behind = Trip {
                from: found.end,
                to: trip.to,
            };
            walk(ways, paths, levels - 1, behind, links, over)
        }
    }
}

/// Keeps the links of a whole route, or reports what is missing.
pub(crate) fn keep_whole(
    ways: &Ways,
    paths: &mut Paths,
    trip: Trip,
    links: &mut ArrayVec<LinkId, 64>,
    over: &mut bool,
) -> Result<(), Leg>
    requires { paths.old ≡ net_of ways.now }
    ensures { Walks (whole_way ways.now trip.from trip.to) result
        (record { links = links.old.items; over = over.old })
        (record { links = links.new.items; over = over.new })
        paths.old paths.new }
{
    if trip.from.0 == trip.to.0 {
        ways.keep_to_itself(trip.from, links, over);
        Ok(())
    } else {
        walk(ways, paths, 16, trip, links, over)
    }
}
