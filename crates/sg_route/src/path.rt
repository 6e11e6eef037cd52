//! The shortest path within a Dijkstra zone.
ghost use Rattle.sg_route.specs.kept.Kept.{path_way, Walks};
ghost use Rattle.sg_route.specs.Route.{by_path};

use crate::distinct_links::keep_all;
use crate::leg::Leg;
use arrayvec::ArrayVec;
use sg_base::{Child, LinkId};
use sg_paths::Paths;

/// Keeps the links of the shortest path between the two points of a leg, or reports that there is no path.
pub(crate) fn keep_path(
    paths: &mut Paths,
    leg: Leg,
    links: &mut ArrayVec<LinkId, 64>,
    over: &mut bool,
) -> Result<(), Leg>
    ensures { Walks (path_way leg (by_path paths.old.routes leg.from leg.to)) result
        (record { links = links.old.items; over = over.old })
        (record { links = links.new.items; over = over.new })
        paths.old paths.new }
{
    match (leg.from, leg.to) {
        (Child::Point(from), Child::Point(to)) => {
            if from.0 == to.0 {
                return Err(leg);
            }
            match paths.search(from.0, to.0) {
                Some(path) => {
                    keep_all(links, over, path);
                    Ok(())
                }
                None => Err(leg),
            }
        }
        _ => Err(leg),
    }
}
