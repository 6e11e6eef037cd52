//! Routes between points.
ghost use Rattle.std.specs.Prelude.{◌≡◌, ◌≢◌, AllPairs, IfErr};
ghost use Rattle.sg_route.specs.Made.{IsLeastThere, IsReached, IsWithoutPath, LeavesMade};
ghost use Rattle.sg_route.specs.Route.{route_of, LeavesRoute};
ghost use Rattle.sg_route.specs.PathRoutes.{net_of};

use crate::distinct_links::refuse;
use crate::walk::{Trip, keep_whole};
use crate::ways::Ways;
use arrayvec::ArrayVec;
use sg_base::{Child, LinkId, PointId, ZoneId};
use sg_paths::Paths;
use std::marker::Model;

/// Why there is no route.
#[derive(Clone, Copy)]
pub enum RouteFault {
    /// The zone has no local route from the one of its children to the other. If several are missing, that of the
    /// lowest zone that holds both points is reported, else the first before its local route, else the first after it.
    NoRoute {
        zone: ZoneId,
        from: Child,
        to: Child,
    },
    /// The route has more than 64 links, and nothing is missing.
    TooLong,
}

/// The routes of a platform.
pub struct Router {
    pub(crate) ways: Ways,
    pub(crate) paths: Paths,
}

// A function of its own, so that a proof in which one is dropped doesn't go into its parts.
impl Drop for Router {
    fn drop(self) {
        let Router { ways: _, paths: _ } = self;
    }
}

impl Model for Router {
    ghost use Rattle.std.specs.Prelude.{◌≡◌};
    ghost use Rattle.sg_route.specs.Roads.{Roads};
    ghost use Rattle.sg_route.specs.PathRoutes.{net_of};

    ghost Value = { Roads };

    ghost view = { λ r. r.ways };

    ghost invariant = { λ r. r.paths ≡ net_of r.ways };
}

/// Leaves in `links` the links of a trip's route, and answers its latency.
fn leave_route(
    ways: &Ways,
    paths: &mut Paths,
    trip: Trip,
    links: &mut ArrayVec<LinkId, 64>,
) -> Result<u128, RouteFault>
    requires { paths.old ≡ net_of ways.now }
    ensures route { LeavesRoute (route_of ways.now trip.from trip.to) result links.new.items }
    ensures paths { paths.new ≡ paths.old }
{
    links.clear();
    let mut over = false;
    match keep_whole(ways, paths, trip, links, &mut over) {
        Err(leg) => {
            let fault = RouteFault::NoRoute {
                zone: leg.zone,
                from: leg.from,
                to: leg.to,
            };
            refuse(links, fault)
        }
        Ok(()) => {
            if over {
                return refuse(links, RouteFault::TooLong);
            }
            Ok(ways.latency(links.as_slice()))
        }
    }
}

impl Router {
    /// Leaves in `links` the links of the route from a point to another, or from a host to itself, and returns its
    /// latency in nanoseconds. It takes no memory, and the answer is the same whatever was asked before.
    ///
    /// A route is made of local routes. In each Dijkstra zone that it crosses this is the path with the fewest links,
    /// and of these the one with the least list; it is missing there exactly if there is no path.
    ///
    /// # Errors
    ///
    /// A local route that is missing, or more than 64 links; `links` is then empty.
    pub fn route(
        &mut self,
        a: PointId,
        b: PointId,
        links: &mut ArrayVec<LinkId, 64>,
    ) -> Result<u128, RouteFault>
        ensures route { LeavesRoute (route_of self.old a b) result links.new.items }
        // In Dijkstra zones its links are those of a path, no path has fewer, or as many with a
        // smaller list, ..
        ensures reached { a.0 ≢ b.0 →
            LeavesMade (IsReached self.old) self.old a b result links.new.items }
        ensures least { a.0 ≢ b.0 →
            LeavesMade (IsLeastThere self.old) self.old a b result links.new.items }
        // .. and if the local route of one is missing, there is no path.
        ensures none { IfErr result (IsWithoutPath self.old) }
        ensures apart { AllPairs (λ x y. x ≢ y) links.new.items }
        ensures kept { self.new ≡ self.old }
    {
        let trip = Trip { from: a, to: b };
        leave_route(&self.ways, &mut self.paths, trip, links)
    }
}
