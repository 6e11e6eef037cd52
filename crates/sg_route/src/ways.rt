//! What a router knows of a platform, and the local routes that rows declare.
ghost use Rattle.std.specs.Prelude.{◌≡◌, ◌≢◌, ◌≤◌, length, option_map, sum_by};
ghost use Rattle.sg_platform_rows.specs.declared.rows.Routing.TheVariants.{Dijkstra};
ghost use Rattle.sg_route.specs.kept.Found.{found_passage};
ghost use Rattle.sg_route.specs.kept.Kept.{keep_all};
ghost use Rattle.sg_route.specs.Route.{latency_of, leg, loopback, passage_on, to_itself};
ghost use Rattle.sg_zones.specs.Tree.{home, routing_in};

use crate::distinct_links::keep_all;
use crate::leg::{Leg, lowest_leg};
use crate::locals::{Locals, Pair};
use crate::spokes::Spokes;
use arrayvec::ArrayVec;
use sg_base::{Child, LinkId, PointId};
use sg_platform_rows::{LinkEnd, Routing};
use sg_zones::Zones;
use std::marker::Model;

/// The zone tree, the local routes and spokes that rows declare, and the links.
pub(crate) struct Ways {
    pub(crate) zones: Zones,
    pub(crate) locals: Locals,
    pub(crate) spokes: Spokes,
    pub(crate) ends: Vec<LinkEnd>,
    pub(crate) loopback: LinkId,
}

// A function of its own, so that a proof in which one is dropped doesn't go into its parts.
impl Drop for Ways {
    fn drop(self) {
        let Ways {
            zones: _,
            locals: _,
            spokes: _,
            ends: _,
            loopback: _,
        } = self;
    }
}

impl Model for Ways {
    ghost use Rattle.std.specs.Prelude.{◌≡◌, ◌-◌, length};
    ghost use Rattle.sg_route.specs.Roads.{Roads};

    ghost Value = { Roads };

    ghost view = { λ w. record {
      tree = w.zones;
      locals = w.locals;
      spokes = w.spokes;
      ends = w.ends.items;
    } };

    ghost invariant = { λ w. w.loopback.0 ≡ length w.ends.items - 1 };
}

/// A local route, whose links are `up` and then `down`.
#[derive(Clone, Copy)]
pub struct Found<'a> {
    pub start: PointId,
    pub end: PointId,
    pub up: &'a [LinkId],
    pub down: &'a [LinkId],
}

impl Ways {
    /// Returns the lowest zone that holds both points, and its children that hold them.
    pub(crate) fn leg(&self, a: PointId, b: PointId) -> Leg
        ensures { result ≡ leg self.now a b }
    {
        let (from, to) = (self.zones.home(a), self.zones.home(b));
        lowest_leg(from, a, b, self.zones.path(from), self.zones.path(to))
    }

    /// Returns the local route of a leg in a zone that isn't Dijkstra.
    pub(crate) fn passage_on(&self, leg: Leg) -> Option<Found<'_>>
        requires { routing_in self.now.tree leg.zone ≢ Dijkstra }
        ensures { option_map found_passage result ≡ passage_on self.now leg }
    {
        match self.zones.routing(leg.zone) {
            Routing::Full => {
                let pair = Pair {
                    from: leg.from,
                    to: leg.to,
                };
                let local = self.locals.of(pair)?;
                Some(Found {
                    start: local.start,
                    end: local.end,
                    up: local.links.as_slice(),
                    down: &[],
                })
            }
            Routing::Star => {
                let spoke = self.spokes.of(leg.from)?;
                let other = self.spokes.of(leg.to)?;
                Some(Found {
                    start: spoke.gateway,
                    end: other.gateway,
                    up: spoke.up.as_slice(),
                    down: other.down.as_slice(),
                })
            }
            Routing::Dijkstra => None,
        }
    }

    fn loopback(&self) -> LinkId
        ensures { result ≡ loopback self.now }
    {
        self.loopback
    }

    /// Keeps the links from a host to itself.
    pub(crate) fn keep_to_itself(
        &self,
        a: PointId,
        links: &mut ArrayVec<LinkId, 64>,
        over: &mut bool,
    )
        ensures { record { links = links.new.items; over = over.new }
            ≡ keep_all (record { links = links.old.items; over = over.old })
            (to_itself self.now (routing_in self.now.tree (home self.now.tree a)) a) }
    {
        match self.zones.routing(self.zones.home(a)) {
            Routing::Full => {
                let pair = Pair {
                    from: Child::Point(a),
                    to: Child::Point(a),
                };
                match self.locals.of(pair) {
                    Some(local) => keep_all(links, over, local.links.as_slice()),
                    None => keep_all(links, over, &[self.loopback()]),
                }
            }
            Routing::Star | Routing::Dijkstra => keep_all(links, over, &[self.loopback()]),
        }
    }

    fn latency_of(&self, link: LinkId) -> u64
        ensures { result ≡ latency_of self.now link }
    {
        self.ends.get(link.0 as usize).map_or(0, |end| end.latency)
    }

    /// Returns the sum of the latencies of these links.
    pub(crate) fn latency(&self, links: &[LinkId]) -> u128
        requires { length links.now ≤ 64 }
        ensures { result ≡ sum_by (latency_of self.now) links.now }
    {
        let mut total: u128 = 0;
        for link in links {
            total += u128::from(self.latency_of(*link));
        }
        total
    }
}
