//! Paths over routes.
ghost use Rattle.std.specs.Prelude.{◌≡◌, ◌≢◌, ◌<◌, All, IfOk, IfSome, IsNone};
ghost use Rattle.sg_paths.specs.Path.{HasNoPath, HasPath, IsLeast};

use crate::arrivals::{Arrivals, arrivals_of};
use crate::asked::room_for;
use crate::least::Reach;
use crate::recall::{Found, find_or_recall};
use crate::route::PathRoute;
use crate::search_room::{copy, countable, most_links, room};
use crate::trees::trees_for;
use sg_base::{LinkId, Memory};
use std::alloc::Global;
use std::marker::Model;

/// Returns how many paths are stored: four for each point, and at most 4,096.
fn places_for(points: u32, routes: usize) -> usize {
    if routes == 0 {
        return 0;
    }
    (points as usize).saturating_mul(4).min(4096)
}

/// Points, numbered from 0 on, and routes between them.
pub struct Paths {
    points: u32,
    routes: Vec<PathRoute>,
    arrivals: Arrivals,
    reach: Reach,
    found: Found,
}

// A function of its own, so that a proof in which one is dropped doesn't go into its parts.
impl Drop for Paths {
    fn drop(self) {
        let Paths {
            points: _,
            routes: _,
            arrivals: _,
            reach: _,
            found: _,
        } = self;
    }
}

impl Model for Paths {
    ghost use Rattle.sg_paths.specs.Path.{Net};
    ghost use Rattle.sg_paths.specs.Whole.{IsWhole};

    ghost Value = { Net };

    ghost view = { λ p. record { points = p.points; routes = p.routes.items } };

    ghost invariant = { λ p. IsWhole p.points p.routes.items p.arrivals p.reach p.found };
}

impl Paths {
    ghost use Rattle.std.specs.Borrow.{sem};
    ghost use Rattle.sg_paths.specs.Kept.{KeepsNet};

    /// Makes so many points, numbered from 0 on, and routes between them.
    pub fn build(alloc: Global, points: u32, routes: &[PathRoute]) -> Result<Paths, Memory>
        requires { All (λ route. (route.from < points) × (route.to < points)) routes.now }
        ensures { IfOk result (λ paths. paths ≡ record { points = points; routes = routes.now }) }
    {
        if !countable(routes) {
            return Err(Memory);
        }
        let most = most_links(routes);
        let copied = copy(alloc, routes)?;
        let arrivals = arrivals_of(alloc, points as usize, routes)?;
        let reach = room(alloc, points as usize, routes.len(), most)?;
        let asked = room_for(alloc, places_for(points, routes.len()))?;
        let trees = trees_for(alloc, points as usize, routes)?;
        Ok(Paths {
            points,
            routes: copied,
            arrivals,
            reach,
            found: Found { asked, trees },
        })
    }

    /// Returns the links of the path from a point to another that has the fewest links, a link counted each time that
    /// it stands there, and of these of the one with the least list, compared from the front. It returns `None` exactly
    /// if there is no path, as when one of the points doesn't exist. It takes no memory.
    ///
    /// It takes n log n steps at most, with n routes and links of routes in all, and touches only what it reaches. A
    /// path of at most 128 links is stored, and returned again without a search, until another replaces it. So is the
    /// tree of the paths that a search found, from which it takes the paths of other points to the same one.
    pub fn search(&mut self, from: u32, to: u32) -> Option<&[LinkId]>
        requires { from ≢ to }
        ensures reached { IfSome result (λ links. HasPath self.old.routes from to links.now) }
        ensures least { IfSome result (λ links. IsLeast self.old.routes from to links.now) }
        ensures* kept { sem 𝓛 (KeepsNet self.entry) }
        ensures none { IsNone result → HasNoPath self.old.routes from to }
    {
        if from >= self.points || to >= self.points {
            return None;
        }
        if find_or_recall(
            self.routes.as_slice(),
            &self.arrivals,
            &mut self.reach,
            &mut self.found,
            from,
            to,
        ) {
            Some(self.reach.best.as_slice())
        } else {
            None
        }
    }
}
