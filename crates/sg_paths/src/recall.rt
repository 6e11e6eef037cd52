//! A search for a shortest path that may have been asked for before.
ghost use Rattle.std.specs.Prelude.{length};
ghost use Rattle.std.specs.Bool.{OnTrue};
ghost use Rattle.sg_paths.specs.Asked.{AreRight};
ghost use Rattle.sg_paths.specs.Path.{IsLeastPath};
ghost use Rattle.sg_paths.specs.Reach.{CanFind, FindsLeast, IsRoomy};
ghost use Rattle.sg_paths.specs.Trees.{AreOnward};

use crate::arrivals::Arrivals;
use crate::asked::{Asked, hold, recall};
use crate::least::{Reach, find};
use crate::route::PathRoute;
use crate::trail::add;
use crate::trees::{Trees, hop_from, keep, points_in};

/// What earlier searches found.
#[derive(Drop)]
pub struct Found {
    pub asked: Vec<Option<Asked>>,
    pub trees: Trees,
}

/// Writes the links of the shortest path between two points, and returns whether all its hops are stored.
fn follow(routes: &[PathRoute], trees: &Trees, reach: &mut Reach, from: u32, to: u32) -> bool
    requires roomy { IsRoomy routes.now (length reach.old.places.items) reach.old }
    requires onward { AreOnward routes.now trees.now.hops.items }
    ensures yes { OnTrue result (IsLeastPath routes.now from to reach.new.best.items) }
    ensures roomy { IsRoomy routes.now (length reach.old.places.items) reach.new }
{
    reach.best.clear();
    let mut at = from;
    'following: for hop in 0..reach.places.len() {
        if at == to {
            return true;
        }
        let Some(i) = hop_from(routes, trees, at, to) else {
            return false;
        };
        add(routes[i].links.as_slice(), &mut reach.best);
        at = routes[i].to;
    }
    false
}

/// Does what `find` does, but doesn't search again for a path in a stored tree, and stores the tree that it finds.
///
/// A second search for a point finalizes at least twice as many points as the first, so that few are made.
fn find_or_follow(
    routes: &[PathRoute],
    arrivals: &Arrivals,
    reach: &mut Reach,
    trees: &mut Trees,
    from: u32,
    to: u32,
) -> bool
    requires ready { CanFind routes.now arrivals.now from to reach.old }
    requires onward { AreOnward routes.now trees.old.hops.items }
    ensures path { FindsLeast routes.now from to result reach.old reach.new }
    ensures onward { AreOnward routes.now trees.new.hops.items }
{
    if follow(routes, trees, reach, from, to) {
        return true;
    }
    let points = points_in(trees, to).saturating_mul(2);
    if !find(routes, arrivals, reach, from, to, points) {
        return false;
    }
    keep(trees, reach.settled.as_slice(), to);
    true
}

/// Does the same, but doesn't search again for a stored path, and stores one that it finds.
pub fn find_or_recall(
    routes: &[PathRoute],
    arrivals: &Arrivals,
    reach: &mut Reach,
    found: &mut Found,
    from: u32,
    to: u32,
) -> bool
    requires ready { CanFind routes.now arrivals.now from to reach.old }
    requires right { AreRight routes.now found.old.asked.items }
    requires onward { AreOnward routes.now found.old.trees.hops.items }
    ensures path { FindsLeast routes.now from to result reach.old reach.new }
    ensures right { AreRight routes.now found.new.asked.items }
    ensures onward { AreOnward routes.now found.new.trees.hops.items }
{
    if recall(found.asked.as_slice(), from, to, &mut reach.best) {
        return true;
    }
    if !find_or_follow(routes, arrivals, reach, &mut found.trees, from, to) {
        return false;
    }
    hold(&mut found.asked, from, to, reach.best.as_slice());
    true
}
