//! The points whose shortest path is known, and the links of their paths.
ghost use Rattle.std.specs.Prelude.{◌≡◌, ◌+◌, ◌*◌, ◌<◌, ◌≤◌, ◌++◌, length, vec_capacity};
ghost use Rattle.sg_paths.specs.Trail.{links_at, AreLinksOf, AreShort, LeadsBack};

use crate::route::PathRoute;
use sg_base::LinkId;

/// A point, the route that its shortest path begins with, and the place among the finalized points of the one that this
/// route leads to. The first finalized point is where all paths end: it takes no route.
#[derive(Clone, Copy)]
pub struct Settled {
    pub point: u32,
    pub route: usize,
    pub next: usize,
}

/// Returns the links of a route.
pub fn links_at(routes: &[PathRoute], route: usize) -> &[LinkId]
    ensures { result.now ≡ links_at routes.now route }
{
    match routes.get(route) {
        Some(route) => route.links.as_slice(),
        None => &[],
    }
}

/// Adds links after others.
pub fn add(links: &[LinkId], out: &mut Vec<LinkId>)
    requires { length out.old.items + length links.now ≤ vec_capacity out.old }
    ensures links { out.new.items ≡ out.old.items ++ links.now }
    ensures capacity { vec_capacity out.new ≡ vec_capacity out.old }
{
    for link in links {
        out.push_reserved(*link);
    }
}

/// Writes the links of the path that begins with a route to a finalized point.
pub fn write_links(
    routes: &[PathRoute],
    settled: &[Settled],
    hop: Settled,
    most: usize,
    out: &mut Vec<LinkId>,
)
    requires back { LeadsBack settled.now }
    requires short { AreShort most routes.now }
    requires next { hop.next < length settled.now }
    requires room { length settled.now * most ≤ vec_capacity out.old }
    ensures links { AreLinksOf routes.now settled.now hop out.new.items }
    ensures capacity { vec_capacity out.new ≡ vec_capacity out.old }
{
    out.clear();
    add(links_at(routes, hop.route), out);
    let mut at = hop.next;
    while at > 0 {
        let step = settled[at];
        add(links_at(routes, step.route), out);
        at = step.next;
    }
}
