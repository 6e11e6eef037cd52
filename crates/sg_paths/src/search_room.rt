//! What is made before the first search.
ghost use Rattle.std.specs.Prelude.{◌≡◌, ◌+◌, ◌*◌, ◌^◌, ◌<◌, ◌≤◌, length, vec_capacity, IfOk, IfSome};
ghost use Rattle.std.specs.Bool.{OnTrue};
ghost use Rattle.sg_paths.specs.Ahead.{steps_in};
ghost use Rattle.sg_paths.specs.Trail.{AreShort};

use crate::ahead::Ahead;
use crate::asked::MOST;
use crate::least::Reach;
use crate::route::PathRoute;
use crate::trail::links_at;
use sg_base::{Links, Memory};
use sg_heap::Agenda;
use std::alloc::Global;

/// Returns the most links that a route has.
pub fn most_links(routes: &[PathRoute]) -> usize
    ensures { AreShort result routes.now }
{
    let mut most = 0;
    for route in routes {
        most = most.max(route.links.as_slice().len());
    }
    most
}

/// Returns a copy of the routes.
pub fn copy(alloc: Global, routes: &[PathRoute]) -> Result<Vec<PathRoute>, Memory>
    ensures { IfOk result (λ copied. copied.items ≡ routes.now) }
{
    let mut copied = Vec::with_capacity(alloc, routes.len())?;
    for route in routes {
        let links = Vec::from_slice(alloc, route.links.as_slice())?;
        copied.push_reserved(PathRoute {
            from: route.from,
            to: route.to,
            links: Links::from_vec(links),
        });
    }
    Ok(copied)
}

/// Returns how many steps a search takes at most: each route goes back over all its links, and stops once.
fn steps(routes: &[PathRoute]) -> Option<u64>
    ensures { IfSome result (λ steps. steps ≡ steps_in routes.now) }
{
    let mut steps: u64 = 0;
    for i in 0..routes.len() {
        let more = links_at(routes, i).len() as u64 + 1;
        steps = steps.checked_add(more)?;
    }
    Some(steps)
}

/// Checks that all steps of a search can be counted.
pub fn countable(routes: &[PathRoute]) -> bool
    ensures { OnTrue result (steps_in routes.now + 1 < 2 ^ 64) }
{
    steps(routes).is_some_and(|steps| steps < u64::MAX)
}

/// Makes a place for each of so many routes.
fn ahead(alloc: Global, routes: usize) -> Result<Ahead, Memory>
    ensures slots { IfOk result (λ ahead. length ahead.agenda ≡ routes) }
    ensures lefts { IfOk result (λ ahead. length ahead.left.items ≡ routes) }
{
    let left = vec![in alloc; 0; routes]?;
    let mut agenda = Agenda::new(alloc)?;
    agenda.reserve(routes)?;
    Ok(Ahead { agenda, left })
}

/// Makes room for a search over so many points and routes, of which each has at most so many links.
pub fn room(alloc: Global, points: usize, routes: usize, most: usize) -> Result<Reach, Memory>
    ensures places { IfOk result (λ reach. length reach.places.items ≡ points) }
    ensures settled { IfOk result (λ reach. points ≤ vec_capacity reach.settled) }
    ensures slots { IfOk result (λ reach. length reach.ahead.agenda ≡ routes) }
    ensures lefts { IfOk result (λ reach. length reach.ahead.left.items ≡ routes) }
    ensures best { IfOk result (λ reach. points * most ≤ vec_capacity reach.best) }
    ensures held { IfOk result (λ reach. 128 ≤ vec_capacity reach.best) }
    ensures most { IfOk result (λ reach. reach.most ≡ most) }
{
    let links = points.checked_mul(most).ok_or(Memory)?;
    let best = Vec::with_capacity(alloc, links.max(MOST))?;
    let places = vec![in alloc; 0; points]?;
    let settled = Vec::with_capacity(alloc, points)?;
    let ahead = ahead(alloc, routes)?;
    Ok(Reach {
        settled,
        places,
        ahead,
        best,
        most,
    })
}
