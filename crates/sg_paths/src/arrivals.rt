//! The routes that lead to each point.
ghost use Rattle.std.specs.Prelude.{IfOk, length};
ghost use Rattle.sg_paths.specs.Arrivals.{AreArrivals};
ghost use Rattle.sg_paths.specs.Crossing.{AreWithin};

use crate::route::PathRoute;
use sg_base::Memory;
use std::alloc::Global;

/// For each point the last route that leads to it, and for each route the one before it that leads to the same point:
/// its number and one, or 0 if there is no such route.
#[derive(Drop)]
pub struct Arrivals {
    pub last: Vec<usize>,
    pub before: Vec<usize>,
}

/// Returns the arrivals at each of so many points.
pub fn arrivals_of(alloc: Global, points: usize, routes: &[PathRoute]) -> Result<Arrivals, Memory>
    requires { AreWithin points routes.now }
    ensures { IfOk result (AreArrivals points routes.now) }
{
    let mut before = Vec::with_capacity(alloc, routes.len())?;
    let mut last = vec![in alloc; 0; points]?;
    for i in 0..routes.len() {
        let to = routes[i].to as usize;
        before.push_reserved(last[to]);
        last[to] = i + 1;
    }
    Ok(Arrivals { last, before })
}
