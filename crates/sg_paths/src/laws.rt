//! What the shortest path of the definition is.
ghost use Rattle.sg_paths.specs.AllPaths.{LeastPathIsLeastOfAll, TableHasLeastOfAll};
ghost use Rattle.sg_paths.specs.Least.{LeastPathIsLeast};

use crate::route::PathRoute;

/// The shortest path among those that use at most as many routes as there are is the shortest of all paths, however
/// long, and if there is no such path, there is no path.
pub fn least_path_is_least(routes: &[PathRoute])
    ensures { LeastPathIsLeast routes.now }
{
    let _count = routes.len();
}

/// The definition's table of shortest paths gives, for each number of routes, the least of all paths of at most so many;
/// so the shortest path is the least in a list of all paths.
pub fn least_path_is_least_of_all(routes: &[PathRoute])
    ensures table { TableHasLeastOfAll routes.now }
    ensures path { LeastPathIsLeastOfAll routes.now }
{
    let _count = routes.len();
}
