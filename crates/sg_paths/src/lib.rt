//! Paths of fewest links over routes between numbered points (Dijkstra's algorithm).
//! One enters by `Paths`: `build` once, and then `search` for each pair of points; what was found is kept.
//! It stands on `sg_base`, and on `sg_heap` for the next point to finalize.
#![tactic(auto)]

mod ahead;
mod arrivals;
mod asked;
mod laws;
mod least;
mod paths;
mod recall;
mod route;
mod search_room;
mod settle;
mod trail;
mod trees;

pub use laws::{least_path_is_least, least_path_is_least_of_all};
pub use paths::Paths;
pub use route::PathRoute;
