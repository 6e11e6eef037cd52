//! Routes between any two points of a platform.
//! One enters by `Router`: `build` once, and then `route` for each pair; `routes_are_good` says what a route is.
//! It stands on `sg_zones` for the way through the tree, and on `sg_paths` for that within a Dijkstra zone.
#![tactic(auto)]

mod build;
mod distinct_links;
mod laws;
mod leg;
mod locals;
mod path;
mod router;
mod spokes;
mod walk;
mod ways;

pub use laws::routes_are_good;
pub use router::{RouteFault, Router};
