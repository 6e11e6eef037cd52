//! Laws of routes, each the contract of a function without a body: what the definition means in plain words.
//! One begins at `follows_lowest_zone`.
//! It stands on `sg_route` and what is below it.
#![tactic(auto)]

mod laws;

pub use laws::{
    complete_has_routes, dijkstra_takes_least_paths, follows_lowest_zone, full_goes_as_declared,
    full_joins_gateways, legs_are_lowest, star_goes_up_and_down, star_joins_gateways,
    way_back_returns,
};
