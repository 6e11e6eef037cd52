//! Platforms and deployments as rows with resolved names: what they promise, their links' ends, and rows by name. All
//! that comes after the readers works with these.
//! One enters by `PlatformText` and `Deployment`, which `of_rows` makes of given rows.
//! It stands on `sg_base`, on `sg_toml_tree` for spaces of names, and on `sg_collectives` for the members of a deployment.
#![tactic(auto)]

mod deployment;
mod ends;
mod index;
mod names;
mod network;
mod number_list;
mod of_rows;
mod platform;
mod rows;
mod states;

pub use deployment::Deployment;
pub use ends::{LinkEnd, link_ends, way_back};
pub use index::hosts_by_name;
pub use network::Network;
pub use number_list::Numbers;
pub use platform::PlatformText;
pub use rows::{
    ActorRow, Function, HostRow, LinkRow, MutexRow, PlatformRows, Policy, Power, ProfileRow,
    Profiled, RouteRow, RouterRow, Routing, SemaphoreRow, SpokeRow, StateProfileRow, ZoneRouteRow,
    ZoneRow,
};
pub use states::States;
