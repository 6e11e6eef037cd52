//! Reads platforms and deployments in TOML. Of a text that is refused the fault of least place is reported: table, then
//! row, then key; at one place the one of least kind.
//! One enters by `read_platform` and `read_deployment`; the types of rows and places are those of the crates below.
//! It stands on `sg_toml_rules`, which finds the fault, `sg_platform_rows`, which it makes, and what is below these.
#![tactic(auto)]

mod build;
mod deployment;
mod functions;
mod laws;
mod platform;

pub use deployment::{DeploymentFault, read_deployment};
pub use laws::bad_toml_exactly;
pub use platform::{GREATEST_TEXT, PlatformFault, read_platform, take_platform};
pub use sg_platform_rows::{
    ActorRow, Deployment, Function, HostRow, LinkRow, MutexRow, Network, Numbers, PlatformText,
    Policy, Power, ProfileRow, Profiled, RouteRow, RouterRow, Routing, SemaphoreRow, SpokeRow,
    StateProfileRow, States, ZoneRouteRow, ZoneRow,
};
pub use sg_toml_tree::Place;
