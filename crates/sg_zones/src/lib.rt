//! The zone tree of a platform, and what its rows may not say of it. Such a fault is reported after those of the
//! platform's text: that of the least kind, and there of the least place.
//! One enters by `Zones`: `build` makes the tree or returns a `ZoneFault`; `path`, `routing` and `home` read it.
//! It stands on `sg_platform_rows` and what is below it.
#![tactic(auto)]

mod fault;
mod gateways;
mod laws;
mod paths;
mod routing;
mod sound;
mod tree;
mod zones;

pub use fault::ZoneFault;
pub use laws::{cycles_never_end, least_fault_is_told, tree_goes_up};
pub use sound::SoundPlatform;
pub use zones::Zones;
