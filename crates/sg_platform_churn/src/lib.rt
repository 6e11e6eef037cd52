//! The load of a churn, which anybody can make again from three numbers: a platform, and the actors on it.
//! One enters by `churn_platform` and `churn_deployment`.
//! It stands on `sg_actor` for the numbers that are drawn, and on `sg_zones` for what a platform may be.
#![tactic(auto)]

mod deployment;
mod laws;
mod names;
mod platform;

pub use deployment::churn_deployment;
pub use laws::churn_has_no_zone_fault;
pub use platform::churn_platform;
