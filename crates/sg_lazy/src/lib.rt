//! Rates of flows, of which only those that a change touches are brought up to date.
//! The type is `Lazy`: `start`, `end`, `set_capacity` and `set_bound` mark what changes, `settle` brings all rates up
//! to date, `changed` lists those that differ from before.
//! It stands on `sg_base`, on the `System` of `sg_maxmin`, on the `Levels` of `sg_maxmin_levels`, and on the `Parts` of
//! `sg_maxmin_solve`.
#![tactic(auto)]

mod flow_room;
mod laws;
mod lazy;
mod settle;
mod writing;

pub use laws::{names_dont_matter, settled_keeps_none, touched_rates};
pub use lazy::Lazy;
