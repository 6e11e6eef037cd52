//! The max-min solve of the connected components of what changed, one after the other: the level of each of their flows,
//! and where each of their resources holds its flows.
//! The type is `Parts`: `fill` solves, and `filled` returns the result, for `Levels::refill`.
//! It stands on `sg_base`, on the holds and the `System` of `sg_maxmin`, and on the `Agenda` of `sg_heap`.
#![tactic(auto)]

mod alone;
mod by_part;
mod component;
mod dates;
mod filling;
mod fixes;
mod last_step;
mod limits;
mod parts;
mod steps;

pub use parts::Parts;
