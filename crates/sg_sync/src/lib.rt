//! Mutexes, semaphores and the barrier: the simulated objects at which actors wait.
//! The type is `Sync`: `lock`, `unlock`, `acquire`, `release`, `arrive` and `leave` return an `Outcome`, and `others`
//! returns who else continues.
//! It stands on `sg_base`, and on `sg_queues` for who waits where.
#![tactic(auto)]

mod arrivals;
mod laws;
mod outcome;
mod queues;
mod sync;

pub use laws::{actors_wait_once, leaving_lets_others_wait, nobody_is_lost};
pub use outcome::Outcome;
pub use sync::Sync;
