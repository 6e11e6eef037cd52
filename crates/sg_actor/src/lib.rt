//! Actors: what they know, and the turns of a scheduling round, one of each actor that is ready.
//! The entrance is `run_round`, over slots with an `Actor` in each: implement this trait for actors of another kind.
//! `PlainContext` and `TapeContext` are here.
//! It stands on `sg_base`.
#![tactic(auto)]

mod actor;
mod churn;
mod crew;
mod generator;
mod laws;
mod next_call;
mod plain_context;
mod role;
mod seat;
mod tape_context;
mod turns;

pub use actor::Actor;
pub use crew::all_blank;
pub use generator::draw;
pub use laws::{churns_count_steps, roles_keep_limits, seats_keep_limits};
pub use plain_context::PlainContext;
pub use role::Role;
pub use seat::Seat;
pub use tape_context::TapeContext;
pub use turns::run_round;
