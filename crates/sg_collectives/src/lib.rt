//! Collective actions of numbered members, each as the sends, receives and computes that every member does for it.
//! The type is `Collective`: `action` returns what an actor does at a place of it, `steps` how many places there are.
//! It stands on `sg_base`.
#![tactic(auto)]

mod alltoall;
mod bcast;
mod collective;
mod laws;
mod members;
mod reduce;
mod step;
mod together;
mod tree;

pub use collective::Collective;
pub use laws::{alone_does_nothing, peers_are_others, requests_are_awaited, sends_are_received};
pub use members::Members;
pub use step::Step;
pub use together::{
    allreduce_is_both, alltoall_joins_each_pair, bcast_reaches_each_once, reduce_takes_each_once,
};
pub use tree::Rank;
