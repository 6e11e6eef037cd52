//! The roles of actors.
use sg_base::{ActorId, Ids};

/// What an actor is to be.
#[derive(Drop)]
pub enum Role {
    /// This actor replays its lines of the script.
    Replay(ActorId),
    /// This actor does the tasks that it is sent.
    Worker(ActorId),
    /// It hands so many tasks out, of so many flops and bytes each, to its workers in turn.
    Master {
        tasks: u64,
        flops: u64,
        bytes: u64,
        workers: Ids,
    },
    /// So many times, it computes, sends to the next actor of a ring, receives from the one before it, and waits
    /// until what it sent is there. How much it computes and sends is drawn.
    Churn {
        /// The state with which its generator begins.
        seed: u64,
        steps: u32,
        me: ActorId,
        next: ActorId,
        prev: ActorId,
    },
}
