//! The slots of a scheduling round.
use crate::actor::Actor;
use sg_base::{Answer, Call};

/// The slot of an actor, which it keeps from one scheduling round to the next.
#[derive(Drop)]
pub struct Seat<A = Box<dyn Actor + Send>> {
    /// None while nobody sits there.
    pub actor: Option<A>,
    /// The answer for its next turn.
    pub inbox: Answer,
    /// The call of its last turn.
    pub outbox: Call,
    /// Whether it takes a turn in the next scheduling round.
    pub ready: bool,
}
