//! Calls that were made and not answered yet.
use sg_base::{ActorId, Call};

/// What an actor has called in its turn.
#[derive(Clone, Copy)]
pub struct ActorCall {
    pub actor: ActorId,
    pub call: Call,
}
