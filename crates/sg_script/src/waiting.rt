//! A line that waits for its actor.
ghost use Rattle.std.specs.Prelude.{◌≡◌, All, [], IfNone, IfSome};
ghost use Rattle.sg_base.specs.Limits.{Extent, IsAction, IsActorIn};
ghost use Rattle.sg_script.specs.kept.Queues.{left_of, with_first};
ghost use Rattle.sg_script.specs.Operation.{IsOperation};

use crate::operation::Operation;
use sg_base::{Action, ActorId};
use sg_collectives::Members;

/// A line that waits for its actor: what it asks for, and how many of its actions were taken.
#[derive(Clone, Copy)]
pub struct Waiting {
    pub operation: Operation,
    pub place: u64,
}

impl Waiting {
    /// Takes the next action, if one is left. It takes no memory.
    #[tactic(auto, using(crate::proofs::QueueLemmas::left_first, crate::proofs::QueueLemmas::left_none))]
    pub fn take(&mut self, actor: ActorId, members: &Members) -> Option<Action>
        ensures first { left_of members.now actor.0 self.old
            ≡ with_first result (left_of members.now actor.0 self.new) }
        ensures empty { IfNone result (left_of members.now actor.0 self.old ≡ []) }
        ensures same { self.new.operation ≡ self.old.operation }
        ensures limited { (extent : Extent) → All (IsActorIn extent) members.now
            → IsOperation extent self.old.operation → IfSome result (IsAction extent) }
    {
        let Some(action) = self.operation.action(actor, members, self.place) else {
            return None;
        };
        self.place += 1;
        Some(action)
    }
}
