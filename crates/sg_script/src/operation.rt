//! What a line asks for.
ghost use Rattle.std.specs.Prelude.{◌≡◌, ◌+◌, ◌^◌, ◌<◌, All, IfSome, slice_get};
ghost use Rattle.sg_base.specs.Limits.{Extent, IsAction, IsActorIn};
ghost use Rattle.sg_script.specs.Operation.{actions_for, IsOperation};

use sg_base::{Action, ActorId};
use sg_collectives::{Collective, Members};

/// What a line asks for.
#[derive(Clone, Copy)]
pub enum Operation {
    /// One action.
    Alone(Action),
    /// The actor's part in what all members do together: several actions, or none.
    Together(Collective),
}

impl Operation {
    /// Returns the action at this place, from 0 on, of what an actor does for it; none after the last.
    pub fn action(self, actor: ActorId, members: &Members, place: u64) -> Option<Action>
        ensures action { result ≡ slice_get (actions_for members.now actor.0 self) place }
        ensures few { IfSome result (λ _. place + 1 < 2 ^ 64) }
        ensures limited { (extent : Extent) → All (IsActorIn extent) members.now
            → IsOperation extent self → IfSome result (IsAction extent) }
    {
        match self {
            Operation::Alone(action) if place == 0 => Some(action),
            Operation::Alone(_) => None,
            Operation::Together(collective) => collective.action(actor, members, place),
        }
    }
}
