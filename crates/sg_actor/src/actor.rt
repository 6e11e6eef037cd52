//! The trait of actors.
ghost use Rattle.std.specs.Prelude.{◌≡◌, Option, Some, None, IsTrue, ◌↔◌, IsSome, IfSome, OnOk, OnErr};
ghost use Rattle.sg_base.specs.Mind.{Mind};
ghost use Rattle.sg_base.specs.Turn.{turn};
ghost use Rattle.sg_actor.specs.Roles.{mind_of, CanCast};

use crate::role::Role;
use sg_base::{Answer, Call, Memory};

/// What takes the turns of an actor: blank at first, then cast in a role.
///
/// Every kind of actor has the same contract, so which kinds there are, and how they keep what they have in mind,
/// doesn't matter to a run.
pub trait Actor: Drop {
    /// What it has in mind, and nothing while it is blank.
    ghost mind: { Self → Option Mind };

    /// Returns whether it was never bound.
    fn is_blank(&self) -> bool
        ensures { IsTrue result ↔ (mind self.now ≡ None) };

    /// Gives a blank one the mind of a role. Without memory it stays blank.
    fn cast(&mut self, role: &Role) -> Result<(), Memory>
        requires blank { mind self.old ≡ None }
        requires role { CanCast role.now }
        ensures ok { OnOk result (mind self.new ≡ Some (mind_of role.now)) }
        ensures err { OnErr result (mind self.new ≡ None) };

    /// Takes a turn on an answer: the call that it makes. It takes no memory.
    fn turn(&mut self, answer: Answer) -> Call
        requires { IsSome (mind self.old) }
        ensures mind { IfSome (mind self.old) (λ m. mind self.new ≡ Some (turn m answer).mind) }
        ensures call { IfSome (mind self.old) (λ m. result ≡ (turn m answer).call) };
}

/// A boxed actor is the actor in the box.
impl Actor for Box<dyn Actor + Send> {
    ghost mind = { λ b. (Actor-box b).mind b.value };

    fn is_blank(&self) -> bool {
        (**self).is_blank()
    }

    fn cast(&mut self, role: &Role) -> Result<(), Memory> {
        (**self).cast(role)
    }

    fn turn(&mut self, answer: Answer) -> Call {
        (**self).turn(answer)
    }
}
