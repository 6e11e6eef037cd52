//! Laws of roles and turns.
ghost use Rattle.sg_base.specs.Limits.{Extent, IsCall};
ghost use Rattle.sg_base.specs.declared.call.Answer.{Answer};
ghost use Rattle.sg_base.specs.Mind.{Mind, IsMind};
ghost use Rattle.sg_base.specs.Turn.{turn};
ghost use Rattle.sg_actor.specs.Churns.{CountsSteps};
ghost use Rattle.sg_actor.specs.declared.role.Role.{Role};
ghost use Rattle.sg_actor.specs.Roles.{mind_of, IsRole};
ghost use Rattle.sg_actor.specs.Seats.{SeatView, KeepsLimits, after};

use sg_base::turns_keep_limits;

/// If a role keeps to the limits, and names actors that exist, so does the mind with which it begins.
pub fn roles_keep_limits()
    ensures { (extent : Extent) (role : Role) → IsRole extent role → IsMind extent (mind_of role) }
{}

/// The same holds from one scheduling round to the next: a slot keeps to the limits after its turn if it did before.
pub fn seats_keep_limits()
    ensures { (extent : Extent) (seat : SeatView)
        → KeepsLimits extent seat → KeepsLimits extent (after seat) }
{
    turns_keep_limits();
}

/// An actor that churns is in one of four phases, and has done no more steps than it has to: when its context is bound,
/// and after each turn.
pub fn churns_count_steps()
    ensures first { (role : Role) → CountsSteps (mind_of role) }
    ensures next { (m : Mind) (answer : Answer) → CountsSteps m → CountsSteps (turn m answer).mind }
{}
