//! Actors begin.
ghost use Rattle.std.specs.Prelude.{IsTrue};
ghost use Rattle.sg_actor_states.specs.Actors.{is_unstarted};
ghost use Rattle.sg_kernel_calls.specs.World.{state_of};
ghost use Rattle.sg_kernel_calls.specs.Lives.{answers_create};
ghost use Rattle.sg_kernel_calls.specs.kept.Acts.{Answers, CanMake};
ghost use Rattle.sg_kernel_calls.specs.kept.Sound.{core_of};

use crate::at_once::answer_now;
use crate::simulation_state::Fields;
use sg_base::{ActorId, Answer, Call};

/// Starts the named actor if it was given a context, else refuses the call.
pub fn create(fields: &mut Fields, actor: ActorId, target: ActorId, given: bool)
    requires makes { CanMake fields.old actor.0 (Call.Create target) }
    requires fresh { IsTrue given → IsTrue (is_unstarted (state_of (core_of fields.old) target.0)) }
    ensures { Answers (answers_create given actor.0 target) fields.old fields.new }
{
    if given {
        fields.states.begin(target);
        answer_now(fields, actor, Call::Create(target), 0, Answer::Done)
    } else {
        answer_now(fields, actor, Call::Create(target), 0, Answer::Refused)
    }
}
