//! How actors end, and how those that joined them are unblocked.
ghost use Rattle.std.specs.Prelude.{◌≡◌, drop};
ghost use Rattle.sg_actor_states.specs.Actors.{is_ended, joiners, IsJoiner};
ghost use Rattle.sg_kernel_calls.specs.World.{state_of};
ghost use Rattle.sg_kernel_calls.specs.Lives.{exits, joins_by};
ghost use Rattle.sg_kernel_calls.specs.Locks.{joiners_wake, wakes};
ghost use Rattle.sg_kernel_calls.specs.kept.Acts.{Answers, CanMake, Wakes};
ghost use Rattle.sg_kernel_calls.specs.kept.Whole.{CanStep, IsWhole};

use crate::at_once::{answer_now, block};
use crate::simulation_state::Fields;
use sg_actor_states::State;
use sg_base::{ActorId, Answer, Call};

// Unblocks the first actor that waits for another to end.
fn wake_joiner(fields: &mut Fields, target: ActorId, actor: ActorId)
    requires first { IsJoiner fields.old.states.actors target.0 actor }
    requires whole { IsWhole fields.old }
    ensures wakes { Wakes (wakes actor) fields.old fields.new }
    ensures rest { joiners target.0 1 fields.new.states.actors
        ≡ drop 1 (joiners target.0 1 fields.old.states.actors) }
{
    if let Some(blocking) = fields.states.state(actor).blocking() {
        let date = fields.doing.date();
        fields.states.reply(actor, blocking, 0, Answer::Done, date);
    }
}

/// Unblocks all actors that wait for this one to end, in order of id.
pub(crate) fn wake_joiners(fields: &mut Fields, target: ActorId)
    requires { IsWhole fields.old }
    ensures { Wakes (joiners_wake target.0) fields.old fields.new }
{
    while let Some(actor) = fields.states.joiner(target) {
        wake_joiner(fields, target, actor);
    }
}

/// Ends an actor after its last call, and unblocks those that wait for its end.
pub(crate) fn exit(fields: &mut Fields, actor: ActorId)
    requires { CanStep fields.old actor.0 }
    ensures { Answers (exits actor.0) fields.old fields.new }
{
    fields.states.exit(actor);
    wake_joiners(fields, actor);
}

fn has_ended(state: State) -> bool
    ensures { result ≡ is_ended state }
{
    match state {
        State::Ended => true,
        State::Unstarted | State::Ready(_) | State::Blocked(..) => false,
    }
}

/// Makes the actor wait until the named one has ended.
pub(crate) fn join(fields: &mut Fields, actor: ActorId, target: ActorId)
    requires { CanMake fields.old actor.0 (Call.Join target) }
    ensures { Answers (λ core. joins_by (is_ended (state_of core target.0)) actor.0 target core)
        fields.old fields.new }
{
    if has_ended(fields.states.state(target)) {
        answer_now(fields, actor, Call::Join(target), 0, Answer::Done)
    } else {
        block(fields, actor, Call::Join(target), None)
    }
}
