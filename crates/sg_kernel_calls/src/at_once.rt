//! The calling actor is answered at once, or is blocked. Its call is counted.
ghost use Rattle.std.specs.Prelude.{IfSome, length};
ghost use Rattle.sg_base.specs.Limits.{IsAmount, IsAnswer};
ghost use Rattle.sg_actor_states.specs.Records.{IsTellable};
ghost use Rattle.sg_kernel_calls.specs.World.{extent};
ghost use Rattle.sg_kernel_calls.specs.Steps.{at_once, blocked_by, readied};
ghost use Rattle.sg_kernel_calls.specs.kept.Acts.{Answers, Becomes};
ghost use Rattle.sg_kernel_calls.specs.kept.Sound.{IsMade};
ghost use Rattle.sg_kernel_calls.specs.kept.Whole.{CanConclude};

use crate::simulation_state::Fields;
use sg_base::{ActorId, Answer, Await, Call};

/// Answers the actor, which continues.
pub fn go_on(fields: &mut Fields, actor: ActorId, answer: Answer)
    requires able { CanConclude fields.old actor.0 }
    requires answer { IsAnswer (extent fields.old.setup) answer }
    ensures { Becomes (readied actor.0 answer) fields.old fields.new }
{
    fields.states.go_on(actor, answer);
}

/// Answers the actor's call, with a record.
pub(crate) fn answer_now(
    fields: &mut Fields,
    actor: ActorId,
    what: Call,
    bytes: u64,
    answer: Answer,
)
    requires able { CanConclude fields.old actor.0 }
    requires what { IsTellable (extent fields.old.setup) what }
    requires bytes { IsAmount bytes }
    requires answer { IsAnswer (extent fields.old.setup) answer }
    ensures { Answers (at_once actor.0 what bytes answer) fields.old fields.new }
{
    let date = fields.doing.date();
    fields.states.answer(actor, what, bytes, answer, date);
}

/// Blocks the actor by its call until its endpoint of an activity is done or, with none, until another's call releases
/// it.
pub(crate) fn block(fields: &mut Fields, actor: ActorId, what: Call, on: Option<Await>)
    requires able { CanConclude fields.old actor.0 }
    requires what { IsTellable (extent fields.old.setup) what }
    requires made { IfSome on (IsMade (length fields.old.whose.whose)) }
    ensures { Becomes (blocked_by actor.0 what on) fields.old fields.new }
{
    let date = fields.doing.date();
    fields.states.block(actor, what, date, on);
}
