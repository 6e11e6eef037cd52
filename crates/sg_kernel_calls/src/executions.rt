//! Executions and sleeps begin.
ghost use Rattle.std.specs.Prelude.{◌≡◌, ◌+◌, IsTrue, length};
ghost use Rattle.sg_activity.specs.Underway.{is_computing};
ghost use Rattle.sg_kernel_calls.specs.Calls.{await_alone, computes, executed, with_execution, with_sleep};
ghost use Rattle.sg_kernel_calls.specs.kept.Acts.{Answers, Becomes, CanMake};
ghost use Rattle.sg_kernel_calls.specs.kept.Sound.{IsHome};

use crate::at_once::{answer_now, block};
use crate::holding::hold_if;
use crate::simulation_state::Fields;
use sg_base::{ActorId, Answer, Await, Call, Party, PointId, Serial};
use sg_mailbox::Whose;

fn alone(serial: Serial) -> Await
    ensures { result ≡ await_alone serial.0 }
{
    Await {
        serial,
        party: Party::Alone,
    }
}

// Begins an execution of the actor on its host.
fn start(fields: &mut Fields, actor: ActorId, host: PointId, flops: u64, priority: u32) -> Serial
    requires computes { CanMake fields.old actor.0 (Call.Compute flops priority) }
    requires home { IsHome fields.old actor.0 host }
    ensures serial { result.0 ≡ length fields.old.doing.under.tasks + 1 }
    ensures computing { IsTrue (is_computing fields.new.doing.under result.0) }
    ensures becomes { Becomes (with_execution fields.old.setup actor.0 flops priority)
        fields.old fields.new }
{
    let serial = fields.doing.start_exec(host, flops, priority);
    fields.whose.push(Whose::Alone(actor));
    let on = Some(alone(serial));
    block(fields, actor, Call::Compute(flops, priority), on);
    serial
}

// Makes the actor compute on its host. The execution is suspended as soon as it begins, if the actor is.
fn execute(fields: &mut Fields, actor: ActorId, host: PointId, flops: u64, priority: u32)
    requires computes { CanMake fields.old actor.0 (Call.Compute flops priority) }
    requires home { IsHome fields.old actor.0 host }
    ensures { Becomes (executed fields.old.setup actor.0 flops priority)
        fields.old fields.new }
{
    let serial = start(fields, actor, host, flops, priority);
    hold_if(fields, actor, serial);
}

/// Makes the actor compute at a priority, unless its host is off.
pub(crate) fn compute(fields: &mut Fields, actor: ActorId, flops: u64, priority: u32)
    requires { CanMake fields.old actor.0 (Call.Compute flops priority) }
    ensures { Answers (computes fields.old.setup actor.0 flops priority)
        fields.old fields.new }
{
    let host = fields.setup.host(actor);
    if fields.doing.is_host_off(host) {
        answer_now(
            fields,
            actor,
            Call::Compute(flops, priority),
            0,
            Answer::Failed,
        )
    } else {
        execute(fields, actor, host, flops, priority)
    }
}

/// Makes the actor sleep.
pub(crate) fn sleep(fields: &mut Fields, actor: ActorId, ns: u64)
    requires { CanMake fields.old actor.0 (Call.Sleep ns) }
    ensures { Becomes (with_sleep actor.0 ns) fields.old fields.new }
{
    let serial = fields.doing.start_timer(ns);
    fields.whose.push(Whose::Alone(actor));
    let on = Some(alone(serial));
    block(fields, actor, Call::Sleep(ns), on);
}
