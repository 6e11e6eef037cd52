//! Actors are killed.

ghost use Rattle.std.specs.Prelude.{◌≡◌, ◌<◌, ◌^◌, IsTrue, false, length};
ghost use Rattle.sg_base.specs.declared.call.Call.TheVariants as call;
ghost use Rattle.sg_mailbox.specs.declared.owners.How.TheVariants as how;
ghost use Rattle.sg_actor_states.specs.Actors.{blocking_in, is_alive};
ghost use Rattle.sg_actor_states.specs.Records.{IsTellable};
ghost use Rattle.sg_actor_states.specs.States.{CanCall, IsAlive};
ghost use Rattle.sg_kernel_calls.specs.World.{state_of, whose_at};
ghost use Rattle.sg_kernel_calls.specs.Steps.{each};
ghost use Rattle.sg_kernel_calls.specs.Answers.{finishes};
ghost use Rattle.sg_kernel_calls.specs.Kills.{awaited, blocked_on, gives_up, kill_done, kills, withdrawn};
ghost use Rattle.sg_kernel_calls.specs.kept.Killing.{killed_by, AreSerials};
ghost use Rattle.sg_kernel_calls.specs.kept.Acts.{Answers, CanGiveUp, CanMake, CanName, GivesUp, Steps};
ghost use Rattle.sg_kernel_calls.specs.kept.Sound.{core_of, is_idle, is_posted};
ghost use Rattle.sg_kernel_calls.specs.kept.Whole.{IsWhole};

use crate::answers::answer_owners;
use crate::at_once::answer_now;
use crate::joining::wake_joiners;
use crate::simulation_state::Fields;
use sg_actor_states::{State, States};
use sg_base::{ActorId, Answer, Await, Call, Serial};
use sg_mailbox::{How, Whose};

// Returns the activity on which an actor is blocked that does this.
fn blocked_on(state: State) -> Option<Await>
    ensures { result ≡ blocked_on (blocking_in state) }
{
    state.blocking()?.on
}

// Ends the target. That is the last call of one that kills itself; another's call is answered.
fn end(states: &mut States, actor: ActorId, target: ActorId, date: u128)
    requires able { CanCall states.old actor.0 }
    requires alive { IsAlive states.old target.0 }
    requires what { IsTellable states.old.extent (call.Kill target) }
    requires date { date < 10 ^ 33 }
    ensures { states.new ≡ killed_by actor.0 target date states.old }
{
    if actor.0 == target.0 {
        states.exit(actor);
    } else {
        states.end(target);
        states.answer(actor, Call::Kill(target), 0, Answer::Done, date);
    }
}

// Ends the target, which then waits nowhere and has no requests. `awaited` lists these and what it waited for.
fn withdraw(fields: &mut Fields, actor: ActorId, target: ActorId)
    requires named { CanName fields.old actor.0 target.0 }
    requires alive { IsTrue (is_alive (state_of (core_of fields.old) target.0)) }
    ensures answers { Answers (λ core. kill_done actor.0 target (withdrawn target core))
        fields.old fields.new }
    ensures awaited { fields.new.requests.awaited ≡ awaited target (core_of fields.old) }
    ensures made { AreSerials (length fields.new.whose.whose) fields.new.requests.awaited }
{
    let on = blocked_on(fields.states.state(target));
    let date = fields.doing.date();
    fields.requests.let_go(target, on);
    fields.objects.leave(target);
    end(&mut fields.states, actor, target, date);
}

// Fails a communication with one endpoint, which leaves its mailbox.
fn fail_posted(fields: &mut Fields, serial: Serial)
    requires made { CanGiveUp fields.old serial.0 }
    requires posted { IsTrue (is_posted (whose_at (core_of fields.old) serial.0)) }
    ensures { GivesUp (finishes how.Failed serial.0) fields.old fields.new }
{
    fields.boxes.withdraw(serial);
    fields.whose.fail(serial);
}

// Fails a running activity and answers its waiters.
fn fail_under_way(fields: &mut Fields, serial: Serial)
    requires made { CanGiveUp fields.old serial.0 }
    requires busy { is_idle (whose_at (core_of fields.old) serial.0) ≡ false }
    ensures { GivesUp (finishes how.Failed serial.0) fields.old fields.new }
{
    fields.doing.give_up(serial);
    let whose = fields.whose.fail(serial);
    answer_owners(fields, How::Failed, serial, whose);
}

// Fails the activity with this id, unless it has ended.
fn give_up(fields: &mut Fields, serial: Serial)
    requires { CanGiveUp fields.old serial.0 }
    ensures { GivesUp (gives_up serial.0) fields.old fields.new }
{
    match fields.whose.of(serial) {
        Whose::Over(_) => {}
        Whose::Posted(..) => fail_posted(fields, serial),
        Whose::Alone(_) => fail_under_way(fields, serial),
        Whose::Pair(..) => fail_under_way(fields, serial),
    }
}

// Fails all that the target awaited, in order of activity id.
fn give_up_all(fields: &mut Fields)
    requires made { AreSerials (length fields.old.whose.whose) fields.old.requests.awaited }
    requires whole { IsWhole fields.old }
    ensures { Steps (each gives_up fields.old.requests.awaited) fields.old fields.new }
{
    for i in 0..fields.requests.awaited().len() {
        let serial = Serial(fields.requests.awaited()[i]);
        give_up(fields, serial);
    }
}

/// Kills the named actor if it is alive: what it takes part in fails, and those that wait for its end are unblocked.
pub(crate) fn kill(fields: &mut Fields, actor: ActorId, target: ActorId)
    requires { CanMake fields.old actor.0 (Call.Kill target) }
    ensures { Answers (kills actor.0 target) fields.old fields.new }
{
    let alive = fields.states.state(target).is_alive();
    if alive {
        withdraw(fields, actor, target);
        give_up_all(fields);
        wake_joiners(fields, target);
    } else {
        answer_now(fields, actor, Call::Kill(target), 0, Answer::Done);
    }
}
