//! Actors are suspended and resumed.
ghost use Rattle.std.specs.Prelude.{◌≡◌, ◌+◌, ◌-◌, ◌<◌, ◌≤◌, false, true, length};
ghost use Rattle.sg_actor_states.specs.States.{with_suspended, IsAlive};
ghost use Rattle.sg_kernel_calls.specs.World.{is_suspended, IsActor};
ghost use Rattle.sg_kernel_calls.specs.Steps.{at_once};
ghost use Rattle.sg_kernel_calls.specs.Suspensions.{held_by, held_if, held_to, suspended_to};
ghost use Rattle.sg_kernel_calls.specs.kept.Acts.{Answers, CanMake};
ghost use Rattle.sg_kernel_calls.specs.kept.Asks.{CanHold, CanTurn};
ghost use Rattle.sg_kernel_calls.specs.kept.Sound.{core_of, known_of, AwaitsMade};
ghost use Rattle.sg_kernel_calls.specs.kept.Waking.{LeavesCallers};
ghost use Rattle.sg_kernel_calls.specs.kept.Whole.{IsWhole, IsWholeFor};

use crate::at_once::answer_now;
use crate::simulation_state::Fields;
use sg_activity::Activities;
use sg_actor_states::{Blocking, States};
use sg_base::{ActorId, Answer, Call, Serial};

/// Suspends the execution that begins at once, if its actor is suspended.
pub(crate) fn hold_if(fields: &mut Fields, actor: ActorId, serial: Serial)
    requires { CanHold fields.old actor.0 serial.0 }
    ensures known { let core = core_of fields.old in
        let held = held_if (is_suspended core actor.0) serial.0 core in
        known_of fields.new ≡ record (known_of fields.old) { core = held } }
    ensures whole { IsWhole fields.new }
{
    if fields.states.suspended(actor) {
        fields.doing.hold(serial);
    }
}

// Suspends a running execution, or resumes a suspended one. That uses the room of a start.
fn turn(doing: &mut Activities, on: bool, serial: Serial)
    requires from { 0 < serial.0 }
    requires room { 0 < doing.old.room }
    ensures under { doing.new.under ≡ held_to on serial.0 doing.old.under }
    ensures room { doing.old.room ≤ doing.new.room + 1 }
{
    if on {
        if doing.is_computing(serial) {
            doing.hold(serial);
        }
    } else if doing.is_kept(serial) {
        doing.go_on(serial);
    }
}

// Does the same with the activity on which an actor is blocked, if there is one. That may take the room of a call.
fn turn_awaited(fields: &mut Fields, on: bool, blocking: Option<Blocking>)
    requires made { AwaitsMade (length fields.old.whose.whose) blocking }
    requires able { CanTurn fields.old }
    ensures known { known_of fields.new
        ≡ record (known_of fields.old) { core = held_by on blocking (core_of fields.old) } }
    ensures states { fields.new.states ≡ fields.old.states }
    ensures whole { IsWholeFor (fields.old.states.room - 1) fields.new }
{
    if let Some(blocking) = blocking {
        if let Some(awaited) = blocking.on {
            turn(&mut fields.doing, on, awaited.serial);
        }
    }
}

// Marks the actor, which is alive, as suspended or not.
fn mark(states: &mut States, target: ActorId, on: bool)
    requires { IsAlive states.old target.0 }
    ensures { states.new ≡ with_suspended target.0 on states.old }
{
    if on {
        states.suspend(target);
    } else {
        states.resume(target);
    }
}

// Suspends or resumes the named actor, if it is alive. That may take the room of a call.
fn set(fields: &mut Fields, target: ActorId, on: bool)
    requires target { IsActor (core_of fields.old) target.0 }
    requires able { CanTurn fields.old }
    ensures known { known_of fields.new
        ≡ record (known_of fields.old) { core = suspended_to on target (core_of fields.old) } }
    ensures callers { LeavesCallers fields.old.states fields.new.states }
    ensures whole { IsWholeFor (fields.old.states.room - 1) fields.new }
{
    let state = fields.states.state(target);
    if state.is_alive() {
        mark(&mut fields.states, target, on);
        turn_awaited(fields, on, state.blocking());
    }
}

/// Suspends the named actor: it takes no turns, and computes nothing, until it is resumed.
pub(crate) fn suspend(fields: &mut Fields, actor: ActorId, target: ActorId)
    requires { CanMake fields.old actor.0 (Call.Suspend target) }
    ensures { Answers (λ core.
        at_once actor.0 (Call.Suspend target) 0 Answer.Done (suspended_to true target core))
        fields.old fields.new }
{
    set(fields, target, true);
    answer_now(fields, actor, Call::Suspend(target), 0, Answer::Done);
}

/// Resumes the named actor: it takes turns again, and its suspended execution continues.
pub(crate) fn resume(fields: &mut Fields, actor: ActorId, target: ActorId)
    requires { CanMake fields.old actor.0 (Call.Resume target) }
    ensures { Answers (λ core.
        at_once actor.0 (Call.Resume target) 0 Answer.Done (suspended_to false target core))
        fields.old fields.new }
{
    set(fields, target, false);
    answer_now(fields, actor, Call::Resume(target), 0, Answer::Done);
}
