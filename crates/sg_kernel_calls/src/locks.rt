//! Calls on mutexes, semaphores and the barrier.

ghost use Rattle.std.specs.Prelude.{◌≡◌, [], ◌∷◌, true, Contains, List};
ghost use Rattle.sg_base.specs.declared.ids.ActorId.{ActorId};
ghost use Rattle.sg_sync.specs.Laws.{comers};
ghost use Rattle.sg_sync.specs.Objects.{locked, unlocked, acquired, released, arrived};
ghost use Rattle.sg_kernel_calls.specs.World.{IsActor};
ghost use Rattle.sg_kernel_calls.specs.Locks.{all_wake, caller_first, caller_gets, caller_last, wakes};
ghost use Rattle.sg_kernel_calls.specs.Steps.{and_then};
ghost use Rattle.sg_kernel_calls.specs.Known.{after_call};
ghost use Rattle.sg_kernel_calls.specs.kept.Acts.{Answers, CanMake, CanServe};
ghost use Rattle.sg_kernel_calls.specs.kept.Sound.{core_of, known_of, StepsBy};
ghost use Rattle.sg_kernel_calls.specs.kept.Waking.{AreWaking, LeavesCallers};
ghost use Rattle.sg_kernel_calls.specs.kept.Whole.{CanStep, IsSteady};

use crate::simulation_state::Fields;
use sg_base::{ActorId, Answer, Call};
use sg_sync::Outcome;

// Answers or blocks the caller, by the outcome of its call. That takes the room of the call.
fn answer_caller(fields: &mut Fields, outcome: Outcome, actor: ActorId, what: Call)
    requires { CanServe fields.old actor.0 what }
    ensures known { known_of fields.new ≡ after_call true
        (caller_gets outcome actor.0 what (core_of fields.old)) (known_of fields.old) }
    ensures objects { fields.new.objects ≡ fields.old.objects }
    ensures waking { (others : List ActorId) → AreWaking fields.old (comers actor outcome) others
        → AreWaking fields.new [] others }
    ensures steady { IsSteady fields.new }
{
    let date = fields.doing.date();
    match outcome {
        Outcome::GoesOn => fields.states.answer(actor, what, 0, Answer::Done, date),
        Outcome::Waits => fields.states.block(actor, what, date, None),
        Outcome::Refused => fields.states.answer(actor, what, 0, Answer::Refused, date),
    }
}

// Unblocks an actor that waited.
fn wake(fields: &mut Fields, actor: ActorId)
    requires actor { IsActor (core_of fields.old) actor.0 }
    requires steady { IsSteady fields.old }
    ensures known { StepsBy (wakes actor) fields.old fields.new }
    ensures objects { fields.new.objects ≡ fields.old.objects }
    ensures waking { (comers others : List ActorId) → AreWaking fields.old comers (actor ∷ others)
        → AreWaking fields.new comers others }
    ensures frees { LeavesCallers fields.old.states fields.new.states }
    ensures steady { IsSteady fields.new }
{
    if let Some(blocking) = fields.states.state(actor).blocking() {
        let date = fields.doing.date();
        fields.states.reply(actor, blocking, 0, Answer::Done, date);
    }
}

// Unblocks the actors that the last call releases.
fn wake_others(fields: &mut Fields)
    requires wakers { (actor : ActorId) → Contains fields.old.objects.others actor
        → IsActor (core_of fields.old) actor.0 }
    requires steady { IsSteady fields.old }
    ensures known { StepsBy (all_wake fields.old.objects.others) fields.old fields.new }
    ensures waking { (comers : List ActorId) → AreWaking fields.old comers fields.old.objects.others
        → AreWaking fields.new comers [] }
    ensures frees { LeavesCallers fields.old.states fields.new.states }
    ensures steady { IsSteady fields.new }
{
    for i in 0..fields.objects.others().len() {
        let actor = fields.objects.others()[i];
        wake(fields, actor);
    }
}

// Answers the caller, and then those that its call unblocks.
fn answer_first(fields: &mut Fields, outcome: Outcome, actor: ActorId, what: Call)
    requires serves { CanServe fields.old actor.0 what }
    requires waking { AreWaking fields.old (comers actor outcome) fields.old.objects.others }
    ensures { Answers (λ core. and_then (caller_gets outcome actor.0 what core)
        (all_wake fields.old.objects.others))
        fields.old fields.new }
{
    answer_caller(fields, outcome, actor, what);
    wake_others(fields);
}

// Answers the caller after the others: so at the barrier.
fn answer_last(fields: &mut Fields, outcome: Outcome, actor: ActorId, what: Call)
    requires serves { CanServe fields.old actor.0 what }
    requires waking { AreWaking fields.old (comers actor outcome) fields.old.objects.others }
    ensures { Answers (λ core. and_then (all_wake fields.old.objects.others core)
        (caller_gets outcome actor.0 what))
        fields.old fields.new }
{
    wake_others(fields);
    answer_caller(fields, outcome, actor, what);
}

/// Makes the actor lock a mutex.
pub(crate) fn lock(fields: &mut Fields, actor: ActorId, mutex: u32)
    requires { CanMake fields.old actor.0 (Call.Lock mutex) }
    ensures { Answers
        (λ core. caller_first (locked actor mutex core.objects) actor.0 (Call.Lock mutex) core)
        fields.old fields.new }
{
    let outcome = fields.objects.lock(actor, mutex);
    answer_first(fields, outcome, actor, Call::Lock(mutex));
}

/// Makes the actor unlock a mutex.
pub(crate) fn unlock(fields: &mut Fields, actor: ActorId, mutex: u32)
    requires { CanMake fields.old actor.0 (Call.Unlock mutex) }
    ensures { Answers
        (λ core. caller_first (unlocked actor mutex core.objects) actor.0 (Call.Unlock mutex) core)
        fields.old fields.new }
{
    let outcome = fields.objects.unlock(actor, mutex);
    answer_first(fields, outcome, actor, Call::Unlock(mutex));
}

/// Makes the actor acquire a semaphore.
pub(crate) fn acquire(fields: &mut Fields, actor: ActorId, semaphore: u32)
    requires { CanMake fields.old actor.0 (Call.Acquire semaphore) }
    ensures { Answers
        (λ core. caller_first (acquired actor semaphore core.objects)
        actor.0 (Call.Acquire semaphore) core)
        fields.old fields.new }
{
    let outcome = fields.objects.acquire(actor, semaphore);
    answer_first(fields, outcome, actor, Call::Acquire(semaphore));
}

/// Makes the actor release a semaphore.
pub(crate) fn release(fields: &mut Fields, actor: ActorId, semaphore: u32)
    requires { CanMake fields.old actor.0 (Call.Release semaphore) }
    ensures { Answers
        (λ core. caller_first (released semaphore core.objects)
        actor.0 (Call.Release semaphore) core)
        fields.old fields.new }
{
    let outcome = fields.objects.release(semaphore);
    answer_first(fields, outcome, actor, Call::Release(semaphore));
}

/// Makes the actor arrive at the barrier.
pub(crate) fn arrive(fields: &mut Fields, actor: ActorId)
    requires { CanStep fields.old actor.0 }
    ensures { Answers
        (λ core. caller_last (arrived actor core.objects) actor.0 Call.Barrier core)
        fields.old fields.new }
{
    let outcome = fields.objects.arrive(actor);
    answer_last(fields, outcome, actor, Call::Barrier);
}
