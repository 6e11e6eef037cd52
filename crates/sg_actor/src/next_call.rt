//! The calls of those whose numbers never change, which every context makes alike.
ghost use Rattle.std.specs.Prelude.{◌≡◌, ◌∷◌, []};
ghost use Rattle.sg_base.specs.Turn.{call_of, replay_turn, worker_turn};

use sg_base::{Action, ActorId, Answer, BoxId, Call, Msg};

/// Returns the call of an actor that replays its lines.
pub(crate) fn replay_call(me: ActorId, answer: Answer) -> Call
    ensures { result ≡ (replay_turn (me.0 ∷ []) answer).call }
{
    match answer {
        Answer::Act(action) => action_call(me, action),
        Answer::NoMore => Call::Exit,
        _ => Call::Ask,
    }
}

// Returns the call by which an actor does an action.
fn action_call(me: ActorId, action: Action) -> Call
    ensures { result ≡ call_of me action }
{
    match action {
        Action::Compute(flops, priority) => Call::Compute(flops, priority),
        Action::Sleep(ns) => Call::Sleep(ns),
        Action::Send(to, bytes, rate) => Call::Send(BoxId::Pair(me, to), bytes, Msg::Empty, rate),
        Action::Recv(from) => Call::Recv(BoxId::Pair(from, me)),
        Action::ISend(to, bytes, rate) => Call::ISend(BoxId::Pair(me, to), bytes, Msg::Empty, rate),
        Action::IRecv(from) => Call::IRecv(BoxId::Pair(from, me)),
        Action::Wait => Call::Wait,
        Action::Lock(mutex) => Call::Lock(mutex),
        Action::Unlock(mutex) => Call::Unlock(mutex),
        Action::Acquire(semaphore) => Call::Acquire(semaphore),
        Action::Release(semaphore) => Call::Release(semaphore),
        Action::Barrier => Call::Barrier,
        Action::Create(actor) => Call::Create(actor),
        Action::Join(actor) => Call::Join(actor),
        Action::Kill(actor) => Call::Kill(actor),
        Action::Suspend(actor) => Call::Suspend(actor),
        Action::Resume(actor) => Call::Resume(actor),
        Action::Yield => Call::Yield,
    }
}

/// Returns the call of a worker.
pub(crate) fn worker_call(me: ActorId, answer: Answer) -> Call
    ensures { result ≡ (worker_turn (me.0 ∷ []) answer).call }
{
    match answer {
        Answer::Got(Msg::Task(flops)) => Call::Compute(flops, 1),
        Answer::Got(Msg::Stop) => Call::Exit,
        _ => Call::Recv(BoxId::Named(me)),
    }
}
