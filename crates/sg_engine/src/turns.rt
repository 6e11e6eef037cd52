//! The turns of a scheduling round.
ghost use Rattle.std.specs.Prelude.{◌≡◌, ◌+◌, ◌<◌, ◌≤◌, ◌++◌, [], length, map, take, drop, All, vec_capacity};
ghost use Rattle.std.specs.Option.{is_some};
ghost use Rattle.sg_actor.specs.Seats.{after, CanTurn, KeepsLimits, seat_view, seat_views};
ghost use Rattle.sg_kernel_calls.specs.World.{extent};
ghost use Rattle.sg_engine.specs.kept.CallList.{call_list, with_call};
ghost use Rattle.sg_engine.specs.kept.SeatRules.{at_rest, call_in, with_answer, AreQueued};
ghost use Rattle.sg_engine.specs.kept.Turns.{CanTakeTurns, TakesTurns};
ghost use Rattle.sg_engine.specs.Run.{zip_with, inboxes};

use crate::actor_call::ActorCall;
use crate::plan::Engine;
use sg_actor::{Actor, Seat, run_round, seats_keep_limits};
use sg_base::{ActorId, Answer};
use sg_kernel::Kernel;
use std::thread::Threads;

// Returns whether a slot has an actor that has begun.
fn has_mind<A: Actor>(seat: &Seat<A>) -> bool
    ensures { result ≡ is_some (seat_view A.mind seat.now).mind }
{
    match &seat.actor {
        Some(actor) => !actor.is_blank(),
        None => false,
    }
}

// Puts an answer into a slot, if there is one and the slot's actor has begun.
fn offer_one<A: Actor>(seat: &mut Seat<A>, answer: Option<Answer>)
    ensures { seat_view A.mind seat.new ≡ with_answer (seat_view A.mind seat.old) answer }
{
    match answer {
        Some(answer) => {
            if has_mind(seat) {
                seat.inbox = answer;
                seat.ready = true;
            }
        }
        None => {}
    }
}

// Puts the answers of the kernel into the slots of their actors. Only the actors in its queue are asked.
fn offer<A: Actor>(kernel: &Kernel, seats: &mut [Seat<A>])
    requires number { length seats.old ≡ length kernel.now.core.actors }
    requires limited { All (KeepsLimits (extent kernel.now.setup)) (seat_views A.mind seats.old) }
    ensures with_answer { seat_views A.mind seats.new
        ≡ zip_with with_answer (seat_views A.mind seats.old) (inboxes kernel.now.core) }
    ensures limited { All (KeepsLimits (extent kernel.now.setup)) (seat_views A.mind seats.new) }
{
    let queue = kernel.run_queue();
    for actor in queue {
        offer_one(&mut seats[actor.0 as usize - 1], kernel.inbox(*actor));
    }
}

// Makes the turns of the slots from one place to another.
fn turn_some<R: Threads + Sync>(
    engine: &Engine<'_, '_, R>,
    seats: &mut [Seat],
    from: usize,
    to: usize,
)
    requires range { (from ≤ to) × (to ≤ length seats.old) }
    requires ready { All CanTurn (seat_views (λ b. mind b) seats.old) }
    ensures { let places = seat_views (λ b. mind b) seats.old in seat_views (λ b. mind b) seats.new
        ≡ take from places ++ (map after (drop from (take to places)) ++ drop to places) }
{
    let (_, rest) = seats.split_at_mut(from);
    let (some, _) = rest.split_at_mut(to - from);
    run_round(engine.rt, some, engine.plan.terms.workers);
}

// Returns where the run of neighbours ends that begins at this place of a queue.
fn end_of_run(queue: &[ActorId], from: usize) -> usize
    requires { from < length queue.now }
    ensures { (from < result) × (result ≤ length queue.now) }
{
    for next in from + 1..queue.len() {
        if queue[next].0 as u64 != queue[next - 1].0 as u64 + 1 {
            return next;
        }
    }
    queue.len()
}

// Returns how far one run of slots reaches that begins at this place of a queue.
fn end_of_turns(queue: &[ActorId], from: usize, workers: u32) -> usize
    requires { from < length queue.now }
    ensures { (from < result) × (result ≤ length queue.now) }
{
    if workers == 1 {
        end_of_run(queue, from)
    } else {
        queue.len()
    }
}

// Makes the turns of all ready actors. One worker is lent each run of neighbours in the queue, one run after the other,
// so that the slots between cost nothing; more workers are lent all slots from the first in the queue to the last, so
// that turns can run side by side.
fn turn_all<R: Threads + Sync>(engine: &Engine<'_, '_, R>, kernel: &Kernel, seats: &mut [Seat])
    requires number { length seats.old ≡ length kernel.now.core.actors }
    requires queued { AreQueued (seat_views (λ b. mind b) seats.old) kernel.now.core.actors }
    requires can { All CanTurn (seat_views (λ b. mind b) seats.old) }
    ensures { seat_views (λ b. mind b) seats.new ≡ map after (seat_views (λ b. mind b) seats.old) }
{
    let queue = kernel.run_queue();
    let mut from = 0;
    while from < queue.len() {
        let to = end_of_turns(queue, from, engine.plan.terms.workers);
        let first = queue[from].0 as usize - 1;
        let end = queue[to - 1].0 as usize;
        turn_some(engine, seats, first, end);
        from = to;
    }
}

// Takes the call out of a slot whose actor has taken its turn, and which rests then.
fn collect_one<A: Actor>(seat: &mut Seat<A>, actor: ActorId, calls: &mut Vec<ActorCall>)
    requires room { length calls.old.items < vec_capacity calls.old }
    ensures seat { seat_view A.mind seat.new ≡ at_rest (seat_view A.mind seat.old) }
    ensures items { calls.new.items
        ≡ calls.old.items ++ with_call actor.0 (call_in (seat_view A.mind seat.old)) [] }
    ensures room { vec_capacity calls.new ≡ vec_capacity calls.old }
{
    if seat.ready {
        seat.ready = false;
        let call = seat.outbox;
        calls.push_reserved(ActorCall { actor, call });
    }
}

// Collects the calls that were made, in the place of those before; their actors rest.
fn collect<A: Actor>(kernel: &Kernel, seats: &mut [Seat<A>], calls: &mut Vec<ActorCall>)
    requires number { length seats.old ≡ length kernel.now.core.actors }
    requires queued { AreQueued (seat_views A.mind seats.old) kernel.now.core.actors }
    requires room { length seats.old ≤ vec_capacity calls.old }
    ensures seats { seat_views A.mind seats.new ≡ map at_rest (seat_views A.mind seats.old) }
    ensures calls { calls.new.items ≡ call_list 1 (map call_in (seat_views A.mind seats.old)) }
    ensures room { vec_capacity calls.new ≡ vec_capacity calls.old }
{
    calls.clear();
    let queue = kernel.run_queue();
    for actor in queue {
        collect_one(&mut seats[actor.0 as usize - 1], *actor, calls);
    }
}

/// Makes each ready actor take its turn on the answer that it has. Their calls replace those before, by rising id. The
/// answers are put into the slots first, then turns are taken there, and then the calls are collected. The cost grows
/// with the actors in the kernel's queue, and with one worker not with the others.
pub fn take_turns<R: Threads + Sync>(
    engine: &Engine<'_, '_, R>,
    kernel: &Kernel,
    seats: &mut [Seat],
    calls: &mut Vec<ActorCall>,
)
    requires { CanTakeTurns (λ b. mind b) kernel.now seats.old calls.old }
    ensures { TakesTurns (λ b. mind b) kernel.now seats.old seats.new calls.old calls.new }
{
    seats_keep_limits();
    offer(kernel, seats);
    turn_all(engine, kernel, seats);
    collect(kernel, seats, calls);
}
