//! Who is to take a turn.
ghost use Rattle.std.specs.Prelude.{◌≡◌, ◌-◌, ◌<◌, ◌≤◌, AllPairs, Contains, IsTrue, List, MatchOption, false, true, not, length, filter, slice_set, vec_len, vec_capacity};
ghost use Rattle.std.specs.List.Sorted.{IsNonDecreasingBy, IsPermutation};
ghost use Rattle.sg_base.specs.declared.ids.ActorId.{ActorId};
ghost use Rattle.sg_actor_states.specs.declared.state.Actor.{Actor};
ghost use Rattle.sg_actor_states.specs.Queue.{is_ready_in as is_ready_in_spec, IsIdOf, IsQueue};
ghost use Rattle.sg_actor_states.specs.Actors.{put_actor};
ghost use Rattle.sg_actor_states.specs.kept.Standing.{CanFollow, HasBecome, HasFollowed};
ghost use Rattle.sg_actor_states.specs.kept.Places.{IsPlace};

use crate::state::Actor;
use sg_base::ActorId;

fn is_ready_in(actors: &[Actor], actor: ActorId) -> bool
    ensures { result ≡ is_ready_in_spec actors.now actor.0 }
{
    match actors.get((actor.0 as usize).saturating_sub(1)) {
        Some(actor) => actor.is_ready(),
        None => false,
    }
}

/// Removes those that aren't ready.
pub(crate) fn keep_ready(queue: &mut Vec<ActorId>, actors: &[Actor])
    ensures items { queue.new.items
        ≡ filter (λ (actor : ActorId). is_ready_in_spec actors.now actor.0) queue.old.items }
    ensures capacity { vec_capacity queue.new ≡ vec_capacity queue.old }
{
    queue.retain(|actor| is_ready_in(actors, *actor));
}

/// Brings them into rising order.
pub(crate) fn sort(queue: &mut Vec<ActorId>)
    ensures moves { IsPermutation queue.old.items queue.new.items }
    ensures rises { IsNonDecreasingBy (λ actor. actor.0) queue.new.items }
    ensures capacity { vec_capacity queue.new ≡ vec_capacity queue.old }
{
    queue.sort_unstable_by_key(|actor| actor.0);
}

// Returns the place in rising order of an actor that isn't there; none if it is.
fn place_of(queue: &[ActorId], actor: ActorId) -> Option<usize>
    requires { AllPairs (λ a b. a.0 < b.0) queue.now }
    ensures { MatchOption result (Contains queue.now actor)
        (λ place. IsPlace (λ a. a.0) queue.now actor.0 place × ¬ Contains queue.now actor) }
{
    let place = queue.partition_point(|other| other.0 < actor.0);
    if place < queue.len() && queue[place].0 == actor.0 {
        return None;
    }
    Some(place)
}

// Adds an actor at its place in rising order, if it isn't there.
fn join_in_order(queue: &mut Vec<ActorId>, actor: ActorId)
    requires rises { AllPairs (λ a b. a.0 < b.0) queue.old.items }
    requires room { ¬ Contains queue.old.items actor → vec_len queue.old < vec_capacity queue.old }
    ensures queue { (actors : List Actor) (next : Actor) → IsIdOf actors actor
        → IsQueue actors queue.old.items
        → IsQueue (put_actor actors actor.0 next) queue.new.items }
    ensures capacity { vec_capacity queue.new ≡ vec_capacity queue.old }
{
    if let Some(place) = place_of(queue, actor) {
        match queue.insert(place, actor) {
            Ok(()) => {}
            Err(_) => unreachable!(),
        }
    }
}

// Adds an actor that isn't ready and is to take a turn.
fn join(queue: &mut Vec<ActorId>, actors: &[Actor], passing: bool, actor: ActorId)
    requires follows { CanFollow passing actors.now queue.old actor }
    requires idle { is_ready_in_spec actors.now actor.0 ≡ false }
    ensures { HasFollowed passing actors.now actor true queue.old queue.new }
{
    if passing {
        queue.push_reserved(actor)
    } else {
        join_in_order(queue, actor)
    }
}

/// Adds an actor that wasn't ready and has an answer from now on, unless it is suspended.
#[tactic(auto, using(crate::proofs::Turning::queued_idle))]
pub(crate) fn join_unless(
    queue: &mut Vec<ActorId>,
    actors: &[Actor],
    passing: bool,
    actor: ActorId,
    suspended: bool,
)
    requires follows { CanFollow passing actors.now queue.old actor }
    requires idle { is_ready_in_spec actors.now actor.0 ≡ false }
    ensures { HasFollowed passing actors.now actor (not suspended) queue.old queue.new }
{
    if !suspended {
        join(queue, actors, passing, actor);
    }
}

/// Updates the queue for an actor's next state: it joins when it gets ready. In a time advance it wasn't ready before.
pub(crate) fn follow(
    queue: &mut Vec<ActorId>,
    actors: &[Actor],
    passing: bool,
    actor: ActorId,
    next: Actor,
)
    requires follows { CanFollow passing actors.now queue.old actor }
    requires turn { passing ≡ true → is_ready_in_spec actors.now actor.0 ≡ false }
    ensures { HasBecome passing actors.now actor next queue.old queue.new }
{
    if next.is_ready() && !is_ready_in(actors, actor) {
        join(queue, actors, passing, actor);
    }
}
