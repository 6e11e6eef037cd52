//! Who is blocked by a join.
ghost use Rattle.std.specs.Prelude.{◌≡◌, ◌^◌, ◌<◌, ◌≤◌, [], true, AllPairs, Contains, List, MatchOption, None, Some, false, length, vec_len, vec_capacity};
ghost use Rattle.sg_base.specs.declared.ids.ActorId.{ActorId};
ghost use Rattle.sg_actor_states.specs.declared.joiners.Joiner.{Joiner};
ghost use Rattle.sg_actor_states.specs.declared.state.Actor.{Actor};
ghost use Rattle.sg_actor_states.specs.Actors.{actor_at, joined_by as joined_by_spec, joined_in, joiners, put_actor, state_at, IsJoiner};
ghost use Rattle.sg_actor_states.specs.Queue.{IsIdOf};
ghost use Rattle.sg_actor_states.specs.kept.Places.{IsPlace};
ghost use Rattle.sg_actor_states.specs.kept.Waiting.{is_joining, rank as rank_spec, AreWaiting, HasTurned};

use crate::state::Actor;
use sg_base::{ActorId, Call};

/// An actor that is blocked by the join of another.
#[derive(Clone, Copy)]
pub(crate) struct Joiner {
    /// Whom it joins.
    pub(crate) of: ActorId,
    /// Who joins.
    pub(crate) actor: ActorId,
}

fn rank(joiner: Joiner) -> u64
    ensures { result ≡ rank_spec joiner }
{
    u64::from(joiner.of.0) * 4_294_967_296 + u64::from(joiner.actor.0)
}

// Returns the place in rising order.
fn place_of(list: &[Joiner], joiner: Joiner) -> usize
    requires { AllPairs (λ a b. rank_spec a < rank_spec b) list.now }
    ensures { IsPlace rank_spec list.now (rank_spec joiner) result }
{
    let sought = rank(joiner);
    list.partition_point(|other| rank(*other) < sought)
}

// Enters an actor that begins to wait for the end of another.
fn enter(list: &mut Vec<Joiner>, of: ActorId, actor: ActorId)
    requires rises { AllPairs (λ a b. rank_spec a < rank_spec b) list.old.items }
    requires room { vec_len list.old < vec_capacity list.old }
    ensures waiting { (actors : List Actor) (next : Actor) → length actors < 2 ^ 32
        → IsIdOf actors actor → is_joining (actor_at actors actor.0) ≡ false
        → joined_in next.state ≡ Some of → AreWaiting actors list.old.items
        → AreWaiting (put_actor actors actor.0 next) list.new.items }
    ensures capacity { vec_capacity list.new ≡ vec_capacity list.old }
{
    let joiner = Joiner { of, actor };
    let place = place_of(list, joiner);
    match list.insert(place, joiner) {
        Ok(()) => {}
        Err(_) => unreachable!(),
    }
}

// Removes an actor that no longer waits for the end of another.
fn leave(list: &mut Vec<Joiner>, of: ActorId, actor: ActorId)
    requires rises { AllPairs (λ a b. rank_spec a < rank_spec b) list.old.items }
    requires there { Contains list.old.items (record { of = of; actor = actor }) }
    ensures waiting { (actors : List Actor) (next : Actor) → IsIdOf actors actor
        → joined_in (state_at actors actor.0) ≡ Some of → joined_in next.state ≡ None
        → AreWaiting actors list.old.items
        → AreWaiting (put_actor actors actor.0 next) list.new.items }
    ensures capacity { vec_capacity list.new ≡ vec_capacity list.old }
{
    let place = place_of(list, Joiner { of, actor });
    let _ = list.remove(place);
}

// Returns whom a call joins.
fn joined_by(what: Call) -> Option<ActorId>
    ensures { result ≡ joined_by_spec what }
{
    match what {
        Call::Join(of) => Some(of),
        _ => None,
    }
}

/// Enters an actor that a call blocks, and that waits for nobody's end, if the call is a join.
#[tactic(auto, using(crate::proofs::Waits::waiting_room, crate::proofs::Waits::waiting_same))]
pub(crate) fn enter_by(list: &mut Vec<Joiner>, actors: &[Actor], actor: ActorId, what: Call)
    requires actor { IsIdOf actors.now actor }
    requires few { length actors.now < 2 ^ 32 }
    requires idle { is_joining (actor_at actors.now actor.0) ≡ false }
    requires waiting { AreWaiting actors.now list.old.items }
    requires room { length actors.now ≤ vec_capacity list.old }
    ensures { HasTurned actors.now actor (joined_by_spec what) list.old list.new }
{
    match joined_by(what) {
        Some(of) => enter(list, of, actor),
        None => {}
    }
}

/// Removes an actor that is no longer blocked, if it waited for the end of another.
#[tactic(auto, using(crate::proofs::Waits::waiting_same))]
pub(crate) fn let_go(list: &mut Vec<Joiner>, actors: &[Actor], actor: ActorId)
    requires actor { IsIdOf actors.now actor }
    requires waiting { AreWaiting actors.now list.old.items }
    ensures { HasTurned actors.now actor None list.old list.new }
{
    match actors[actor.index()].state.joined() {
        Some(of) => leave(list, of, actor),
        None => {}
    }
}

/// Updates the list for an actor's next state: it enters when it begins to wait, and leaves when it continues.
pub(crate) fn follow(list: &mut Vec<Joiner>, actors: &[Actor], actor: ActorId, next: Actor)
    requires actor { IsIdOf actors.now actor }
    requires few { length actors.now < 2 ^ 32 }
    requires once { is_joining (actor_at actors.now actor.0) ≡ true → joined_in next.state ≡ None }
    requires waiting { AreWaiting actors.now list.old.items }
    requires room { length actors.now ≤ vec_capacity list.old }
    ensures waiting { AreWaiting (put_actor actors.now actor.0 next) list.new.items }
    ensures capacity { vec_capacity list.new ≡ vec_capacity list.old }
{
    match (actors[actor.index()].state.joined(), next.state.joined()) {
        (Some(of), _) => leave(list, of, actor),
        (None, Some(of)) => enter(list, of, actor),
        (None, None) => {}
    }
}

/// Returns who waits first, by rising id, for the end of an actor.
pub(crate) fn first(list: &[Joiner], target: ActorId) -> Option<ActorId>
    requires rises { AllPairs (λ a b. rank_spec a < rank_spec b) list.now }
    ensures { (actors : List Actor) → length actors < 2 ^ 32 → AreWaiting actors list.now
        → MatchOption result (joiners target.0 1 actors ≡ [])
        (λ actor. IsJoiner actors target.0 actor) }
{
    let place = place_of(
        list,
        Joiner {
            of: target,
            actor: ActorId(0),
        },
    );
    if place < list.len() && list[place].of.0 == target.0 {
        return Some(list[place].actor);
    }
    None
}
