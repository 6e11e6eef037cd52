//! The actors, and who of them is to take a turn or waits for another to end.
ghost use Rattle.std.specs.Prelude.{◌≡◌, ◌-◌, ◌<◌, ◌≤◌, ◌+◌, ◌^◌, [], false, true, if◌then◌else◌, IfOk, IsTrue, MatchOption, None, length, map, replicate};
ghost use Rattle.std.specs.List.{list_all, list_any};
ghost use Rattle.sg_actor_states.specs.declared.state.State.TheVariants.{Blocked, Ready};
ghost use Rattle.sg_actor_states.specs.Actors.{actor_at, first_actor, is_answered, is_blocked, is_over, is_ready, joined_in, joiners, put_state, put_suspended, state_at, IsActor, IsJoiner};
ghost use Rattle.sg_actor_states.specs.Queue.{is_ready_in, AreReady, IsIdOf, IsQueue};
ghost use Rattle.sg_actor_states.specs.kept.Standing.{CanAnswer, CanPut};
ghost use Rattle.sg_actor_states.specs.kept.Waiting.{is_joining};

use crate::joiners::{self, Joiner};
use crate::queue;
use crate::state::{Actor, State};
use sg_base::{ActorId, Answer, Await, Call, Memory};
use std::alloc::Global;
use std::marker::Model;

/// What each actor does, who is to take a turn, and who waits for another to end.
///
/// Contracts see the actors, whether a time advance is running, and whether the queue was trimmed.
#[derive(Drop)]
pub(crate) struct Crowd {
    /// By id from 1 on.
    actors: Vec<Actor>,
    /// By rising id all actors that are ready, and those that were since the scheduling round began; during a time
    /// advance only the ready ones, in any order.
    queue: Vec<ActorId>,
    /// Whether no actor has changed since those that aren't ready were removed from the queue.
    trimmed: bool,
    /// Those that are blocked by a join, by whom they join, and then by id.
    joiners: Vec<Joiner>,
    passing: bool,
    /// How many actors are ready.
    ready: usize,
    /// How many actors aren't alive.
    over: usize,
}

impl Model for Crowd {
    ghost use Rattle.std.specs.Prelude.{vec_capacity};
    ghost use Rattle.sg_actor_states.specs.kept.Standing.{Standing, IsStanding};

    ghost Value = { Standing };

    ghost view = { λ s. record { actors = s.actors.items; passing = s.passing; trimmed = s.trimmed } };

    ghost invariant = { λ s. IsStanding
        (record { actors = s.actors.items; passing = s.passing; trimmed = s.trimmed })
        s.queue.items
        s.joiners.items
        (record {
          ready = s.ready;
          over = s.over;
          queue_room = vec_capacity s.queue;
          joiners_room = vec_capacity s.joiners;
        }) };
}

// Returns how many pass a test, if one of them may change.
fn counted(count: usize, was: bool, is: bool) -> usize
    requires was { IsTrue was → 0 < count }
    requires few { count < 2 ^ 63 }
    ensures { result + (if was then 1 else 0) ≡ count + (if is then 1 else 0) }
{
    if was == is {
        return count;
    }
    if is { count + 1 } else { count - 1 }
}

// Returns how many are ready without one that was, unless it is suspended.
fn without_one(ready: usize, suspended: bool) -> usize
    requires { suspended ≡ false → 0 < ready }
    ensures { result + (if suspended then 0 else 1) ≡ ready }
{
    if suspended { ready } else { ready - 1 }
}

// Returns how many are ready with one more, unless it is suspended.
fn with_one(ready: usize, suspended: bool) -> usize
    requires { ready < 2 ^ 63 }
    ensures { result ≡ ready + (if suspended then 0 else 1) }
{
    if suspended { ready } else { ready + 1 }
}

// Returns so many actors, none of which has started.
fn unstarted(alloc: Global, n: usize) -> Result<Vec<Actor>, Memory>
    ensures { IfOk result (λ actors. actors.items ≡ replicate n (first_actor false)) }
{
    let mut actors = Vec::new(alloc);
    for _i in 0..n {
        let actor = Actor {
            state: State::Unstarted,
            suspended: false,
        };
        actors.push(actor)?;
    }
    Ok(actors)
}

impl Crowd {
    // Makes so many actors, none of which has started.
    fn blank(alloc: Global, n: usize) -> Result<Crowd, Memory>
        requires { n < 2 ^ 32 }
        ensures { IfOk result (λ crowd. crowd ≡ record {
          actors = replicate n (first_actor false);
          passing = false;
          trimmed = false;
        }) }
    {
        Ok(Crowd {
            actors: unstarted(alloc, n)?,
            queue: Vec::with_capacity(alloc, n)?,
            joiners: Vec::with_capacity(alloc, n)?,
            passing: false,
            trimmed: false,
            ready: 0,
            over: n,
        })
    }

    /// Makes the actors, of which just those are ready that start at the beginning.
    pub(crate) fn new(alloc: Global, starts: &[bool]) -> Result<Crowd, Memory>
        ensures { IfOk result (λ crowd. crowd ≡ record {
          actors = map first_actor starts.now;
          passing = false;
          trimmed = false;
        }) }
    {
        let Ok(n) = u32::try_from(starts.len()) else {
            return Err(Memory);
        };
        let mut crowd = Crowd::blank(alloc, starts.len())?;
        for i in 0..n {
            if starts[i as usize] {
                crowd.put_state(ActorId(i + 1), State::Ready(Answer::Start));
            }
        }
        Ok(crowd)
    }

    /// Returns how many actors there are.
    pub(crate) fn len(&self) -> usize
        ensures { result ≡ length self.now.actors }
    {
        self.actors.len()
    }

    /// Returns an actor.
    pub(crate) fn actor(&self, actor: ActorId) -> Actor
        requires { IsIdOf self.now.actors actor }
        ensures { result ≡ actor_at self.now.actors actor.0 }
    {
        self.actors[actor.index()]
    }

    /// Sets what an actor does. During a time advance it wasn't ready before; it no longer waits for another to end.
    pub(crate) fn put_state(&mut self, actor: ActorId, state: State)
        requires actor { IsActor self.old.actors actor.0 }
        requires turn { self.old.passing ≡ true → is_ready_in self.old.actors actor.0 ≡ false }
        requires once { is_joining (actor_at self.old.actors actor.0) ≡ true
            → joined_in state ≡ None }
        ensures { self.new ≡ record self.old {
          actors = put_state self.old.actors actor.0 state;
          trimmed = false;
        } }
    {
        let old = self.actors[actor.index()];
        let next = Actor { state, ..old };
        queue::follow(&mut self.queue, &self.actors, self.passing, actor, next);
        joiners::follow(&mut self.joiners, &self.actors, actor, next);
        self.ready = counted(self.ready, old.is_ready(), next.is_ready());
        self.over = counted(self.over, old.is_over(), next.is_over());
        self.actors[actor.index()] = next;
        self.trimmed = false;
    }

    /// Gives an actor that has an answer this one. It is ready as before, so only its state is touched.
    pub(crate) fn put_answer(&mut self, actor: ActorId, answer: Answer)
        requires { CanAnswer self.old actor.0 }
        ensures { self.new ≡ record self.old {
          actors = put_state self.old.actors actor.0 (Ready answer);
          trimmed = false;
        } }
    {
        self.actors[actor.index()].state = State::Ready(answer);
        self.trimmed = false;
    }

    /// Blocks an actor that has an answer.
    pub(crate) fn put_blocked(&mut self, actor: ActorId, what: Call, since: u128, on: Option<Await>)
        requires { CanAnswer self.old actor.0 }
        ensures { self.new ≡ record self.old {
          actors = put_state self.old.actors actor.0 (Blocked what since on);
          trimmed = false;
        } }
    {
        joiners::enter_by(&mut self.joiners, &self.actors, actor, what);
        let suspended = self.actors[actor.index()].suspended;
        self.ready = without_one(self.ready, suspended);
        self.actors[actor.index()].state = State::Blocked(what, since, on);
        self.trimmed = false;
    }

    /// Gives a blocked actor this answer.
    pub(crate) fn put_reply(&mut self, actor: ActorId, answer: Answer)
        requires actor { IsActor self.old.actors actor.0 }
        requires blocked { IsTrue (is_blocked (state_at self.old.actors actor.0)) }
        ensures { self.new ≡ record self.old {
          actors = put_state self.old.actors actor.0 (Ready answer);
          trimmed = false;
        } }
    {
        let suspended = self.actors[actor.index()].suspended;
        queue::join_unless(
            &mut self.queue,
            &self.actors,
            self.passing,
            actor,
            suspended,
        );
        joiners::let_go(&mut self.joiners, &self.actors, actor);
        self.ready = with_one(self.ready, suspended);
        self.actors[actor.index()].state = State::Ready(answer);
        self.trimmed = false;
    }

    /// Suspends or resumes an actor.
    pub(crate) fn put_suspended(&mut self, actor: ActorId, on: bool)
        requires { CanPut self.old actor.0 }
        ensures { self.new ≡ record self.old {
          actors = put_suspended self.old.actors actor.0 on;
          trimmed = false;
        } }
    {
        let old = self.actors[actor.index()];
        let after = Actor {
            suspended: on,
            ..old
        };
        queue::follow(&mut self.queue, &self.actors, self.passing, actor, after);
        self.ready = counted(self.ready, old.is_ready(), after.is_ready());
        self.actors[actor.index()] = after;
        self.trimmed = false;
    }

    /// Begins a scheduling round: removes those from the queue that aren't ready.
    pub(crate) fn keep_ready(&mut self)
        requires { self.old.passing ≡ false }
        ensures { self.new ≡ record self.old { trimmed = true } }
    {
        // Mostly nobody is to be removed: a queue as long as there are ready actors lists these alone.
        if self.queue.len() != self.ready {
            queue::keep_ready(&mut self.queue, &self.actors);
        }
        self.trimmed = true;
    }

    /// Begins a time advance, when nobody is ready.
    pub(crate) fn begin_pass(&mut self)
        requires { list_any is_ready self.old.actors ≡ false }
        ensures { self.new ≡ record self.old { passing = true; trimmed = false } }
    {
        self.trimmed = false;
        self.queue.clear();
        self.passing = true;
    }

    /// Ends a time advance.
    pub(crate) fn end_pass(&mut self)
        requires { self.old.passing ≡ true }
        ensures { self.new ≡ record self.old { passing = false; trimmed = false } }
    {
        self.trimmed = false;
        queue::sort(&mut self.queue);
        self.passing = false;
    }

    /// Returns who is to take a turn: by rising id all actors that are ready, and perhaps some that were, unless the
    /// queue was trimmed.
    pub(crate) fn queue(&self) -> &[ActorId]
        requires { self.now.passing ≡ false }
        ensures lists { IsQueue self.now.actors result.now }
        ensures trimmed { IsTrue self.now.trimmed → AreReady self.now.actors result.now }
    {
        self.queue.as_slice()
    }

    /// Returns who waits first, by rising id, for the actor to end.
    pub(crate) fn joiner(&self, target: ActorId) -> Option<ActorId>
        ensures { MatchOption result (joiners target.0 1 self.now.actors ≡ [])
            (λ actor. IsJoiner self.now.actors target.0 actor) }
    {
        joiners::first(&self.joiners, target)
    }

    /// Returns whether an actor is ready.
    pub(crate) fn any_ready(&self) -> bool
        ensures { result ≡ list_any is_ready self.now.actors }
    {
        self.ready > 0
    }

    /// Returns whether no actor is alive.
    pub(crate) fn all_over(&self) -> bool
        ensures { result ≡ list_all is_over self.now.actors }
    {
        self.over == self.actors.len()
    }
}
